// The rows of a text, line by line.
use crate::answers::answer;
use std::alloc::Global;
use std::io;
use std::thread::Threads;

/// Tells how many rows are as wanted, behind a line for each that differs. Each line that isn't empty and doesn't begin with `#` is a
/// row, `WANTED <- ASKED`.
pub(crate) fn tell_rows<R: Print + Threads + Sync>(
    rt: &R,
    alloc: Global,
    text: &str,
) -> io::Result<()> {
    let mut rows = 0u64;
    for line in text.lines() {
        if !line.is_empty() && !line.starts_with('#') {
            rows = rows.saturating_add(1);
            tell_row(rt, alloc, rows, line)?;
        }
    }
    println!(rt; "{rows} rows")
}

fn tell_row<R: Print + Threads + Sync>(
    rt: &R,
    alloc: Global,
    row: u64,
    line: &str,
) -> io::Result<()> {
    let (wanted, asked) = line.split_once(" <- ").unwrap_or((line, ""));
    let found = answer(rt, alloc, asked)?;
    if found.as_str() == wanted {
        Ok(())
    } else {
        println!(rt; "row {row}: wanted {wanted}, found {found}")
    }
}
