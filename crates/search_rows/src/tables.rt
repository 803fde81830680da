// The tables of a text, line by line.
use crate::kinds::answer;
use std::alloc::Global;
use std::io;
use std::thread::Threads;

// A table so far; before the first heading it has no name.
#[derive(Clone, Copy)]
struct Table<'a> {
    name: &'a str,
    kind: &'a str,
    rows: u64,
    differ: u64,
}

impl<'a> Table<'a> {
    fn new(name: &'a str) -> Table<'a> {
        Table {
            name,
            kind: "",
            rows: 0,
            differ: 0,
        }
    }

    // A table without rows is not told.
    fn tell<R: Print>(&self, rt: &R) -> io::Result<()> {
        let (name, rows, differ) = (self.name, self.rows, self.differ);
        if rows == 0 {
            Ok(())
        } else if differ == 0 {
            println!(rt; "{name}: {rows} rows as wanted")
        } else {
            println!(rt; "{name}: {rows} rows, {differ} differ")
        }
    }
}

/// Tells of each table, behind a line for each of its rows that differs. `# NAME` begins a table, `= KIND` says what its rows ask for,
/// `#:` begins a comment, and each other line that isn't empty is a row, `WANTED <- ASKED`. A `\` at a row's end is no part of it.
pub(crate) fn tell_tables<R: Print + Threads + Sync>(
    rt: &R,
    alloc: Global,
    text: &str,
) -> io::Result<()> {
    let mut table = Table::new("before the first table");
    for line in text.lines() {
        take_line(rt, alloc, &mut table, line)?;
    }
    table.tell(rt)
}

fn take_line<'a, R: Print + Threads + Sync>(
    rt: &R,
    alloc: Global,
    table: &mut Table<'a>,
    line: &'a str,
) -> io::Result<()> {
    let (head, rest) = line.split_once(' ').unwrap_or((line, ""));
    match head {
        "#" => {
            table.tell(rt)?;
            *table = Table::new(rest);
            Ok(())
        }
        "=" => {
            table.kind = rest;
            Ok(())
        }
        "#:" => Ok(()),
        _ => take_row(rt, alloc, table, line),
    }
}

fn take_row<R: Print + Threads + Sync>(
    rt: &R,
    alloc: Global,
    table: &mut Table,
    line: &str,
) -> io::Result<()> {
    if line.is_empty() {
        return Ok(());
    }
    table.rows = table.rows.saturating_add(1);
    let row = line.strip_suffix('\\').unwrap_or(line);
    let Some((wanted, asked)) = row.split_once(" <- ") else {
        return tell_row(rt, table, row, "no arrow");
    };
    let found = answer(rt, alloc, table.kind, asked)?;
    if is_as_wanted(&found, wanted) {
        Ok(())
    } else {
        tell_row(rt, table, wanted, &found)
    }
}

// What is wanted and ends in `..` is a beginning.
fn is_as_wanted(found: &str, wanted: &str) -> bool {
    match wanted.strip_suffix("..") {
        Some(beginning) => found.starts_with(beginning),
        None => found == wanted,
    }
}

fn tell_row<R: Print>(rt: &R, table: &mut Table, wanted: &str, found: &str) -> io::Result<()> {
    table.differ = table.differ.saturating_add(1);
    let (name, row) = (table.name, table.rows);
    println!(rt; "{name}, row {row}: wanted {wanted}, found {found}")
}
