// The tables of a text, line by line.
use crate::kinds::found;
use std::alloc::Global;
use std::io;

// A table so far; before the first heading there is none.
#[derive(Drop)]
struct Table<'a> {
    name: &'a str,
    has_heading: bool,
    kind: &'a str,
    rows: u64,
    differ: u64,
}

impl<'a> Table<'a> {
    fn new(name: &'a str, has_heading: bool) -> Table<'a> {
        Table {
            name,
            has_heading,
            kind: "",
            rows: 0,
            differ: 0,
        }
    }

    fn tell<R: Print>(&self, rt: &R) -> io::Result<()> {
        let (name, rows, differ) = (self.name, self.rows, self.differ);
        if !self.has_heading {
            Ok(())
        } else if differ == 0 {
            println!(rt; "{name}: {rows} rows as wanted")
        } else {
            println!(rt; "{name}: {rows} rows, {differ} differ")
        }
    }
}

/// Tells of each table, behind a line for each of its rows that differs. `# NAME` begins a table, `= KIND` says what its rows
/// ask for, `#:` begins a comment, and each other line that isn't empty is a row, `WANT <- ASKED`. A `\` at a line's end is no
/// part of it, so that blanks before it are seen.
pub(crate) fn tell_tables<R: Print>(rt: &R, alloc: Global, text: &str) -> io::Result<()> {
    let mut table = Table::new("no table", false);
    for line in text.lines() {
        take_line(rt, alloc, &mut table, line)?;
    }
    table.tell(rt)
}

fn take_line<'a, R: Print>(
    rt: &R,
    alloc: Global,
    table: &mut Table<'a>,
    line: &'a str,
) -> io::Result<()> {
    if line.is_empty() || line.starts_with("#:") {
        return Ok(());
    }
    if let Some(name) = line.strip_prefix("# ") {
        table.tell(rt)?;
        *table = Table::new(name, true);
        return Ok(());
    }
    if let Some(kind) = line.strip_prefix("= ") {
        if table.has_heading {
            table.kind = kind;
        }
        return Ok(());
    }
    take_row(rt, alloc, table, line.strip_suffix('\\').unwrap_or(line))
}

fn take_row<R: Print>(rt: &R, alloc: Global, table: &mut Table, row: &str) -> io::Result<()> {
    table.rows = table.rows.saturating_add(1);
    let Some((want, asked)) = row.split_once(" <- ") else {
        return tell_row(rt, table, row, "no arrow");
    };
    let found = found(alloc, table.kind, asked)?;
    if found.as_str() == want {
        Ok(())
    } else {
        tell_row(rt, table, want, &found)
    }
}

fn tell_row<R: Print>(rt: &R, table: &mut Table, want: &str, found: &str) -> io::Result<()> {
    table.differ = table.differ.saturating_add(1);
    let (name, row) = (table.name, table.rows);
    println!(rt; "{name}, row {row}: wanted {want}, found {found}")
}
