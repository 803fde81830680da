// Names that no column and no row of a problem has.
ghost use Rattle.std.specs.Prelude.{◌≡◌, ◌≤◌, length, string_bytes, IfOk};
ghost use Rattle.row_columns.specs.Extending.{column_names, row_names, AreWithin, new_name};

use instance::{Column, Instance, Name, Row};
use std::alloc::{AllocError, Global};

fn larger(a: usize, b: usize) -> usize
    ensures first { a ≤ result }
    ensures second { b ≤ result }
{
    if a < b { b } else { a }
}

// The length of the longest name of a column.
fn longest_column(columns: &[Column]) -> usize
    ensures { AreWithin result (column_names columns.now) }
{
    let mut longest = 0;
    for column in columns {
        longest = larger(longest, column.name().as_str().len());
    }
    longest
}

// The length of the longest name of a row.
fn longest_row(rows: &[Row]) -> usize
    ensures { AreWithin result (row_names rows.now) }
{
    let mut longest = 0;
    for row in rows {
        longest = larger(longest, row.name().as_str().len());
    }
    longest
}

// A text of this length.
fn run(alloc: Global, count: usize) -> Result<String, AllocError>
    ensures { IfOk result (λ text. length (string_bytes text) ≡ count) }
{
    let mut text = String::new(alloc);
    for _step in 0..count {
        text.push_str("~")?;
    }
    Ok(text)
}

/// A text that is as long as the longest name of a column or row.
pub fn prefix(alloc: Global, problem: &Instance) -> Result<String, AllocError>
    ensures columns { IfOk result (λ text. AreWithin (length (string_bytes text)) (column_names problem.now.columns)) }
    ensures rows { IfOk result (λ text. AreWithin (length (string_bytes text)) (row_names problem.now.rows)) }
{
    let columns = longest_column(problem.columns());
    let rows = longest_row(problem.rows());
    run(alloc, larger(columns, rows))
}

/// The name of the new column or row at this place: with such a prefix it is longer than all names of the problem.
pub fn new_name(alloc: Global, prefix: &str, place: usize) -> Result<Name, AllocError>
    ensures { IfOk result (λ name. name ≡ new_name prefix.now place) }
{
    let text = format!(in alloc; "{prefix}{place}")?;
    Name::new(alloc, text.as_str())
}
