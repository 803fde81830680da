// The tables, row by row. One loop goes over all of them, so that a test is one call, which is proved ten times as fast as a loop.
use crate::models::model_row;
use crate::statements::{depth_row, statement_row};
use crate::tokens::{byte_row, token_row};
use std::alloc::{AllocError, Global};
use std::process::Abort;
use std::test::Fail;

/// What a table's rows ask for.
#[derive(Drop)]
pub(crate) enum Subject {
    Bytes,
    Depths,
    Models,
    Statements,
    Tokens,
}

/// What stands in front of an arrow, and behind it.
pub(crate) fn split(row: &str) -> (&str, &str) {
    row.split_once(" => ").unwrap_or((row, ""))
}

fn found(alloc: Global, subject: &Subject, row: &str) -> Result<String, AllocError> {
    match subject {
        Subject::Bytes => byte_row(alloc, row),
        Subject::Depths => depth_row(alloc, row),
        Subject::Models => model_row(alloc, row),
        Subject::Statements => statement_row(alloc, row),
        Subject::Tokens => token_row(alloc, row),
    }
}

/// What is found is what stands in front of the arrow, or the whole row where there is none.
pub(crate) fn check(
    rt: &impl Abort,
    alloc: Global,
    subject: &Subject,
    table: &str,
) -> Result<(), Fail> {
    for row in table.lines() {
        let (want, _) = split(row);
        let found = found(alloc, subject, row)?;
        assert_eq!(rt; found.as_str(), want, "at {row}");
    }
    Ok(())
}
