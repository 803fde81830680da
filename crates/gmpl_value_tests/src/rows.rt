// The tables, row by row: one loop for all of them, so that a test is one call, which is proved ten times as fast as a loop.
use crate::formats::format_word;
use crate::forms::form_answer;
use crate::functions::{binary_word, extreme_word, string_word, unary_word};
use crate::sets::{asked_word, member_word, operation_word, order_word, range_word};
use std::alloc::{AllocError, Global};
use std::process::Abort;
use std::test::Fail;

/// What the rows of a table ask for.
#[derive(Drop)]
pub(crate) enum Subject {
    Binary,
    Extremes,
    Formats,
    Forms,
    Members,
    Names,
    Operations,
    Orders,
    Ranges,
    Strings,
    Unary,
}

fn found(alloc: Global, subject: &Subject, asked: &str) -> Result<String, AllocError> {
    match subject {
        Subject::Binary => binary_word(alloc, asked),
        Subject::Extremes => extreme_word(alloc, asked),
        Subject::Formats => format_word(alloc, asked),
        Subject::Forms => form_answer(alloc, asked),
        Subject::Members => asked_word(alloc, asked),
        Subject::Names => member_word(alloc, asked),
        Subject::Operations => operation_word(alloc, asked),
        Subject::Orders => order_word(alloc, asked),
        Subject::Ranges => range_word(alloc, asked),
        Subject::Strings => string_word(alloc, asked),
        Subject::Unary => unary_word(alloc, asked),
    }
}

// A row's answer, and what is asked. In a row without an arrow nothing is asked, and the row is no answer to that.
fn parts(row: &str) -> (&str, &str) {
    match row.split_once(" => ") {
        Some(parts) => parts,
        None => row.split_once(" <- ").unwrap_or((row, "")),
    }
}

pub(crate) fn check(
    rt: &impl Abort,
    alloc: Global,
    subject: &Subject,
    table: &str,
) -> Result<(), Fail> {
    for row in table.lines() {
        let (want, asked) = parts(row);
        let found = found(alloc, subject, asked)?;
        assert_eq!(rt; found.as_str(), want, "at {row}");
    }
    Ok(())
}
