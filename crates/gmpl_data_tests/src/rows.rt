// The tables, row by row. One loop goes over all of them, so that a test is one call, which is proved ten times as fast as a loop.
use crate::blocks::given_word;
use crate::tokens::{places_word, tokens_word};
use gmpl_load::DataSource;
use std::alloc::{AllocError, Global};
use std::process::Abort;
use std::test::Fail;

/// What a table's rows ask for.
#[derive(Drop)]
pub(crate) enum Subject {
    Blocks(DataSource),
    Places,
    Tokens,
}

fn found(alloc: Global, subject: &Subject, asked: &str) -> Result<String, AllocError> {
    match subject {
        Subject::Blocks(source) => given_word(alloc, *source, asked),
        Subject::Places => places_word(alloc, asked),
        Subject::Tokens => tokens_word(alloc, asked),
    }
}

// What is asked behind a row's arrow, in which `$` is a line feed.
fn asked(alloc: Global, row: &str) -> Result<String, AllocError> {
    let (_, asked) = row.split_once(" =>").unwrap_or((row, ""));
    let asked = asked.strip_prefix(' ').unwrap_or(asked);
    asked.replace(alloc, "$", "\n")
}

// What stands in front of a row's arrow, or the whole row where there is none.
fn wanted(row: &str) -> &str {
    match row.split_once(" =>") {
        Some((wanted, _)) => wanted,
        None => row,
    }
}

pub(crate) fn check(
    rt: &impl Abort,
    alloc: Global,
    subject: &Subject,
    table: &str,
) -> Result<(), Fail> {
    for row in table.lines() {
        let asked = asked(alloc, row)?;
        let found = found(alloc, subject, asked.as_str())?;
        assert_eq!(rt; found.as_str(), wanted(row), "at {row}");
    }
    Ok(())
}
