// The tables, row by row. A row has what is found, and behind ` => ` what is asked; it is made anew from what it asks, and is to be the
// same. One loop goes over all tables, so that a test is one call, which is proved ten times as fast as a loop.
use crate::expressions::expression_row;
use crate::models::member_row;
use crate::solved::{solved_member_row, solved_row, unsolved_row};
use std::alloc::{AllocError, Global};
use std::process::Abort;
use std::test::Fail;

/// What a table's rows ask for.
#[derive(Drop)]
pub(crate) enum Subject {
    Expressions,
    Members,
    Solved,
    SolvedMembers,
    Unsolved,
}

/// What stands in front of an arrow, and behind it.
pub(crate) fn split(row: &str) -> (&str, &str) {
    row.split_once(" => ").unwrap_or((row, ""))
}

/// The first word, and what stands behind it.
pub(crate) fn cut(words: &str) -> (&str, &str) {
    words.split_once(' ').unwrap_or((words, ""))
}

fn made_anew(alloc: Global, subject: &Subject, row: &str) -> Result<String, AllocError> {
    match subject {
        Subject::Expressions => expression_row(alloc, row),
        Subject::Members => member_row(alloc, row),
        Subject::Solved => solved_row(alloc, row),
        Subject::SolvedMembers => solved_member_row(alloc, row),
        Subject::Unsolved => unsolved_row(alloc, row),
    }
}

pub(crate) fn check(
    rt: &impl Abort,
    alloc: Global,
    subject: &Subject,
    table: &str,
) -> Result<(), Fail> {
    for row in table.lines() {
        let found = made_anew(alloc, subject, row)?;
        assert_eq!(rt; found.as_str(), row);
    }
    Ok(())
}
