// The tables, row by row. One loop goes over all of them, so that a test is one call, which is proved ten times as fast as a loop.
use crate::failing_calls::failing_calls;
use crate::runs::{answer_of_row, members_of_row, round_trip_of_row};
use crate::written_files::written_of_row;
use std::alloc::{AllocError, Global};
use std::process::Abort;
use std::test::Fail;
use std::thread::Threads;

/// How a table's rows are found. A row of `Answers` and of `RoundTrips` has, parted by ` <- `, the status and what is printed, then the
/// words, and then the texts of the files f, c and d, where there are such files; what doesn't end a line is the beginning of what is
/// printed. In `RoundTrips` the certificate that the program writes for a row whose status is 0, it accepts, and in version 2 too. In `Subsets`
/// lines are printed up to the third word, so that the numbers of points are left out.
#[derive(Drop)]
pub(crate) enum Subject {
    Answers,
    FailingCalls,
    RoundTrips,
    Subsets,
    WrittenFiles,
}

/// What stands in front of an arrow, and behind it.
pub(crate) fn split(row: &str) -> (&str, &str) {
    row.split_once(" <- ").unwrap_or((row, ""))
}

fn found<T: Threads + Sync>(
    rt: &T,
    alloc: Global,
    subject: &Subject,
    row: &str,
) -> Result<String, AllocError> {
    match subject {
        Subject::Answers => answer_of_row(rt, alloc, row),
        Subject::FailingCalls => failing_calls(rt, alloc, row),
        Subject::RoundTrips => round_trip_of_row(rt, alloc, row),
        Subject::Subsets => members_of_row(rt, alloc, row),
        Subject::WrittenFiles => written_of_row(rt, alloc, row),
    }
}

/// What is found is what stands in front of the first arrow, or the whole row where there is none.
pub(crate) fn check<T: Threads + Sync + Abort>(
    rt: &T,
    alloc: Global,
    subject: &Subject,
    table: &str,
) -> Result<(), Fail> {
    for row in table.lines() {
        let (want, _) = split(row);
        let found = found(rt, alloc, subject, row)?;
        assert_eq!(rt; found.as_str(), want, "at {row}");
    }
    Ok(())
}
