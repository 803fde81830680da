// Texts in CPLEX LP, with the problems that they declare or their first faults.
ghost use Rattle.model_text.specs.Profile.{IsWithinInstance};

use crate::marks::{bytes_of, text_of};
use crate::problems::answer_text;
use cplex_lp_reader::{read_lp, read_within};
use model_text::{Profile, reader_profile};
use std::alloc::{AllocError, Global};

fn answer_within(alloc: Global, profile: &Profile, row: &str) -> Result<String, AllocError>
    requires { IsWithinInstance profile.now }
{
    let text = text_of(alloc, row)?;
    answer_text(alloc, read_within(alloc, profile, text.as_bytes()))
}

/// What a text declares.
pub(crate) fn lp_of_text(alloc: Global, row: &str) -> Result<String, AllocError> {
    answer_within(alloc, &reader_profile(), row)
}

/// The same, with at most two rows, columns and entries of rows.
pub(crate) fn lp_within_two(alloc: Global, row: &str) -> Result<String, AllocError> {
    let within_two = Profile {
        rows: 2,
        columns: 2,
        entries: 2,
        ..reader_profile()
    };
    answer_within(alloc, &within_two, row)
}

/// What bytes declare.
pub(crate) fn lp_of_bytes(alloc: Global, row: &str) -> Result<String, AllocError> {
    let bytes = bytes_of(alloc, row)?;
    answer_text(alloc, read_lp(alloc, &bytes))
}
