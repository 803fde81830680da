//! Verdicts by searches that may split on the whole forms of rows.
#![tactic(auto)]

mod by_rows;
mod itself;
mod restoring;
mod verdict;

pub use verdict::solve;
