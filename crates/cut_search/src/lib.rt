//! Verdicts by searches that may use Gomory's cuts of the problem's root.
#![tactic(auto)]

mod by_cuts;
mod plan;
mod restoring;
mod verdict;
mod worth;

pub use plan::Plan;
pub use verdict::solve;
