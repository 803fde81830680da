//! The texts that a run writes: reports, raw solutions, and the lines of faults.
#![tactic(auto)]

mod fault;
mod kind_texts;
mod lines;
mod report;
mod solution;
mod subset;
mod values;

pub use fault::{Fault, fault_line};
pub use report::{accepted_report, solved_report, summary_report, translated_report};
pub use solution::raw_solution;
pub use subset::subset_report;
