//! Reads CPLEX LP texts.
#![tactic(auto)]

mod bounds;
mod columns;
mod constraints;
mod faults;
mod objective;
mod read;
mod sections;

pub use model_text::{FaultKind, FileFault, ReadError};
pub use read::{read_lp, read_within};
