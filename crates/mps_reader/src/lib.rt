//! Reads free MPS texts.
#![tactic(auto)]

mod bounds_section;
mod columns_section;
mod line;
mod lines;
mod literal;
mod pairs_section;
mod read;
mod rows_section;
mod sense_section;

pub use model_text::{FaultKind, FileFault, ReadError};
pub use read::{read_mps, read_within};
