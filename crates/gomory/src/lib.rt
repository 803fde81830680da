//! Gomory's mixed-integer cuts of a basis: what they are, that the checker accepts them, and how they are made.
#![tactic(auto)]

mod fault;
mod forms;
mod laws;
mod making;
mod numbers;
mod row;
mod scale;
mod sums;

pub use fault::Unfit;
pub use laws::{cuts_pass, root_cuts_pass};
pub use making::cut;
