//! Dictionaries of linear programs, of which the coefficients other than 0 are kept, row by row: the system that they are
//! of, their start, their pivots, and how the numbers of the variables move.
#![tactic(auto)]

mod dictionary;
mod entries;
mod fault;
mod moves;
mod row;
mod start;
mod start_values;
mod sums;
mod system;

pub use dictionary::Dictionary;
pub use fault::Fault;
pub use moves::move_variables;
pub use start_values::{first_values, set_forms};
pub use system::{Bounds, System, may_raise, passed};
