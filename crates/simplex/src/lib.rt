//! The simplex method by Bland's rule, in exact fractions.
#![tactic(auto)]

mod answers;
mod choose;
mod contradiction;
mod decision;
mod point;
mod ratio;
mod ray;
mod relaxation;
mod roots;
mod runs;
mod state;
mod weights;

pub use answers::{Best, Endless, Relaxed, relax};
pub use dictionary::Dictionary;
pub use roots::root_is_over_columns;
