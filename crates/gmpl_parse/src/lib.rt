//! The model that the statements of a MathProg text make, or the first fault.
#![tactic(auto)]

mod laws;
mod model;
mod passes;
mod reading;

pub use laws::first_bad_statement_decides;
pub use model::{Model, ParseError};
pub use passes::parse;
