//! Expressions of MathProg, from tokens to trees.
#![tactic(auto)]

mod grammar;
mod literals;
mod reader;
mod trees;

pub use literals::{number, string};
pub use reader::Reader;
pub use trees::is_name;
