//! The names and the strings of MathProg models, for all crates that hold them.
#![tactic(auto)]

mod text;

pub use text::Text;
