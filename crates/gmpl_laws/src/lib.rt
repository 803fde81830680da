//! Laws of the grammar of MathProg's expressions.
#![tactic(auto)]

mod formulas;
mod levels;

pub use formulas::formulas_are_read_back;
pub use levels::operators_bind_by_level;
