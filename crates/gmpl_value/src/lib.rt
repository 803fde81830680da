//! Values of a MathProg model: symbols, tuples, and sets in the order of first insertion.
#![tactic(auto)]

mod eval_fault;
mod fault;
mod operations;
mod progression;
mod set_value;
mod symbol;
mod tuple;

pub use eval_fault::EvalFault;
pub use fault::SetFault;
pub use operations::{cross, diff, inter, symdiff, union};
pub use progression::range;
pub use set_value::SetValue;
pub use symbol::Symbol;
pub use tuple::Tuple;
