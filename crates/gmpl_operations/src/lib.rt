//! Values of MathProg expressions, and what each operator, relation, function and iteration makes of the values of its parts.
#![tactic(auto)]

mod calls;
mod iterations;
mod operators;
mod patterns;
mod relations;
mod value;

pub use calls::{called_with_numbers, signed, sliced};
pub use iterations::{ended, is_decided, joined};
pub use operators::{applied, decides, taken};
pub use patterns::{bound, matched};
pub use relations::{compared, left_side, related};
pub use value::Value;
