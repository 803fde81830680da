//! Reads MathProg texts with their data: the problems that they declare, and what they print and make.
#![tactic(auto)]

mod data;
mod fault;
mod laws;
mod read;

pub use fault::MathProgFault;
pub use gmpl_generate::{Afterwards, TableFile};
pub use laws::objects_have_names;
pub use read::{Pending, Reading, ReadingEnd, Rest, after_solve, read_math_prog, read_on};
