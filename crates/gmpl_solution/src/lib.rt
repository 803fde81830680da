//! What the members of a model come to where its problem is solved.
#![tactic(auto)]

mod dual;
mod member;
mod solution;

pub use dual::{Dual, Duals};
pub use member::Member;
pub use solution::{Solution, SolvedMember};
