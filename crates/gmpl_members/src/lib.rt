//! Tables of members: from the subscripts of a member to its value.
#![tactic(auto)]

mod members;
mod value;

pub use members::Members;
pub use value::Value;
