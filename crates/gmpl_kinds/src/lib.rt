//! The third pass over a MathProg model, on its expressions: their kinds and dimensions.
//!
//! Each part is judged once. The fault of a part stands at the part, so that it comes before those of later parts.
#![tactic(auto)]

mod demands;
mod judged;
mod kinds;
mod objects;
mod shape;

pub use demands::{as_branch, as_logic, as_scalar, as_set, or_one, same_dimension};
pub use kinds::{all_scalars, indexing_dimension, shape_of};
pub use objects::whole_object;
pub use shape::{Object, Position, Shape, Site, Sort};
