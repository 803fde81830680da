//! Irreducible infeasible subsets: bounds of a problem that no point meets, while without any one of them a point does.
#![tactic(auto)]

mod bounds;
mod fault;
mod leaf;
mod meeting;
mod member;
mod members;
mod parts;
mod proposed;
mod settling;
mod trial;
mod turns;
mod whole;
mod witness;

pub use fault::{StuckAt, SubsetFault, TooLong};
pub use member::{Member, Side};
pub use members::Members;
pub use whole::subset;
pub use witness::{Subset, Witness, Witnesses};
