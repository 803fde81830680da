//! The board of a search as a machine that workers share: lease, graft and offer are each one event, and a lease stays
//! open for the pass that was given it.
#![tactic(auto)]

mod ask;
mod asked;
mod graft;
mod laws;
mod machine;
mod offer;

pub use ask::Ask;
pub use asked::{Asked, LeasedLeaf};
pub use graft::Graft;
pub use laws::{leases_stay_open, trees_of_leases};
pub use machine::SharedBoard;
pub use offer::Offer;
