//! What the layers that search for a verdict share: bases, the node of a tree at which they work, and where they fail.
#![tactic(auto)]

mod bases;
mod fault;
mod node;

pub use bases::{Bases, Basis, Exchange};
pub use fault::{Site, Stuck, Unfit};
pub use node::{Node, SplitTaken, SplitsTaken};
