//! Partial certificates: what a search that stopped at a limit has shown so far. Clauses see each type as the definitions of
//! this crate see it.
#![tactic(auto)]

mod best;
mod checking;
mod laws;
mod nodes;
mod partial;
mod tree;
mod writing;

pub use best::Best;
pub use checking::check_partial;
pub use laws::accepted_partials_show;
pub use partial::PartialCertificate;
pub use tree::{PartialNode, PartialTree};
pub use writing::text;
