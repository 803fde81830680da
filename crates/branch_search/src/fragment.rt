// What the work at a leased leaf comes to.

use instance::Point;
use search_tree::{Hint, Subtree};

/// A tree for the place of a leased leaf; and the best point that was found there, if one is better than the best value that
/// the lease told. Bounded leaves of the tree are closed against that value, or that of the point.
#[derive(Drop)]
pub struct Fragment {
    pub tree: Subtree,
    pub found: Option<Point>,
}

/// What the work at a leased leaf comes to.
#[derive(Drop)]
pub enum Grown {
    /// A tree may be put in its place, once the point that was found is offered.
    Ready(Fragment),
    /// It is to be split, and no split is granted; with a hint for who splits it.
    Ungranted(Hint),
}
