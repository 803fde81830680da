// What the board answers to who asks for a leaf.

use search_tree::{Hint, Lease};

/// The answer to who asks for a leaf.
#[derive(Drop)]
pub enum LeaseAnswer {
    /// A leaf is leased; with the hint of it.
    Leased(Lease, Hint),
    /// No leaf is to be worked on, and so many are leased.
    Idle(usize),
}
