// Workers.

use board_pool::SharedBoard;
use branch_search::LeafFault;
use sqlite_items::Boxed;
use turn_pool::Pass;

/// A worker: its pass, and why it found no verdict at a node, where that has ended its work.
#[derive(Drop)]
pub struct Worker {
    pub pass: Pass<SharedBoard>,
    pub fault: Option<Boxed<LeafFault>>,
}

/// How a worker goes on.
#[derive(Clone, Copy, Drop)]
pub enum Step {
    /// All below a leaf was closed: with the next one.
    Closed,
    /// A leaf was split, and there are more now for who waits: with the next one.
    Split,
    /// It is another's turn, or no leaf is to be worked on while others work: it tries again.
    Waits,
    /// It ends.
    Ended,
    /// All workers end: an open leaf stays behind.
    Halts,
}
