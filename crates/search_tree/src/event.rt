// Events of a board, with their replies.

use crate::{Lease, Subtree, Way};
use fraction::Frac;
use instance::Point;

/// An event of a board. The first number of each is the seat of who asks.
#[derive(Drop)]
pub enum Event {
    /// A leaf that is to be worked on is leased.
    Leasing(usize),
    /// No leaf is to be worked on.
    Idling(usize),
    /// A subtree is put in the place of a leased leaf.
    Grafting(usize, Lease, Subtree),
    /// A feasible point is offered.
    Offering(usize, Point),
    /// Leased leaves are to be worked on again.
    Reclaiming,
}

/// What the board replies.
#[derive(Drop)]
pub enum Reply {
    /// The place of the leased leaf, and its lease.
    Given(Way, Lease),
    /// The number of leased leaves.
    StillLeased(usize),
    /// The best value after the event, if there is a best point.
    Best(Option<Frac>),
    /// Nothing.
    Done,
}

/// An event with its reply.
#[derive(Drop)]
pub struct Entry {
    pub event: Event,
    pub reply: Reply,
}
