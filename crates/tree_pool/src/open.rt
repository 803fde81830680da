// The leaves that are to be worked on, by preference.

use crate::choice::Order;
use fraction::Frac;
use instance::signed;
use milp::Direction;
use std::alloc::Global;
use std::marker::Model;

/// A leaf by its place, with the entry that put it in, and the value that the node above has.
#[derive(Clone, Copy)]
pub(crate) struct OpenLeaf {
    pub(crate) place: usize,
    pub(crate) entry: usize,
    pub(crate) bound: Option<Frac>,
}

/// A heap of leaves that were to be worked on when they were added, the preferred one first. It is a mere preference:
/// nothing is said of it, and a leaf may be missing where memory was wanting, so who asks tests what it answers.
#[derive(Drop)]
pub(crate) struct Open {
    leaves: Vec<OpenLeaf>,
    order: Order,
}

impl Model for Open {
    ghost Value = { Unit {0} };

    ghost view = { λ o. tt };
}

impl Open {
    /// No leaf.
    pub(crate) fn new(alloc: Global) -> Self {
        Open {
            leaves: Vec::new(alloc),
            order: Order {
                direction: Direction::Min,
                has_best: false,
            },
        }
    }

    /// The number of leaves.
    pub(crate) fn count(&self) -> usize {
        self.leaves.len()
    }

    /// One more leaf.
    pub(crate) fn add(&mut self, leaf: OpenLeaf) {
        let at = self.leaves.len();
        if self.leaves.push(leaf).is_ok() {
            rise(&mut self.leaves, self.order, at);
        }
    }

    /// The place of the preferred leaf.
    pub(crate) fn first(&mut self, order: Order) -> Option<usize> {
        if order.has_best != self.order.has_best {
            self.order = order;
            arrange(&mut self.leaves, order);
        }
        match self.leaves.get(0) {
            None => None,
            Some(leaf) => Some(leaf.place),
        }
    }

    /// Without the preferred leaf.
    pub(crate) fn drop_first(&mut self) {
        if !self.leaves.is_empty() {
            self.leaves.swap_remove(0);
            sink(&mut self.leaves, self.order, 0);
        }
    }
}

// A leaf goes up while it is preferred to the one above.
fn rise(leaves: &mut [OpenLeaf], order: Order, place: usize) {
    let mut at = place;
    while at > 0 && at < leaves.len() {
        let above = (at - 1) / 2;
        if !is_before(order, &leaves[at], &leaves[above]) {
            return;
        }
        leaves.swap(at, above);
        at = above;
    }
}

// A leaf goes down while one below is preferred to it.
fn sink(leaves: &mut [OpenLeaf], order: Order, place: usize) {
    let mut at = place;
    while at < leaves.len() {
        let next = below(leaves, order, at);
        if next <= at || next >= leaves.len() || !is_before(order, &leaves[next], &leaves[at]) {
            return;
        }
        leaves.swap(at, next);
        at = next;
    }
}

// The preferred one of those below, or past the end.
fn below(leaves: &[OpenLeaf], order: Order, at: usize) -> usize {
    let low = at.saturating_mul(2).saturating_add(1);
    let high = low.saturating_add(1);
    if low < leaves.len() && high < leaves.len() && is_before(order, &leaves[high], &leaves[low]) {
        high
    } else {
        low
    }
}

// All leaves by another order.
fn arrange(leaves: &mut [OpenLeaf], order: Order) {
    let mut at = leaves.len();
    while at > 0 {
        at -= 1;
        sink(leaves, order, at);
    }
}

// The first leaf is to be worked on before the second: before the first point is found the newer one, afterwards the one with
// the better value, and of two with one value the newer one.
fn is_before(order: Order, first: &OpenLeaf, second: &OpenLeaf) -> bool {
    if order.has_best {
        let bounds = (first.bound, second.bound);
        if let (Some(a), Some(b)) = bounds {
            let a = signed(order.direction, a);
            let b = signed(order.direction, b);
            if a < b {
                return true;
            }
            if b < a {
                return false;
            }
        }
    }
    is_newer(first, second)
}

// Of two sides of a split the high one counts as the newer one.
fn is_newer(first: &OpenLeaf, second: &OpenLeaf) -> bool {
    if first.entry == second.entry {
        first.place > second.place
    } else {
        first.entry > second.entry
    }
}
