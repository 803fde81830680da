// Leaves of a tree of splits.
ghost use Rattle.std.specs.Prelude.{◌≡◌};

use certificate::{ColumnSplit, LeafWeights};
use fraction::{Frac, NoFit};
use search_node::{Bases, Basis};
use std::alloc::{AllocError, Global};
use std::marker::Model;

/// No lease grants more splits.
pub const MOST_GRANTED: usize = 16;

/// The right to work on a leaf: its number, which is the length of the board's log when it was given, how many splits it
/// may make, and the best value when it was given.
#[derive(Clone, Copy)]
pub struct Lease {
    pub number: usize,
    pub grant: usize,
    pub best: Option<Frac>,
}

impl Lease {
    /// The same lease.
    pub fn copy(&self) -> Lease
        ensures { result ≡ self.now }
    {
        let number = self.number;
        let grant = self.grant;
        let best = self.best;
        Lease {
            number,
            grant,
            best,
        }
    }
}

/// A basis at which a method may start on a leaf, and the value that the node above has. It is a mere hint: nothing is
/// said of it.
#[derive(Drop)]
pub struct Hint {
    basis: Option<Basis>,
    bound: Option<Frac>,
}

impl Model for Hint {
    ghost Value = { Unit {0} };

    ghost view = { λ h. tt };
}

impl Hint {
    /// The hint with these, where they are there.
    pub fn new(basis: Option<Basis>, bound: Option<Frac>) -> Self {
        Hint { basis, bound }
    }

    /// The same hint.
    pub fn copy(&self, alloc: Global) -> Result<Self, AllocError> {
        let basis = match &self.basis {
            None => None,
            Some(basis) => Some(basis.copy(alloc)?),
        };
        Ok(Hint {
            basis,
            bound: self.bound,
        })
    }

    /// Its basis, if it has one.
    pub fn basis(&self) -> Option<&Basis> {
        self.basis.as_ref()
    }

    /// Its value, if it has one.
    pub fn bound(&self) -> Option<Frac> {
        self.bound
    }
}

/// A leaf of a tree of splits.
#[derive(Drop)]
pub enum Leaf {
    /// No one has worked on it.
    Todo(Hint),
    /// It was treated, and is to be split.
    Treated(Hint),
    /// Someone works on it.
    Leased(Lease),
    /// It has no point, as the weights show.
    Refuted(LeafWeights),
    /// It has no point that is better than the best, as the weights show.
    Bounded(LeafWeights),
    /// An operation of the work on it does not fit.
    NotFitting(NoFit),
    /// Its run is longer than the limit of steps: the bases of the first steps.
    AtLimit(Bases),
}

/// A node of a tree in preorder.
#[derive(Drop)]
pub enum Slot {
    /// The low side comes next, then the high side.
    Divided(ColumnSplit),
    /// A leaf.
    Leaf(Leaf),
}
