// Where the work at a node fails.
use crate::{Bases, Node};
use fraction::NoFit;

/// An operation at a node whose result does not fit.
#[derive(Drop)]
pub struct Site {
    pub node: Node,
    pub fault: NoFit,
}

/// Why a step beside the simplex method is not taken.
#[derive(Drop)]
pub enum Unfit {
    /// An operation's result does not fit.
    NoFit(Site),
    /// The memory is not there.
    NoMemory,
}

/// Why a node's relaxation is not solved.
#[derive(Drop)]
pub enum Stuck {
    /// An operation's result does not fit.
    NoFit(Site),
    /// The run has as many steps as are allowed, and its last basis is not final.
    PivotLimit(Bases),
    /// The memory is not there.
    NoMemory,
}
