// Why the work at a leaf, or a search, finds no verdict.
ghost use Rattle.std.specs.Prelude.{◌≡◌};
ghost use Rattle.branch_search.specs.declared.fault.LeafFault.TheVariants as at_leaf;
ghost use Rattle.branch_search.specs.declared.fault.SearchFault.TheVariants.{NoMemory};

use search_node::{Bases, Node, Site};
use simplex::Endless;
use sqlite_items::Boxed;
use std::alloc::AllocError;
use tree_pool::Board;

/// A node whose relaxation is unbounded, and the ray there that improves the problem without end.
#[derive(Drop)]
pub struct EndlessAt {
    pub node: Node,
    pub endless: Endless,
}

/// Why the work at a leaf finds no verdict.
#[derive(Drop)]
pub enum LeafFault {
    /// An operation of the work at a node does not fit.
    NoFit(Site),
    /// Bland's run at a node is longer than the limit of steps: the bases of the first steps.
    PivotLimit(Bases),
    /// A ray improves the problem without end, where it has a feasible point.
    Unbounded(EndlessAt),
    /// The memory is not there.
    NoMemory,
}

/// Why a search finds no verdict.
#[derive(Drop)]
pub enum SearchFault {
    /// An operation of the work at a node does not fit.
    NoFit(Site),
    /// Bland's run at a node is longer than the limit of steps: the bases of the first steps, and the board on which the search
    /// stops there.
    PivotLimit(Bases, Boxed<Board>),
    /// All splits that are allowed are made on this board, and nodes are left that are to be split.
    SplitLimit(Boxed<Board>),
    /// A ray improves the problem without end, where it has a feasible point.
    Unbounded(EndlessAt),
    /// The memory is not there.
    NoMemory,
}

impl From<AllocError> for LeafFault {
    ghost from_gives = { λ _ fault. fault ≡ at_leaf.NoMemory };

    fn from(_error: AllocError) -> LeafFault {
        LeafFault::NoMemory
    }
}

impl From<AllocError> for SearchFault {
    ghost from_gives = { λ _ fault. fault ≡ NoMemory };

    fn from(_error: AllocError) -> SearchFault {
        SearchFault::NoMemory
    }
}
