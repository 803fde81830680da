// Why no verdict is found.
ghost use Rattle.std.specs.Prelude.{◌≡◌};
ghost use Rattle.branch_search.specs.declared.whole_fault.VerdictFault.TheVariants.{NoMemory};

use search_node::{Bases, Site};
use sqlite_items::Boxed;
use std::alloc::AllocError;
use tree_pool::Board;

/// What a search is for.
#[derive(Clone, Copy, Debug, PartialEq, Eq)]
pub enum Wanted {
    /// A best point of the problem.
    Best,
    /// Any feasible point, since a ray improves the problem: a best point of the problem without its objective.
    Any,
}

/// Why no verdict is found.
#[derive(Drop)]
pub enum VerdictFault {
    /// An operation of the work at a node does not fit.
    NoFit(Wanted, Site),
    /// Bland's run at a node is longer than the limit of steps: the bases of the first steps, and the board on which the search
    /// stops there.
    PivotLimit(Wanted, Bases, Boxed<Board>),
    /// All splits that are allowed are made on this board, and nodes are left that are to be split.
    SplitLimit(Wanted, Boxed<Board>),
    /// The memory is not there.
    NoMemory,
}

impl From<AllocError> for VerdictFault {
    ghost from_gives = { λ _ fault. fault ≡ NoMemory };

    fn from(_error: AllocError) -> VerdictFault {
        VerdictFault::NoMemory
    }
}
