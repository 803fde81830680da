// Searches that stop without a verdict.
ghost use Rattle.std.specs.Prelude.{IfOk};
ghost use Rattle.search_tree.specs.Kept.{IsKept};
ghost use Rattle.search_tree.specs.Steps.{IsReclaim};
ghost use Rattle.branch_search.specs.Faults.{IsLeafFault, IsFault, IsStoppedBoard};

use crate::fault::{LeafFault, SearchFault};
use sqlite_items::Boxed;
use std::alloc::{AllocError, Global};
use tree_pool::Board;

/// Why a search stops where the work at a leaf of this board found no verdict. Where a run is too long it is told with the board,
/// on which no leaf is leased then, and for which memory may be wanting.
pub fn stopped(alloc: Global, board: Board, fault: LeafFault) -> SearchFault
    requires { IsLeafFault board.problem board.cuts board.split_limit board.pivot_limit fault }
    ensures { IsFault board.problem board.cuts board.split_limit board.pivot_limit result }
{
    match fault {
        LeafFault::NoFit(site) => SearchFault::NoFit(site),
        LeafFault::PivotLimit(bases) => match given_back(alloc, board) {
            Ok(board) => SearchFault::PivotLimit(bases, board),
            Err(_) => SearchFault::NoMemory,
        },
        LeafFault::Unbounded(endless) => SearchFault::Unbounded(endless),
        LeafFault::NoMemory => SearchFault::NoMemory,
    }
}

/// The board on which a search stops: leaves that are leased are given back.
pub(crate) fn given_back(alloc: Global, mut board: Board) -> Result<Boxed<Board>, AllocError>
    ensures back { IfOk result (IsReclaim board) }
    ensures kept { IfOk result IsKept }
    ensures stopped { IfOk result (IsStoppedBoard board.problem board.cuts board.split_limit board.pivot_limit) }
{
    board.reclaim(alloc)?;
    board.keeps_its_log();
    Boxed::new(alloc, board)
}
