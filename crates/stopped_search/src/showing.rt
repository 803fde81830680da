// What the fault of a search shows of its problem.
ghost use Rattle.std.specs.Prelude.{ℕ, ◌≡◌, [], Some, IfOk, IfSome};
ghost use Rattle.milp.specs.Problem.{Problem};
ghost use Rattle.partial_certificate.specs.Columns.{IsBySplitsOfColumns};
ghost use Rattle.partial_certificate.specs.Shown.{Passes};
ghost use Rattle.branch_search.specs.WholeFaults.{searched, IsFault};
ghost use Rattle.stopped_search.specs.Stopped.{shown_for, shown_at};

use crate::fault::Unsolved;
use crate::opening::without_best;
use branch_search::{VerdictFault, Wanted};
use partial_certificate::{PartialCertificate, accepted_partials_show};
use sqlite_items::Boxed;
use std::alloc::{AllocError, Global};
use tree_pool::Board;

/// The same fault, with what the search has shown of the problem: all tests of it hold, it has no derived rows, and its splits are of
/// columns. Where any point was wanted, the search left the objective out, so that no best point is told and no leaf is closed by a
/// value.
pub fn unsolved(alloc: Global, fault: VerdictFault) -> Unsolved
    ensures fault { result.fault ≡ fault }
    ensures shown { IfSome result.shown (λ c. shown_at fault ≡ Some c) }
    ensures passes { (p : Problem) (splits pivots : ℕ) → IsFault p splits pivots fault → IfSome result.shown (Passes p) }
    ensures columns { (p : Problem) (splits pivots : ℕ) → IsFault p splits pivots fault → IfSome result.shown IsBySplitsOfColumns }
{
    let shown = shown_at(alloc, &fault);
    Unsolved { fault, shown }
}

// What is shown where the search came to a limit and memory is there.
fn shown_at(alloc: Global, fault: &VerdictFault) -> Option<Boxed<PartialCertificate>>
    ensures shown { IfSome result (λ c. shown_at fault.now ≡ Some c) }
    ensures passes { (p : Problem) (splits pivots : ℕ) → IsFault p splits pivots fault.now → IfSome result (Passes p) }
    ensures columns { (p : Problem) (splits pivots : ℕ) → IsFault p splits pivots fault.now → IfSome result IsBySplitsOfColumns }
{
    match fault {
        VerdictFault::NoFit(..) => None,
        VerdictFault::PivotLimit(wanted, _, board) => shown_by(alloc, *wanted, board.get()),
        VerdictFault::SplitLimit(wanted, board) => shown_by(alloc, *wanted, board.get()),
        VerdictFault::NoMemory => None,
    }
}

// What the board of a search for what is wanted has shown, where memory is there.
fn shown_by(alloc: Global, wanted: Wanted, board: &Board) -> Option<Boxed<PartialCertificate>>
    ensures shown { IfSome result (λ c. c ≡ shown_for wanted board.now) }
    ensures passes { (p : Problem) → board.now.problem ≡ searched p wanted → board.now.cuts ≡ [] → IfSome result (Passes p) }
    ensures columns { board.now.cuts ≡ [] → IfSome result IsBySplitsOfColumns }
{
    boxed(alloc, wanted, board).ok()
}

fn boxed(
    alloc: Global,
    wanted: Wanted,
    board: &Board,
) -> Result<Boxed<PartialCertificate>, AllocError>
    ensures shown { IfOk result (λ c. c ≡ shown_for wanted board.now) }
    ensures passes { (p : Problem) → board.now.problem ≡ searched p wanted → board.now.cuts ≡ [] → IfOk result (Passes p) }
    ensures columns { board.now.cuts ≡ [] → IfOk result IsBySplitsOfColumns }
{
    let shown = shown_for(alloc, wanted, board)?;
    Boxed::new(alloc, shown)
}

fn shown_for(alloc: Global, wanted: Wanted, board: &Board) -> Result<PartialCertificate, AllocError>
    ensures shown { IfOk result (λ c. c ≡ shown_for wanted board.now) }
    ensures passes { (p : Problem) → board.now.problem ≡ searched p wanted → board.now.cuts ≡ [] → IfOk result (Passes p) }
    ensures columns { board.now.cuts ≡ [] → IfOk result IsBySplitsOfColumns }
{
    accepted_partials_show();
    let shown = board.shown(alloc)?;
    match wanted {
        Wanted::Best => Ok(shown),
        Wanted::Any => without_best(alloc, &shown),
    }
}
