// The verdict of a problem, by splits of columns or of rows too.
ghost use Rattle.std.specs.Prelude.{◌≡◌, [], IfOk, IfErr, IfSome};
ghost use Rattle.verdicts.specs.Certificate.{Two};
ghost use Rattle.verdicts.specs.Proves.{Proves};
ghost use Rattle.cert_check.specs.Outcome.{Acceptance, outcome, trials};
ghost use Rattle.partial_certificate.specs.Shown.{Passes};
ghost use Rattle.branch_search.specs.Plain.{NoneInteger, IsPlainCertificate};
ghost use Rattle.branch_search.specs.WholeFaults.{IsNotByPivots};
ghost use Rattle.row_splits.specs.Searched.{IsUnsolved};

use crate::by_rows::solved_by_rows;
use crate::itself::{solved_alone, solved_itself};
use branch_search::has_no_integer_column;
use certificate::Certificate;
use instance::Instance;
use shared_search::Gate;
use std::alloc::Global;
use std::thread::Threads;
use stopped_search::Unsolved;

/// The verdict of a problem as `solve_with_workers` of shared_search finds it, by so many workers, who pass the gate, with its
/// certificate of version 2, which proves it and which the checker accepts. Where `row_splits` is asked for, it is found of the
/// problem with a column for the whole form of each row that has one, so that a split may be one of such a form; a node splits on
/// the first such form that isn't whole, before it splits on a column. Where what is found so can't be restored, since an operation
/// of its test does not fit, the problem itself is searched.
///
/// Where there is no verdict, what the search has shown of the problem comes with the fault, restored where row columns were searched:
/// all tests of it hold, and it has no derived rows.
pub fn solve<R: Threads + Sync, G: Gate + Sync>(
    rt: &R,
    alloc: Global,
    problem: &Instance,
    row_splits: bool,
    split_limit: usize,
    pivot_limit: u32,
    workers: u32,
    gate: &G,
) -> Result<Certificate, Unsolved>
    ensures proves { IfOk result (λ c. Proves problem.now c) }
    ensures accepted { IfOk result (λ c. outcome (trials problem.now c) ≡ Acceptance) }
    ensures version { IfOk result (λ c. c.version ≡ Two) }
    ensures plain { NoneInteger problem.now.columns → IfOk result (λ c. IsPlainCertificate problem.now c) }
    ensures fault { IfErr result (IsUnsolved row_splits problem.now split_limit pivot_limit) }
    ensures shows { IfErr result (λ u. IfSome u.shown (Passes problem.now)) }
    ensures derived { IfErr result (λ u. IfSome u.shown (λ c. c.derived ≡ [])) }
    ensures unlimited { pivot_limit ≡ 0 → IfErr result (λ u. IsNotByPivots u.fault) }
{
    if !row_splits {
        return solved_itself(rt, alloc, problem, split_limit, pivot_limit, workers, gate);
    }
    if has_no_integer_column(problem) {
        return solved_alone(alloc, problem, split_limit, pivot_limit);
    }
    solved_by_rows(rt, alloc, problem, split_limit, pivot_limit, workers, gate)
}
