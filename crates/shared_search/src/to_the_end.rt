// The search by several workers, to its verdict.
ghost use Rattle.std.specs.Prelude.{◌≡◌, ◌<◌, [], IfOk, IfErr};
ghost use Rattle.verdicts.specs.Certificate.{Two};
ghost use Rattle.verdicts.specs.Proves.{Proves};
ghost use Rattle.cert_check.specs.Outcome.{Acceptance, outcome, trials};
ghost use Rattle.branch_search.specs.Underway.{IsGoing};
ghost use Rattle.branch_search.specs.Faults.{IsFault};
ghost use Rattle.branch_search.specs.Columns.{IsBySplitsOfColumns};
ghost use Rattle.branch_search.specs.Plain.{NoneInteger, IsPlainCertificate};

use crate::gate::Gate;
use crate::whole::search_together;
use branch_search::{SearchFault, search_on};
use candidate::Proposer;
use certificate::Certificate;
use instance::Instance;
use std::alloc::Global;
use std::thread::Threads;
use tree_pool::Board;

/// The verdict of a problem by a search over its integer columns, with its certificate, as `search` of branch_search finds it: so
/// many workers search at the same time, who pass the gate, and then one goes on from the board with which they end, and works on
/// each leaf that they left behind. Which certificate, or which fault, it is may depend on who came first.
pub fn search_with_workers<R: Threads + Sync, G: Gate + Sync>(
    rt: &R,
    alloc: Global,
    problem: &Instance,
    first_columns: usize,
    split_limit: usize,
    pivot_limit: u32,
    workers: u32,
    gate: &G,
) -> Result<Certificate, SearchFault>
    requires { 0 < workers }
    ensures proves { IfOk result (λ c. Proves problem.now c) }
    ensures accepted { IfOk result (λ c. outcome (trials problem.now c) ≡ Acceptance) }
    ensures version { IfOk result (λ c. c.version ≡ Two) }
    ensures splits { IfOk result IsBySplitsOfColumns }
    ensures plain { NoneInteger problem.now.columns → IfOk result (λ c. IsPlainCertificate problem.now c) }
    ensures fault { IfErr result (IsFault problem.now [] split_limit pivot_limit) }
{
    let board = search_together(
        rt,
        alloc,
        problem,
        first_columns,
        split_limit,
        pivot_limit,
        workers,
        gate,
    )?;
    alone(alloc, board, first_columns, pivot_limit)
}

// One goes on alone.
fn alone(
    alloc: Global,
    board: Board,
    first_columns: usize,
    pivot_limit: u32,
) -> Result<Certificate, SearchFault>
    requires cuts { board.cuts ≡ [] }
    requires pivots { board.pivot_limit ≡ pivot_limit }
    requires going { IsGoing board }
    ensures proves { IfOk result (λ c. Proves board.problem c) }
    ensures accepted { IfOk result (λ c. outcome (trials board.problem c) ≡ Acceptance) }
    ensures version { IfOk result (λ c. c.version ≡ Two) }
    ensures splits { IfOk result IsBySplitsOfColumns }
    ensures plain { NoneInteger board.problem.columns → IfOk result (λ c. IsPlainCertificate board.problem c) }
    ensures fault { IfErr result (IsFault board.problem [] board.split_limit pivot_limit) }
{
    let mut proposer = Proposer::new(alloc, pivot_limit, first_columns);
    let done = search_on(alloc, board, pivot_limit, &mut proposer);
    std::mem::drop(proposer);
    done
}
