// The verdict of a problem by a search over its own columns.
ghost use Rattle.std.specs.Prelude.{◌≡◌, [], false, IfOk, IfErr, IfSome};
ghost use Rattle.verdicts.specs.Certificate.{Two};
ghost use Rattle.verdicts.specs.Proves.{Proves};
ghost use Rattle.cert_check.specs.Outcome.{Acceptance, outcome, trials};
ghost use Rattle.partial_certificate.specs.Shown.{Passes};
ghost use Rattle.branch_search.specs.Plain.{NoneInteger, IsPlainCertificate};
ghost use Rattle.branch_search.specs.WholeFaults.{IsNotByPivots};
ghost use Rattle.row_splits.specs.Searched.{IsUnsolved};

use certificate::Certificate;
use instance::Instance;
use shared_search::{Gate, solve_with_workers};
use std::alloc::Global;
use std::thread::Threads;
use stopped_search::{Unsolved, unsolved};

/// The verdict of a problem, by splits of its columns alone.
pub(crate) fn solved_itself<R: Threads + Sync, G: Gate + Sync>(
    rt: &R,
    alloc: Global,
    problem: &Instance,
    split_limit: usize,
    pivot_limit: u32,
    workers: u32,
    gate: &G,
) -> Result<Certificate, Unsolved>
    ensures proves { IfOk result (λ c. Proves problem.now c) }
    ensures accepted { IfOk result (λ c. outcome (trials problem.now c) ≡ Acceptance) }
    ensures version { IfOk result (λ c. c.version ≡ Two) }
    ensures plain { NoneInteger problem.now.columns → IfOk result (λ c. IsPlainCertificate problem.now c) }
    ensures fault { IfErr result (IsUnsolved false problem.now split_limit pivot_limit) }
    ensures shows { IfErr result (λ u. IfSome u.shown (Passes problem.now)) }
    ensures derived { IfErr result (λ u. IfSome u.shown (λ c. c.derived ≡ [])) }
    ensures unlimited { pivot_limit ≡ 0 → IfErr result (λ u. IsNotByPivots u.fault) }
{
    match solve_with_workers(
        rt,
        alloc,
        problem,
        0,
        split_limit,
        pivot_limit,
        workers,
        gate,
    ) {
        Ok(found) => Ok(found),
        Err(fault) => Err(unsolved(alloc, fault)),
    }
}

/// The same by one worker, who passes no gate.
pub(crate) fn solved_alone(
    alloc: Global,
    problem: &Instance,
    split_limit: usize,
    pivot_limit: u32,
) -> Result<Certificate, Unsolved>
    ensures proves { IfOk result (λ c. Proves problem.now c) }
    ensures accepted { IfOk result (λ c. outcome (trials problem.now c) ≡ Acceptance) }
    ensures version { IfOk result (λ c. c.version ≡ Two) }
    ensures plain { NoneInteger problem.now.columns → IfOk result (λ c. IsPlainCertificate problem.now c) }
    ensures fault { IfErr result (IsUnsolved false problem.now split_limit pivot_limit) }
    ensures shows { IfErr result (λ u. IfSome u.shown (Passes problem.now)) }
    ensures derived { IfErr result (λ u. IfSome u.shown (λ c. c.derived ≡ [])) }
    ensures unlimited { pivot_limit ≡ 0 → IfErr result (λ u. IsNotByPivots u.fault) }
{
    match branch_search::solve(alloc, problem, 0, split_limit, pivot_limit) {
        Ok(found) => Ok(found),
        Err(fault) => Err(unsolved(alloc, fault)),
    }
}
