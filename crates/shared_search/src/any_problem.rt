// The verdict of a problem, by several workers.
ghost use Rattle.std.specs.Prelude.{◌≡◌, IfOk, IfErr};
ghost use Rattle.verdicts.specs.Certificate.{Two};
ghost use Rattle.verdicts.specs.Proves.{Proves};
ghost use Rattle.cert_check.specs.Outcome.{Acceptance, outcome, trials};
ghost use Rattle.branch_search.specs.Columns.{IsBySplitsOfColumns};
ghost use Rattle.branch_search.specs.Plain.{NoneInteger, IsPlainCertificate};
ghost use Rattle.branch_search.specs.WholeFaults.{IsFault, IsNotByPivots};

use crate::gate::Gate;
use crate::to_the_end::search_with_workers;
use branch_search::{VerdictFault, Wanted, beyond, has_no_integer_column, ray_or_fault, solve};
use certificate::Certificate;
use instance::Instance;
use std::alloc::Global;
use std::thread::Threads;

/// The verdict of a problem, with its certificate, as `solve` of branch_search finds it, by so many workers, who pass the gate. One
/// worker searches alone, and passes no gate; so does one where no column is integer, since then the search is of one node. Several
/// make the first search together. Where they find a ray from a point that is not feasible, the second search is of one worker.
pub fn solve_with_workers<R: Threads + Sync, G: Gate + Sync>(
    rt: &R,
    alloc: Global,
    problem: &Instance,
    first_columns: usize,
    split_limit: usize,
    pivot_limit: u32,
    workers: u32,
    gate: &G,
) -> Result<Certificate, VerdictFault>
    ensures proves { IfOk result (λ c. Proves problem.now c) }
    ensures accepted { IfOk result (λ c. outcome (trials problem.now c) ≡ Acceptance) }
    ensures version { IfOk result (λ c. c.version ≡ Two) }
    ensures splits { IfOk result IsBySplitsOfColumns }
    ensures plain { NoneInteger problem.now.columns → IfOk result (λ c. IsPlainCertificate problem.now c) }
    ensures fault { IfErr result (IsFault problem.now split_limit pivot_limit) }
    ensures unlimited { pivot_limit ≡ 0 → IfErr result IsNotByPivots }
{
    if workers <= 1 || has_no_integer_column(problem) {
        return solve(alloc, problem, first_columns, split_limit, pivot_limit);
    }
    match search_with_workers(
        rt,
        alloc,
        problem,
        first_columns,
        split_limit,
        pivot_limit,
        workers,
        gate,
    ) {
        Ok(certificate) => Ok(certificate),
        Err(fault) => match ray_or_fault(Wanted::Best, fault) {
            Ok(ray) => beyond(alloc, problem, ray, first_columns, split_limit, pivot_limit),
            Err(fault) => Err(fault),
        },
    }
}
