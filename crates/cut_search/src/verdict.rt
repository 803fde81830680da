// The verdict of a problem, with or without cuts.
ghost use Rattle.std.specs.Prelude.{◌≡◌, IfOk, IfErr, IfSome};
ghost use Rattle.verdicts.specs.Certificate.{Two};
ghost use Rattle.verdicts.specs.Proves.{Proves};
ghost use Rattle.cert_check.specs.Outcome.{Acceptance, outcome, trials};
ghost use Rattle.partial_certificate.specs.Shown.{Passes};
ghost use Rattle.branch_search.specs.Plain.{NoneInteger, IsPlainCertificate};
ghost use Rattle.branch_search.specs.WholeFaults.{IsNotByPivots};
ghost use Rattle.cut_search.specs.Searched.{IsUnsolved};

use crate::Plan;
use crate::by_cuts::{searched, solved_by_cuts};
use branch_search::has_no_integer_column;
use certificate::Certificate;
use instance::Instance;
use shared_search::Gate;
use std::alloc::Global;
use std::thread::Threads;
use stopped_search::Unsolved;

/// The verdict of a problem as `solve` of row_splits finds it, with its certificate of version 2, which proves it and which the
/// checker accepts. Where the plan has cuts, it is found of the problem with rows for cuts of its root, if these move the bound there,
/// and each such row is a derived row of the certificate. Where what is found so is not accepted, since an operation of its test does
/// not fit, the problem itself is searched.
///
/// Where there is no verdict, what the search has shown of the problem comes with the fault, restored where rows for cuts were searched:
/// all tests of it hold.
pub fn solve<R: Threads + Sync, G: Gate + Sync>(
    rt: &R,
    alloc: Global,
    problem: &Instance,
    plan: Plan,
    gate: &G,
) -> Result<Certificate, Unsolved>
    ensures proves { IfOk result (λ c. Proves problem.now c) }
    ensures accepted { IfOk result (λ c. outcome (trials problem.now c) ≡ Acceptance) }
    ensures version { IfOk result (λ c. c.version ≡ Two) }
    ensures plain { NoneInteger problem.now.columns → IfOk result (λ c. IsPlainCertificate problem.now c) }
    ensures fault { IfErr result (IsUnsolved plan.cuts plan.row_splits problem.now plan.split_limit plan.pivot_limit) }
    ensures shows { IfErr result (λ u. IfSome u.shown (Passes problem.now)) }
    ensures unlimited { plan.pivot_limit ≡ 0 → IfErr result (λ u. IsNotByPivots u.fault) }
{
    if !plan.cuts || has_no_integer_column(problem) {
        return searched(rt, alloc, problem, plan, gate);
    }
    solved_by_cuts(rt, alloc, problem, plan, gate)
}
