// The verdict of a problem by a search of the problem with rows for cuts.
ghost use Rattle.std.specs.Prelude.{◌≡◌, [], true, length, IfOk, IfErr, IfSome};
ghost use Rattle.std.specs.List.{list_all};
ghost use Rattle.verdicts.specs.Certificate.{Two, Derived};
ghost use Rattle.verdicts.specs.Proves.{Proves, in_range};
ghost use Rattle.cert_check.specs.Outcome.{Acceptance, outcome, trials};
ghost use Rattle.partial_certificate.specs.Shown.{Passes};
ghost use Rattle.branch_search.specs.Plain.{NoneInteger, IsPlainCertificate};
ghost use Rattle.branch_search.specs.WholeFaults.{IsNotByPivots};
ghost use Rattle.row_splits.specs.Searched.{IsUnsolved as IsRowUnsolved};
ghost use Rattle.cut_rows.specs.CutProblem.{IsCutProblem};
ghost use Rattle.root_cuts.specs.RootCuts.{AreRootCuts};
ghost use Rattle.cut_search.specs.Searched.{IsUnsolved};

use crate::Plan;
use crate::restoring::without_cuts;
use crate::worth::moves_the_bound;
use cert_check::{Checked, check};
use certificate::{Certificate, DerivedRows};
use cut_rows::{restore, with_cuts};
use instance::Instance;
use root_cuts::root_cuts;
use shared_search::Gate;
use std::alloc::{AllocError, Global};
use std::thread::Threads;
use stopped_search::Unsolved;

/// The verdict of a problem, without cuts.
pub(crate) fn searched<R: Threads + Sync, G: Gate + Sync>(
    rt: &R,
    alloc: Global,
    problem: &Instance,
    plan: Plan,
    gate: &G,
) -> Result<Certificate, Unsolved>
    ensures proves { IfOk result (λ c. Proves problem.now c) }
    ensures accepted { IfOk result (λ c. outcome (trials problem.now c) ≡ Acceptance) }
    ensures version { IfOk result (λ c. c.version ≡ Two) }
    ensures plain { NoneInteger problem.now.columns → IfOk result (λ c. IsPlainCertificate problem.now c) }
    ensures fault { IfErr result (IsRowUnsolved plan.row_splits problem.now plan.split_limit plan.pivot_limit) }
    ensures itself { IfErr result (IsUnsolved plan.cuts plan.row_splits problem.now plan.split_limit plan.pivot_limit) }
    ensures shows { IfErr result (λ u. IfSome u.shown (Passes problem.now)) }
    ensures derived { IfErr result (λ u. IfSome u.shown (λ c. c.derived ≡ [])) }
    ensures unlimited { plan.pivot_limit ≡ 0 → IfErr result (λ u. IsNotByPivots u.fault) }
{
    row_splits::solve(
        rt,
        alloc,
        problem,
        plan.row_splits,
        plan.split_limit,
        plan.pivot_limit,
        plan.workers,
        gate,
    )
}

/// The verdict of a problem, found of the problem with cuts, where it has some that move the bound at its root.
pub(crate) fn solved_by_cuts<R: Threads + Sync, G: Gate + Sync>(
    rt: &R,
    alloc: Global,
    problem: &Instance,
    plan: Plan,
    gate: &G,
) -> Result<Certificate, Unsolved>
    requires cuts { plan.cuts ≡ true }
    ensures proves { IfOk result (λ c. Proves problem.now c) }
    ensures accepted { IfOk result (λ c. outcome (trials problem.now c) ≡ Acceptance) }
    ensures version { IfOk result (λ c. c.version ≡ Two) }
    ensures fault { IfErr result (IsUnsolved plan.cuts plan.row_splits problem.now plan.split_limit plan.pivot_limit) }
    ensures shows { IfErr result (λ u. IfSome u.shown (Passes problem.now)) }
    ensures unlimited { plan.pivot_limit ≡ 0 → IfErr result (λ u. IsNotByPivots u.fault) }
{
    let cuts = root_cuts(alloc, problem, plan.pivot_limit)?;
    match worthwhile(alloc, problem, &cuts)? {
        Some(cut_problem) => of_cut_problem(rt, alloc, problem, &cuts, &cut_problem, plan, gate),
        None => searched(rt, alloc, problem, plan, gate),
    }
}

// The problem with rows for the cuts, where they move the bound at its root.
fn worthwhile(
    alloc: Global,
    problem: &Instance,
    cuts: &DerivedRows,
) -> Result<Option<Instance>, AllocError>
    requires { list_all (λ (d : Derived). in_range (length problem.now.columns) d.form) cuts.now ≡ true }
    ensures { IfOk result (λ made. IfSome made (IsCutProblem problem.now cuts.now)) }
{
    if cuts.as_slice().is_empty() {
        return Ok(None);
    }
    let Some(cut_problem) = with_cuts(alloc, problem, cuts)? else {
        return Ok(None);
    };
    if moves_the_bound(alloc, problem, &cut_problem)? {
        Ok(Some(cut_problem))
    } else {
        Ok(None)
    }
}

// The same, with the cuts.
fn of_cut_problem<R: Threads + Sync, G: Gate + Sync>(
    rt: &R,
    alloc: Global,
    problem: &Instance,
    cuts: &DerivedRows,
    cut_problem: &Instance,
    plan: Plan,
    gate: &G,
) -> Result<Certificate, Unsolved>
    requires cuts { plan.cuts ≡ true }
    requires are_cuts { AreRootCuts problem.now cuts.now }
    requires cut_problem { IsCutProblem problem.now cuts.now cut_problem.now }
    ensures proves { IfOk result (λ c. Proves problem.now c) }
    ensures accepted { IfOk result (λ c. outcome (trials problem.now c) ≡ Acceptance) }
    ensures version { IfOk result (λ c. c.version ≡ Two) }
    ensures fault { IfErr result (IsUnsolved plan.cuts plan.row_splits problem.now plan.split_limit plan.pivot_limit) }
    ensures shows { IfErr result (λ u. IfSome u.shown (Passes problem.now)) }
    ensures unlimited { plan.pivot_limit ≡ 0 → IfErr result (λ u. IsNotByPivots u.fault) }
{
    match searched(rt, alloc, cut_problem, plan, gate) {
        Ok(found) => from_found(rt, alloc, problem, cuts, &found, plan, gate),
        Err(unsolved) => Err(without_cuts(alloc, problem, cuts, cut_problem, unsolved)),
    }
}

// What is found of the problem with cuts, restored; or else the problem itself is searched.
fn from_found<R: Threads + Sync, G: Gate + Sync>(
    rt: &R,
    alloc: Global,
    problem: &Instance,
    cuts: &DerivedRows,
    found: &Certificate,
    plan: Plan,
    gate: &G,
) -> Result<Certificate, Unsolved>
    requires size { found.now.columns ≡ length problem.now.columns }
    ensures proves { IfOk result (λ c. Proves problem.now c) }
    ensures accepted { IfOk result (λ c. outcome (trials problem.now c) ≡ Acceptance) }
    ensures version { IfOk result (λ c. c.version ≡ Two) }
    ensures fault { IfErr result (IsUnsolved plan.cuts plan.row_splits problem.now plan.split_limit plan.pivot_limit) }
    ensures shows { IfErr result (λ u. IfSome u.shown (Passes problem.now)) }
    ensures unlimited { plan.pivot_limit ≡ 0 → IfErr result (λ u. IsNotByPivots u.fault) }
{
    let restored = restore(alloc, problem, cuts, found)?;
    match check(alloc, problem, &restored) {
        Ok(Checked::Accepted) => Ok(restored),
        Ok(Checked::Refused(_)) => searched(rt, alloc, problem, plan, gate),
        Err(_) => searched(rt, alloc, problem, plan, gate),
    }
}
