// The verdict of a problem by a search over columns for the whole forms of its rows.
ghost use Rattle.std.specs.Prelude.{◌≡◌, [], true, IfOk, IfErr, IfSome};
ghost use Rattle.std.specs.List.{list_all};
ghost use Rattle.verdicts.specs.Certificate.{Two};
ghost use Rattle.verdicts.specs.Proves.{is_whole_form, Proves};
ghost use Rattle.cert_check.specs.Outcome.{Acceptance, outcome, trials};
ghost use Rattle.partial_certificate.specs.Shown.{Passes};
ghost use Rattle.branch_search.specs.Columns.{IsBySplitsOfColumns};
ghost use Rattle.branch_search.specs.WholeFaults.{IsNotByPivots};
ghost use Rattle.row_columns.specs.RowForms.{AreRowForms};
ghost use Rattle.row_columns.specs.Extended.{IsExtended};
ghost use Rattle.row_splits.specs.Searched.{IsUnsolved};

use crate::itself::solved_itself;
use crate::restoring::without_row_columns;
use cert_check::{Checked, check};
use certificate::Certificate;
use instance::Instance;
use row_columns::{Extension, restore, with_row_columns};
use shared_search::{Gate, solve_with_workers};
use std::alloc::Global;
use std::thread::Threads;
use stopped_search::Unsolved;

/// The verdict of a problem, found of the problem with row columns, where that can be restored.
pub(crate) fn solved_by_rows<R: Threads + Sync, G: Gate + Sync>(
    rt: &R,
    alloc: Global,
    problem: &Instance,
    split_limit: usize,
    pivot_limit: u32,
    workers: u32,
    gate: &G,
) -> Result<Certificate, Unsolved>
    ensures proves { IfOk result (λ c. Proves problem.now c) }
    ensures accepted { IfOk result (λ c. outcome (trials problem.now c) ≡ Acceptance) }
    ensures version { IfOk result (λ c. c.version ≡ Two) }
    ensures fault { IfErr result (IsUnsolved true problem.now split_limit pivot_limit) }
    ensures shows { IfErr result (λ u. IfSome u.shown (Passes problem.now)) }
    ensures derived { IfErr result (λ u. IfSome u.shown (λ c. c.derived ≡ [])) }
    ensures unlimited { pivot_limit ≡ 0 → IfErr result (λ u. IsNotByPivots u.fault) }
{
    let extension = with_row_columns(alloc, problem)?;
    by_extension(
        rt,
        alloc,
        problem,
        &extension,
        split_limit,
        pivot_limit,
        workers,
        gate,
    )
}

// The same, with row columns.
fn by_extension<R: Threads + Sync, G: Gate + Sync>(
    rt: &R,
    alloc: Global,
    problem: &Instance,
    extension: &Extension,
    split_limit: usize,
    pivot_limit: u32,
    workers: u32,
    gate: &G,
) -> Result<Certificate, Unsolved>
    requires forms { AreRowForms problem.now problem.now.rows extension.now.forms }
    requires whole { list_all (is_whole_form problem.now) extension.now.forms ≡ true }
    requires extended { IsExtended problem.now extension.now.forms extension.now.problem }
    ensures proves { IfOk result (λ c. Proves problem.now c) }
    ensures accepted { IfOk result (λ c. outcome (trials problem.now c) ≡ Acceptance) }
    ensures version { IfOk result (λ c. c.version ≡ Two) }
    ensures fault { IfErr result (IsUnsolved true problem.now split_limit pivot_limit) }
    ensures shows { IfErr result (λ u. IfSome u.shown (Passes problem.now)) }
    ensures derived { IfErr result (λ u. IfSome u.shown (λ c. c.derived ≡ [])) }
    ensures unlimited { pivot_limit ≡ 0 → IfErr result (λ u. IsNotByPivots u.fault) }
{
    let row_columns = extension.forms.as_slice().len();
    match solve_with_workers(
        rt,
        alloc,
        &extension.problem,
        row_columns,
        split_limit,
        pivot_limit,
        workers,
        gate,
    ) {
        Ok(found) => from_found(
            rt,
            alloc,
            problem,
            extension,
            &found,
            split_limit,
            pivot_limit,
            workers,
            gate,
        ),
        Err(fault) => Err(without_row_columns(
            alloc,
            problem,
            extension,
            split_limit,
            pivot_limit,
            fault,
        )),
    }
}

// What is found of the problem with row columns, restored; or else the problem itself is searched.
fn from_found<R: Threads + Sync, G: Gate + Sync>(
    rt: &R,
    alloc: Global,
    problem: &Instance,
    extension: &Extension,
    found: &Certificate,
    split_limit: usize,
    pivot_limit: u32,
    workers: u32,
    gate: &G,
) -> Result<Certificate, Unsolved>
    requires forms { AreRowForms problem.now problem.now.rows extension.now.forms }
    requires extended { IsExtended problem.now extension.now.forms extension.now.problem }
    requires proves_found { Proves extension.now.problem found.now }
    requires accepted_found { outcome (trials extension.now.problem found.now) ≡ Acceptance }
    requires version_found { found.now.version ≡ Two }
    requires splits { IsBySplitsOfColumns found.now }
    ensures proves { IfOk result (λ c. Proves problem.now c) }
    ensures accepted { IfOk result (λ c. outcome (trials problem.now c) ≡ Acceptance) }
    ensures version { IfOk result (λ c. c.version ≡ Two) }
    ensures fault { IfErr result (IsUnsolved true problem.now split_limit pivot_limit) }
    ensures shows { IfErr result (λ u. IfSome u.shown (Passes problem.now)) }
    ensures derived { IfErr result (λ u. IfSome u.shown (λ c. c.derived ≡ [])) }
    ensures unlimited { pivot_limit ≡ 0 → IfErr result (λ u. IsNotByPivots u.fault) }
{
    let restored = restore(alloc, problem, &extension.forms, found)?;
    match check(alloc, problem, &restored) {
        Ok(Checked::Accepted) => Ok(restored),
        Ok(Checked::Refused(_)) => solved_itself(
            rt,
            alloc,
            problem,
            split_limit,
            pivot_limit,
            workers,
            gate,
        ),
        Err(_) => solved_itself(rt, alloc, problem, split_limit, pivot_limit, workers, gate),
    }
}
