// The ranges of bounds.
ghost use Rattle.std.specs.Prelude.{◌≡◌, ◌↔◌, ◌<◌, ◌++◌, ◌∷◌, [], length, option_and_then, slice_get, IfOk, IfErr, IfSome, OnOk};
ghost use Rattle.rational.specs.Rational.{Rational};
ghost use Rattle.milp.specs.Points.{IsWithin};
ghost use Rattle.branch_search.specs.Plain.{NoneInteger};
ghost use Rattle.ranging.specs.BoundRanges.{bound_of, InBoundRange};
ghost use Rattle.exact_ranges.specs.ShownBest.{best_point, best_weights, IsShownBest};
ghost use Rattle.exact_ranges.specs.Sought.{side_of, HasBound};
ghost use Rattle.exact_ranges.specs.BoundParts.{used_of, bound_columns, bound_rows, IsUsed};
ghost use Rattle.exact_ranges.specs.Ends.{HasBoundEnd};
ghost use Rattle.exact_ranges.specs.Ranges.{IsBoundRange, AreRangesOf, AreBoundRanges};
ghost use Rattle.exact_ranges.specs.Faults.{IsFault, IsNotByPivots};

use crate::bound_ends::bound_end;
use crate::bound_rows::{bound_columns, bound_rows};
use crate::used::{Used, used_at};
use crate::{End, Range, RangeFault, RowRanges, Side};
use candidate::Proposer;
use certificate::Certificate;
use fraction::Frac;
use instance::{Column, Instance, Row};
use ranging::bound_ranges as ends_are_ranges;
use std::alloc::{AllocError, Global};

/// The ranges of the bounds of each row.
pub(crate) fn bound_ranges(
    alloc: Global,
    problem: &Instance,
    certificate: &Certificate,
    pivot_limit: u32,
    proposer: &mut Proposer,
) -> Result<Vec<RowRanges>, RangeFault>
    requires continuous { NoneInteger problem.now.columns }
    requires best { IsShownBest problem.now (best_point certificate.now) (best_weights certificate.now) }
    ensures count { IfOk result (λ ranges. length ranges.items ≡ length problem.now.rows) }
    ensures ranges { IfOk result (λ ranges. AreBoundRanges problem.now (best_point certificate.now) (best_weights certificate.now) ranges.items) }
    ensures fault { IfErr result (IsFault problem.now (best_point certificate.now) (best_weights certificate.now) pivot_limit) }
    ensures unlimited { pivot_limit ≡ 0 → IfErr result IsNotByPivots }
{
    let columns = bound_columns(alloc, problem)?;
    let mut ranges = Vec::new(alloc);
    for row in 0..problem.rows().len() {
        let made = row_ranges(
            alloc,
            problem,
            certificate,
            &columns,
            row,
            pivot_limit,
            proposer,
        )?;
        add(&mut ranges, made.lower, made.upper)?;
    }
    Ok(ranges)
}

fn add(
    ranges: &mut Vec<RowRanges>,
    lower: Option<Range>,
    upper: Option<Range>,
) -> Result<(), AllocError>
    ensures { OnOk result (ranges.new.items ≡ ranges.old.items ++ record { lower = lower; upper = upper } ∷ []) }
{
    ranges.reserve(1)?;
    ranges.push_reserved(RowRanges { lower, upper });
    Ok(())
}

fn row_ranges(
    alloc: Global,
    problem: &Instance,
    certificate: &Certificate,
    columns: &[Column],
    row: usize,
    pivot_limit: u32,
    proposer: &mut Proposer,
) -> Result<RowRanges, RangeFault>
    requires continuous { NoneInteger problem.now.columns }
    requires best { IsShownBest problem.now (best_point certificate.now) (best_weights certificate.now) }
    requires columns { columns.now ≡ bound_columns problem.now }
    requires row { row < length problem.now.rows }
    ensures ranges { IfOk result (λ made. IfSome (slice_get problem.now.rows row) (λ r. AreRangesOf problem.now (best_point certificate.now) (best_weights certificate.now) row r made)) }
    ensures fault { IfErr result (IsFault problem.now (best_point certificate.now) (best_weights certificate.now) pivot_limit) }
    ensures unlimited { pivot_limit ≡ 0 → IfErr result IsNotByPivots }
{
    let lower = range_on(
        alloc,
        problem,
        certificate,
        columns,
        row,
        Side::Lower,
        pivot_limit,
        proposer,
    )?;
    let upper = range_on(
        alloc,
        problem,
        certificate,
        columns,
        row,
        Side::Upper,
        pivot_limit,
        proposer,
    )?;
    Ok(RowRanges { lower, upper })
}

// The range of the row's bound on this side, where it is there.
fn range_on(
    alloc: Global,
    problem: &Instance,
    certificate: &Certificate,
    columns: &[Column],
    row: usize,
    side: Side,
    pivot_limit: u32,
    proposer: &mut Proposer,
) -> Result<Option<Range>, RangeFault>
    requires continuous { NoneInteger problem.now.columns }
    requires best { IsShownBest problem.now (best_point certificate.now) (best_weights certificate.now) }
    requires columns { columns.now ≡ bound_columns problem.now }
    requires row { row < length problem.now.rows }
    ensures range { IfOk result (λ made. IfSome (slice_get problem.now.rows row) (λ r. IsBoundRange problem.now (best_point certificate.now) (best_weights certificate.now) row (side_of side) (bound_of (side_of side) r) made)) }
    ensures fault { IfErr result (IsFault problem.now (best_point certificate.now) (best_weights certificate.now) pivot_limit) }
    ensures unlimited { pivot_limit ≡ 0 → IfErr result IsNotByPivots }
{
    let rows = problem.rows();
    let bounded = &rows[row];
    let bound = bound_on(bounded, side);
    side_range(
        alloc,
        problem,
        certificate,
        columns,
        row,
        side,
        bound,
        pivot_limit,
        proposer,
    )
}

fn bound_on(row: &Row, side: Side) -> Option<Frac>
    ensures { result ≡ bound_of (side_of side) row.now }
{
    match side {
        Side::Lower => row.lower(),
        Side::Upper => row.upper(),
    }
}

fn side_range(
    alloc: Global,
    problem: &Instance,
    certificate: &Certificate,
    columns: &[Column],
    row: usize,
    side: Side,
    bound: Option<Frac>,
    pivot_limit: u32,
    proposer: &mut Proposer,
) -> Result<Option<Range>, RangeFault>
    requires continuous { NoneInteger problem.now.columns }
    requires best { IsShownBest problem.now (best_point certificate.now) (best_weights certificate.now) }
    requires columns { columns.now ≡ bound_columns problem.now }
    requires bound { option_and_then (bound_of (side_of side)) (slice_get problem.now.rows row) ≡ bound }
    ensures range { IfOk result (IsBoundRange problem.now (best_point certificate.now) (best_weights certificate.now) row (side_of side) bound) }
    ensures fault { IfErr result (IsFault problem.now (best_point certificate.now) (best_weights certificate.now) pivot_limit) }
    ensures unlimited { pivot_limit ≡ 0 → IfErr result IsNotByPivots }
{
    match bound {
        None => Ok(None),
        Some(bound) => range_at(
            alloc,
            problem,
            certificate,
            columns,
            row,
            side,
            bound,
            pivot_limit,
            proposer,
        ),
    }
}

fn range_at(
    alloc: Global,
    problem: &Instance,
    certificate: &Certificate,
    columns: &[Column],
    row: usize,
    side: Side,
    bound: Frac,
    pivot_limit: u32,
    proposer: &mut Proposer,
) -> Result<Option<Range>, RangeFault>
    requires continuous { NoneInteger problem.now.columns }
    requires best { IsShownBest problem.now (best_point certificate.now) (best_weights certificate.now) }
    requires columns { columns.now ≡ bound_columns problem.now }
    requires bound { HasBound problem.now row side bound }
    ensures range { IfOk result (IsBoundRange problem.now (best_point certificate.now) (best_weights certificate.now) row (side_of side) (Some bound)) }
    ensures fault { IfErr result (IsFault problem.now (best_point certificate.now) (best_weights certificate.now) pivot_limit) }
    ensures unlimited { pivot_limit ≡ 0 → IfErr result IsNotByPivots }
{
    match used_at(problem, certificate, row, side, bound) {
        Ok(used) => {
            let range = range_of(
                alloc,
                problem,
                certificate,
                columns,
                used,
                pivot_limit,
                proposer,
            )?;
            Ok(Some(range))
        }
        Err(fault) => Err(RangeFault::Weight(row, side, fault)),
    }
}

fn range_of(
    alloc: Global,
    problem: &Instance,
    certificate: &Certificate,
    columns: &[Column],
    used: Used,
    pivot_limit: u32,
    proposer: &mut Proposer,
) -> Result<Range, RangeFault>
    requires continuous { NoneInteger problem.now.columns }
    requires best { IsShownBest problem.now (best_point certificate.now) (best_weights certificate.now) }
    requires columns { columns.now ≡ bound_columns problem.now }
    requires used { IsUsed problem.now (best_point certificate.now) (best_weights certificate.now) used }
    ensures range { IfOk result (λ range. (t : Rational) → IsWithin range.low range.high t ↔ InBoundRange problem.now (used_of used) t) }
    ensures fault { IfErr result (IsFault problem.now (best_point certificate.now) (best_weights certificate.now) pivot_limit) }
    ensures unlimited { pivot_limit ≡ 0 → IfErr result IsNotByPivots }
{
    let rows = bound_rows(alloc, problem, &used)?;
    let low = bound_end(
        alloc,
        problem,
        certificate,
        columns,
        &rows,
        &used,
        End::Least,
        pivot_limit,
        proposer,
    )?;
    let high = bound_end(
        alloc,
        problem,
        certificate,
        columns,
        &rows,
        &used,
        End::Greatest,
        pivot_limit,
        proposer,
    )?;
    Ok(between(problem, &used, low, high))
}

// The range between its ends.
fn between(problem: &Instance, used: &Used, low: Option<Frac>, high: Option<Frac>) -> Range
    requires continuous { NoneInteger problem.now.columns }
    requires low { HasBoundEnd problem.now (used_of used.now) End.Least low }
    requires high { HasBoundEnd problem.now (used_of used.now) End.Greatest high }
    ensures { (t : Rational) → IsWithin result.low result.high t ↔ InBoundRange problem.now (used_of used.now) t }
{
    ends_are_ranges();
    Range { low, high }
}
