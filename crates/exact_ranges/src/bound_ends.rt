// The ends of the range of a bound.
ghost use Rattle.std.specs.Prelude.{ℕ, ◌≡◌, length, IfOk, IfErr};
ghost use Rattle.branch_search.specs.Plain.{NoneInteger};
ghost use Rattle.ranging.specs.BoundAuxiliary.{bound_auxiliary};
ghost use Rattle.exact_ranges.specs.ShownBest.{best_point, best_weights, IsShownBest};
ghost use Rattle.exact_ranges.specs.Sought.{wanted_of};
ghost use Rattle.exact_ranges.specs.BoundParts.{used_of, bound_columns, bound_rows, IsUsed};
ghost use Rattle.exact_ranges.specs.Ends.{IsBestOrNone, HasBoundEnd};
ghost use Rattle.exact_ranges.specs.Faults.{IsFault, IsNotByPivots};

use crate::used::Used;
use crate::verdict::best_number;
use crate::{End, RangeFault, Sought};
use candidate::Proposer;
use certificate::Certificate;
use fraction::Frac;
use instance::{Column, Instance, Row};
use ranging::{auxiliaries_have_points, bound_auxiliaries_show_ends};
use std::alloc::Global;

/// An end of the range of a bound; none where there is no such end.
pub(crate) fn bound_end(
    alloc: Global,
    problem: &Instance,
    certificate: &Certificate,
    columns: &[Column],
    rows: &[Row],
    used: &Used,
    end: End,
    pivot_limit: u32,
    proposer: &mut Proposer,
) -> Result<Option<Frac>, RangeFault>
    requires continuous { NoneInteger problem.now.columns }
    requires best { IsShownBest problem.now (best_point certificate.now) (best_weights certificate.now) }
    requires columns { columns.now ≡ bound_columns problem.now }
    requires rows { rows.now ≡ bound_rows problem.now (used_of used.now) }
    requires used { IsUsed problem.now (best_point certificate.now) (best_weights certificate.now) used.now }
    ensures end { IfOk result (HasBoundEnd problem.now (used_of used.now) end) }
    ensures fault { IfErr result (IsFault problem.now (best_point certificate.now) (best_weights certificate.now) pivot_limit) }
    ensures unlimited { pivot_limit ≡ 0 → IfErr result IsNotByPivots }
{
    let distance = distance(
        alloc,
        problem,
        certificate,
        columns,
        rows,
        used,
        end,
        pivot_limit,
        proposer,
    )?;
    moved(problem, certificate, used, end, distance)
}

// The least or greatest distance that the bound moves.
fn distance(
    alloc: Global,
    problem: &Instance,
    certificate: &Certificate,
    columns: &[Column],
    rows: &[Row],
    used: &Used,
    end: End,
    pivot_limit: u32,
    proposer: &mut Proposer,
) -> Result<Option<Frac>, RangeFault>
    requires continuous { NoneInteger problem.now.columns }
    requires best { IsShownBest problem.now (best_point certificate.now) (best_weights certificate.now) }
    requires columns { columns.now ≡ bound_columns problem.now }
    requires rows { rows.now ≡ bound_rows problem.now (used_of used.now) }
    requires used { IsUsed problem.now (best_point certificate.now) (best_weights certificate.now) used.now }
    ensures best { IfOk result (IsBestOrNone (bound_auxiliary problem.now (used_of used.now) (wanted_of end)) (length problem.now.columns)) }
    ensures fault { IfErr result (IsFault problem.now (best_point certificate.now) (best_weights certificate.now) pivot_limit) }
    ensures unlimited { pivot_limit ≡ 0 → IfErr result IsNotByPivots }
{
    problem.keeps_its_limits();
    auxiliaries_have_points();
    let sought = Sought::OfBound(used.row, used.side, end);
    let column = problem.columns().len() as u32;
    best_number(alloc, columns, rows, column, &sought, pivot_limit, proposer)
}

// The bound, moved by the distance.
fn moved(
    problem: &Instance,
    certificate: &Certificate,
    used: &Used,
    end: End,
    distance: Option<Frac>,
) -> Result<Option<Frac>, RangeFault>
    requires continuous { NoneInteger problem.now.columns }
    requires used { IsUsed problem.now (best_point certificate.now) (best_weights certificate.now) used.now }
    requires distance { IsBestOrNone (bound_auxiliary problem.now (used_of used.now) (wanted_of end)) (length problem.now.columns) distance }
    ensures end { IfOk result (HasBoundEnd problem.now (used_of used.now) end) }
    ensures fault { (pivots : ℕ) → IfErr result (IsFault problem.now (best_point certificate.now) (best_weights certificate.now) pivots) }
    ensures unlimited { IfErr result IsNotByPivots }
{
    problem.keeps_its_limits();
    bound_auxiliaries_show_ends();
    match distance {
        None => Ok(None),
        Some(distance) => match used.bound.add(distance) {
            Ok(bound) => Ok(Some(bound)),
            Err(fault) => Err(RangeFault::MovedBound(used.row, used.side, end, fault)),
        },
    }
}
