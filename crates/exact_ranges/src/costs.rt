// The ranges of costs.
ghost use Rattle.std.specs.Prelude.{◌≡◌, ◌<◌, ◌++◌, ◌∷◌, [], length, IfOk, IfErr, OnOk};
ghost use Rattle.branch_search.specs.Plain.{NoneInteger};
ghost use Rattle.exact_ranges.specs.ShownBest.{best_point, best_weights, IsShownBest};
ghost use Rattle.exact_ranges.specs.Reached.{reached};
ghost use Rattle.exact_ranges.specs.CostParts.{cost_columns, table_from, rows_from};
ghost use Rattle.exact_ranges.specs.Ends.{HasCostEnd};
ghost use Rattle.exact_ranges.specs.Ranges.{IsCostRange, AreCostRanges};
ghost use Rattle.exact_ranges.specs.Faults.{IsFault, IsNotByPivots};

use crate::best::best_point;
use crate::cost_rows::{cost_columns, cost_rows};
use crate::reached::reached;
use crate::table::{AtColumn, table};
use crate::verdict::best_number;
use crate::{End, Range, RangeFault, Sought};
use candidate::Proposer;
use certificate::Certificate;
use fraction::Frac;
use instance::{Column, Entries, Instance, Row};
use ranging::{
    auxiliaries_have_points, cost_auxiliaries_show_costs, cost_ranges as ends_are_ranges,
    optima_show_cost_ends,
};
use std::alloc::{AllocError, Global};

/// The range of the cost of each column.
pub(crate) fn cost_ranges(
    alloc: Global,
    problem: &Instance,
    certificate: &Certificate,
    pivot_limit: u32,
    proposer: &mut Proposer,
) -> Result<Vec<Range>, RangeFault>
    requires continuous { NoneInteger problem.now.columns }
    requires best { IsShownBest problem.now (best_point certificate.now) (best_weights certificate.now) }
    ensures count { IfOk result (λ ranges. length ranges.items ≡ length problem.now.columns) }
    ensures ranges { IfOk result (λ ranges. AreCostRanges problem.now (best_point certificate.now) ranges.items) }
    ensures fault { IfErr result (IsFault problem.now (best_point certificate.now) (best_weights certificate.now) pivot_limit) }
    ensures unlimited { pivot_limit ≡ 0 → IfErr result IsNotByPivots }
{
    let forms = reached(alloc, problem, best_point(certificate))?;
    with_forms(alloc, problem, certificate, &forms, pivot_limit, proposer)
}

// The same, with the forms of the bounds that the point reaches.
fn with_forms(
    alloc: Global,
    problem: &Instance,
    certificate: &Certificate,
    forms: &[Entries],
    pivot_limit: u32,
    proposer: &mut Proposer,
) -> Result<Vec<Range>, RangeFault>
    requires continuous { NoneInteger problem.now.columns }
    requires best { IsShownBest problem.now (best_point certificate.now) (best_weights certificate.now) }
    requires forms { forms.now ≡ reached problem.now (best_point certificate.now) }
    ensures count { IfOk result (λ ranges. length ranges.items ≡ length problem.now.columns) }
    ensures ranges { IfOk result (λ ranges. AreCostRanges problem.now (best_point certificate.now) ranges.items) }
    ensures fault { IfErr result (IsFault problem.now (best_point certificate.now) (best_weights certificate.now) pivot_limit) }
    ensures unlimited { pivot_limit ≡ 0 → IfErr result IsNotByPivots }
{
    problem.keeps_its_limits();
    let columns = cost_columns(alloc, forms)?;
    let table = table(alloc, problem, forms)?;
    each_range(
        alloc,
        problem,
        certificate,
        &columns,
        &table,
        pivot_limit,
        proposer,
    )
}

fn each_range(
    alloc: Global,
    problem: &Instance,
    certificate: &Certificate,
    columns: &[Column],
    table: &[AtColumn],
    pivot_limit: u32,
    proposer: &mut Proposer,
) -> Result<Vec<Range>, RangeFault>
    requires continuous { NoneInteger problem.now.columns }
    requires best { IsShownBest problem.now (best_point certificate.now) (best_weights certificate.now) }
    requires columns { columns.now ≡ cost_columns (reached problem.now (best_point certificate.now)) }
    requires table { table.now ≡ table_from problem.now (reached problem.now (best_point certificate.now)) 0 problem.now.columns }
    ensures count { IfOk result (λ ranges. length ranges.items ≡ length problem.now.columns) }
    ensures ranges { IfOk result (λ ranges. AreCostRanges problem.now (best_point certificate.now) ranges.items) }
    ensures fault { IfErr result (IsFault problem.now (best_point certificate.now) (best_weights certificate.now) pivot_limit) }
    ensures unlimited { pivot_limit ≡ 0 → IfErr result IsNotByPivots }
{
    let mut ranges = Vec::new(alloc);
    for column in 0..problem.columns().len() {
        let range = cost_range(
            alloc,
            problem,
            certificate,
            columns,
            table,
            column,
            pivot_limit,
            proposer,
        )?;
        add(&mut ranges, range.low, range.high)?;
    }
    Ok(ranges)
}

fn add(ranges: &mut Vec<Range>, low: Option<Frac>, high: Option<Frac>) -> Result<(), AllocError>
    ensures { OnOk result (ranges.new.items ≡ ranges.old.items ++ record { low = low; high = high } ∷ []) }
{
    ranges.reserve(1)?;
    ranges.push_reserved(Range { low, high });
    Ok(())
}

fn cost_range(
    alloc: Global,
    problem: &Instance,
    certificate: &Certificate,
    columns: &[Column],
    table: &[AtColumn],
    column: usize,
    pivot_limit: u32,
    proposer: &mut Proposer,
) -> Result<Range, RangeFault>
    requires continuous { NoneInteger problem.now.columns }
    requires best { IsShownBest problem.now (best_point certificate.now) (best_weights certificate.now) }
    requires columns { columns.now ≡ cost_columns (reached problem.now (best_point certificate.now)) }
    requires table { table.now ≡ table_from problem.now (reached problem.now (best_point certificate.now)) 0 problem.now.columns }
    requires column { column < length problem.now.columns }
    ensures range { IfOk result (IsCostRange problem.now (best_point certificate.now) column) }
    ensures fault { IfErr result (IsFault problem.now (best_point certificate.now) (best_weights certificate.now) pivot_limit) }
    ensures unlimited { pivot_limit ≡ 0 → IfErr result IsNotByPivots }
{
    let rows = cost_rows(alloc, problem.direction(), column, table)?;
    let low = cost_end(
        alloc,
        problem,
        certificate,
        columns,
        &rows,
        column,
        End::Least,
        pivot_limit,
        proposer,
    )?;
    let high = cost_end(
        alloc,
        problem,
        certificate,
        columns,
        &rows,
        column,
        End::Greatest,
        pivot_limit,
        proposer,
    )?;
    Ok(between(problem, certificate, column, low, high))
}

// The range between its ends.
fn between(
    problem: &Instance,
    certificate: &Certificate,
    column: usize,
    low: Option<Frac>,
    high: Option<Frac>,
) -> Range
    requires best { IsShownBest problem.now (best_point certificate.now) (best_weights certificate.now) }
    requires column { column < length problem.now.columns }
    requires low { HasCostEnd problem.now (best_point certificate.now) column End.Least low }
    requires high { HasCostEnd problem.now (best_point certificate.now) column End.Greatest high }
    ensures { IsCostRange problem.now (best_point certificate.now) column result }
{
    problem.keeps_its_limits();
    auxiliaries_have_points();
    cost_auxiliaries_show_costs();
    ends_are_ranges();
    Range { low, high }
}

fn cost_end(
    alloc: Global,
    problem: &Instance,
    certificate: &Certificate,
    columns: &[Column],
    rows: &[Row],
    column: usize,
    end: End,
    pivot_limit: u32,
    proposer: &mut Proposer,
) -> Result<Option<Frac>, RangeFault>
    requires continuous { NoneInteger problem.now.columns }
    requires best { IsShownBest problem.now (best_point certificate.now) (best_weights certificate.now) }
    requires columns { columns.now ≡ cost_columns (reached problem.now (best_point certificate.now)) }
    requires rows { rows.now ≡ rows_from problem.now.direction column 0 (table_from problem.now (reached problem.now (best_point certificate.now)) 0 problem.now.columns) }
    requires column { column < length problem.now.columns }
    ensures end { IfOk result (HasCostEnd problem.now (best_point certificate.now) column end) }
    ensures fault { IfErr result (IsFault problem.now (best_point certificate.now) (best_weights certificate.now) pivot_limit) }
    ensures unlimited { pivot_limit ≡ 0 → IfErr result IsNotByPivots }
{
    problem.keeps_its_limits();
    auxiliaries_have_points();
    optima_show_cost_ends();
    cost_auxiliaries_show_costs();
    let sought = Sought::OfCost(column, end);
    best_number(alloc, columns, rows, 0, &sought, pivot_limit, proposer)
}
