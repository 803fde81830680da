// A problem with a row for each cut of a search.
ghost use Rattle.std.specs.Prelude.{◌≡◌, ◌++◌, [], true, length, None, IfSome, IfOk, IfErr, OnOk};
ghost use Rattle.std.specs.List.{list_all, AllByRecursion};
ghost use Rattle.milp.specs.Problem.{Row as RowOf};
ghost use Rattle.verdicts.specs.Certificate.{Derived as DerivedOf};
ghost use Rattle.verdicts.specs.Proves.{in_range};
ghost use Rattle.instance.specs.WellFormed.{are_distinct_rows, are_entries};
ghost use Rattle.instance.specs.declared.builder.BuildFault.TheVariants.{TooMany};
ghost use Rattle.cut_rows.specs.CutProblem.{PassLimits, IsCutProblem, IsTooLarge};
ghost use Rattle.cut_rows.specs.Cutting.{cut_row, cut_rows};

use crate::adding::add_rows;
use certificate::{Derived, DerivedRows};
use instance::{BuildFault, Builder, Instance, Row};
use row_columns::{add_columns, new_name, prefix};
use std::alloc::{AllocError, Global};

// The row of the cut at this place.
fn cut_row(alloc: Global, prefix: &str, cut: &Derived, place: usize) -> Result<Row, AllocError>
    ensures { IfOk result (λ row. row ≡ cut_row prefix.now place cut.now) }
{
    let name = new_name(alloc, prefix, place)?;
    let form = cut.form().copy(alloc)?;
    Ok(Row::new(name, Some(cut.bound()), None, form))
}

// The rows of the cuts.
fn cut_rows(alloc: Global, prefix: &str, cuts: &[Derived]) -> Result<Vec<Row>, AllocError>
    ensures { IfOk result (λ made. made.items ≡ cut_rows prefix.now 0 cuts.now) }
{
    let mut made = Vec::new(alloc);
    for place in 0..cuts.len() {
        let row = cut_row(alloc, prefix, &cuts[place], place)?;
        made.push(row)?;
    }
    Ok(made)
}

// The problem without its rows.
fn without_rows(alloc: Global, problem: &Instance) -> Result<Builder, AllocError>
    ensures { IfOk result (λ made. made ≡ record problem.now { rows = [] }) }
{
    problem.keeps_its_limits();
    let mut builder = Builder::new(alloc)?;
    add_columns(alloc, &mut builder, problem.columns())?;
    let name = problem.objective_name().copy(alloc)?;
    let form = problem.objective().copy(alloc)?;
    builder.objective(problem.direction(), name, form, problem.constant());
    Ok(builder)
}

// The problem's rows, and more behind them.
fn add_all_rows(
    alloc: Global,
    builder: &mut Builder,
    problem: &Instance,
    more: &[Row],
) -> Result<(), BuildFault>
    requires old { builder.old ≡ record problem.now { rows = [] } }
    requires names { are_distinct_rows problem.now.rows more.now ≡ true }
    requires entries { list_all (λ (r : RowOf). are_entries (length problem.now.columns) r.entries) more.now ≡ true }
    ensures ok { OnOk result (builder.new ≡ record problem.now { rows = problem.now.rows ++ more.now }) }
    ensures too_many { IfErr result (λ fault. fault ≡ TooMany → PassLimits (problem.now.rows ++ more.now)) }
{
    problem.keeps_its_limits();
    add_rows(alloc, builder, problem.rows())?;
    add_rows(alloc, builder, more)
}

/// The problem with a row for each of these cuts, behind its own rows; None only where it would have more rows or entries
/// than a problem may.
pub fn with_cuts(
    alloc: Global,
    problem: &Instance,
    cuts: &DerivedRows,
) -> Result<Option<Instance>, AllocError>
    requires { list_all (λ (d : DerivedOf). in_range (length problem.now.columns) d.form) cuts.now ≡ true }
    ensures cut { IfOk result (λ made. IfSome made (IsCutProblem problem.now cuts.now)) }
    ensures too_large { IfOk result (λ made. made ≡ None → IsTooLarge problem.now cuts.now) }
{
    let text = prefix(alloc, problem)?;
    let rows = cut_rows(alloc, text.as_str(), cuts.as_slice())?;
    let mut builder = without_rows(alloc, problem)?;
    match add_all_rows(alloc, &mut builder, problem, &rows) {
        Ok(()) => Ok(Some(builder.done())),
        Err(BuildFault::TooMany) => Ok(None),
        Err(BuildFault::NoMemory) => Err(AllocError),
    }
}
