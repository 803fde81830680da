// What stands at each column of a problem: its cost, and what the forms of the bounds have there that a point reaches.
ghost use Rattle.std.specs.Prelude.{◌≡◌, ◌≤◌, ◌++◌, length, IfOk, OnOk};
ghost use Rattle.verdicts.specs.WeightedSums.{coefficient_of};
ghost use Rattle.exact_ranges.specs.Reached.{AllAscend};
ghost use Rattle.exact_ranges.specs.CostParts.{entries_from, at_column, table_from};

use crate::forms::{add_unless_zero, coefficient};
use fraction::Frac;
use instance::{Column, Entries, Instance, signed};
use std::alloc::{AllocError, Global};

/// What stands at a column: its cost, negated where the greatest value is wanted, and what the forms have there, of which
/// the first is column 1.
#[derive(Drop)]
pub(crate) struct AtColumn {
    pub(crate) cost: Frac,
    pub(crate) weights: Entries,
}

/// What stands at each column.
pub(crate) fn table(
    alloc: Global,
    problem: &Instance,
    forms: &[Entries],
) -> Result<Vec<AtColumn>, AllocError>
    requires ascending { AllAscend forms.now }
    requires few { length forms.now ≤ 4000000 }
    ensures { IfOk result (λ table. table.items ≡ table_from problem.now forms.now 0 problem.now.columns) }
{
    problem.keeps_its_limits();
    let mut table = Vec::new(alloc);
    add_columns(alloc, &mut table, problem, forms, problem.columns())?;
    Ok(table)
}

fn add_columns(
    alloc: Global,
    table: &mut Vec<AtColumn>,
    problem: &Instance,
    forms: &[Entries],
    columns: &[Column],
) -> Result<(), AllocError>
    requires ascending { AllAscend forms.now }
    requires few { length forms.now ≤ 4000000 }
    requires few_columns { length columns.now ≤ 1000000 }
    ensures { OnOk result (table.new.items ≡ table.old.items ++ table_from problem.now forms.now 0 columns.now) }
{
    let mut place = 0;
    for _column in columns {
        table.push(at_column(alloc, problem, forms, place)?)?;
        place += 1;
    }
    Ok(())
}

fn at_column(
    alloc: Global,
    problem: &Instance,
    forms: &[Entries],
    column: u32,
) -> Result<AtColumn, AllocError>
    requires ascending { AllAscend forms.now }
    requires few { length forms.now ≤ 4000000 }
    ensures { IfOk result (λ made. made ≡ at_column problem.now forms.now column) }
{
    let cost = signed(problem.direction(), cost_of(problem, column));
    let weights = entries_at(alloc, forms, column)?;
    Ok(AtColumn { cost, weights })
}

fn cost_of(problem: &Instance, column: u32) -> Frac
    ensures { result ≡ coefficient_of problem.now.objective column }
{
    problem.keeps_its_limits();
    coefficient(problem.objective().as_slice(), column)
}

// What each form has at a column.
fn entries_at(alloc: Global, forms: &[Entries], column: u32) -> Result<Entries, AllocError>
    requires ascending { AllAscend forms.now }
    requires few { length forms.now ≤ 4000000 }
    ensures { IfOk result (λ entries. entries ≡ entries_from column 1 forms.now) }
{
    let mut entries = Vec::new(alloc);
    let mut place = 1;
    for form in forms {
        add_unless_zero(&mut entries, place, coefficient(form.as_slice(), column))?;
        place += 1;
    }
    Ok(Entries::from_vec(entries))
}
