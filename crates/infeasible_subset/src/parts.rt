// A problem with some of its bounds alone.
ghost use Rattle.std.specs.Prelude.{◌≡◌, ◌++◌, ◌<◌, [], ◌∷◌, false, length, IsTrue, IfOk, OnOk};
ghost use Rattle.rational.specs.Rational.{zero_ℚ};
ghost use Rattle.instance.specs.WellFormed.{has_column, has_row, are_entries};
ghost use Rattle.infeasible_subset.specs.Members.{Member as MemberOf, Side as SideOf, OfRow, OfColumn, has};
ghost use Rattle.infeasible_subset.specs.Subsets.{kept_if, sub_row, sub_rows, sub_column, sub_columns, sub};
ghost use Rattle.infeasible_subset.specs.Building.{AreNewRows, AreNewColumns, AreForms};

use crate::member::has;
use crate::{Member, Side};
use fraction::Frac;
use instance::{Builder, Column, Entries, Instance, Row};
use std::alloc::{AllocError, Global};

/// The problem with the bounds of these members alone, and without an objective.
pub(crate) fn sub_problem(
    alloc: Global,
    problem: &Instance,
    members: &[Member],
) -> Result<Instance, AllocError>
    ensures { IfOk result (λ made. made ≡ sub problem.now (has members.now)) }
{
    problem.keeps_its_limits();
    let mut builder = Builder::new(alloc)?;
    add_columns(alloc, &mut builder, problem.columns(), members)?;
    add_rows(alloc, &mut builder, problem.rows(), members)?;
    let name = problem.objective_name().copy(alloc)?;
    builder.objective(problem.direction(), name, Entries::new(alloc), Frac::zero());
    Ok(builder.done())
}

fn add_columns(
    alloc: Global,
    builder: &mut Builder,
    columns: &[Column],
    members: &[Member],
) -> Result<(), AllocError>
    requires none { builder.old.columns ≡ [] }
    requires new { AreNewColumns columns.now }
    ensures { OnOk result (builder.new ≡ record builder.old { columns = sub_columns (λ j s. has members.now (OfColumn j s)) columns.now }) }
{
    let mut place = 0;
    for column in columns {
        let made = sub_column(alloc, column, place, members)?;
        add_column(builder, made)?;
        place += 1;
    }
    Ok(())
}

fn add_rows(
    alloc: Global,
    builder: &mut Builder,
    rows: &[Row],
    members: &[Member],
) -> Result<(), AllocError>
    requires none { builder.old.rows ≡ [] }
    requires new { AreNewRows rows.now }
    requires forms { AreForms (length builder.old.columns) rows.now }
    ensures { OnOk result (builder.new ≡ record builder.old { rows = sub_rows (λ i s. has members.now (OfRow i s)) rows.now }) }
{
    let mut place = 0;
    for row in rows {
        let made = sub_row(alloc, row, place, members)?;
        add_row(builder, made)?;
        place += 1;
    }
    Ok(())
}

// The limits are those of the problem, which is an instance itself: that one is passed is told as want of memory.
fn add_column(builder: &mut Builder, column: Column) -> Result<(), AllocError>
    requires { has_column column.name builder.old.columns ≡ false }
    ensures { OnOk result (builder.new ≡ record builder.old { columns = builder.old.columns ++ column ∷ [] }) }
{
    match builder.column(column).ok() {
        Some(_) => Ok(()),
        None => Err(AllocError),
    }
}

fn add_row(builder: &mut Builder, row: Row) -> Result<(), AllocError>
    requires name { has_row row.name builder.old.rows ≡ false }
    requires entries { IsTrue (are_entries (length builder.old.columns) row.entries) }
    ensures { OnOk result (builder.new ≡ record builder.old { rows = builder.old.rows ++ row ∷ [] }) }
{
    match builder.row(row).ok() {
        Some(_) => Ok(()),
        None => Err(AllocError),
    }
}

fn sub_column(
    alloc: Global,
    column: &Column,
    place: usize,
    members: &[Member],
) -> Result<Column, AllocError>
    ensures { IfOk result (λ made. made ≡ sub_column (λ s. has members.now (OfColumn place s)) column.now) }
{
    let name = column.name().copy(alloc)?;
    let lower = kept_if(
        has(members, &Member::OfColumn(place, Side::Lower)),
        column.lower(),
    );
    let upper = kept_if(
        has(members, &Member::OfColumn(place, Side::Upper)),
        column.upper(),
    );
    Ok(Column::new(name, lower, upper, column.integer()))
}

fn sub_row(alloc: Global, row: &Row, place: usize, members: &[Member]) -> Result<Row, AllocError>
    ensures { IfOk result (λ made. made ≡ sub_row (λ s. has members.now (OfRow place s)) row.now) }
{
    let name = row.name().copy(alloc)?;
    let entries = row.entries().copy(alloc)?;
    let lower = kept_if(
        has(members, &Member::OfRow(place, Side::Lower)),
        row.lower(),
    );
    let upper = kept_if(
        has(members, &Member::OfRow(place, Side::Upper)),
        row.upper(),
    );
    Ok(Row::new(name, lower, upper, entries))
}

fn kept_if(kept: bool, bound: Option<Frac>) -> Option<Frac>
    ensures { result ≡ kept_if kept bound }
{
    if kept { bound } else { None }
}
