// The columns and rows of a bound's auxiliary problem.
ghost use Rattle.std.specs.Prelude.{◌≡◌, ◌<◌, ◌++◌, cond, length, IfOk, OnOk};
ghost use Rattle.ranging.specs.BoundAuxiliary.{value_row, less_distance, moved_row, moved_at, without_side};
ghost use Rattle.exact_ranges.specs.Sought.{side_of};
ghost use Rattle.exact_ranges.specs.BoundParts.{used_of, bound_columns, bound_rows, without_at};

use crate::Side;
use crate::cost_rows::free_column;
use crate::forms::{add_unless_zero, signed_form};
use crate::used::Used;
use fraction::Frac;
use instance::{Column, Entries, Entry, Instance, Name, Row};
use std::alloc::{AllocError, Global};

/// The problem's columns, and the distance.
pub(crate) fn bound_columns(alloc: Global, problem: &Instance) -> Result<Vec<Column>, AllocError>
    ensures { IfOk result (λ columns. columns.items ≡ bound_columns problem.now) }
{
    let mut columns = Vec::new(alloc);
    add_copies(alloc, &mut columns, problem.columns())?;
    columns.push(free_column(alloc)?)?;
    Ok(columns)
}

fn add_copies(alloc: Global, made: &mut Vec<Column>, columns: &[Column]) -> Result<(), AllocError>
    ensures { OnOk result (made.new.items ≡ made.old.items ++ columns.now) }
{
    for column in columns {
        made.push(column.copy(alloc)?)?;
    }
    Ok(())
}

/// The row of the value, the row with the moved bound, and the others.
#[tactic(auto, using(crate::proofs::BoundProblems::others_are))]
pub(crate) fn bound_rows(
    alloc: Global,
    problem: &Instance,
    used: &Used,
) -> Result<Vec<Row>, AllocError>
    requires { used.now.row < length problem.now.rows }
    ensures { IfOk result (λ rows. rows.items ≡ bound_rows problem.now (used_of used.now)) }
{
    let mut rows = Vec::new(alloc);
    rows.push(value_row(alloc, problem, used)?)?;
    rows.push(moved_at(alloc, problem, used)?)?;
    add_others(alloc, &mut rows, problem.rows(), used.row, used.side)?;
    Ok(rows)
}

fn value_row(alloc: Global, problem: &Instance, used: &Used) -> Result<Row, AllocError>
    ensures { IfOk result (λ row. row ≡ value_row problem.now (used_of used.now)) }
{
    problem.keeps_its_limits();
    let columns = problem.columns().len() as u32;
    let form = problem.objective().as_slice();
    let mut entries = signed_form(alloc, form, problem.direction())?;
    add_unless_zero(&mut entries, columns, used.weight.neg())?;
    let entries = Entries::from_vec(entries);
    let name = Name::new(alloc, "")?;
    Ok(Row::new(name, Some(used.total), Some(used.total), entries))
}

fn moved_at(alloc: Global, problem: &Instance, used: &Used) -> Result<Row, AllocError>
    requires { used.now.row < length problem.now.rows }
    ensures { IfOk result (λ row. row ≡ moved_at (length problem.now.columns) used.now.row (side_of used.now.side) used.now.bound problem.now.rows) }
{
    problem.keeps_its_limits();
    let columns = problem.columns().len() as u32;
    let rows = problem.rows();
    let place = used.row;
    let row = &rows[place];
    moved_row(alloc, row, columns, used.side, used.bound)
}

fn moved_row(
    alloc: Global,
    row: &Row,
    columns: u32,
    side: Side,
    bound: Frac,
) -> Result<Row, AllocError>
    ensures { IfOk result (λ made. made ≡ moved_row columns (side_of side) bound row.now) }
{
    let name = Name::new(alloc, "")?;
    let entries = less_distance(alloc, row.entries().as_slice(), columns)?;
    match side {
        Side::Lower => Ok(Row::new(name, Some(bound), None, entries)),
        Side::Upper => Ok(Row::new(name, None, Some(bound), entries)),
    }
}

fn less_distance(alloc: Global, form: &[Entry], columns: u32) -> Result<Entries, AllocError>
    ensures { IfOk result (λ entries. entries ≡ less_distance columns form.now) }
{
    let mut entries = form.to_vec(alloc)?;
    entries.push(Entry {
        column: columns,
        coefficient: Frac::whole(-1),
    })?;
    Ok(Entries::from_vec(entries))
}

fn add_others(
    alloc: Global,
    made: &mut Vec<Row>,
    rows: &[Row],
    moved: usize,
    side: Side,
) -> Result<(), AllocError>
    ensures { OnOk result (made.new.items ≡ made.old.items ++ without_at 0 moved (side_of side) rows.now) }
{
    let mut place = 0;
    for row in rows {
        made.push(other_row(alloc, row, place == moved, side)?)?;
        place += 1;
    }
    Ok(())
}

// The row, without its bound on this side where that one is moved.
fn other_row(alloc: Global, row: &Row, is_moved: bool, side: Side) -> Result<Row, AllocError>
    ensures { IfOk result (λ made. made ≡ cond is_moved (without_side (side_of side) row.now) row.now) }
{
    if is_moved {
        without_side(alloc, row, side)
    } else {
        row.copy(alloc)
    }
}

fn without_side(alloc: Global, row: &Row, side: Side) -> Result<Row, AllocError>
    ensures { IfOk result (λ made. made ≡ without_side (side_of side) row.now) }
{
    let name = row.name().copy(alloc)?;
    let entries = row.entries().copy(alloc)?;
    match side {
        Side::Lower => Ok(Row::new(name, None, row.upper(), entries)),
        Side::Upper => Ok(Row::new(name, row.lower(), None, entries)),
    }
}
