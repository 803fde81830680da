// Problems of columns and rows that are named by their places.
ghost use Rattle.std.specs.Prelude.{ℕ, ◌≡◌, ◌<◌, ◌≤◌, ◌+◌, ◌++◌, ◌∷◌, [], false, true, length, nat_lt, IsTrue, IfOk, IfErr, OnOk};
ghost use Rattle.milp.specs.Problem.{Row as RowOf};
ghost use Rattle.instance.specs.WellFormed.{has_column, has_row, are_entries, entry_count};
ghost use Rattle.ranging.specs.PlaceNames.{column_name, row_name, named_columns, named_rows};
ghost use Rattle.exact_ranges.specs.Faults.{is_too_large};
ghost use Rattle.exact_ranges.specs.Reached.{unit_form};
ghost use Rattle.exact_ranges.specs.Parts.{AreForms, problem_of};

use crate::forms::unit_form;
use fraction::Frac;
use instance::{
    BuildFault, Builder, Column, Entries, Instance, MAX_COLUMNS, MAX_ENTRIES, MAX_ROWS, Name, Row,
};
use milp::Direction;
use ranging::names_by_place;
use std::alloc::{AllocError, Global};

/// The problem of these columns and rows, named by their places, of which the number of one column is wanted. `TooMany`
/// comes where they are more than an instance takes.
pub(crate) fn problem_of(
    alloc: Global,
    columns: &[Column],
    rows: &[Row],
    wanted: Direction,
    column: u32,
) -> Result<Instance, BuildFault>
    requires forms { AreForms (length columns.now) rows.now }
    requires column { column < length columns.now }
    ensures made { IfOk result (λ made. made ≡ problem_of columns.now rows.now wanted column) }
    ensures too_large { IfErr result (λ e. e ≡ BuildFault.TooMany → IsTrue (is_too_large columns.now rows.now)) }
{
    if is_too_large(columns, rows) {
        return Err(BuildFault::TooMany);
    }
    match built(alloc, columns, rows, wanted, column) {
        Ok(made) => Ok(made),
        Err(_) => Err(BuildFault::NoMemory),
    }
}

fn is_too_large(columns: &[Column], rows: &[Row]) -> bool
    ensures { result ≡ is_too_large columns.now rows.now }
{
    columns.len() > MAX_COLUMNS || rows.len() > MAX_ROWS || has_too_many_entries(rows)
}

fn has_too_many_entries(rows: &[Row]) -> bool
    ensures { result ≡ nat_lt 20000000 (entry_count rows.now) }
{
    let mut count = 0;
    for row in rows {
        let more = row.entries().as_slice().len();
        if more > MAX_ENTRIES || count > MAX_ENTRIES - more {
            return true;
        }
        count += more;
    }
    false
}

fn built(
    alloc: Global,
    columns: &[Column],
    rows: &[Row],
    wanted: Direction,
    column: u32,
) -> Result<Instance, AllocError>
    requires small { is_too_large columns.now rows.now ≡ false }
    requires forms { AreForms (length columns.now) rows.now }
    requires column { column < length columns.now }
    ensures { IfOk result (λ made. made ≡ problem_of columns.now rows.now wanted column) }
{
    let mut builder = Builder::new(alloc)?;
    add_columns(alloc, &mut builder, columns)?;
    add_rows(alloc, &mut builder, rows)?;
    let name = Name::new(alloc, "")?;
    let entries = unit_form(alloc, column)?;
    let form = Entries::from_vec(entries);
    builder.objective(wanted, name, form, Frac::zero());
    Ok(builder.done())
}

fn add_columns(alloc: Global, builder: &mut Builder, columns: &[Column]) -> Result<(), AllocError>
    requires none { builder.old.columns ≡ [] }
    requires few { length columns.now ≤ 1000000 }
    ensures { OnOk result (builder.new ≡ record builder.old { columns = named_columns 0 columns.now }) }
{
    names_by_place();
    let mut place = 0;
    for column in columns {
        let made = named_column(alloc, column, place)?;
        add_column(builder, made)?;
        place += 1;
    }
    Ok(())
}

fn add_rows(alloc: Global, builder: &mut Builder, rows: &[Row]) -> Result<(), AllocError>
    requires none { builder.old.rows ≡ [] }
    requires few { length rows.now ≤ 1000000 }
    requires forms { AreForms (length builder.old.columns) rows.now }
    ensures { OnOk result (builder.new ≡ record builder.old { rows = named_rows 0 rows.now }) }
{
    names_by_place();
    let mut place = 0;
    for row in rows {
        let made = named_row(alloc, row, place)?;
        add_row(builder, made)?;
        place += 1;
    }
    Ok(())
}

// That a limit is passed has been asked before: here it is told as want of memory.
fn add_column(builder: &mut Builder, column: Column) -> Result<(), AllocError>
    requires { has_column column.name builder.old.columns ≡ false }
    ensures { OnOk result (builder.new ≡ record builder.old { columns = builder.old.columns ++ column ∷ [] }) }
{
    match builder.column(column).ok() {
        Some(_) => Ok(()),
        None => Err(AllocError),
    }
}

fn add_row(builder: &mut Builder, row: Row) -> Result<(), AllocError>
    requires name { has_row row.name builder.old.rows ≡ false }
    requires entries { IsTrue (are_entries (length builder.old.columns) row.entries) }
    ensures { OnOk result (builder.new ≡ record builder.old { rows = builder.old.rows ++ row ∷ [] }) }
{
    match builder.row(row).ok() {
        Some(_) => Ok(()),
        None => Err(AllocError),
    }
}

fn named_column(alloc: Global, column: &Column, place: usize) -> Result<Column, AllocError>
    requires { place < 1000000 }
    ensures { IfOk result (λ made. made ≡ record column.now { name = column_name place }) }
{
    let number = place + 1;
    let text = format!(in alloc; "c.{number}")?;
    let name = Name::new(alloc, text.as_str())?;
    Ok(Column::new(name, column.lower(), column.upper(), column.integer()))
}

fn named_row(alloc: Global, row: &Row, place: usize) -> Result<Row, AllocError>
    requires { place < 1000000 }
    ensures { IfOk result (λ made. made ≡ record row.now { name = row_name place }) }
{
    let number = place + 1;
    let text = format!(in alloc; "r.{number}")?;
    let name = Name::new(alloc, text.as_str())?;
    let entries = row.entries().copy(alloc)?;
    Ok(Row::new(name, row.lower(), row.upper(), entries))
}
