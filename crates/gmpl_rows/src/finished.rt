// The problem that the rows so far are.
ghost use Rattle.std.specs.Prelude.{◌≡◌, ◌≢◌, ◌+◌, ◌≤◌, ◌++◌, [], map, length, IsTrue, IfOk, OnOk};
ghost use Rattle.std.specs.List.{list_all};
ghost use Rattle.milp.specs.Problem.{Row as RowOf};
ghost use Rattle.instance.specs.WellFormed.{are_distinct_columns, are_distinct_rows, are_entries, entry_count};
ghost use Rattle.gmpl_rows.specs.Problem.{problem_of, columns_of, column_of, row_with, rows_from, laid_out, aimed_at, plain};
ghost use Rattle.gmpl_rows.specs.Laying.{rows_with, laid_cells};
ghost use Rattle.gmpl_rows.specs.Named.{AreRowsNarrow};
ghost use Rattle.gmpl_member_names.specs.Narrow.{AreNarrow};

use crate::declared::Declared;
use crate::draft::{Draft, ObjectiveRow, RowHead};
use crate::laid::{LaidColumn, lay_out};
use crate::named::row_name;
use crate::row_entries::{RowEntries, lay_all};
use instance::{
    BuildFault, Builder, Entries, Entry, Instance, MAX_COLUMNS, MAX_ENTRIES, MAX_ROWS, Name, Row,
};
use std::alloc::{AllocError, Global};

/// The problem that the rows so far are: columns by statement and then in the order of first demand, of the members that
/// have a coefficient other than 0 in some row.
pub fn finish(alloc: Global, draft: &Draft) -> Result<Instance, AllocError>
    ensures { IfOk result (λ made. made ≡ problem_of draft.now) }
{
    let laid = columns(alloc, draft)?;
    let rows = rows(alloc, draft, &laid)?;
    assembled(alloc, laid, rows, draft.objective_row())
}

fn columns(alloc: Global, draft: &Draft) -> Result<Vec<LaidColumn>, AllocError>
    ensures value { IfOk result (λ laid. laid.items ≡ laid_out draft.now.objects draft.now.variables) }
    ensures few { length (laid_out draft.now.objects draft.now.variables) ≤ MAX_COLUMNS }
    ensures cells { laid_cells (laid_out draft.now.objects draft.now.variables) ≤ MAX_ENTRIES }
    ensures new { OnOk result (IsTrue (are_distinct_columns [] (columns_of draft.now))) }
{
    lay_out(alloc, draft.objects(), draft.demanded())
}

fn rows(alloc: Global, draft: &Draft, laid: &[LaidColumn]) -> Result<Vec<Row>, AllocError>
    requires columns { length laid.now ≤ MAX_COLUMNS }
    requires cells { laid_cells laid.now ≤ MAX_ENTRIES }
    ensures value { IfOk result (λ rows. rows.items ≡ rows_from draft.now.objects laid.now 0 draft.now.rows) }
    ensures few { IfOk result (λ rows. length rows.items ≤ MAX_ROWS) }
    ensures entries { IfOk result (λ rows. entry_count rows.items ≤ MAX_ENTRIES) }
    ensures forms { IfOk result (λ rows. IsTrue (list_all (λ (r : RowOf). are_entries (length (map column_of laid.now)) r.entries) rows.items)) }
    ensures new { IfOk result (λ rows. IsTrue (are_distinct_rows [] rows.items)) }
{
    let objects = draft.objects();
    let heads = draft.rows();
    let begun = lay_all(alloc, heads.len(), laid)?;
    let rows = made_rows(alloc, objects, heads, &begun)?;
    Ok(rows)
}

fn assembled(
    alloc: Global,
    laid: Vec<LaidColumn>,
    rows: Vec<Row>,
    objective: Option<ObjectiveRow>,
) -> Result<Instance, AllocError>
    requires new { IsTrue (are_distinct_columns [] (map column_of laid.items)) }
    requires room { length laid.items ≤ MAX_COLUMNS }
    requires new_rows { IsTrue (are_distinct_rows [] rows.items) }
    requires forms { IsTrue (list_all (λ (r : RowOf). are_entries (length (map column_of laid.items)) r.entries) rows.items) }
    requires row_room { length rows.items ≤ MAX_ROWS }
    requires entry_room { entry_count rows.items ≤ MAX_ENTRIES }
    ensures { IfOk result (λ made. made ≡ aimed_at objective rows.items (plain (map column_of laid.items) rows.items)) }
{
    let mut builder = add_columns(Builder::new(alloc)?, laid)?;
    set_objective(alloc, &mut builder, &rows, objective)?;
    let builder = add_rows(builder, rows)?;
    Ok(builder.done())
}

// There is room for one more.
fn no_memory(_fault: BuildFault) -> AllocError
    requires { _fault ≢ BuildFault.TooMany }
{
    AllocError
}

fn add_columns(builder: Builder, laid: Vec<LaidColumn>) -> Result<Builder, AllocError>
    requires new { IsTrue (are_distinct_columns builder.columns (map column_of laid.items)) }
    requires room { length builder.columns + length laid.items ≤ MAX_COLUMNS }
    ensures { IfOk result (λ made. made ≡ record builder { columns = builder.columns ++ map column_of laid.items }) }
{
    let mut builder = builder;
    for one in laid {
        match builder.column(one.into_column()) {
            Ok(_) => {}
            Err((_, fault)) => return Err(no_memory(fault)),
        }
    }
    Ok(builder)
}

fn add_rows(builder: Builder, rows: Vec<Row>) -> Result<Builder, AllocError>
    requires new { IsTrue (are_distinct_rows builder.rows rows.items) }
    requires forms { IsTrue (list_all (λ (r : RowOf). are_entries (length builder.columns) r.entries) rows.items) }
    requires room { length builder.rows + length rows.items ≤ MAX_ROWS }
    requires entry_room { entry_count builder.rows + entry_count rows.items ≤ MAX_ENTRIES }
    ensures { IfOk result (λ made. made ≡ record builder { rows = builder.rows ++ rows.items }) }
{
    let mut builder = builder;
    for row in rows {
        match builder.row(row) {
            Ok(_) => {}
            Err((_, fault)) => return Err(no_memory(fault)),
        }
    }
    Ok(builder)
}

fn made_rows(
    alloc: Global,
    declared: &[Declared],
    heads: &[RowHead],
    begun: &[RowEntries],
) -> Result<Vec<Row>, AllocError>
    requires { length begun.now ≡ length heads.now }
    ensures value { IfOk result (λ rows. rows.items ≡ rows_with declared.now heads.now begun.now) }
    ensures narrow { OnOk result (AreRowsNarrow heads.now) }
{
    let mut rows = Vec::new(alloc);
    let mut left = begun;
    for head in heads {
        let Some((first, rest)) = left.split_first() else {
            return Ok(rows);
        };
        rows.push(made_row(alloc, declared, head, first.entries())?)?;
        left = rest;
    }
    Ok(rows)
}

fn made_row(
    alloc: Global,
    declared: &[Declared],
    head: &RowHead,
    entries: &[Entry],
) -> Result<Row, AllocError>
    ensures value { IfOk result (λ row. row ≡ row_with declared.now head.now entries.now) }
    ensures narrow { OnOk result (AreNarrow head.now.subscripts) }
{
    let name = row_name(alloc, declared, head)?;
    Ok(Row::new(name, head.lower, head.upper, form(alloc, entries)?))
}

fn form(alloc: Global, entries: &[Entry]) -> Result<Entries, AllocError>
    ensures { IfOk result (λ form. form ≡ entries.now) }
{
    let mut copied = Vec::new(alloc);
    copied.extend_from_slice(entries)?;
    Ok(Entries::from_vec(copied))
}

fn set_objective(
    alloc: Global,
    builder: &mut Builder,
    rows: &[Row],
    objective: Option<ObjectiveRow>,
) -> Result<(), AllocError>
    requires { IsTrue (list_all (λ (r : RowOf). are_entries (length builder.old.columns) r.entries) rows.now) }
    ensures { OnOk result (builder.new ≡ aimed_at objective rows.now builder.old) }
{
    let Some(objective) = objective else {
        return Ok(());
    };
    let Some(row) = rows.get(objective.row as usize) else {
        return Ok(());
    };
    let name = Name::new(alloc, row.name().as_str())?;
    let entries = form(alloc, row.entries().as_slice())?;
    builder.objective(objective.direction, name, entries, objective.constant);
    Ok(())
}
