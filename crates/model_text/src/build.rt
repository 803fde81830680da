// Declared columns and rows of an instance in the making.
ghost use Rattle.std.specs.Prelude.{◌≡◌, ◌≢◌, ◌+◌, ◌<◌, ◌≤◌, ◌++◌, [], ◌∷◌, false, length, map, IsTrue, IfOk};
ghost use Rattle.milp.specs.Problem.{Column as ColumnOf};
ghost use Rattle.instance.specs.WellFormed.{has_column, has_row, are_entries, entry_count};
ghost use Rattle.model_text.specs.Names.{AreNew};

use crate::declared_column::DeclaredColumn;
use fraction::Frac;
use instance::{
    BuildFault, Builder, Column, Entries, Entry, MAX_COLUMNS, MAX_ENTRIES, MAX_ROWS, Name, Row,
};
use std::alloc::{AllocError, Global};

/// The columns of an instance that has none yet.
pub fn add_columns(
    alloc: Global,
    builder: &mut Builder,
    columns: &[DeclaredColumn],
) -> Result<(), AllocError>
    requires empty { builder.old.columns ≡ [] }
    requires new { AreNew (map (λ (c : ColumnOf). c.name) columns.now) }
    requires few { length columns.now ≤ 1_000_000 }
    ensures { IfOk result (λ _. builder.new ≡ record builder.old { columns = columns.now }) }
{
    for column in columns {
        add_column(alloc, builder, column)?;
    }
    Ok(())
}

fn add_column(
    alloc: Global,
    builder: &mut Builder,
    column: &DeclaredColumn,
) -> Result<(), AllocError>
    requires new { has_column column.now.name builder.old.columns ≡ false }
    requires room { length builder.old.columns < MAX_COLUMNS }
    ensures { IfOk result (λ _. builder.new ≡ record builder.old { columns = builder.old.columns ++ column.now ∷ [] }) }
{
    let finished = finished_column(alloc, column)?;
    match builder.column(finished) {
        Ok(_) => Ok(()),
        Err((_, fault)) => Err(no_memory(fault)),
    }
}

fn finished_column(alloc: Global, column: &DeclaredColumn) -> Result<Column, AllocError>
    ensures { IfOk result (λ finished. finished ≡ column.now) }
{
    let name = Name::new(alloc, column.name())?;
    Ok(Column::new(name, column.lower(), column.upper(), column.integer()))
}

/// One more row of an instance that has room for it. Its entries are moved.
pub fn add_row(
    alloc: Global,
    builder: &mut Builder,
    name: &str,
    lower: Option<Frac>,
    upper: Option<Frac>,
    entries: Vec<Entry>,
) -> Result<(), AllocError>
    requires new { has_row name.now builder.old.rows ≡ false }
    requires form { IsTrue (are_entries (length builder.old.columns) entries.items) }
    requires room { length builder.old.rows < MAX_ROWS }
    requires entry_room { entry_count builder.old.rows + length entries.items ≤ MAX_ENTRIES }
    ensures { IfOk result (λ _. builder.new ≡ record builder.old { rows = builder.old.rows ++ record { name = name.now; lower = lower; upper = upper; entries = entries.items } ∷ [] }) }
{
    let name = Name::new(alloc, name)?;
    let entries = Entries::from_vec(entries);
    match builder.row(Row::new(name, lower, upper, entries)) {
        Ok(_) => Ok(()),
        Err((_, fault)) => Err(no_memory(fault)),
    }
}

// There is room for one more.
fn no_memory(_fault: BuildFault) -> AllocError
    requires { _fault ≢ BuildFault.TooMany }
{
    AllocError
}
