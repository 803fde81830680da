// The columns of a problem with columns for forms.
ghost use Rattle.std.specs.Prelude.{◌≡◌, ◌++◌, ◌∷◌, [], false, IsTrue, IfOk, OnOk};
ghost use Rattle.instance.specs.WellFormed.{has_column, are_distinct_columns};
ghost use Rattle.row_columns.specs.Extending.{form_column, form_columns};

use crate::names::new_name;
use instance::{Builder, Column, Entries};
use std::alloc::{AllocError, Global};

// One more column.
fn add_column(builder: &mut Builder, column: Column) -> Result<(), AllocError>
    requires { has_column column.name builder.old.columns ≡ false }
    ensures { OnOk result (builder.new ≡ record builder.old { columns = builder.old.columns ++ column ∷ [] }) }
{
    match builder.column(column) {
        Ok(_) => Ok(()),
        Err(_) => Err(AllocError),
    }
}

// The column of the form at this place.
fn form_column(alloc: Global, prefix: &str, place: usize) -> Result<Column, AllocError>
    ensures { IfOk result (λ column. column ≡ form_column prefix.now place) }
{
    let name = new_name(alloc, prefix, place)?;
    Ok(Column::new(name, None, None, true))
}

fn add_form_column(
    alloc: Global,
    builder: &mut Builder,
    prefix: &str,
    place: usize,
) -> Result<(), AllocError>
    requires { has_column (form_column prefix.now place).name builder.old.columns ≡ false }
    ensures { OnOk result (builder.new ≡ record builder.old { columns = builder.old.columns ++ form_column prefix.now place ∷ [] }) }
{
    let column = form_column(alloc, prefix, place)?;
    add_column(builder, column)
}

fn add_copy(alloc: Global, builder: &mut Builder, column: &Column) -> Result<(), AllocError>
    requires { has_column column.now.name builder.old.columns ≡ false }
    ensures { OnOk result (builder.new ≡ record builder.old { columns = builder.old.columns ++ column.now ∷ [] }) }
{
    let copy = column.copy(alloc)?;
    add_column(builder, copy)
}

/// The columns of these forms, behind those that are there.
pub(crate) fn add_form_columns(
    alloc: Global,
    builder: &mut Builder,
    prefix: &str,
    forms: &[Entries],
) -> Result<(), AllocError>
    requires { IsTrue (are_distinct_columns builder.old.columns (form_columns prefix.now 0 forms.now)) }
    ensures { OnOk result (builder.new ≡ record builder.old { columns = builder.old.columns ++ form_columns prefix.now 0 forms.now }) }
{
    for place in 0..forms.len() {
        add_form_column(alloc, builder, prefix, place)?;
    }
    Ok(())
}

/// These columns, behind those that are there. Where there would be more than a problem may have, memory counts as wanting.
pub fn add_columns(
    alloc: Global,
    builder: &mut Builder,
    columns: &[Column],
) -> Result<(), AllocError>
    requires { IsTrue (are_distinct_columns builder.old.columns columns.now) }
    ensures { OnOk result (builder.new ≡ record builder.old { columns = builder.old.columns ++ columns.now }) }
{
    for column in columns {
        add_copy(alloc, builder, column)?;
    }
    Ok(())
}
