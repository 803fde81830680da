// The rows of a problem with columns for forms.
ghost use Rattle.std.specs.Prelude.{◌≡◌, ◌<◌, ◌++◌, ◌∷◌, [], false, map, length, IsTrue, IfOk, OnOk};
ghost use Rattle.std.specs.List.{list_all};
ghost use Rattle.milp.specs.Problem.{Row as RowOf};
ghost use Rattle.instance.specs.WellFormed.{has_row, are_distinct_rows, are_entries};
ghost use Rattle.row_columns.specs.Extended.{moved_row};
ghost use Rattle.row_columns.specs.Extending.{tying_row, tying_rows};

use crate::moving::{moved_row, tying_form};
use crate::names::new_name;
use fraction::Frac;
use instance::{Builder, Entries, Entry, Row};
use std::alloc::{AllocError, Global};

// One more row.
fn add_row(builder: &mut Builder, row: Row) -> Result<(), AllocError>
    requires name { has_row row.name builder.old.rows ≡ false }
    requires entries { IsTrue (are_entries (length builder.old.columns) row.entries) }
    ensures { OnOk result (builder.new ≡ record builder.old { rows = builder.old.rows ++ row ∷ [] }) }
{
    match builder.row(row) {
        Ok(_) => Ok(()),
        Err(_) => Err(AllocError),
    }
}

fn add_moved_row(
    alloc: Global,
    builder: &mut Builder,
    row: &Row,
    count: u32,
) -> Result<(), AllocError>
    requires name { has_row row.now.name builder.old.rows ≡ false }
    requires entries { IsTrue (are_entries (length builder.old.columns) (moved_row count row.now).entries) }
    ensures { OnOk result (builder.new ≡ record builder.old { rows = builder.old.rows ++ moved_row count row.now ∷ [] }) }
{
    let moved = moved_row(alloc, row, count)?;
    add_row(builder, moved)
}

/// These rows, moved by `count` columns, behind those that are there.
pub(crate) fn add_moved_rows(
    alloc: Global,
    builder: &mut Builder,
    rows: &[Row],
    count: u32,
) -> Result<(), AllocError>
    requires names { IsTrue (are_distinct_rows builder.old.rows (map (moved_row count) rows.now)) }
    requires entries { IsTrue (list_all (λ (r : RowOf). are_entries (length builder.old.columns) r.entries) (map (moved_row count) rows.now)) }
    ensures { OnOk result (builder.new ≡ record builder.old { rows = builder.old.rows ++ map (moved_row count) rows.now }) }
{
    for row in rows {
        add_moved_row(alloc, builder, row, count)?;
    }
    Ok(())
}

// The row that ties the column at this place to its form.
fn tying_row(
    alloc: Global,
    prefix: &str,
    form: &[Entry],
    count: u32,
    place: usize,
) -> Result<Row, AllocError>
    requires { place < count }
    ensures { IfOk result (λ row. row ≡ tying_row prefix.now count place form.now) }
{
    let name = new_name(alloc, prefix, place)?;
    let entries = tying_form(alloc, form, count, place as u32)?;
    let zero = Frac::zero();
    Ok(Row::new(name, Some(zero), Some(zero), entries))
}

fn add_tying_row(
    alloc: Global,
    builder: &mut Builder,
    prefix: &str,
    form: &[Entry],
    count: u32,
    place: usize,
) -> Result<(), AllocError>
    requires place { place < count }
    requires name { has_row (tying_row prefix.now count place form.now).name builder.old.rows ≡ false }
    requires entries { IsTrue (are_entries (length builder.old.columns) (tying_row prefix.now count place form.now).entries) }
    ensures { OnOk result (builder.new ≡ record builder.old { rows = builder.old.rows ++ tying_row prefix.now count place form.now ∷ [] }) }
{
    let row = tying_row(alloc, prefix, form, count, place)?;
    add_row(builder, row)
}

/// The rows that tie the columns of these forms, behind those that are there.
pub(crate) fn add_tying_rows(
    alloc: Global,
    builder: &mut Builder,
    prefix: &str,
    forms: &[Entries],
    count: u32,
) -> Result<(), AllocError>
    requires count { count ≡ length forms.now }
    requires names { IsTrue (are_distinct_rows builder.old.rows (tying_rows prefix.now count 0 forms.now)) }
    requires entries { IsTrue (list_all (λ (r : RowOf). are_entries (length builder.old.columns) r.entries) (tying_rows prefix.now count 0 forms.now)) }
    ensures { OnOk result (builder.new ≡ record builder.old { rows = builder.old.rows ++ tying_rows prefix.now count 0 forms.now }) }
{
    for place in 0..forms.len() {
        add_tying_row(
            alloc,
            builder,
            prefix,
            forms[place].as_slice(),
            count,
            place,
        )?;
    }
    Ok(())
}
