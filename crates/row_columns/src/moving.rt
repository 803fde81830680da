// Forms and rows where columns come to stand before the others.
ghost use Rattle.std.specs.Prelude.{◌≡◌, ◌+◌, ◌++◌, pos, IfOk, IfSome, OnOk};
ghost use Rattle.row_columns.specs.Extended.{moved, moved_row, tying_form};

use fraction::Frac;
use instance::{Entries, Entry, Row};
use std::alloc::{AllocError, Global};

fn moved_entry(entry: Entry, count: u32) -> Option<Entry>
    ensures { IfSome result (λ made. made ≡ record { column = count + entry.column; coefficient = entry.coefficient }) }
{
    let column = count.checked_add(entry.column)?;
    Some(Entry {
        column,
        coefficient: entry.coefficient,
    })
}

// The form's entries, moved by `count` columns, at the end.
fn push_moved(made: &mut Vec<Entry>, form: &[Entry], count: u32) -> Result<(), AllocError>
    ensures { OnOk result (made.new.items ≡ made.old.items ++ moved count form.now) }
{
    for entry in form {
        match moved_entry(*entry, count) {
            Some(entry) => made.push(entry)?,
            None => return Err(AllocError),
        }
    }
    Ok(())
}

/// The form where `count` columns come to stand before the others.
pub(crate) fn moved(alloc: Global, form: &[Entry], count: u32) -> Result<Entries, AllocError>
    ensures { IfOk result (λ made. made ≡ moved count form.now) }
{
    let mut made = Vec::new(alloc);
    push_moved(&mut made, form, count)?;
    Ok(Entries::from_vec(made))
}

/// The form minus the column at this place.
pub(crate) fn tying_form(
    alloc: Global,
    form: &[Entry],
    count: u32,
    place: u32,
) -> Result<Entries, AllocError>
    ensures { IfOk result (λ made. made ≡ tying_form count place form.now) }
{
    let mut made = Vec::new(alloc);
    made.push(Entry {
        column: place,
        coefficient: Frac::whole(-1),
    })?;
    push_moved(&mut made, form, count)?;
    Ok(Entries::from_vec(made))
}

/// The row where `count` columns come to stand before the others.
pub(crate) fn moved_row(alloc: Global, row: &Row, count: u32) -> Result<Row, AllocError>
    ensures { IfOk result (λ made. made ≡ moved_row count row.now) }
{
    let name = row.name().copy(alloc)?;
    let entries = moved(alloc, row.entries().as_slice(), count)?;
    Ok(Row::new(name, row.lower(), row.upper(), entries))
}
