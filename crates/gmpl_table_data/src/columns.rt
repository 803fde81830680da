// What the rows of a table give to parameters.
ghost use Rattle.std.specs.Prelude.{◌≡◌, slice_get};
ghost use Rattle.std.specs.Option.{option_copied};
ghost use Rattle.csv_tables.specs.Outcome.{Gives};
ghost use Rattle.gmpl_table_data.specs.TableData as spec;
ghost use Rattle.gmpl_table_data.specs.Places.{column_given};

use crate::objects::Objects;
use csv_tables::{Table, TableError, TableFault};
use gmpl_data::Given;
use gmpl_members::{Members, Value};
use gmpl_resolved::InputColumn;
use gmpl_value::{Symbol, Tuple};
use std::alloc::Global;

// ---- one value

fn with_value(
    alloc: Global,
    key: &Tuple,
    value: &Symbol,
    mut members: Members,
) -> Result<Members, TableError>
    ensures { Gives result (spec.with_new key.now value.now members) }
{
    if members.get(key).is_some() {
        return Err(TableError::Fault(TableFault::TwiceKey));
    }
    let key = key.copied(alloc)?;
    let value = value.copied(alloc)?;
    match members.insert(key, Value::Scalar(value)).ok() {
        Some(()) => Ok(members),
        None => Err(TableError::NoMemory),
    }
}

#[tactic(auto, unfolding(crate::specs::TableData::parameter_given))]
fn parameter_given(
    alloc: Global,
    key: &Tuple,
    value: &Symbol,
    given: Given,
) -> Result<Given, TableError>
    ensures { Gives result (spec.parameter_given key.now value.now given) }
{
    let values = with_value(alloc, key, value, given.values)?;
    Ok(Given {
        values,
        overfull: given.overfull,
        default: given.default,
    })
}

#[tactic(auto, using(crate::proofs::Places::put_back))]
fn give_to_parameter(
    alloc: Global,
    place: usize,
    key: &Tuple,
    value: &Symbol,
    mut objects: Objects,
) -> Result<Objects, TableError>
    ensures { Gives result (spec.change_at place (spec.parameter_given key.now value.now) objects) }
{
    match objects.take(alloc, place) {
        None => Ok(objects),
        Some(given) => {
            let more = parameter_given(alloc, key, value, given)?;
            objects.put(place, more);
            Ok(objects)
        }
    }
}

fn value_given(
    alloc: Global,
    parameter: usize,
    key: &Tuple,
    value: Option<&Symbol>,
    objects: Objects,
) -> Result<Objects, TableError>
    ensures { Gives result (spec.value_given parameter key.now (option_copied value.entry) objects) }
{
    match value {
        None => Ok(objects),
        Some(value) => give_to_parameter(alloc, parameter, key, value, objects),
    }
}

// ---- rows

// With the row's value in the column at a place.
fn column_given_at(
    alloc: Global,
    columns: &[InputColumn],
    place: usize,
    row: &(Tuple, Tuple),
    objects: Objects,
) -> Result<Objects, TableError>
    ensures { Gives result (column_given place (slice_get columns.now place) row.now objects) }
{
    match columns.get(place) {
        None => Ok(objects),
        Some(column) => {
            let value = row.1.symbols().get(place);
            value_given(alloc, column.parameter, &row.0, value, objects)
        }
    }
}

fn row_given(
    alloc: Global,
    columns: &[InputColumn],
    row: &(Tuple, Tuple),
    mut objects: Objects,
) -> Result<Objects, TableError>
    ensures { Gives result (spec.row_given 0 columns.now row.now objects) }
{
    for place in 0..columns.len() {
        objects = column_given_at(alloc, columns, place, row, objects)?;
    }
    Ok(objects)
}

/// With the values of the rows in their order, each at its row's key. `TwiceKey` where a member has a value already. Each row is
/// given up as soon as its values are taken, so that a table and what it gives are not both there whole.
pub(crate) fn rows_given(
    alloc: Global,
    columns: &[InputColumn],
    table: Table,
    mut objects: Objects,
) -> Result<Objects, TableError>
    ensures { Gives result (spec.rows_given columns.now table objects) }
{
    let mut left = table;
    left.reverse();
    while let Some(row) = left.pop() {
        objects = row_given(alloc, columns, &row, objects)?;
    }
    Ok(objects)
}
