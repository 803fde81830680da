// What a table gives to its set.
ghost use Rattle.std.specs.Prelude.{◌≡◌, Ok, slice_get};
ghost use Rattle.csv_tables.specs.Outcome.{Gives};
ghost use Rattle.gmpl_table_data.specs.TableData as spec;
ghost use Rattle.gmpl_table_data.specs.Places.{with_key_of};

use crate::objects::Objects;
use csv_tables::{Table, TableError, TableFault};
use gmpl_data::Given;
use gmpl_members::Value;
use gmpl_value::{SetFault, SetValue, Tuple};
use std::alloc::Global;

// The elements that the keys so far make, and whether there are more than a set may have.
#[derive(Drop)]
pub(crate) struct Joined {
    pub(crate) elements: SetValue,
    pub(crate) is_overfull: bool,
}

fn no_keys(alloc: Global) -> Joined
    ensures { result ≡ spec.no_keys }
{
    Joined {
        elements: SetValue::new(alloc),
        is_overfull: false,
    }
}

fn with_key(key: Tuple, before: Joined) -> Result<Joined, TableError>
    ensures { Gives result (Ok (spec.with_key key before)) }
{
    let Joined {
        mut elements,
        is_overfull,
    } = before;
    match elements.insert(key) {
        Ok(_) => Ok(Joined {
            elements,
            is_overfull,
        }),
        Err((_, SetFault::NoMemory)) => Err(TableError::NoMemory),
        Err(_) => Ok(Joined {
            elements,
            is_overfull: true,
        }),
    }
}

// With the key of the row at a place.
fn with_key_at(
    alloc: Global,
    table: &Table,
    place: usize,
    before: Joined,
) -> Result<Joined, TableError>
    ensures { Gives result (Ok (with_key_of (slice_get table.now place) before)) }
{
    match table.row(place) {
        None => Ok(before),
        Some(row) => with_key(row.0.copied(alloc)?, before),
    }
}

fn keys_of(alloc: Global, table: &Table) -> Result<Joined, TableError>
    ensures { Gives result (Ok (spec.with_keys table.now spec.no_keys)) }
{
    let mut joined = no_keys(alloc);
    for place in 0..table.len() {
        joined = with_key_at(alloc, table, place, joined)?;
    }
    Ok(joined)
}

// ---- the set

fn has_elements(alloc: Global, given: &Given) -> bool
    ensures { result ≡ spec.has_elements given.now }
{
    let subscripts = Tuple::new(alloc);
    given.values.get(&subscripts).is_some() || given.overfull.contains(&subscripts)
}

// The members to which too many elements are given, with the one without subscripts where it is one of them.
fn noted(alloc: Global, is_overfull: bool, mut overfull: SetValue) -> Result<SetValue, TableError>
    ensures { Gives result (Ok (spec.noted is_overfull overfull)) }
{
    if !is_overfull {
        return Ok(overfull);
    }
    match overfull.insert(Tuple::new(alloc)) {
        Ok(_) => Ok(overfull),
        Err((_, SetFault::NoMemory)) => Err(TableError::NoMemory),
        Err(_) => Ok(overfull),
    }
}

fn with_elements(alloc: Global, now: Joined, given: Given) -> Result<Given, TableError>
    ensures { Gives result (Ok (spec.with_elements now given)) }
{
    let overfull = noted(alloc, now.is_overfull, given.overfull)?;
    let mut values = given.values;
    match values
        .insert(Tuple::new(alloc), Value::Elements(now.elements))
        .ok()
    {
        Some(()) => Ok(Given {
            values,
            overfull,
            default: given.default,
        }),
        None => Err(TableError::NoMemory),
    }
}

#[tactic(auto, unfolding(crate::specs::TableData::set_given))]
fn set_given(alloc: Global, table: &Table, given: Given) -> Result<Given, TableError>
    ensures { Gives result (spec.set_given table.now given) }
{
    if has_elements(alloc, &given) {
        return Err(TableError::Fault(TableFault::TwiceKey));
    }
    let joined = keys_of(alloc, table)?;
    with_elements(alloc, joined, given)
}

#[tactic(auto, using(crate::proofs::Places::put_back))]
fn give_to_set(
    alloc: Global,
    place: usize,
    table: &Table,
    mut objects: Objects,
) -> Result<Objects, TableError>
    ensures { Gives result (spec.change_at place (spec.set_given table.now) objects) }
{
    match objects.take(alloc, place) {
        None => Ok(objects),
        Some(given) => {
            let more = set_given(alloc, table, given)?;
            objects.put(place, more);
            Ok(objects)
        }
    }
}

/// With the keys of a table as the elements of its set, if it has one. `TwiceKey` where that has elements already.
pub(crate) fn keys_given(
    alloc: Global,
    set: Option<usize>,
    table: &Table,
    objects: Objects,
) -> Result<Objects, TableError>
    ensures { Gives result (spec.keys_given set table.now objects) }
{
    match set {
        None => Ok(objects),
        Some(place) => give_to_set(alloc, place, table, objects),
    }
}
