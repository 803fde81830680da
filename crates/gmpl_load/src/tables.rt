// What data have given to the objects so far, by their places.
ghost use Rattle.std.specs.Prelude.{◌≡◌, set, slice_get, Some, Ok, IfOk};
ghost use Rattle.gmpl_blocks.specs.Rules.{Judges};
ghost use Rattle.gmpl_load.specs.Tables as spec;

use gmpl_blocks::{DataError, SetData};
use gmpl_data::{DataTables, Given};
use gmpl_members::{Members, Value};
use gmpl_value::{SetFault, SetValue, Tuple};
use sqlite_items::Items;
use std::alloc::{AllocError, Global};
use std::marker::Model;
use std::mem;

/// What is given to each object. Clauses see the list.
#[derive(Drop)]
pub(crate) struct Tables {
    objects: Vec<Given>,
}

impl Model for Tables {
    ghost use Rattle.gmpl_load.specs.Tables.{Tables as TablesOf};

    ghost Value = { TablesOf };

    ghost view = { λ t. t.objects.items };
}

// What is given to an object before any data.
fn nothing(alloc: Global) -> Given
    ensures { result ≡ spec.nothing }
{
    Given {
        values: Members::new(alloc),
        overfull: SetValue::new(alloc),
        default: None,
    }
}

impl Tables {
    /// Nothing is given to so many objects.
    pub(crate) fn new(alloc: Global, count: usize) -> Result<Tables, AllocError>
        ensures { IfOk result (λ tables. tables ≡ spec.nothing_for count) }
    {
        let mut objects = Vec::new(alloc);
        for _object in 0..count {
            objects.push(nothing(alloc))?;
        }
        Ok(Tables { objects })
    }

    /// Takes out what is given to the object at a place, and leaves nothing there.
    pub(crate) fn take(&mut self, alloc: Global, place: usize) -> Option<Given>
        ensures taken { result ≡ slice_get self.old place }
        ensures left { self.new ≡ set self.old place spec.nothing }
    {
        if place < self.objects.len() {
            Some(mem::replace(&mut self.objects[place], nothing(alloc)))
        } else {
            None
        }
    }

    /// Puts back what is given to the object at a place.
    pub(crate) fn put(&mut self, place: usize, given: Given)
        ensures { self.new ≡ set self.old place given }
    {
        if place < self.objects.len() {
            self.objects[place] = given;
        }
    }

    /// The same for all that read it. It takes no memory.
    pub(crate) fn into_data(self) -> DataTables
        ensures { result.objects ≡ self }
    {
        DataTables {
            objects: Items::from_vec(self.objects),
        }
    }
}

// ---- a member of a set

fn elements_in(alloc: Global, value: Value) -> SetValue
    ensures { result ≡ spec.elements_of (Some value) }
{
    match value {
        Value::Elements(elements) => elements,
        Value::Scalar(_) => SetValue::new(alloc),
    }
}

fn elements_of(alloc: Global, value: Option<Value>) -> SetValue
    ensures { result ≡ spec.elements_of value }
{
    match value {
        None => SetValue::new(alloc),
        Some(value) => elements_in(alloc, value),
    }
}

// What blocks so far give to the member of a set, and what is left of the set's data without its elements.
#[derive(Drop)]
pub(crate) struct Taken {
    pub(crate) before: SetData,
    pub(crate) left: Given,
}

/// Takes out the elements of a set's member.
pub(crate) fn take_set_data(
    alloc: Global,
    given: Given,
    subscripts: &Tuple,
) -> Result<Taken, DataError>
    ensures { Judges (Ok (spec.taken given subscripts.now)) result }
{
    let is_overfull = given.overfull.contains(subscripts);
    let nothing = Value::Elements(SetValue::new(alloc));
    let mut values = given.values;
    match values.replace(subscripts.copied(alloc)?, nothing).ok() {
        None => Err(DataError::NoMemory),
        Some(value) => Ok(Taken {
            before: SetData {
                elements: elements_of(alloc, value),
                is_overfull,
            },
            left: Given {
                values,
                overfull: given.overfull,
                default: given.default,
            },
        }),
    }
}

// The members to which too many elements are given, with this one where it is one of them.
fn noted(
    alloc: Global,
    is_overfull: bool,
    mut overfull: SetValue,
    subscripts: &Tuple,
) -> Result<SetValue, DataError>
    ensures { Judges (Ok (spec.noted is_overfull overfull subscripts.now)) result }
{
    if !is_overfull {
        return Ok(overfull);
    }
    match overfull.insert(subscripts.copied(alloc)?) {
        Ok(_) => Ok(overfull),
        Err((_, SetFault::NoMemory)) => Err(DataError::NoMemory),
        Err(_) => Ok(overfull),
    }
}

/// With what they give to it now.
pub(crate) fn with_set_data(
    alloc: Global,
    given: Given,
    subscripts: Tuple,
    now: SetData,
) -> Result<Given, DataError>
    ensures { Judges (Ok (spec.with_set_data given subscripts now)) result }
{
    let overfull = noted(alloc, now.is_overfull, given.overfull, &subscripts)?;
    let mut values = given.values;
    match values
        .insert(subscripts, Value::Elements(now.elements))
        .ok()
    {
        Some(()) => Ok(Given {
            values,
            overfull,
            default: given.default,
        }),
        None => Err(DataError::NoMemory),
    }
}
