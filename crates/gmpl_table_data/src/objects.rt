// What data give to the objects, while a table adds to it.
ghost use Rattle.std.specs.Prelude.{◌≡◌, set, slice_get, IfOk, MatchOption};
ghost use Rattle.gmpl_table_data.specs.Places.{nothing};

use gmpl_data::{DataTables, Given};
use gmpl_members::Members;
use gmpl_value::SetValue;
use sqlite_items::Items;
use std::alloc::{AllocError, Global};
use std::marker::Model;
use std::mem;

/// What is given to each object, by its place. Clauses see the list.
#[derive(Drop)]
pub(crate) struct Objects {
    objects: Vec<Given>,
}

impl Model for Objects {
    ghost use Rattle.gmpl_table_data.specs.TableData.{Tables};

    ghost Value = { Tables };

    ghost view = { λ o. o.objects.items };
}

// What is given to an object before any data.
fn nothing(alloc: Global) -> Given
    ensures { result ≡ nothing }
{
    Given {
        values: Members::new(alloc),
        overfull: SetValue::new(alloc),
        default: None,
    }
}

impl Objects {
    /// What these data give.
    pub(crate) fn of(alloc: Global, objects: Items<Given>) -> Result<Objects, AllocError>
        ensures { IfOk result (λ made. made ≡ objects) }
    {
        let mut left = objects;
        let mut objects = Vec::with_capacity(alloc, left.len())?;
        while let Some(given) = left.pop() {
            objects.push(given)?;
        }
        objects.reverse();
        Ok(Objects { objects })
    }

    /// Takes out what is given to the object at a place, and leaves nothing there.
    pub(crate) fn take(&mut self, alloc: Global, place: usize) -> Option<Given>
        ensures taken { result ≡ slice_get self.old place }
        ensures left { MatchOption result (self.new ≡ self.old) (λ _. self.new ≡ set self.old place nothing) }
    {
        if place < self.objects.len() {
            Some(mem::replace(&mut self.objects[place], nothing(alloc)))
        } else {
            None
        }
    }

    /// Puts back what is given to the object at a place.
    pub(crate) fn put(&mut self, place: usize, given: Given)
        ensures { self.new ≡ set self.old place given }
    {
        if place < self.objects.len() {
            self.objects[place] = given;
        }
    }

    /// The same for all that read it. It takes no memory.
    pub(crate) fn into_data(self) -> DataTables
        ensures { result.objects ≡ self }
    {
        DataTables {
            objects: Items::from_vec(self.objects),
        }
    }
}
