// Linear forms.
ghost use Rattle.std.specs.Prelude.{◌≡◌, [], List, IfOk};

use fraction::Frac;
use std::alloc::{AllocError, Global};
use std::marker::Model;

/// A coefficient, and the place of the column that it stands before.
#[derive(Clone, Copy)]
pub struct Entry {
    pub column: u32,
    pub coefficient: Frac,
}

impl Model for Entry {
    ghost use Rattle.milp.specs.Form.{Entry as FormEntry};

    ghost Value = { FormEntry };

    ghost view = { λ e. record { column = e.column; coefficient = e.coefficient } };

    ghost inverse = { λ e. record { column = e.column; coefficient = e.coefficient } };
}

/// A linear form: a list of entries.
#[derive(Drop)]
pub struct Entries {
    entries: Vec<Entry>,
}

impl Model for Entries {
    ghost use Rattle.std.specs.Prelude.{List};
    ghost use Rattle.milp.specs.Form.{Entry as FormEntry};

    ghost Value = { List FormEntry };

    ghost view = { λ e. e.entries.items };
}

impl Entries {
    /// The form without entries.
    pub fn new(alloc: Global) -> Self
        ensures { result ≡ [] }
    {
        Entries {
            entries: Vec::new(alloc),
        }
    }

    /// The form with these entries. It takes no memory.
    pub fn from_vec(entries: Vec<Entry>) -> Self
        ensures { result ≡ entries.items }
    {
        Entries { entries }
    }

    /// The same form.
    pub fn copy(&self, alloc: Global) -> Result<Self, AllocError>
        ensures { IfOk result (λ copy. copy ≡ self.now) }
    {
        let entries = self.entries.to_vec(alloc)?;
        Ok(Entries { entries })
    }

    /// Its entries, for reading.
    pub fn as_slice(&self) -> &[Entry]
        ensures { result.now ≡ self.now }
    {
        &self.entries
    }
}
