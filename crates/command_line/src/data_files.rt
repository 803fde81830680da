// The data files of a model.
ghost use Rattle.std.specs.Prelude.{◌≡◌, ◌++◌, [], ◌∷◌, OnOk, OnErr};

use instance::Name;
use std::alloc::{AllocError, Global};
use std::marker::Model;

/// The names of data files, in the order in which they are read. Clauses see the list of the names.
#[derive(Drop)]
pub struct DataFiles {
    names: Vec<Name>,
}

impl Model for DataFiles {
    ghost use Rattle.std.specs.Prelude.{ℕ, List};

    ghost Value = { List (List ℕ) };

    ghost view = { λ d. d.names.items };
}

impl DataFiles {
    /// No data files.
    pub fn new(alloc: Global) -> Self
        ensures { result ≡ [] }
    {
        DataFiles {
            names: Vec::new(alloc),
        }
    }

    /// One more data file, read after the others.
    pub fn push(&mut self, name: Name) -> Result<(), AllocError>
        ensures added { OnOk result (self.new ≡ self.old ++ name ∷ []) }
        ensures kept { OnErr result (self.new ≡ self.old) }
    {
        self.names.push(name)?;
        Ok(())
    }

    /// The names, for reading.
    pub fn as_slice(&self) -> &[Name]
        ensures { result.now ≡ self.now }
    {
        &self.names
    }
}
