// Names of their own memory that differ, found by their text.
ghost use Rattle.std.specs.Prelude.{◌≡◌, ◌++◌, [], ◌∷◌, false, string_bytes, OnOk, OnErr};
ghost use Rattle.std.specs.List.{list_any};
ghost use Rattle.model_text.specs.Names.{is_name};

use indexmap::IndexSet;
use std::alloc::{AllocError, Global};
use std::marker::Model;

/// Names that the table owns, in the order in which they came.
#[derive(Drop)]
pub struct OwnedNames {
    names: IndexSet<String>,
}

impl Model for OwnedNames {
    ghost use Rattle.std.specs.Prelude.{ℕ, List, map, string_bytes};
    ghost use Rattle.indexmap.specs.IndexSet.{keys};

    ghost Value = { List (List ℕ) };

    ghost view = { λ n. map (λ k. string_bytes k) (keys n.names) };
}

impl OwnedNames {
    /// No names.
    pub fn new(alloc: Global) -> Self
        ensures { result ≡ [] }
    {
        OwnedNames {
            names: IndexSet::new(alloc),
        }
    }

    /// The name is there.
    pub fn has(&self, name: &str) -> bool
        ensures { result ≡ list_any (is_name name.now) self.now }
    {
        self.names.contains(name)
    }

    /// One more name.
    pub fn push(&mut self, name: String) -> Result<(), AllocError>
        requires new { list_any (is_name (string_bytes name)) self.old ≡ false }
        ensures added { OnOk result (self.new ≡ self.old ++ string_bytes name ∷ []) }
        ensures kept { OnErr result (self.new ≡ self.old) }
    {
        self.names.insert(name)?;
        Ok(())
    }
}
