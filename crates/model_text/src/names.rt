// Names that differ, found by their text.
ghost use Rattle.std.specs.Prelude.{◌≡◌, ◌++◌, [], ◌∷◌, false, OnOk, OnErr};
ghost use Rattle.std.specs.List.{list_any, position};
ghost use Rattle.model_text.specs.Names.{is_name};

use indexmap::IndexSet;
use std::alloc::{AllocError, Global};
use std::marker::Model;

/// The names, in the order in which they came.
#[derive(Drop)]
pub struct Names<'a> {
    names: IndexSet<&'a str>,
}

impl<'a> Model for Names<'a> {
    ghost use Rattle.std.specs.Prelude.{ℕ, List, map};
    ghost use Rattle.indexmap.specs.IndexSet.{keys};

    ghost Value = { List (List ℕ) };

    ghost view = { λ n. map (λ k. k.now) (keys n.names) };
}

impl<'a> Names<'a> {
    /// No names.
    pub fn new(alloc: Global) -> Self
        ensures { result ≡ [] }
    {
        Names {
            names: IndexSet::new(alloc),
        }
    }

    /// The place of a name.
    pub fn place(&self, name: &str) -> Option<usize>
        ensures { result ≡ position (is_name name.now) self.now }
    {
        self.names.get_index_of(name)
    }

    /// One more name.
    pub fn push(&mut self, name: &'a str) -> Result<(), AllocError>
        requires new { list_any (is_name name.now) self.old ≡ false }
        ensures added { OnOk result (self.new ≡ self.old ++ name.now ∷ []) }
        ensures kept { OnErr result (self.new ≡ self.old) }
    {
        self.names.insert(name)?;
        Ok(())
    }
}
