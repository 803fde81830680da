// Names that differ, found by their text.
ghost use Rattle.std.specs.Prelude.{◌≡◌, [], length, take, not, string_bytes, IfOk, OnOk, OnErr};
ghost use Rattle.gmpl_names.specs.Names.{place_of, has, with_name, with_names};

use indexmap::IndexSet;
use std::alloc::{AllocError, Global};
use std::marker::Model;

/// The names, in the order in which they came.
#[derive(Drop)]
pub struct Names {
    names: IndexSet<String>,
}

impl Model for Names {
    ghost use Rattle.std.specs.Prelude.{ℕ, List, map, string_bytes};
    ghost use Rattle.indexmap.specs.IndexSet.{keys};

    ghost Value = { List (List ℕ) };

    ghost view = { λ n. map (λ k. string_bytes k) (keys n.names) };
}

impl Names {
    /// No names.
    pub fn new(alloc: Global) -> Self
        ensures { result ≡ [] }
    {
        Names {
            names: IndexSet::new(alloc),
        }
    }

    /// How many names there are.
    pub fn len(&self) -> usize
        ensures { result ≡ length self.now }
    {
        self.names.len()
    }

    /// The name is there.
    pub fn has(&self, name: &str) -> bool
        ensures { result ≡ has name.now self.now }
    {
        self.names.contains(name)
    }

    /// The place of a name, from 0.
    pub fn place(&self, name: &str) -> Option<usize>
        ensures { result ≡ place_of name.now self.now }
    {
        self.names.get_index_of(name)
    }

    /// Adds a name, and says whether it is new.
    pub fn insert(&mut self, name: String) -> Result<bool, AllocError>
        ensures fresh { IfOk result (λ is_new. is_new ≡ not (has (string_bytes name) self.old)) }
        ensures added { OnOk result (self.new ≡ with_name self.old (string_bytes name)) }
        ensures kept { OnErr result (self.new ≡ self.old) }
    {
        Ok(self.names.insert(name)?)
    }

    /// Adds the names of `more`, in their order.
    pub fn append(&mut self, mut more: Names) -> Result<(), AllocError>
        ensures { OnOk result (self.new ≡ with_names self.old more) }
    {
        self.names.append(&mut more.names)
    }

    /// Drops the names behind the first `len`.
    pub fn truncate(&mut self, len: usize)
        ensures { self.new ≡ take len self.old }
    {
        self.names.truncate(len);
    }
}
