// The columns of a declaration.
ghost use Rattle.std.specs.Prelude.{◌≡◌, ◌<◌, ◌≤◌, ◌++◌, [], ◌∷◌, false, length, map, slice_get, set, Some, IfSome, OnOk, OnErr};
ghost use Rattle.std.specs.List.{list_any, position};
ghost use Rattle.milp.specs.Problem.{Column};
ghost use Rattle.model_text.specs.Names.{AreNew};
ghost use Rattle.model_text.specs.Columns.{is_column_named};

use crate::declared_column::DeclaredColumn;
use crate::names::Names;
use std::alloc::{AllocError, Global};
use std::marker::Model;

/// At most 1,000,000 columns of different names, found by name. Clauses see a list of a problem's columns.
#[derive(Drop)]
pub struct ColumnTable<'a> {
    names: Names<'a>,
    columns: Vec<DeclaredColumn<'a>>,
}

impl<'a> Model for ColumnTable<'a> {
    ghost use Rattle.std.specs.Prelude.{◌≡◌, ◌≤◌, List, map, length};
    ghost use Rattle.milp.specs.Problem.{Column};
    ghost use Rattle.model_text.specs.Names.{AreNew};

    ghost Value = { List Column };

    ghost view = { λ t. t.columns.items };

    ghost invariant = { λ t. (t.names ≡ map (λ (c : Column). c.name) t.columns.items) × AreNew t.names × (length t.columns.items ≤ 1_000_000) };
}

impl<'a> ColumnTable<'a> {
    /// No columns.
    pub fn new(alloc: Global) -> Self
        ensures { result ≡ [] }
    {
        ColumnTable {
            names: Names::new(alloc),
            columns: Vec::new(alloc),
        }
    }

    /// How many columns there are.
    pub fn len(&self) -> usize
        ensures len { result ≡ length self.now }
        ensures few { length self.now ≤ 1_000_000 }
    {
        self.columns.len()
    }

    /// The columns, for reading. Their names differ.
    pub fn as_slice(&self) -> &[DeclaredColumn<'a>]
        ensures value { result.now ≡ self.now }
        ensures new { AreNew (map (λ (c : Column). c.name) self.now) }
        ensures few { length self.now ≤ 1_000_000 }
    {
        &self.columns
    }

    /// The place of the column of a name.
    pub fn place(&self, name: &str) -> Option<usize>
        ensures place { result ≡ position (is_column_named name.now) self.now }
        ensures within { IfSome result (λ place. place < length self.now) }
        ensures few { length self.now ≤ 1_000_000 }
    {
        self.names.place(name)
    }

    /// A column has this name.
    pub fn has(&self, name: &str) -> bool
        ensures { result ≡ list_any (is_column_named name.now) self.now }
    {
        self.names.place(name).is_some()
    }

    /// One more column.
    pub fn push(&mut self, column: DeclaredColumn<'a>) -> Result<(), AllocError>
        requires new { list_any (is_column_named column.name) self.old ≡ false }
        requires room { length self.old < 1_000_000 }
        ensures added { OnOk result (self.new ≡ self.old ++ column.entry ∷ []) }
        ensures kept { OnErr result (self.new ≡ self.old) }
    {
        self.columns.reserve(1)?;
        self.names.push(column.name())?;
        self.columns.push(column).unwrap();
        Ok(())
    }

    /// A copy of the column at a place.
    pub fn at(&self, place: usize) -> DeclaredColumn<'a>
        requires { place < length self.now }
        ensures { slice_get self.now place ≡ Some result }
    {
        self.columns[place].copy()
    }

    /// The column at a place, changed but for its name.
    pub fn set(&mut self, place: usize, column: DeclaredColumn<'a>)
        requires within { place < length self.old }
        requires name { IfSome (slice_get self.old place) (λ there. column.name ≡ there.name) }
        ensures { self.new ≡ set self.old place column.entry }
    {
        self.columns[place] = column;
    }
}
