// The rows of a table.
ghost use Rattle.std.specs.Prelude.{◌≡◌, ◌++◌, ◌∷◌, [], length, map, reverse, slice_get, MatchOption};
ghost use Rattle.std.specs.List.{IsDistinct};
ghost use Rattle.std.specs.Option.{option_map};
ghost use Rattle.gmpl_value.specs.SymbolEquality.{tuple_eq};
ghost use Rattle.csv_tables.specs.Outcome.{Gives};
ghost use Rattle.csv_tables.specs.Reading.{with_row};

use crate::fault::{TableError, TableFault};
use gmpl_value::Tuple;
use indexmap::IndexMap;
use std::alloc::Global;
use std::marker::Model;

/// The rows of a table in the order of its records, each a key and the values of the other fields that were asked for. No key
/// stands twice. Clauses see the list of pairs.
#[derive(Drop)]
pub struct Table {
    rows: IndexMap<Tuple, Tuple>,
}

impl Model for Table {
    ghost use Rattle.csv_tables.specs.Reading.{Rows};

    ghost Value = { Rows };

    ghost view = { λ t. t.rows.entries };
}

impl Table {
    // The table without a row.
    pub(crate) fn new(alloc: Global) -> Table
        ensures { result ≡ [] }
    {
        Table {
            rows: IndexMap::new(alloc),
        }
    }

    /// The number of rows.
    pub fn len(&self) -> usize
        ensures count { result ≡ length self.now }
        ensures distinct { IsDistinct tuple_eq (map (λ row. row.0) self.now) }
    {
        self.rows.len()
    }

    /// The key and the values of the row at a place.
    pub fn row(&self, place: usize) -> Option<(&Tuple, &Tuple)>
        ensures { option_map (λ row. (row.0.now, row.1.now)) result ≡ slice_get self.now place }
    {
        self.rows.get_index(place)
    }

    /// The last row first.
    pub fn reverse(&mut self)
        ensures { self.new ≡ reverse self.old }
    {
        self.rows.reverse();
    }

    /// Takes the last row off, if there is one.
    pub fn pop(&mut self) -> Option<(Tuple, Tuple)>
        ensures { MatchOption result ((self.old ≡ []) × (self.new ≡ [])) (λ row. self.old ≡ self.new ++ row ∷ []) }
    {
        self.rows.pop()
    }

    // The table with one more row. `TwiceKey` where the key is there.
    #[tactic(auto, unfolding(crate::specs::Reading::with_row), using(crate::proofs::NewRows::new_row))]
    pub(crate) fn with_row(self, key: Tuple, values: Tuple) -> Result<Table, TableError>
        ensures { Gives result (with_row self key values) }
    {
        let mut rows = self.rows;
        if rows.contains_key(&key) {
            return Err(TableError::Fault(TableFault::TwiceKey));
        }
        rows.insert(key, values)?;
        Ok(Table { rows })
    }
}
