// The rows of a declaration.
ghost use Rattle.std.specs.Prelude.{◌≡◌, ◌+◌, ◌-◌, ◌<◌, ◌≤◌, ◌++◌, [], ◌∷◌, false, length, map, string_bytes, OnOk, OnErr};
ghost use Rattle.milp.specs.Problem.{Row};
ghost use Rattle.model_text.specs.Names.{AreNew};
ghost use Rattle.cplex_lp_draft.specs.Declaration.{with_changed};
ghost use Rattle.cplex_lp_draft.specs.Rows.{is_row, blank_row, entry_count};

use crate::row::DeclaredRow;
use fraction::Frac;
use instance::Entry;
use model_text::OwnedNames;
use std::alloc::{AllocError, Global};
use std::marker::Model;

// Rows of different names.
#[derive(Drop)]
pub(crate) struct RowTable {
    names: OwnedNames,
    rows: Vec<DeclaredRow>,
    // the entries of all rows
    count: usize,
}

impl Model for RowTable {
    ghost use Rattle.std.specs.Prelude.{◌≡◌, ◌≤◌, List, map, length};
    ghost use Rattle.milp.specs.Problem.{Row};
    ghost use Rattle.model_text.specs.Names.{AreNew};
    ghost use Rattle.cplex_lp_draft.specs.Rows.{entry_count as entries_in};

    ghost Value = { List Row };

    ghost view = { λ t. t.rows.items };

    ghost invariant = { λ t. record { index : t.names ≡ map (λ (r : Row). r.name) t.rows.items; new : AreNew t.names; few : length t.rows.items ≤ 1_000_000; counted : t.count ≡ entries_in t.rows.items; entry_room : entries_in t.rows.items ≤ 20_000_000 } };
}

impl RowTable {
    pub(crate) fn new(alloc: Global) -> Self
        ensures { result ≡ [] }
    {
        RowTable {
            names: OwnedNames::new(alloc),
            rows: Vec::new(alloc),
            count: 0,
        }
    }

    pub(crate) fn len(&self) -> usize
        ensures len { result ≡ length self.now }
        ensures few { length self.now ≤ 1_000_000 }
    {
        self.rows.len()
    }

    pub(crate) fn entry_count(&self) -> usize
        ensures value { result ≡ entry_count self.now }
        ensures few { result ≤ 20_000_000 }
    {
        self.count
    }

    // The rows alone. Their names differ.
    pub(crate) fn into_rows(self) -> Vec<DeclaredRow>
        ensures value { result.items ≡ self }
        ensures new { AreNew (map (λ (r : Row). r.name) self) }
        ensures few { length self ≤ 1_000_000 }
        ensures entries { entry_count self ≤ 20_000_000 }
    {
        self.rows
    }

    // A row has this name.
    pub(crate) fn has(&self, name: &str) -> bool
        ensures { result ≡ is_row name.now self.now }
    {
        self.names.has(name)
    }

    // One more row, of which the name alone is read.
    pub(crate) fn push(&mut self, alloc: Global, name: String) -> Result<(), AllocError>
        requires new { is_row (string_bytes name) self.old ≡ false }
        requires room { length self.old < 1_000_000 }
        ensures added { OnOk result (self.new ≡ self.old ++ blank_row (string_bytes name) ∷ []) }
        ensures kept { OnErr result (self.new ≡ self.old) }
    {
        let copy = name.as_str().to_string(alloc)?;
        self.rows.reserve(1)?;
        self.names.push(copy)?;
        self.rows.push(DeclaredRow::new(alloc, name)).unwrap();
        Ok(())
    }

    // The last row has these bounds and entries.
    pub(crate) fn fill_last(
        &mut self,
        lower: Option<Frac>,
        upper: Option<Frac>,
        entries: Vec<Entry>,
    )
        requires { entry_count self.old + length entries.items ≤ 20_000_000 }
        ensures { self.new ≡ with_changed (length self.old - 1) (λ (r : Row). record r { lower = lower; upper = upper; entries = entries.items }) self.old }
    {
        let rows = self.rows.len();
        if rows > 0 {
            let count = entries.len();
            let row = &mut self.rows[rows - 1];
            let before = row.entries().len();
            row.fill(lower, upper, entries);
            self.count = self.count - before + count;
        }
    }
}
