// The rows of a declaration.
ghost use Rattle.std.specs.Prelude.{◌≡◌, ◌<◌, ◌≤◌, ◌++◌, [], ◌∷◌, None, length, map, OnOk, OnErr};
ghost use Rattle.std.specs.Option.{option_map};
ghost use Rattle.std.specs.List.{find};
ghost use Rattle.mps_draft.specs.Declaration.{is_row_named, with_first_changed};
ghost use Rattle.mps_draft.specs.Declaration.{DeclaredRow as RowOf};
ghost use Rattle.model_text.specs.Names.{AreNew};
ghost use Rattle.std.specs.List.{All};
ghost use Rattle.mps_draft.specs.Consistent.{IsGiven};
ghost use Rattle.mps_draft.specs.Rows.{given, rhs_added, range_added};
ghost use Rattle.mps_draft.specs.RowNumbers.{entry_value, rhs_value, rows_with};
ghost use Rattle.model_text.specs.Follows.{Follows};

use crate::row::{DeclaredRow, RowRange};
use fraction::Frac;
use model_text::{FaultKind, Names, ReadError};
use std::alloc::{AllocError, Global};
use std::marker::Model;

// RowTable of different names, found by name.
#[derive(Drop)]
pub(crate) struct RowTable<'a> {
    names: Names<'a>,
    rows: Vec<DeclaredRow<'a>>,
}

impl<'a> Model for RowTable<'a> {
    ghost use Rattle.std.specs.Prelude.{◌≡◌, List, map};
    ghost use Rattle.mps_draft.specs.Declaration.{DeclaredRow as RowOf};
    ghost use Rattle.model_text.specs.Names.{AreNew};

    ghost Value = { List RowOf };

    ghost view = { λ r. r.rows.items };

    ghost invariant = { λ r. (r.names ≡ map (λ (row : RowOf). row.name) r.rows.items) × AreNew r.names };
}

impl<'a> RowTable<'a> {
    pub(crate) fn new(alloc: Global) -> Self
        ensures { result ≡ [] }
    {
        RowTable {
            names: Names::new(alloc),
            rows: Vec::new(alloc),
        }
    }

    pub(crate) fn len(&self) -> usize
        ensures { result ≡ length self.now }
    {
        self.rows.len()
    }

    // The rows alone. Their names differ.
    pub(crate) fn into_rows(self) -> Vec<DeclaredRow<'a>>
        ensures value { result.items ≡ self.entry }
        ensures new { AreNew (map (λ (r : RowOf). r.name) self.entry) }
    {
        self.rows
    }

    // The row of a name.
    pub(crate) fn get(&self, name: &str) -> Option<&DeclaredRow<'a>>
        ensures { option_map (λ r. r.now) result ≡ find (is_row_named name.now) self.now }
    {
        let place = self.names.place(name)?;
        Some(&self.rows[place])
    }

    // One more row.
    pub(crate) fn push(&mut self, row: DeclaredRow<'a>) -> Result<(), AllocError>
        requires new { find (is_row_named row.name) self.old ≡ None }
        ensures added { OnOk result (self.new ≡ self.old ++ row.entry ∷ []) }
        ensures kept { OnErr result (self.new ≡ self.old) }
    {
        self.rows.reserve(1)?;
        self.names.push(row.name())?;
        self.rows.push(row).unwrap();
        Ok(())
    }

    // The last of so many columns has a number in the row of a name.
    pub(crate) fn add_entry(
        &mut self,
        name: &str,
        columns: usize,
        is_full: bool,
        number: Result<Frac, FaultKind>,
    ) -> Result<(), ReadError<FaultKind>>
        requires there { All (IsGiven columns) self.old }
        requires few { columns ≤ 1_000_000 }
        ensures follows { Follows result self.new (rows_with (entry_value columns is_full number) (given columns) name.now self.old (find (is_row_named name.now) self.old)) }
        ensures kept { OnErr result (self.new ≡ self.old) }
    {
        match self.names.place(name) {
            None => Err(ReadError::Fault(FaultKind::Unknown)),
            Some(place) => {
                let row = &mut self.rows[place];
                row.add_entry(columns, is_full, number)
            }
        }
    }

    // The row of a name has a right-hand side.
    pub(crate) fn set_rhs(
        &mut self,
        name: &str,
        number: Result<Frac, FaultKind>,
    ) -> Result<(), ReadError<FaultKind>>
        ensures follows { Follows result self.new (rows_with (rhs_value number) rhs_added name.now self.old (find (is_row_named name.now) self.old)) }
        ensures kept { OnErr result (self.new ≡ self.old) }
    {
        match self.names.place(name) {
            None => Err(ReadError::Fault(FaultKind::Unknown)),
            Some(place) => {
                let row = &mut self.rows[place];
                row.add_rhs(number)
            }
        }
    }

    // The row of a name, if there is one, has this range. After an error nothing has changed.
    pub(crate) fn set_range(
        &mut self,
        alloc: Global,
        name: &str,
        range: RowRange,
    ) -> Result<(), AllocError>
        ensures set { OnOk result (self.new ≡ with_first_changed (is_row_named name.now) (range_added range) self.old) }
        ensures kept { OnErr result (self.new ≡ self.old) }
    {
        match self.names.place(name) {
            None => Ok(()),
            Some(place) => {
                let row = &mut self.rows[place];
                row.set_range(alloc, range)
            }
        }
    }
}
