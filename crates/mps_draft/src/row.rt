// Rows of a declaration.
ghost use Rattle.std.specs.Prelude.{◌≡◌, ◌≢◌, ◌<◌, ◌≤◌, ◌^◌, ◌++◌, [], ◌∷◌, IsTrue, Ok, OnOk, OnErr, IfOk};
ghost use Rattle.instance.specs.WellFormed.{are_entries};
ghost use Rattle.mps_draft.specs.Declaration.{new_row, is_free};
ghost use Rattle.mps_draft.specs.Rows.{given, row_kind_of};
ghost use Rattle.mps_draft.specs.Finished.{row_lower, row_upper};
ghost use Rattle.mps_draft.specs.Rows.{rhs_added, range_added, rhs_of};
ghost use Rattle.mps_draft.specs.RowNumbers.{within, entry_value, rhs_value, entries_of};
ghost use Rattle.model_text.specs.Follows.{Follows, as_read};
ghost use Rattle.model_text.specs.Steps.{then_do};

use fraction::Frac;
use instance::{Entries, Entry};
use model_text::{FaultKind, ReadError};
use sqlite_items::Boxed;
use std::alloc::{AllocError, Global};
use std::marker::Model;

/// The objective, and the kinds N, L, G and E of rows.
#[derive(Clone, Copy)]
pub enum RowKind {
    Objective,
    Free,
    AtMost,
    AtLeast,
    Exactly,
}

impl RowKind {
    /// By the word of a line in ROWS.
    pub fn of_word(word: &str) -> Option<RowKind>
        ensures { result ≡ row_kind_of word.now }
    {
        match word {
            "N" => Some(RowKind::Free),
            "L" => Some(RowKind::AtMost),
            "G" => Some(RowKind::AtLeast),
            "E" => Some(RowKind::Exactly),
            _ => None,
        }
    }

    /// No bound stands on the row's value.
    pub fn is_free(self) -> bool
        ensures { result ≡ is_free self }
    {
        match self {
            RowKind::Objective | RowKind::Free => true,
            RowKind::AtMost | RowKind::AtLeast | RowKind::Exactly => false,
        }
    }
}

/// The bounds that RANGES gives a row.
#[derive(Clone, Copy)]
pub struct RowRange {
    pub lower: Frac,
    pub upper: Frac,
}

// One more entry. A full list grows by a quarter, so that little of it stands empty.
fn push_entry(entries: &mut Vec<Entry>, entry: Entry) -> Result<(), AllocError>
    ensures added { OnOk result (entries.new.items ≡ entries.old.items ++ entry ∷ []) }
    ensures kept { OnErr result (entries.new.items ≡ entries.old.items) }
{
    if entries.len() == entries.capacity() {
        entries.reserve_exact(entries.len() / 4 + 1)?;
    }
    entries.push(entry)?;
    Ok(())
}

// The number of an entry; where no entry more may be, only a zero may.
fn within(is_full: bool, number: Result<Frac, FaultKind>) -> Result<Frac, ReadError<FaultKind>>
    ensures { result ≡ as_read (then_do (within is_full) number) }
{
    match number {
        Err(kind) => Err(ReadError::Fault(kind)),
        Ok(value) => {
            if !value.is_zero() && is_full {
                Err(ReadError::Fault(FaultKind::TooMany))
            } else {
                Ok(value)
            }
        }
    }
}

// How many entries a number makes.
pub(crate) fn entries_of(number: &Result<Frac, FaultKind>) -> usize
    ensures value { result ≡ entries_of number.now }
    ensures few { result ≤ 1 }
{
    match number {
        Err(_) => 0,
        Ok(value) => { if value.is_zero() { 0 } else { 1 } }
    }
}

/// The objective or a row, as far as it is declared.
#[derive(Drop)]
pub struct DeclaredRow<'a> {
    name: &'a str,
    kind: RowKind,
    // what the columns have in it, but for zeros
    entries: Vec<Entry>,
    // the last column that gives it a number, counted from 1; 0 where none does
    latest: usize,
    rhs: Option<Frac>,
    // boxed, since few rows have one, and a problem may have a million rows
    range: Option<Boxed<RowRange>>,
}

impl<'a> Model for DeclaredRow<'a> {
    ghost use Rattle.std.specs.Prelude.{IsTrue};
    ghost use Rattle.instance.specs.WellFormed.{are_entries};
    ghost use Rattle.mps_draft.specs.Declaration.{DeclaredRow as RowOf};

    ghost Value = { RowOf };

    ghost view = { λ r. record { name = r.name.now; kind = r.kind; entries = r.entries.items; latest = r.latest; rhs = r.rhs; range = r.range } };

    ghost invariant = { λ r. IsTrue (are_entries r.latest r.entries.items) };
}

impl<'a> DeclaredRow<'a> {
    // A row without entries.
    pub(crate) fn new(alloc: Global, name: &'a str, kind: RowKind) -> Self
        ensures { result ≡ new_row name.now kind }
    {
        DeclaredRow {
            name,
            kind,
            entries: Vec::new(alloc),
            latest: 0,
            rhs: None,
            range: None,
        }
    }

    pub(crate) fn name(&self) -> &'a str
        ensures { result.now ≡ self.now.name }
    {
        self.name
    }

    /// Its kind.
    pub fn kind(&self) -> RowKind
        ensures { result ≡ self.now.kind }
    {
        self.kind
    }

    // Its right-hand side.
    pub(crate) fn rhs(&self) -> Option<Frac>
        ensures { result ≡ self.now.rhs }
    {
        self.rhs
    }

    /// Its right-hand side, 0 where none is given.
    pub fn rhs_or_zero(&self) -> Frac
        ensures { result ≡ rhs_of self.now }
    {
        self.rhs.unwrap_or(Frac::zero())
    }

    /// The bounds that a range gives it.
    pub fn range(&self) -> Option<RowRange>
        ensures { result ≡ self.now.range }
    {
        match &self.range {
            None => None,
            Some(range) => Some(*range.get()),
        }
    }

    // What the columns have in it, moved: a form in order of column.
    pub(crate) fn into_entries(self) -> Vec<Entry>
        ensures value { result.items ≡ self.entry.entries }
        ensures form { IsTrue (are_entries self.entry.latest self.entry.entries) }
    {
        self.entries
    }

    // What its value is at least.
    pub(crate) fn lower(&self) -> Option<Frac>
        ensures { result ≡ row_lower self.now.kind (rhs_of self.now) self.now.range }
    {
        match self.range() {
            Some(range) => Some(range.lower),
            None => match self.kind {
                RowKind::AtLeast | RowKind::Exactly => Some(self.rhs_or_zero()),
                RowKind::Objective | RowKind::Free | RowKind::AtMost => None,
            },
        }
    }

    // What its value is at most.
    pub(crate) fn upper(&self) -> Option<Frac>
        ensures { result ≡ row_upper self.now.kind (rhs_of self.now) self.now.range }
    {
        match self.range() {
            Some(range) => Some(range.upper),
            None => match self.kind {
                RowKind::AtMost | RowKind::Exactly => Some(self.rhs_or_zero()),
                RowKind::Objective | RowKind::Free | RowKind::AtLeast => None,
            },
        }
    }

    // What the last of so many columns has in it, which it may have once.
    fn entry_value(
        &self,
        columns: usize,
        is_full: bool,
        number: Result<Frac, FaultKind>,
    ) -> Result<Frac, ReadError<FaultKind>>
        ensures value { result ≡ as_read (entry_value columns is_full number self.now) }
        ensures once { IfOk result (λ _. self.now.latest ≢ columns) }
    {
        if self.latest == columns {
            return Err(ReadError::Fault(FaultKind::Twice));
        }
        within(is_full, number)
    }

    // The last of so many columns has this number in it.
    pub(crate) fn add_entry(
        &mut self,
        columns: usize,
        is_full: bool,
        number: Result<Frac, FaultKind>,
    ) -> Result<(), ReadError<FaultKind>>
        requires there { self.old.latest ≤ columns }
        requires few { columns ≤ 1_000_000 }
        ensures follows { Follows result self.new (then_do (λ value. Ok (given columns value self.old)) (entry_value columns is_full number self.old)) }
        ensures name { self.new.name ≡ self.old.name }
        ensures there { self.new.latest ≤ columns }
        ensures kept { OnErr result (self.new ≡ self.old) }
    {
        let value = self.entry_value(columns, is_full, number)?;
        self.give(columns, value)?;
        Ok(())
    }

    // The last of so many columns gives it a number.
    fn give(&mut self, columns: usize, value: Frac) -> Result<(), AllocError>
        requires later { self.old.latest < columns }
        requires few { columns ≤ 1_000_000 }
        ensures given { OnOk result (self.new ≡ given columns value self.old) }
        ensures kept { OnErr result (self.new ≡ self.old) }
    {
        if !value.is_zero() {
            let entry = Entry {
                column: columns as u32 - 1,
                coefficient: value,
            };
            push_entry(&mut self.entries, entry)?;
        }
        self.latest = columns;
        Ok(())
    }

    // Its right-hand side, of which it has one.
    fn rhs_value(&self, number: Result<Frac, FaultKind>) -> Result<Frac, ReadError<FaultKind>>
        ensures { result ≡ as_read (rhs_value number self.now) }
    {
        if self.rhs.is_some() {
            return Err(ReadError::Fault(FaultKind::Twice));
        }
        match number {
            Err(kind) => Err(ReadError::Fault(kind)),
            Ok(value) => Ok(value),
        }
    }

    // It has this right-hand side.
    pub(crate) fn add_rhs(
        &mut self,
        number: Result<Frac, FaultKind>,
    ) -> Result<(), ReadError<FaultKind>>
        ensures follows { Follows result self.new (then_do (λ value. Ok (rhs_added value self.old)) (rhs_value number self.old)) }
        ensures name { self.new.name ≡ self.old.name }
        ensures latest { self.new.latest ≡ self.old.latest }
        ensures kept { OnErr result (self.new ≡ self.old) }
    {
        let value = self.rhs_value(number)?;
        self.set_rhs(value);
        Ok(())
    }

    fn set_rhs(&mut self, value: Frac)
        ensures { self.new ≡ rhs_added value self.old }
    {
        self.rhs = match self.kind {
            RowKind::Free => None,
            _ => Some(value),
        };
    }

    // It has this range. After an error nothing has changed.
    pub(crate) fn set_range(&mut self, alloc: Global, range: RowRange) -> Result<(), AllocError>
        ensures set { OnOk result (self.new ≡ range_added range self.old) }
        ensures name { self.new.name ≡ self.old.name }
        ensures kept { OnErr result (self.new ≡ self.old) }
    {
        let range = Boxed::new(alloc, range)?;
        self.range = Some(range);
        Ok(())
    }
}
