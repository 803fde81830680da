// A declaration in the making.
ghost use Rattle.std.specs.Prelude.{ℕ, ◌≡◌, ◌<◌, ◌≤◌, ◌++◌, [], ◌∷◌, None, Some, false, true, length, map, is_some, IfSome, OnOk, OnErr};
ghost use Rattle.std.specs.Option.{option_map};
ghost use Rattle.std.specs.List.{All};
ghost use Rattle.model_text.specs.Names.{AreNew};
ghost use Rattle.mps_draft.specs.Consistent.{IsGiven};
ghost use Rattle.milp.specs.Problem.{Column};
ghost use Rattle.mps_draft.specs.Declaration.{DeclaredRow as RowOf, nothing_declared, row_named, is_row, is_objective_named, is_column, with_row, new_row, entry_count as count_of_entries};
ghost use Rattle.mps_draft.specs.Rows.{given};
ghost use Rattle.mps_draft.specs.Declaration.{is_the_name};
ghost use Rattle.model_text.specs.Columns.{new_column};
ghost use Rattle.mps_draft.specs.Rows.{rhs_added, range_added};
ghost use Rattle.mps_draft.specs.RowNumbers.{entry_value, rhs_value, objective_with, entry_added, rhs_given};
ghost use Rattle.model_text.specs.Follows.{Follows};
ghost use Rattle.mps_draft.specs.Bounds.{bound_given};
ghost use Rattle.mps_draft.specs.Sets.{is_of_first_set, is_same_set, with_set, mixes_sets};
ghost use Rattle.mps_draft.specs.Declaration.{in_section, with_sense};

use crate::bound::{BoundKind, set_bound};
use crate::row::{DeclaredRow, RowKind, RowRange, entries_of};
use crate::row_table::RowTable;
use crate::section::Section;
use fraction::Frac;
use instance::Direction;
use model_text::{ColumnTable, DeclaredColumn, FaultKind, ReadError};
use std::alloc::{AllocError, Global};
use std::marker::Model;

/// What a free MPS text has declared so far.
#[derive(Drop)]
pub struct Draft<'a> {
    section: Section,
    direction: Direction,
    objective: Option<DeclaredRow<'a>>,
    rows: RowTable<'a>,
    columns: ColumnTable<'a>,
    // the column whose lines may go on
    current: Option<&'a str>,
    // an INTORG stands open
    in_integers: bool,
    // the set of the section's first line
    first_set: Option<Option<&'a str>>,
    // the entries of all rows
    entry_count: usize,
}

impl<'a> Model for Draft<'a> {
    ghost use Rattle.std.specs.Option.{option_map};
    ghost use Rattle.mps_draft.specs.Declaration.{Declaration};
    ghost use Rattle.mps_draft.specs.Consistent.{IsConsistent, IsDeclared};

    ghost Value = { Declaration };

    ghost view = { λ d. record { section = d.section; direction = d.direction; objective = d.objective; rows = d.rows; columns = d.columns; current = option_map (λ n. n.now) d.current; in_integers = d.in_integers; first_set = option_map (λ s. option_map (λ n. n.now) s) d.first_set } };

    ghost invariant = { λ d. IsConsistent d.objective d.rows d.columns d.entry_count × IsDeclared (option_map (λ n. n.now) d.current) d.columns };
}

impl<'a> Draft<'a> {
    /// Nothing is declared.
    pub fn new(alloc: Global) -> Self
        ensures { result ≡ nothing_declared }
    {
        Draft {
            section: Section::Start,
            direction: Direction::Min,
            objective: None,
            rows: RowTable::new(alloc),
            columns: ColumnTable::new(alloc),
            current: None,
            in_integers: false,
            first_set: None,
            entry_count: 0,
        }
    }

    /// The section of the last header.
    pub fn section(&self) -> Section
        ensures { result ≡ self.now.section }
    {
        self.section
    }

    /// Another section begins.
    pub fn enter(&mut self, section: Section)
        ensures { self.new ≡ in_section section self.old }
    {
        self.section = section;
        self.first_set = None;
    }

    /// The word of OBJSENSE: the objective is to be least or greatest.
    pub fn set_sense(&mut self, direction: Direction)
        ensures { self.new ≡ with_sense direction self.old }
    {
        self.section = Section::SenseGiven;
        self.direction = direction;
    }

    // ---- rows

    /// A row of the kind N is declared.
    pub fn has_objective(&self) -> bool
        ensures { result ≡ is_some self.now.objective }
    {
        self.objective.is_some()
    }

    /// How many rows are declared, the objective aside.
    pub fn row_count(&self) -> usize
        ensures { result ≡ length self.now.rows }
    {
        self.rows.len()
    }

    // The objective has this name.
    fn is_objective(&self, name: &str) -> bool
        ensures { result ≡ is_objective_named name.now self.now.objective }
    {
        match &self.objective {
            Some(objective) => objective.name() == name,
            None => false,
        }
    }

    /// The objective or the row of a name.
    pub fn row(&self, name: &str) -> Option<&DeclaredRow<'a>>
        ensures { option_map (λ r. r.now) result ≡ row_named self.now name.now }
    {
        if self.is_objective(name) {
            self.objective.as_ref()
        } else {
            self.rows.get(name)
        }
    }

    /// The objective or a row has this name.
    pub fn has_row(&self, name: &str) -> bool
        ensures { result ≡ is_row self.now name.now }
    {
        self.row(name).is_some()
    }

    /// The objective has this name.
    pub fn set_objective(&mut self, alloc: Global, name: &'a str)
        ensures { self.new ≡ record self.old { objective = Some (new_row name.now RowKind.Objective) } }
    {
        self.objective = Some(DeclaredRow::new(alloc, name, RowKind::Objective));
    }

    /// A row more, of a new name.
    pub fn push_row(
        &mut self,
        alloc: Global,
        name: &'a str,
        kind: RowKind,
    ) -> Result<(), AllocError>
        requires new { is_row self.old name.now ≡ false }
        requires room { length self.old.rows < 1_000_000 }
        ensures { OnOk result (self.new ≡ record self.old { rows = self.old.rows ++ new_row name.now kind ∷ [] }) }
    {
        self.rows.push(DeclaredRow::new(alloc, name, kind))?;
        Ok(())
    }

    /// The last column has a number, or a number field's fault, in the objective or the row of a name, which has at most
    /// one of each column. `most` is how many entries the rows may have; zeros and the objective's are not counted.
    /// Faults: Unknown for the name, Twice, the number's own, TooMany, in this order.
    pub fn add_entry(
        &mut self,
        name: &str,
        number: Result<Frac, FaultKind>,
        most: usize,
    ) -> Result<(), ReadError<FaultKind>>
        requires { most ≤ 20_000_000 }
        ensures { Follows result self.new (entry_added most self.old name.now number) }
    {
        let columns = self.columns.len();
        if self.is_objective(name) {
            return add_to_objective(&mut self.objective, columns, number);
        }
        let is_full = self.entry_count >= most;
        let more = entries_of(&number);
        self.rows.add_entry(name, columns, is_full, number)?;
        self.entry_count += more;
        Ok(())
    }

    /// The objective or the row of a name has a right-hand side, which is a number or a number field's fault. Faults:
    /// Unknown for the name, Twice, the number's own, in this order.
    pub fn set_rhs(
        &mut self,
        name: &str,
        number: Result<Frac, FaultKind>,
    ) -> Result<(), ReadError<FaultKind>>
        ensures { Follows result self.new (rhs_given self.old name.now number) }
    {
        if self.is_objective(name) {
            return set_objective_rhs(&mut self.objective, number);
        }
        self.rows.set_rhs(name, number)
    }

    /// The objective or the row of a name has this range. After an error nothing has changed.
    pub fn set_range(
        &mut self,
        alloc: Global,
        name: &str,
        range: RowRange,
    ) -> Result<(), AllocError>
        ensures set { OnOk result (self.new ≡ with_row (range_added range) name.now self.old) }
        ensures kept { OnErr result (self.new ≡ self.old) }
    {
        if !self.is_objective(name) {
            return self.rows.set_range(alloc, name, range);
        }
        match &mut self.objective {
            None => Ok(()),
            Some(objective) => objective.set_range(alloc, range),
        }
    }

    // ---- columns

    /// How many columns are declared.
    pub fn column_count(&self) -> usize
        ensures { result ≡ length self.now.columns }
    {
        self.columns.len()
    }

    /// A column has this name.
    pub fn has_column(&self, name: &str) -> bool
        ensures { result ≡ is_column self.now name.now }
    {
        self.columns.has(name)
    }

    /// The lines of the column of this name may go on.
    pub fn is_current(&self, name: &str) -> bool
        ensures value { result ≡ is_the_name self.now.current name.now }
        ensures there { result ≡ true → is_column self.now name.now ≡ true }
    {
        match self.current {
            Some(there) => name == there,
            None => false,
        }
    }

    /// A column more, whose lines may go on.
    pub fn begin_column(&mut self, name: &'a str) -> Result<(), AllocError>
        requires new { is_column self.old name.now ≡ false }
        requires room { length self.old.columns < 1_000_000 }
        ensures { OnOk result (self.new ≡ record self.old { columns = self.old.columns ++ new_column name.now self.old.in_integers ∷ []; current = Some name.now }) }
    {
        self.columns
            .push(DeclaredColumn::new(name, self.in_integers))?;
        self.current = Some(name);
        Ok(())
    }

    /// The column of a name has a bound of this kind, with a number or a number field's fault. Faults: Unknown for the name,
    /// the number's own, in this order.
    pub fn bound(
        &mut self,
        name: &str,
        kind: BoundKind,
        number: Result<Frac, FaultKind>,
    ) -> Result<(), ReadError<FaultKind>>
        ensures { Follows result self.new (bound_given kind self.old name.now number) }
    {
        set_bound(&mut self.columns, name, kind, number)
    }

    /// An INTORG stands open.
    pub fn in_integers(&self) -> bool
        ensures { result ≡ self.now.in_integers }
    {
        self.in_integers
    }

    /// A marker: integer columns begin or end, and no column's lines go on.
    pub fn turn(&mut self, in_integers: bool)
        ensures { self.new ≡ record self.old { current = None; in_integers = in_integers } }
    {
        self.current = None;
        self.in_integers = in_integers;
    }

    // ---- all that is declared

    pub(crate) fn columns(&self) -> &[DeclaredColumn<'a>]
        ensures value { result.now ≡ self.now.columns }
        ensures new { AreNew (map (λ (c : Column). c.name) self.now.columns) }
        ensures few { length self.now.columns ≤ 1_000_000 }
    {
        self.columns.as_slice()
    }

    pub(crate) fn direction(&self) -> Direction
        ensures { result ≡ self.now.direction }
    {
        self.direction
    }

    // The objective and the rows; all else is let go.
    pub(crate) fn into_rows(self) -> (Option<DeclaredRow<'a>>, Vec<DeclaredRow<'a>>)
        ensures objective { result.0 ≡ self.entry.objective }
        ensures objective_given { IfSome self.entry.objective (IsGiven (length self.entry.columns)) }
        ensures rows { result.1.items ≡ self.entry.rows }
        ensures new { AreNew (map (λ (r : RowOf). r.name) self.entry.rows) }
        ensures few { length self.entry.rows ≤ 1_000_000 }
        ensures given { All (IsGiven (length self.entry.columns)) self.entry.rows }
        ensures entries { count_of_entries self.entry.rows ≤ 20_000_000 }
    {
        (self.objective, self.rows.into_rows())
    }

    // ---- sets

    /// The section's first line has a set and this one none, or the other way round.
    pub fn mixes_sets(&self, set: Option<&str>) -> bool
        ensures { result ≡ mixes_sets self.now.first_set (option_map (λ s. s.now) set.entry) }
    {
        match self.first_set {
            None => false,
            Some(first) => first.is_some() != set.is_some(),
        }
    }

    /// Whether a line of this set counts; the first one's set is the section's first set.
    pub fn takes_set(&mut self, set: Option<&'a str>) -> bool
        ensures taken { result ≡ is_of_first_set self.old.first_set (option_map (λ s. s.now) set.entry) }
        ensures first { result ≡ true → self.new ≡ with_set (option_map (λ s. s.now) set.entry) self.old }
        ensures kept { result ≡ false → self.new ≡ self.old }
    {
        match self.first_set {
            None => {
                self.first_set = Some(set);
                true
            }
            Some(first) => is_same_set(first, set),
        }
    }
}

// The last of so many columns has a number in the objective.
fn add_to_objective(
    objective: &mut Option<DeclaredRow>,
    columns: usize,
    number: Result<Frac, FaultKind>,
) -> Result<(), ReadError<FaultKind>>
    requires there { IfSome objective.old (IsGiven columns) }
    requires few { columns ≤ 1_000_000 }
    ensures follows { Follows result objective.new (objective_with (entry_value columns false number) (given columns) objective.old) }
    ensures there { IfSome objective.new (IsGiven columns) }
{
    match objective {
        None => Err(ReadError::Fault(FaultKind::Unknown)),
        Some(objective) => objective.add_entry(columns, false, number),
    }
}

fn set_objective_rhs(
    objective: &mut Option<DeclaredRow>,
    number: Result<Frac, FaultKind>,
) -> Result<(), ReadError<FaultKind>>
    ensures follows { Follows result objective.new (objective_with (rhs_value number) rhs_added objective.old) }
    ensures there { (columns : ℕ) → IfSome objective.old (IsGiven columns) → IfSome objective.new (IsGiven columns) }
{
    match objective {
        None => Err(ReadError::Fault(FaultKind::Unknown)),
        Some(objective) => objective.add_rhs(number),
    }
}

fn is_same_set(first: Option<&str>, set: Option<&str>) -> bool
    ensures { result ≡ is_same_set (option_map (λ s. s.now) first.entry) (option_map (λ s. s.now) set.entry) }
{
    match first {
        None => set.is_none(),
        Some(first) => match set {
            None => false,
            Some(set) => first == set,
        },
    }
}
