// A declaration in the making.
ghost use Rattle.std.specs.Prelude.{◌≡◌, ◌+◌, ◌-◌, ◌<◌, ◌≤◌, ◌++◌, [], ◌∷◌, Some, Ok, false, length, map, string_bytes, IsTrue, IfOk, OnOk, OnErr};
ghost use Rattle.std.specs.List.{All};
ghost use Rattle.milp.specs.Problem.{Row, Column};
ghost use Rattle.model_text.specs.Names.{AreNew};
ghost use Rattle.model_text.specs.Follows.{Follows};
ghost use Rattle.model_text.specs.Steps.{then_do};
ghost use Rattle.cplex_lp_draft.specs.Consistent.{HasForm, are_terms};
ghost use Rattle.cplex_lp_draft.specs.declared.expecting.Expecting.TheVariants as expecting;
ghost use Rattle.cplex_lp_draft.specs.declared.expecting.TermPart.TheVariants.{Done};
ghost use Rattle.model_text.specs.Columns.{new_column};
ghost use Rattle.cplex_lp_draft.specs.Declaration.{nothing_declared, now_expecting, added, entries_of, column_place, new_row, with_column, with_changed};
ghost use Rattle.cplex_lp_draft.specs.Rows.{is_row, blank_row, entry_count, with_left, with_right, filled};
ghost use Rattle.cplex_lp_draft.specs.Changes.{changed};

use crate::column_change::{ColumnChange, change_at};
use crate::expecting::{Expecting, Sign, TermPart};
use crate::form::Form;
use crate::open_row::OpenRow;
use crate::row::DeclaredRow;
use crate::row_table::RowTable;
use cplex_lp_tokens::Relation;
use fraction::Frac;
use instance::Entry;
use milp::Direction;
use model_text::{ColumnTable, DeclaredColumn, FileFault, ReadError};
use std::alloc::{AllocError, Global};
use std::marker::Model;

//// What a CPLEX LP text has declared so far.
#[derive(Drop)]
pub struct Draft<'a> {
    expecting: Expecting,
    direction: Direction,
    objective_name: &'a str,
    objective: Form,
    constant: Frac,
    rows: RowTable,
    // the last row, as far as it is read
    open_row: OpenRow,
    columns: ColumnTable<'a>,
}

impl<'a> Model for Draft<'a> {
    ghost use Rattle.cplex_lp_draft.specs.Declaration.{Declaration};
    ghost use Rattle.cplex_lp_draft.specs.Consistent.{IsConsistent};

    ghost Value = { Declaration };

    ghost view = { λ d. record { expecting = d.expecting; direction = d.direction; objective_name = d.objective_name.now; objective = d.objective; constant = d.constant; rows = d.rows; open_row = d.open_row; columns = d.columns } };

    ghost invariant = { λ d. IsConsistent d.objective d.open_row.form d.rows d.columns };
}

impl<'a> Draft<'a> {
    /// Nothing is declared.
    pub fn new(alloc: Global) -> Self
        ensures { result ≡ nothing_declared }
    {
        Draft {
            expecting: Expecting::Start,
            direction: Direction::Min,
            objective_name: "obj",
            objective: Form::new(alloc),
            constant: Frac::zero(),
            rows: RowTable::new(alloc),
            open_row: OpenRow::new(alloc, 0),
            columns: ColumnTable::new(alloc),
        }
    }

    /// What was read last, and so what may come next.
    pub fn expecting(&self) -> Expecting
        ensures { result ≡ self.now.expecting }
    {
        self.expecting
    }

    /// Another token comes.
    pub fn set_expecting(&mut self, next: Expecting)
        ensures { self.new ≡ now_expecting next self.old }
    {
        self.expecting = next;
    }

    // ---- the objective

    pub(crate) fn direction(&self) -> Direction
        ensures { result ≡ self.now.direction }
    {
        self.direction
    }

    pub(crate) fn objective_name(&self) -> &'a str
        ensures { result.now ≡ self.now.objective_name }
    {
        self.objective_name
    }

    /// The constant of the objective.
    pub fn constant(&self) -> Frac
        ensures { result ≡ self.now.constant }
    {
        self.constant
    }

    // The objective's entries, but for zeros.
    pub(crate) fn objective_entries(&self, alloc: Global) -> Result<Vec<Entry>, AllocError>
        ensures entries { IfOk result (λ entries. entries.items ≡ entries_of self.now.objective) }
        ensures terms { IsTrue (are_terms (length self.now.columns) self.now.objective) }
    {
        self.objective.entries(alloc)
    }

    /// The section of the objective begins.
    pub fn begin_objective(&mut self, direction: Direction)
        ensures { self.new ≡ record self.old { direction = direction; expecting = expecting.ObjectiveStart } }
    {
        self.direction = direction;
        self.expecting = Expecting::ObjectiveStart;
    }

    /// The objective has this name.
    pub fn name_objective(&mut self, name: &'a str)
        ensures { self.new ≡ record self.old { objective_name = name.now; expecting = expecting.ObjectiveColon } }
    {
        self.objective_name = name;
        self.expecting = Expecting::ObjectiveColon;
    }

    /// The objective has a term more; TooWide is at its line.
    pub fn add_to_objective(
        &mut self,
        line: usize,
        column: u32,
        value: Frac,
    ) -> Result<(), ReadError<FileFault>>
        requires { column < length self.old.columns }
        ensures { Follows result self.new (then_do (λ form. Ok (record self.old { objective = form; expecting = expecting.Objective Done })) (added line column value self.old.objective)) }
    {
        self.objective.add(line, column, value)?;
        self.expecting = Expecting::Objective(TermPart::Done);
        Ok(())
    }

    /// The objective has this constant.
    pub fn set_constant(&mut self, constant: Frac)
        ensures { self.new ≡ record self.old { constant = constant; expecting = expecting.Objective Done } }
    {
        self.constant = constant;
        self.expecting = Expecting::Objective(TermPart::Done);
    }

    // ---- rows

    /// How many rows have begun.
    pub fn row_count(&self) -> usize
        ensures len { result ≡ length self.now.rows }
        ensures few { result ≤ 1_000_000 }
    {
        self.rows.len()
    }

    /// How many entries the rows have that are read to their end.
    pub fn entry_count(&self) -> usize
        ensures value { result ≡ entry_count self.now.rows }
        ensures few { result ≤ 20_000_000 }
    {
        self.rows.entry_count()
    }

    /// A row has this name.
    pub fn has_row(&self, name: &str) -> bool
        ensures { result ≡ is_row name.now self.now.rows }
    {
        self.rows.has(name)
    }

    // The rows alone; all else is let go.
    pub(crate) fn into_rows(self) -> Vec<DeclaredRow>
        ensures value { result.items ≡ self.entry.rows }
        ensures new { AreNew (map (λ (r : Row). r.name) self.entry.rows) }
        ensures few { length self.entry.rows ≤ 1_000_000 }
        ensures entries { entry_count self.entry.rows ≤ 20_000_000 }
        ensures forms { All (HasForm (length self.entry.columns)) self.entry.rows }
    {
        self.rows.into_rows()
    }

    /// The row of a new name begins at a line.
    pub fn push_row(&mut self, alloc: Global, line: usize, name: String) -> Result<(), AllocError>
        requires new { is_row (string_bytes name) self.old.rows ≡ false }
        requires room { length self.old.rows < 1_000_000 }
        ensures { OnOk result (self.new ≡ record self.old { rows = self.old.rows ++ blank_row (string_bytes name) ∷ []; open_row = new_row line }) }
    {
        self.rows.push(alloc, name)?;
        self.open_row = OpenRow::new(alloc, line);
        Ok(())
    }

    /// The line of the last row's first token.
    pub fn row_line(&self) -> usize
        ensures { result ≡ self.now.open_row.line }
    {
        self.open_row.line()
    }

    /// The relation after the number on its left.
    pub fn row_left(&self) -> Option<Relation>
        ensures { result ≡ self.now.open_row.left }
    {
        self.open_row.left()
    }

    /// The last row's entries, but for zeros.
    pub fn row_entries(&self, alloc: Global) -> Result<Vec<Entry>, AllocError>
        ensures { IfOk result (λ entries. entries.items ≡ entries_of self.now.open_row.form) }
    {
        self.open_row.entries(alloc)
    }

    /// The last row has a term more; TooWide is at the term's line.
    pub fn add_to_row(
        &mut self,
        line: usize,
        column: u32,
        value: Frac,
    ) -> Result<(), ReadError<FileFault>>
        requires { column < length self.old.columns }
        ensures { Follows result self.new (then_do (λ form. Ok (record self.old { open_row = record self.old.open_row { form = form }; expecting = expecting.RowTerms Done })) (added line column value self.old.open_row.form)) }
    {
        self.open_row.add(line, column, value)?;
        self.expecting = Expecting::RowTerms(TermPart::Done);
        Ok(())
    }

    /// A number is on the last row's left, before a relation.
    pub fn set_left(&mut self, relation: Relation, value: Frac)
        ensures { self.new ≡ with_left self.old value relation }
    {
        self.open_row.set_left(relation, value);
        self.expecting = Expecting::RowTerms(TermPart::Begun(Sign::Unsigned));
    }

    /// A number is on its right, after a relation.
    pub fn set_right(&mut self, relation: Relation, value: Frac)
        ensures { self.new ≡ with_right self.old value relation }
    {
        self.open_row.set_right(relation, value);
    }

    /// The last row is read to its end, and has these entries.
    pub fn close_row(&mut self, entries: Vec<Entry>)
        requires entries { entries.items ≡ entries_of self.old.open_row.form }
        requires room { entry_count self.old.rows + length entries.items ≤ 20_000_000 }
        ensures { self.new ≡ record self.old { rows = with_changed (length self.old.rows - 1) (filled self.old.open_row) self.old.rows; expecting = expecting.RowStart } }
    {
        self.rows
            .fill_last(self.open_row.lower(), self.open_row.upper(), entries);
        self.expecting = Expecting::RowStart;
    }

    // ---- columns

    /// How many columns are mentioned.
    pub fn column_count(&self) -> usize
        ensures { result ≡ length self.now.columns }
    {
        self.columns.len()
    }

    pub(crate) fn columns(&self) -> &[DeclaredColumn<'a>]
        ensures value { result.now ≡ self.now.columns }
        ensures new { AreNew (map (λ (c : Column). c.name) self.now.columns) }
        ensures few { length self.now.columns ≤ 1_000_000 }
    {
        self.columns.as_slice()
    }

    /// The place of the column of a name, or the one that it would take.
    pub fn column_place(&self, name: &str) -> u32
        ensures value { result ≡ column_place name.now self.now.columns }
        ensures within { result ≤ length self.now.columns }
    {
        match self.columns.place(name) {
            Some(place) => place as u32,
            None => self.columns.len() as u32,
        }
    }

    /// A column more, of a new name.
    pub fn push_column(&mut self, name: &'a str) -> Result<(), AllocError>
        requires new { length self.old.columns ≤ column_place name.now self.old.columns }
        requires room { length self.old.columns < 1_000_000 }
        ensures added { OnOk result (self.new ≡ record self.old { columns = self.old.columns ++ new_column name.now false ∷ [] }) }
        ensures more { OnOk result (length self.new.columns ≡ length self.old.columns + 1) }
    {
        self.columns.push(DeclaredColumn::new(name, false))?;
        Ok(())
    }

    /// The column at a place changed, where there is one.
    pub fn change_column(&mut self, column: u32, change: ColumnChange)
        ensures { self.new ≡ with_column column (changed change) self.old }
    {
        change_at(&mut self.columns, column as usize, change);
    }
}
