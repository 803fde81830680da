// The row that is being read.
ghost use Rattle.std.specs.Prelude.{◌≡◌, ℕ, ◌<◌, Some, Ok, IsTrue, IfOk};
ghost use Rattle.model_text.specs.Follows.{Follows};
ghost use Rattle.model_text.specs.Steps.{then_do};
ghost use Rattle.cplex_lp_draft.specs.Declaration.{new_row, added, entries_of};
ghost use Rattle.cplex_lp_draft.specs.Rows.{left_set, right_set};
ghost use Rattle.cplex_lp_draft.specs.Consistent.{are_terms};

use crate::form::Form;
use cplex_lp_tokens::Relation;
use fraction::Frac;
use instance::Entry;
use model_text::{FileFault, ReadError};
use std::alloc::{AllocError, Global};
use std::marker::Model;

// What is read so far of a row.
#[derive(Drop)]
pub(crate) struct OpenRow {
    // the line of its first token
    line: usize,
    // the relation after the number on its left
    left: Option<Relation>,
    lower: Option<Frac>,
    upper: Option<Frac>,
    form: Form,
}

impl Model for OpenRow {
    ghost use Rattle.cplex_lp_draft.specs.Declaration.{OpenRow as OpenRowOf};

    ghost Value = { OpenRowOf };

    ghost view = { λ r. record { line = r.line; left = r.left; lower = r.lower; upper = r.upper; form = r.form } };
}

impl OpenRow {
    pub(crate) fn new(alloc: Global, line: usize) -> Self
        ensures { result ≡ new_row line }
    {
        OpenRow {
            line,
            left: None,
            lower: None,
            upper: None,
            form: Form::new(alloc),
        }
    }

    pub(crate) fn line(&self) -> usize
        ensures { result ≡ self.now.line }
    {
        self.line
    }

    pub(crate) fn left(&self) -> Option<Relation>
        ensures { result ≡ self.now.left }
    {
        self.left
    }

    pub(crate) fn lower(&self) -> Option<Frac>
        ensures { result ≡ self.now.lower }
    {
        self.lower
    }

    pub(crate) fn upper(&self) -> Option<Frac>
        ensures { result ≡ self.now.upper }
    {
        self.upper
    }

    // The entries of its form, but for zeros.
    pub(crate) fn entries(&self, alloc: Global) -> Result<Vec<Entry>, AllocError>
        ensures { IfOk result (λ entries. entries.items ≡ entries_of self.now.form) }
    {
        self.form.entries(alloc)
    }

    // A term more; the fault is at its line.
    pub(crate) fn add(
        &mut self,
        line: usize,
        column: u32,
        value: Frac,
    ) -> Result<(), ReadError<FileFault>>
        ensures follows { Follows result self.new (then_do (λ form. Ok (record self.old { form = form })) (added line column value self.old.form)) }
        ensures terms { (count : ℕ) → column < count → IsTrue (are_terms count self.old.form) → IsTrue (are_terms count self.new.form) }
    {
        self.form.add(line, column, value)
    }

    // A number is on its left, before a relation.
    pub(crate) fn set_left(&mut self, relation: Relation, value: Frac)
        ensures value { self.new ≡ left_set relation value self.old }
        ensures form { self.new.form ≡ self.old.form }
    {
        match relation {
            Relation::AtMost => {
                self.left = Some(relation);
                self.lower = Some(value);
            }
            Relation::AtLeast => {
                self.left = Some(relation);
                self.upper = Some(value);
            }
            Relation::Exactly => {}
        }
    }

    // A number is on its right, after a relation.
    pub(crate) fn set_right(&mut self, relation: Relation, value: Frac)
        ensures value { self.new ≡ right_set relation value self.old }
        ensures form { self.new.form ≡ self.old.form }
    {
        match relation {
            Relation::AtMost => self.upper = Some(value),
            Relation::AtLeast => self.lower = Some(value),
            Relation::Exactly => {
                self.lower = Some(value);
                self.upper = Some(value);
            }
        }
    }
}
