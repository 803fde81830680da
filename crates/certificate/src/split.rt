// Splits, and turns on the way from the root of a tree to a node.
ghost use Rattle.std.specs.Prelude.{◌≡◌, ◌<◌, IfOk, IsTrue};
ghost use Rattle.instance.specs.WellFormed.{are_entries};
ghost use Rattle.certificate.specs.Written.{count_max, column_split, split_column, IsSplit, IsColumnSplit};

use crate::WholeNumber;
use crate::derived::entries_fit;
use fraction::Frac;
use instance::{Entries, Entry};
use std::alloc::{AllocError, Global};
use std::marker::Model;

/// Two cases that cover every value of a form that is whole at each feasible point: at most `at` (the low side), at least
/// `at + 1` (the high side).
#[derive(Drop)]
pub struct Split {
    form: Entries,
    at: WholeNumber,
}

impl Model for Split {
    ghost use Rattle.verdicts.specs.Certificate.{Split as SplitOf};
    ghost use Rattle.certificate.specs.Written.{IsSplit};

    ghost Value = { SplitOf };

    ghost view = { λ s. record { form = s.form; at = s.at } };

    ghost invariant = { λ s. IsSplit (record { form = s.form; at = s.at }) };
}

impl Split {
    /// The split of a form. It takes no memory.
    pub fn new(form: Entries, at: WholeNumber) -> Self
        requires { IsTrue (are_entries count_max form) }
        ensures { result ≡ record { form = form; at = at } }
    {
        entries_fit(form.as_slice());
        let _at = at.get();
        Split { form, at }
    }

    /// The same split.
    pub fn copy(&self, alloc: Global) -> Result<Self, AllocError>
        ensures { IfOk result (λ copy. copy ≡ self.now) }
    {
        let form = self.form().copy(alloc)?;
        Ok(Split::new(form, self.at))
    }

    /// The form whose value decides the case. The split has a text.
    pub fn form(&self) -> &Entries
        ensures form { result.now ≡ self.now.form }
        ensures written { IsSplit self.now }
    {
        &self.form
    }

    /// Where the cases part.
    pub fn at(&self) -> WholeNumber
        ensures { result ≡ self.now.at }
    {
        self.at
    }
}

/// The split of one column, named by its index from 0: the form is the column, with coefficient 1.
#[derive(Clone, Copy)]
pub struct ColumnSplit {
    column: u32,
    at: WholeNumber,
}

impl Model for ColumnSplit {
    ghost use Rattle.verdicts.specs.Certificate.{Split as SplitOf};
    ghost use Rattle.certificate.specs.Written.{column_split, split_column, IsColumnSplit};

    ghost Value = { SplitOf };

    ghost view = { λ s. column_split s.column s.at };

    ghost invariant = { λ s. IsColumnSplit (column_split s.column s.at) };

    ghost inverse = { λ s. record { column = split_column s; at = s.at } };
}

impl ColumnSplit {
    /// The split of a column.
    pub fn new(column: u32, at: WholeNumber) -> Self
        requires { column < count_max }
        ensures { result ≡ column_split column at }
    {
        let _at = at.get();
        ColumnSplit { column, at }
    }

    /// The column's index, from 0. The split has a text.
    pub fn column(self) -> u32
        ensures column { result ≡ split_column self }
        ensures written { IsColumnSplit self }
    {
        self.column
    }

    /// Where the cases part.
    pub fn at(self) -> WholeNumber
        ensures { result ≡ self.at }
    {
        self.at
    }

    /// The same split, with its form.
    pub fn to_split(self, alloc: Global) -> Result<Split, AllocError>
        ensures { IfOk result (λ split. split ≡ self) }
    {
        let mut form = Vec::with_capacity(alloc, 1)?;
        form.push(Entry {
            column: self.column(),
            coefficient: Frac::one(),
        })?;
        Ok(Split::new(Entries::from_vec(form), self.at))
    }
}

/// A side of a split.
#[derive(Clone, Copy, Debug, PartialEq, Eq)]
pub enum Side {
    /// At most the number where the cases part.
    Low,
    /// At least the next whole number.
    High,
}

/// The side of its split that is taken at a branch, and the branch's place in the preorder, from 0.
#[derive(Clone, Copy)]
pub struct Turn<'t> {
    pub place: usize,
    pub split: &'t Split,
    pub side: Side,
}
