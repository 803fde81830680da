// The entries of rows, told column by column.
ghost use Rattle.std.specs.Prelude.{◌≡◌, ◌<◌, [], ◌∷◌, ◌++◌, length, slice_index_or, IfOk, OnOk};
ghost use Rattle.std.specs.List.{All};
ghost use Rattle.milp.specs.Form.{Entry as FormEntry};
ghost use Rattle.instance.specs.ByColumn.{AreByColumn, with_entry, with_form};

use crate::{Column, Entry, Instance};
use fraction::Frac;
use std::alloc::{AllocError, Global};
use std::marker::Model;

/// An entry of a column: the place of the row that it stands in, and the coefficient there.
#[derive(Clone, Copy)]
pub struct ColumnEntry {
    pub row: u32,
    pub coefficient: Frac,
}

/// The entries of a problem by column: for each column a list of its entries, in order of row. A problem keeps its
/// entries by row alone; `Instance::by_column` makes this of it. Clauses see the lists.
#[derive(Drop)]
pub struct EntriesByColumn {
    lists: Vec<Vec<ColumnEntry>>,
}

impl Model for EntriesByColumn {
    ghost use Rattle.std.specs.Prelude.{List, map};
    ghost use Rattle.instance.specs.ByColumn.{ColumnEntry as EntryOfColumn};

    ghost Value = { List (List EntryOfColumn) };

    ghost view = { λ c. map (λ list. list.items) c.lists.items };
}

impl EntriesByColumn {
    // The entries of a problem, in one pass over its rows.
    pub(crate) fn of(alloc: Global, problem: &Instance) -> Result<Self, AllocError>
        ensures { IfOk result (λ made. AreByColumn made problem.now.columns problem.now.rows) }
    {
        problem.keeps_its_limits();
        let mut made = EntriesByColumn::without_rows(alloc, problem.columns())?;
        for (place, row) in problem.rows().iter().enumerate() {
            made.add_row(place as u32, row.entries().as_slice())?;
        }
        Ok(made)
    }

    // The columns, without entries.
    fn without_rows(alloc: Global, columns: &[Column]) -> Result<Self, AllocError>
        ensures { IfOk result (λ made. AreByColumn made columns.now []) }
    {
        let mut made = EntriesByColumn {
            lists: Vec::with_capacity(alloc, columns.len())?,
        };
        for _column in columns {
            made.add_column(alloc)?;
        }
        Ok(made)
    }

    // One more column, without entries.
    fn add_column(&mut self, alloc: Global) -> Result<(), AllocError>
        ensures { OnOk result (self.new ≡ self.old ++ [] ∷ []) }
    {
        self.lists.push(Vec::new(alloc))?;
        Ok(())
    }

    // The entries of a row, each at the end of its column's list.
    fn add_row(&mut self, row: u32, entries: &[Entry]) -> Result<(), AllocError>
        requires { All (λ (e : FormEntry). e.column < length self.old) entries.now }
        ensures { OnOk result (self.new ≡ with_form row entries.now self.old) }
    {
        for entry in entries {
            self.push(row, *entry)?;
        }
        Ok(())
    }

    // An entry of a row, at the end of its column's list.
    fn push(&mut self, row: u32, entry: Entry) -> Result<(), AllocError>
        requires { entry.column < length self.old }
        ensures { OnOk result (self.new ≡ with_entry row entry self.old) }
    {
        self.lists[entry.column as usize].push(ColumnEntry {
            row,
            coefficient: entry.coefficient,
        })?;
        Ok(())
    }

    /// The entries of a column.
    pub fn get(&self, column: u32) -> &[ColumnEntry]
        requires { column < length self.now }
        ensures { result.now ≡ slice_index_or self.now column [] }
    {
        self.lists[column as usize].as_slice()
    }
}
