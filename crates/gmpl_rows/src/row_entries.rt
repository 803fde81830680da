// The entries of rows, laid down column by column.
ghost use Rattle.std.specs.Prelude.{◌≡◌, ◌≤◌, length, OnOk, IfOk};
ghost use Rattle.gmpl_rows.specs.Laying.{nothing_begun, lay, lay_cell, lay_cells, lay_all, all_begun};

use crate::laid::LaidColumn;
use crate::member_column::Cell;
use fraction::Frac;
use instance::{Entry, MAX_COLUMNS};
use std::alloc::{AllocError, Global};
use std::marker::Model;

// The entries of a row so far, and the first column that may come next.
#[derive(Drop)]
pub(crate) struct RowEntries {
    entries: Vec<Entry>,
    next: u32,
}

impl Model for RowEntries {
    ghost use Rattle.gmpl_rows.specs.Laying.{RowEntries as RowEntriesOf};

    ghost Value = { RowEntriesOf };

    ghost view = { λ r. record { entries = r.entries.items; next = r.next } };
}

impl RowEntries {
    fn new(alloc: Global) -> Self
        ensures { result ≡ nothing_begun }
    {
        RowEntries {
            entries: Vec::new(alloc),
            next: 0,
        }
    }

    pub(crate) fn entries(&self) -> &[Entry]
        ensures { result.now ≡ self.now.entries }
    {
        &self.entries
    }

    // The coefficient of a column, unless it is 0 or the column has one.
    fn lay(&mut self, column: u32, coefficient: Frac) -> Result<(), AllocError>
        requires { column ≤ MAX_COLUMNS }
        ensures { OnOk result (self.new ≡ lay column coefficient self.old) }
    {
        if coefficient.is_zero() || column < self.next {
            return Ok(());
        }
        self.entries.push(Entry {
            column,
            coefficient,
        })?;
        self.next = column + 1;
        Ok(())
    }
}

fn lay_cell(rows: &mut Vec<RowEntries>, column: u32, cell: Cell) -> Result<(), AllocError>
    requires { column ≤ MAX_COLUMNS }
    ensures { OnOk result (rows.new.items ≡ lay_cell column cell rows.old.items) }
{
    let row = cell.row as usize;
    if row < rows.len() {
        rows[row].lay(column, cell.coefficient)?;
    }
    Ok(())
}

fn lay_cells(rows: &mut Vec<RowEntries>, column: u32, cells: &[Cell]) -> Result<(), AllocError>
    requires { column ≤ MAX_COLUMNS }
    ensures { OnOk result (rows.new.items ≡ lay_cells column cells.now rows.old.items) }
{
    for cell in cells {
        lay_cell(rows, column, *cell)?;
    }
    Ok(())
}

// The entries of so many rows.
pub(crate) fn lay_all(
    alloc: Global,
    count: usize,
    laid: &[LaidColumn],
) -> Result<Vec<RowEntries>, AllocError>
    requires { length laid.now ≤ MAX_COLUMNS }
    ensures { IfOk result (λ rows. rows.items ≡ lay_all 0 laid.now (all_begun count)) }
{
    let mut rows = all_begun(alloc, count)?;
    for (column, one) in laid.iter().enumerate() {
        lay_cells(&mut rows, column as u32, one.cells())?;
    }
    Ok(rows)
}

fn all_begun(alloc: Global, count: usize) -> Result<Vec<RowEntries>, AllocError>
    ensures { IfOk result (λ rows. rows.items ≡ all_begun count) }
{
    let mut rows = Vec::new(alloc);
    for _row in 0..count {
        rows.push(RowEntries::new(alloc))?;
    }
    Ok(rows)
}
