// The column that a demanded member may become.
ghost use Rattle.std.specs.Prelude.{◌≡◌, OnOk};
ghost use Rattle.gmpl_rows.specs.MemberColumn.{new_column, with_cell, is_used};

use crate::term::Bounds;
use fraction::Frac;
use std::alloc::{AllocError, Global};
use std::marker::Model;

/// A coefficient other than 0, and the place of the row that it stands in.
#[derive(Clone, Copy)]
pub struct Cell {
    pub row: u32,
    pub coefficient: Frac,
}

// A member's bounds at its first demand, and its coefficients.
#[derive(Drop)]
pub(crate) struct MemberColumn {
    bounds: Bounds,
    cells: Vec<Cell>,
}

impl Model for MemberColumn {
    ghost use Rattle.gmpl_rows.specs.MemberColumn.{MemberColumn as MemberColumnOf};

    ghost Value = { MemberColumnOf };

    ghost view = { λ k. record { bounds = k.bounds; cells = k.cells.items } };
}

impl MemberColumn {
    pub(crate) fn new(alloc: Global, bounds: Bounds) -> Self
        ensures { result ≡ new_column bounds }
    {
        MemberColumn {
            bounds,
            cells: Vec::new(alloc),
        }
    }

    pub(crate) fn bounds(&self) -> Bounds
        ensures { result ≡ self.now.bounds }
    {
        self.bounds
    }

    // It has a coefficient other than 0.
    pub(crate) fn is_used(&self) -> bool
        ensures { result ≡ is_used self.now }
    {
        !self.cells.is_empty()
    }

    pub(crate) fn cells(&self) -> &[Cell]
        ensures { result.now ≡ self.now.cells }
    {
        &self.cells
    }

    // One more coefficient.
    pub(crate) fn push(&mut self, cell: Cell) -> Result<(), AllocError>
        ensures ok { OnOk result (self.new ≡ with_cell cell self.old) }
    {
        self.cells.push(cell)?;
        Ok(())
    }
}
