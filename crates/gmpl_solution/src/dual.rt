// Dual values.
ghost use Rattle.std.specs.Prelude.{◌≡◌};

use fraction::{Frac, NoFit};
use std::marker::Model;

/// The dual value of a column or of a row.
#[derive(Clone, Copy)]
pub enum Dual {
    Number(Frac),
    /// A sum on the way to it doesn't fit.
    NoFit(NoFit),
    /// There are no dual values.
    Missing,
}

/// The dual values of a problem: those of its columns and of its rows in their order, and that of a variable's member that is no column.
#[derive(Drop)]
pub struct Duals {
    columns: Vec<Dual>,
    rows: Vec<Dual>,
    elsewhere: Dual,
}

impl Model for Duals {
    ghost use Rattle.gmpl_solution.specs.Solution.{Duals as DualsOf};

    ghost Value = { DualsOf };

    ghost view = { λ d. record { columns = d.columns.items; rows = d.rows.items; elsewhere = d.elsewhere } };
}

impl Duals {
    /// These dual values.
    pub fn new(columns: Vec<Dual>, rows: Vec<Dual>, elsewhere: Dual) -> Duals
        ensures { result ≡ record { columns = columns.items; rows = rows.items; elsewhere = elsewhere } }
    {
        Duals {
            columns,
            rows,
            elsewhere,
        }
    }

    /// Those of the columns.
    pub fn columns(&self) -> &[Dual]
        ensures { result.now ≡ self.now.columns }
    {
        &self.columns
    }

    /// Those of the rows.
    pub fn rows(&self) -> &[Dual]
        ensures { result.now ≡ self.now.rows }
    {
        &self.rows
    }

    /// That of a variable's member that is no column.
    pub fn elsewhere(&self) -> Dual
        ensures { result ≡ self.now.elsewhere }
    {
        self.elsewhere
    }
}
