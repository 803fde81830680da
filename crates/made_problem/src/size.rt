// How many columns a made problem has.
ghost use Rattle.std.specs.Prelude.{◌≡◌, ◌≤◌};
ghost use Rattle.made_problem.specs.Made.{size_of};

use std::marker::Model;

/// How many columns a made problem has, from 1 to 2,000.
#[derive(Clone, Copy, Debug, PartialEq, Eq)]
pub struct Size {
    columns: u32,
}

impl Model for Size {
    ghost use Rattle.std.specs.Prelude.{ℕ, ◌≤◌};

    ghost Value = { ℕ };

    ghost view = { λ s. s.columns };

    ghost inverse = { λ n. record { columns = n } };

    ghost invariant = { λ s. s.columns ≤ 2_000 };
}

impl Size {
    /// So many columns, where a made problem may have so many.
    pub fn new(columns: u32) -> Option<Size>
        ensures { result ≡ size_of columns }
    {
        if 1 <= columns && columns <= 2_000 {
            Some(Size { columns })
        } else {
            None
        }
    }

    /// The number of columns.
    pub fn columns(self) -> u32
        ensures value { result ≡ self }
        ensures few { result ≤ 2_000 }
    {
        self.columns
    }
}
