// Which end of which range is sought.
ghost use Rattle.std.specs.Prelude.{◌≡◌};
ghost use Rattle.exact_ranges.specs.Sought.{wanted_of, wanted_by};

use milp::Direction;

/// The lower or the upper bound of a row.
#[derive(Clone, Copy, Debug, PartialEq, Eq)]
pub enum Side {
    Lower,
    Upper,
}

/// An end of a range: its least number, or its greatest.
#[derive(Clone, Copy, Debug, PartialEq, Eq)]
pub enum End {
    Least,
    Greatest,
}

/// An end of the range of a column's cost, or of a row's bound, by its place from 0.
#[derive(Clone, Copy, Debug, PartialEq, Eq)]
pub enum Sought {
    OfCost(usize, End),
    OfBound(usize, Side, End),
}

// Which number of a column of the auxiliary problem is wanted.
pub(crate) fn wanted_by(sought: &Sought) -> Direction
    ensures { result ≡ wanted_by sought.now }
{
    match sought {
        Sought::OfCost(_, end) => wanted_of(*end),
        Sought::OfBound(_, _, end) => wanted_of(*end),
    }
}

fn wanted_of(end: End) -> Direction
    ensures { result ≡ wanted_of end }
{
    match end {
        End::Least => Direction::Min,
        End::Greatest => Direction::Max,
    }
}
