// Ranges of numbers.
ghost use Rattle.std.specs.Prelude.{◌≡◌};

use fraction::Frac;
use std::marker::Model;

/// A range of numbers, ends included. Where an end is absent, the range has no end there.
#[derive(Clone, Copy)]
pub struct Range {
    pub low: Option<Frac>,
    pub high: Option<Frac>,
}

/// The ranges of the bounds of a row, of each that is there.
#[derive(Clone, Copy)]
pub struct RowRanges {
    pub lower: Option<Range>,
    pub upper: Option<Range>,
}

/// The range of the cost of each column, and of the bounds of each row, by place.
#[derive(Drop)]
pub struct Ranges {
    costs: Vec<Range>,
    rows: Vec<RowRanges>,
}

impl Model for Ranges {
    ghost use Rattle.exact_ranges.specs.Ranges.{AllRanges};

    ghost Value = { AllRanges };

    ghost view = { λ r. record { costs = r.costs.items; rows = r.rows.items } };
}

impl Ranges {
    // These ranges. It takes no memory.
    pub(crate) fn new(costs: Vec<Range>, rows: Vec<RowRanges>) -> Self
        ensures { result ≡ record { costs = costs.items; rows = rows.items } }
    {
        Ranges { costs, rows }
    }

    /// The range of the cost of each column.
    pub fn costs(&self) -> &[Range]
        ensures { result.now ≡ self.now.costs }
    {
        &self.costs
    }

    /// The ranges of the bounds of each row.
    pub fn rows(&self) -> &[RowRanges]
        ensures { result.now ≡ self.now.rows }
    {
        &self.rows
    }
}
