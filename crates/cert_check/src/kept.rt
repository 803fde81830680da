// A turn on the way to a place of a tree, with what it says of the bounds of columns.
ghost use Rattle.std.specs.Prelude.{◌≡◌, Ok, IfSome};
ghost use Rattle.std.specs.Option.{option_map};
ghost use Rattle.rational.specs.Rational.{whole};
ghost use Rattle.verdicts.specs.Certificate.{Low as LowOf};
ghost use Rattle.cert_check.specs.Walk.{turn_side, over_side, found_lower, found_upper};

use crate::bounds::{is_column, next_whole, unit_column};
use certificate::{Side, Split, Turn, WholeNumber};
use std::marker::Model;

// The side of a split that is taken, the column that the split is of, if it is of one with coefficient 1, and the next whole
// number behind where its cases part.
#[derive(Drop)]
pub(crate) struct KeptTurn<'t> {
    turn: Turn<'t>,
    column: Option<u32>,
    next: WholeNumber,
}

impl<'t> Model for KeptTurn<'t> {
    ghost use Rattle.std.specs.Prelude.{◌≡◌, Ok};
    ghost use Rattle.rational.specs.Rational.{whole};
    ghost use Rattle.verdicts.specs.Certificate.{Side as SideOf};
    ghost use Rattle.verdicts.specs.Proves.{unit_column};
    ghost use Rattle.cert_check.specs.Sums.{next_answer};
    ghost use Rattle.cert_check.specs.Walk.{turn_side};

    ghost Value = { SideOf };

    ghost view = { λ k. turn_side k.turn };

    ghost invariant = { λ k. (k.column ≡ unit_column k.turn.split.now.form) × (next_answer k.turn.split.now.at ≡ Ok (whole k.next)) };
}

impl<'t> KeptTurn<'t> {
    // The low side of the branch at a place, where the next whole number fits.
    pub(crate) fn low(split: &'t Split, place: usize) -> Option<Self>
        ensures { IfSome result (λ made. made ≡ LowOf split.now) }
    {
        match next_whole(split.at()) {
            None => None,
            Some(next) => Some(KeptTurn {
                turn: Turn {
                    place,
                    split,
                    side: Side::Low,
                },
                column: unit_column(split.form().as_slice()),
                next,
            }),
        }
    }

    // The high side of the same branch, from its low side.
    pub(crate) fn over(self) -> Option<Self>
        ensures { result ≡ over_side self.entry }
    {
        match self.turn.side {
            Side::High => None,
            Side::Low => Some(KeptTurn {
                turn: Turn {
                    place: self.turn.place,
                    split: self.turn.split,
                    side: Side::High,
                },
                column: self.column,
                next: self.next,
            }),
        }
    }

    // The turn.
    pub(crate) fn turn(&self) -> Turn<'t>
        ensures { turn_side result ≡ self.now }
    {
        self.turn
    }

    // The lower bound that the turn alone gives a column.
    pub(crate) fn lower(&self, column: u32) -> Option<WholeNumber>
        ensures { found_lower None self.now column ≡ Ok (option_map whole result) }
    {
        match self.turn.side {
            Side::Low => None,
            Side::High => if is_column(self.column, column) {
                Some(self.next)
            } else {
                None
            },
        }
    }

    // The upper bound that the turn alone gives a column.
    pub(crate) fn upper(&self, column: u32) -> Option<WholeNumber>
        ensures { option_map whole result ≡ found_upper None self.now column }
    {
        match self.turn.side {
            Side::High => None,
            Side::Low => if is_column(self.column, column) {
                Some(self.turn.split.at())
            } else {
                None
            },
        }
    }
}
