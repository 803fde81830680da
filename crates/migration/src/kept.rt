// The turns on the way to a place, with the column that each narrows.
ghost use Rattle.std.specs.Prelude.{◌≡◌, ◌≤◌, ◌&&◌, [], ◌∷◌, length, IfOk};
ghost use Rattle.verdicts.specs.Certificate.{Split as SplitOf};
ghost use Rattle.verdicts.specs.Proves.{narrows, unit_column, is_column};
ghost use Rattle.certificate.specs.Ways.{way, side_of};
ghost use Rattle.certificate.specs.Written.{count_max};
ghost use Rattle.migration.specs.Sources.{is_on, split_of};

use certificate::{Side, Split, Tree, Turn, WholeNumber};
use fraction::Frac;
use instance::Entry;
use std::alloc::{AllocError, Global};
use std::marker::Model;

// The side of a split that is taken, and the column that the split is of, if it is of one with coefficient 1.
#[derive(Drop)]
pub(crate) struct KeptTurn<'t> {
    turn: Turn<'t>,
    column: Option<u32>,
}

impl<'t> Model for KeptTurn<'t> {
    ghost use Rattle.std.specs.Prelude.{◌≡◌};
    ghost use Rattle.verdicts.specs.Certificate.{Side as SideOf};
    ghost use Rattle.verdicts.specs.Proves.{unit_column};
    ghost use Rattle.certificate.specs.Ways.{side_of};

    ghost Value = { SideOf };

    ghost view = { λ k. side_of k.turn.split.now k.turn.side };

    ghost invariant = { λ k. k.column ≡ unit_column k.turn.split.now.form };
}

impl<'t> KeptTurn<'t> {
    // The turn, kept.
    fn of(turn: Turn<'t>) -> Self
        ensures { result ≡ side_of turn.entry.split.now turn.entry.side }
    {
        KeptTurn {
            turn,
            column: unit_column(turn.split),
        }
    }

    // Whether the turn is to this side of a split of the column, with coefficient 1.
    pub(crate) fn narrows(&self, column: u32, side: Side) -> bool
        ensures { result ≡ (is_on side self.now && narrows (split_of self.now) column) }
    {
        is_on(side, self.turn.side) && is_column(self.column, column)
    }

    // Where the split's cases part.
    pub(crate) fn at(&self) -> WholeNumber
        ensures { result ≡ (split_of self.now).at }
    {
        self.turn.split.at()
    }
}

fn is_on(side: Side, taken: Side) -> bool
    ensures { (s : SplitOf) → result ≡ is_on side (side_of s taken) }
{
    match side {
        Side::Low => match taken {
            Side::Low => true,
            Side::High => false,
        },
        Side::High => match taken {
            Side::Low => false,
            Side::High => true,
        },
    }
}

// The column that was found, if there is one, is this column.
fn is_column(found: Option<u32>, column: u32) -> bool
    ensures { result ≡ is_column found column }
{
    match found {
        None => false,
        Some(own) => own == column,
    }
}

// The column of a split that is one column with coefficient 1.
fn unit_column(split: &Split) -> Option<u32>
    ensures { result ≡ unit_column split.now.form }
{
    match split.form().as_slice() {
        [entry] => unit_entry(*entry),
        _ => None,
    }
}

fn unit_entry(entry: Entry) -> Option<u32>
    ensures { result ≡ unit_column (entry ∷ []) }
{
    if entry.coefficient == Frac::one() {
        Some(entry.column)
    } else {
        None
    }
}

// The turns on the way to a place, the latest first. Where they are more than a text can count, 2^32 - 1, memory counts as
// wanting.
pub(crate) fn turns_to<'t>(
    alloc: Global,
    tree: &'t Tree,
    place: usize,
) -> Result<Vec<KeptTurn<'t>>, AllocError>
    requires { place ≤ length tree.now }
    ensures turns { IfOk result (λ turns. turns.items ≡ way tree.now place) }
    ensures count { IfOk result (λ turns. length turns.items ≤ count_max) }
{
    let mut turns = Vec::new(alloc);
    let mut at = place;
    while let Some(turn) = tree.last_turn(at) {
        if turns.len() >= u32::MAX as usize {
            return Err(AllocError);
        }
        at = turn.place;
        turns.push(KeptTurn::of(turn))?;
    }
    Ok(turns)
}
