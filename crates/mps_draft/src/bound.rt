// Bounds of columns.
ghost use Rattle.std.specs.Prelude.{◌≡◌, ◌<◌, length, slice_get, set, Some, Ok, OnErr};
ghost use Rattle.milp.specs.Problem.{Column};
ghost use Rattle.model_text.specs.Follows.{Follows};
ghost use Rattle.model_text.specs.Steps.{then_do};
ghost use Rattle.mps_draft.specs.Bounds.{bound_kind_of, bounded, has_value, columns_bounded};

use fraction::Frac;
use model_text::{ColumnTable, DeclaredColumn, FaultKind, ReadError};

/// LO, UP, FX, LI, UI, FR, MI, PL and BV.
#[derive(Clone, Copy)]
pub enum BoundKind {
    Lower,
    Upper,
    Fixed,
    IntegerLower,
    IntegerUpper,
    Unbounded,
    NoLower,
    NoUpper,
    Binary,
}

impl BoundKind {
    /// By the word of a line in BOUNDS.
    pub fn of_word(word: &str) -> Option<BoundKind>
        ensures { result ≡ bound_kind_of word.now }
    {
        match word {
            "LO" => Some(BoundKind::Lower),
            "UP" => Some(BoundKind::Upper),
            "FX" => Some(BoundKind::Fixed),
            "LI" => Some(BoundKind::IntegerLower),
            "UI" => Some(BoundKind::IntegerUpper),
            "FR" => Some(BoundKind::Unbounded),
            "MI" => Some(BoundKind::NoLower),
            "PL" => Some(BoundKind::NoUpper),
            "BV" => Some(BoundKind::Binary),
            _ => None,
        }
    }

    /// A number belongs to it.
    pub fn has_value(self) -> bool
        ensures { result ≡ has_value self }
    {
        match self {
            BoundKind::Lower
            | BoundKind::Upper
            | BoundKind::Fixed
            | BoundKind::IntegerLower
            | BoundKind::IntegerUpper => true,
            BoundKind::Unbounded | BoundKind::NoLower | BoundKind::NoUpper | BoundKind::Binary =>
                false,
        }
    }

    // Sets this bound of a column.
    pub(crate) fn set(self, column: &mut DeclaredColumn, value: Frac)
        ensures { column.new ≡ bounded self value column.old }
    {
        match self {
            BoundKind::Lower => column.set_lower(Some(value)),
            BoundKind::Upper => column.set_upper(Some(value)),
            BoundKind::Fixed => {
                column.set_lower(Some(value));
                column.set_upper(Some(value));
            }
            BoundKind::IntegerLower => {
                column.set_lower(Some(value));
                column.make_integer();
            }
            BoundKind::IntegerUpper => {
                column.set_upper(Some(value));
                column.make_integer();
            }
            BoundKind::Unbounded => {
                column.set_lower(None);
                column.set_upper(None);
            }
            BoundKind::NoLower => column.set_lower(None),
            BoundKind::NoUpper => column.set_upper(None),
            BoundKind::Binary => {
                column.set_lower(Some(Frac::zero()));
                column.set_upper(Some(Frac::one()));
                column.make_integer();
            }
        }
    }
}

// The column of a name has a bound of this kind, with a number or a number field's fault.
pub(crate) fn set_bound(
    columns: &mut ColumnTable,
    name: &str,
    kind: BoundKind,
    number: Result<Frac, FaultKind>,
) -> Result<(), ReadError<FaultKind>>
    ensures follows { Follows result columns.new (columns_bounded kind name.now number columns.old) }
    ensures kept { OnErr result (columns.new ≡ columns.old) }
{
    match columns.place(name) {
        None => Err(ReadError::Fault(FaultKind::Unknown)),
        Some(place) => set_bound_at(columns, place, kind, number),
    }
}

fn set_bound_at(
    columns: &mut ColumnTable,
    place: usize,
    kind: BoundKind,
    number: Result<Frac, FaultKind>,
) -> Result<(), ReadError<FaultKind>>
    requires { place < length columns.old }
    ensures follows { (column : Column) → slice_get columns.old place ≡ Some column → Follows result columns.new (then_do (λ value. Ok (set columns.old place (bounded kind value column))) number) }
    ensures kept { OnErr result (columns.new ≡ columns.old) }
{
    match number {
        Err(fault) => Err(ReadError::Fault(fault)),
        Ok(value) => {
            let mut column = columns.at(place);
            kind.set(&mut column, value);
            columns.set(place, column);
            Ok(())
        }
    }
}
