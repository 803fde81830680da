// The lines of BOUNDS.
ghost use Rattle.std.specs.Prelude.{◌≡◌, map, None, Some};
ghost use Rattle.std.specs.Option.{option_map};
ghost use Rattle.model_text.specs.Follows.{Follows};
ghost use Rattle.mps_reader.specs.RhsRangesBounds.{bound_line, bound_of_kind, bound_with_fields, bound_on_column, bound_value};

use crate::literal::number_of;
use fraction::Frac;
use model_text::{FaultKind, ReadError};
use mps_draft::{BoundKind, Draft};

// `UP|LO|FX|LI|UI [set] col v` and `FR|MI|PL|BV [set] col`, or with four fields a number that isn't used
pub(crate) fn bound_line<'a>(
    draft: &mut Draft<'a>,
    fields: &[&'a str],
) -> Result<(), ReadError<FaultKind>>
    ensures { Follows result draft.new (bound_line draft.old (map (λ f. f.now) fields.now)) }
{
    match fields {
        [] => Err(ReadError::Fault(FaultKind::BadLine)),
        [word, rest @ ..] => match BoundKind::of_word(word) {
            None => Err(ReadError::Fault(FaultKind::BadLine)),
            Some(kind) => bound_of_kind(draft, kind, rest),
        },
    }
}

// The fields after the kind.
fn bound_of_kind<'a>(
    draft: &mut Draft<'a>,
    kind: BoundKind,
    fields: &[&'a str],
) -> Result<(), ReadError<FaultKind>>
    ensures { Follows result draft.new (bound_of_kind draft.old (Some kind) (map (λ f. f.now) fields.now)) }
{
    match fields {
        [set, column, number] => { bound_in_set(draft, kind, Some(set), column, Some(number)) }
        [first, second] => {
            if kind.has_value() {
                bound_in_set(draft, kind, None, first, Some(second))
            } else {
                bound_in_set(draft, kind, Some(first), second, None)
            }
        }
        [column] => {
            if kind.has_value() {
                Err(ReadError::Fault(FaultKind::BadLine))
            } else {
                bound_in_set(draft, kind, None, column, None)
            }
        }
        _ => Err(ReadError::Fault(FaultKind::BadLine)),
    }
}

// A bound of a set, which counts where it is the section's first.
fn bound_in_set<'a>(
    draft: &mut Draft<'a>,
    kind: BoundKind,
    set: Option<&'a str>,
    column: &str,
    number: Option<&str>,
) -> Result<(), ReadError<FaultKind>>
    ensures { Follows result draft.new (bound_with_fields draft.old kind (Some (record { set = option_map (λ s. s.now) set.entry; column = column.now; number = option_map (λ n. n.now) number.entry }))) }
{
    if draft.mixes_sets(set) {
        return Err(ReadError::Fault(FaultKind::BadLine));
    }
    if !draft.takes_set(set) {
        return Ok(());
    }
    bound_on_column(draft, kind, column, number)
}

fn bound_on_column(
    draft: &mut Draft,
    kind: BoundKind,
    column: &str,
    number: Option<&str>,
) -> Result<(), ReadError<FaultKind>>
    ensures { Follows result draft.new (bound_on_column draft.old kind (record { set = None; column = column.now; number = option_map (λ n. n.now) number.entry })) }
{
    draft.bound(column, kind, bound_value(number))
}

// A number that isn't there isn't used.
fn bound_value(number: Option<&str>) -> Result<Frac, FaultKind>
    ensures { result ≡ bound_value (option_map (λ n. n.now) number.entry) }
{
    match number {
        None => Ok(Frac::zero()),
        Some(number) => number_of(number),
    }
}
