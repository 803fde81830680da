// The lines of RHS and RANGES.
ghost use Rattle.std.specs.Prelude.{◌≡◌, map, Some, Ok};
ghost use Rattle.std.specs.Option.{option_map};
ghost use Rattle.fraction.specs.Literal.{read_of};
ghost use Rattle.model_text.specs.Steps.{then_do};
ghost use Rattle.mps_reader.specs.Steps.{with_number};
ghost use Rattle.model_text.specs.Follows.{Follows};
ghost use Rattle.mps_reader.specs.Follows.{range_or_fault};
ghost use Rattle.mps_draft.specs.Declaration.{with_row};
ghost use Rattle.mps_draft.specs.Rows.{range_added};
ghost use Rattle.mps_reader.specs.RhsRangesBounds.{step_of, pairs_line, pair_line, rhs_pair, range_pair, range_below, range_above, range_of, is_below_zero};

use crate::literal::{number_of, read_number};
use fraction::Frac;
use model_text::{FaultKind, ReadError};
use mps_draft::{Draft, RowKind, RowRange};
use std::alloc::Global;

// RHS and RANGES, whose lines have one form.
#[derive(Clone, Copy)]
pub(crate) enum PairSection {
    RhsPairs,
    RangePairs,
}

// `[set] row v [row v]`
pub(crate) fn pair_line<'a>(
    alloc: Global,
    section: PairSection,
    draft: &mut Draft<'a>,
    fields: &[&'a str],
) -> Result<(), ReadError<FaultKind>>
    ensures { Follows result draft.new (pair_line section draft.old (map (λ f. f.now) fields.now)) }
{
    match fields {
        [row, number] => set_pairs(alloc, section, draft, None, (row, number), None),
        [set, row, number] => { set_pairs(alloc, section, draft, Some(set), (row, number), None) }
        [row, number, row2, number2] => {
            set_pairs(
                alloc,
                section,
                draft,
                None,
                (row, number),
                Some((row2, number2)),
            )
        }
        [set, row, number, row2, number2] => {
            set_pairs(
                alloc,
                section,
                draft,
                Some(set),
                (row, number),
                Some((row2, number2)),
            )
        }
        _ => Err(ReadError::Fault(FaultKind::BadLine)),
    }
}

// The pairs of a set, which count where it is the section's first.
fn set_pairs<'a>(
    alloc: Global,
    section: PairSection,
    draft: &mut Draft<'a>,
    set: Option<&'a str>,
    first: (&str, &str),
    second: Option<(&str, &str)>,
) -> Result<(), ReadError<FaultKind>>
    ensures { Follows result draft.new (pairs_line (step_of section) draft.old (Some (record { set = option_map (λ s. s.now) set.entry; first = record { row = first.entry.0.now; number = first.entry.1.now }; second = option_map (λ p. record { row = p.0.now; number = p.1.now }) second.entry }))) }
{
    if draft.mixes_sets(set) {
        return Err(ReadError::Fault(FaultKind::BadLine));
    }
    if !draft.takes_set(set) {
        return Ok(());
    }
    let (row, number) = first;
    pair(alloc, section, draft, row, number)?;
    match second {
        Some((row, number)) => pair(alloc, section, draft, row, number),
        None => Ok(()),
    }
}

fn pair(
    alloc: Global,
    section: PairSection,
    draft: &mut Draft,
    row: &str,
    number: &str,
) -> Result<(), ReadError<FaultKind>>
    ensures { Follows result draft.new (step_of section draft.old (record { row = row.now; number = number.now })) }
{
    match section {
        PairSection::RhsPairs => rhs_pair(draft, row, number),
        PairSection::RangePairs => range_pair(alloc, draft, row, number),
    }
}

fn rhs_pair(draft: &mut Draft, row: &str, number: &str) -> Result<(), ReadError<FaultKind>>
    ensures { Follows result draft.new (rhs_pair draft.old (record { row = row.now; number = number.now })) }
{
    draft.set_rhs(row, number_of(number))
}

// ---- ranges

// No N row has a range.
fn range_pair(
    alloc: Global,
    draft: &mut Draft,
    row: &str,
    number: &str,
) -> Result<(), ReadError<FaultKind>>
    ensures { Follows result draft.new (range_pair draft.old (record { row = row.now; number = number.now })) }
{
    let Some(found) = draft.row(row) else {
        return Err(ReadError::Fault(FaultKind::Unknown));
    };
    if found.kind().is_free() {
        return Err(ReadError::Fault(FaultKind::BadLine));
    }
    if found.range().is_some() {
        return Err(ReadError::Fault(FaultKind::Twice));
    }
    let kind = found.kind();
    let rhs = found.rhs_or_zero();
    range_number(alloc, draft, row, kind, rhs, number)
}

fn range_number(
    alloc: Global,
    draft: &mut Draft,
    row: &str,
    kind: RowKind,
    rhs: Frac,
    number: &str,
) -> Result<(), ReadError<FaultKind>>
    ensures { Follows result draft.new (with_number (λ value. then_do (λ range. Ok (with_row (range_added range) row.now draft.old)) (range_of kind rhs value)) (read_of number.now)) }
{
    let value = read_number(number)?;
    with_range(alloc, draft, row, kind, rhs, value)
}

fn with_range(
    alloc: Global,
    draft: &mut Draft,
    row: &str,
    kind: RowKind,
    rhs: Frac,
    value: Frac,
) -> Result<(), ReadError<FaultKind>>
    ensures { Follows result draft.new (then_do (λ range. Ok (with_row (range_added range) row.now draft.old)) (range_of kind rhs value)) }
{
    let range = range_of(kind, rhs, value)?;
    draft.set_range(alloc, row, range)?;
    Ok(())
}

// The bounds that a range gives a row of this kind and right-hand side.
fn range_of(kind: RowKind, rhs: Frac, range: Frac) -> Result<RowRange, ReadError<FaultKind>>
    ensures { result ≡ range_or_fault (range_of kind rhs range) }
{
    match kind {
        RowKind::Objective | RowKind::Free => Err(ReadError::Fault(FaultKind::BadLine)),
        RowKind::AtMost => range_below(rhs, range),
        RowKind::AtLeast => range_above(rhs, range),
        RowKind::Exactly => {
            if is_below_zero(range) {
                range_below(rhs, range)
            } else {
                range_above(rhs, range)
            }
        }
    }
}

fn range_below(rhs: Frac, range: Frac) -> Result<RowRange, ReadError<FaultKind>>
    ensures { result ≡ range_or_fault (range_below rhs range) }
{
    match rhs.sub(range.abs()) {
        Ok(lower) => Ok(RowRange { lower, upper: rhs }),
        Err(_) => Err(ReadError::Fault(FaultKind::TooWide)),
    }
}

fn range_above(rhs: Frac, range: Frac) -> Result<RowRange, ReadError<FaultKind>>
    ensures { result ≡ range_or_fault (range_above rhs range) }
{
    match rhs.add(range.abs()) {
        Ok(upper) => Ok(RowRange { lower: rhs, upper }),
        Err(_) => Err(ReadError::Fault(FaultKind::TooWide)),
    }
}

fn is_below_zero(value: Frac) -> bool
    ensures { result ≡ is_below_zero value }
{
    value.parts().0 < 0
}
