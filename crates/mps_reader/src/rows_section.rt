// The lines of ROWS.
ghost use Rattle.std.specs.Prelude.{◌≡◌, false, map, Some};
ghost use Rattle.mps_draft.specs.Declaration.{is_row, new_row};
ghost use Rattle.mps_reader.specs.Steps.{at_end};
ghost use Rattle.model_text.specs.Profile.{IsWithinInstance};
ghost use Rattle.model_text.specs.Follows.{Follows};
ghost use Rattle.mps_reader.specs.RowsAndColumns.{row_line, row_of_kind, with_new_row};

use model_text::{FaultKind, Profile, ReadError};
use mps_draft::{Draft, RowKind};
use std::alloc::Global;

// `N|L|G|E name`
pub(crate) fn row_line<'a>(
    alloc: Global,
    profile: &Profile,
    draft: &mut Draft<'a>,
    fields: &[&'a str],
) -> Result<(), ReadError<FaultKind>>
    requires { IsWithinInstance profile.now }
    ensures { Follows result draft.new (row_line profile.now draft.old (map (λ f. f.now) fields.now)) }
{
    match fields {
        [] => Err(ReadError::Fault(FaultKind::BadLine)),
        [word, rest @ ..] => match RowKind::of_word(word) {
            None => Err(ReadError::Fault(FaultKind::BadLine)),
            Some(kind) => row_of_kind(alloc, profile, draft, kind, rest),
        },
    }
}

fn row_of_kind<'a>(
    alloc: Global,
    profile: &Profile,
    draft: &mut Draft<'a>,
    kind: RowKind,
    fields: &[&'a str],
) -> Result<(), ReadError<FaultKind>>
    requires { IsWithinInstance profile.now }
    ensures { Follows result draft.new (row_of_kind profile.now draft.old (Some kind) (map (λ f. f.now) fields.now)) }
{
    match fields {
        [] => Err(ReadError::Fault(FaultKind::BadLine)),
        [name, rest @ ..] => {
            if draft.has_row(name) {
                Err(ReadError::Fault(FaultKind::Twice))
            } else if kind.is_free() && !draft.has_objective() {
                new_objective(alloc, draft, name, rest)
            } else {
                new_row(alloc, profile, draft, name, kind, rest)
            }
        }
    }
}

// The first N.
fn new_objective<'a>(
    alloc: Global,
    draft: &mut Draft<'a>,
    name: &'a str,
    rest: &[&str],
) -> Result<(), ReadError<FaultKind>>
    ensures { Follows result draft.new (at_end (map (λ f. f.now) rest.now) (record draft.old { objective = Some (new_row name.now RowKind.Objective) })) }
{
    if !rest.is_empty() {
        return Err(ReadError::Fault(FaultKind::BadLine));
    }
    draft.set_objective(alloc, name);
    Ok(())
}

// One more row.
fn new_row<'a>(
    alloc: Global,
    profile: &Profile,
    draft: &mut Draft<'a>,
    name: &'a str,
    kind: RowKind,
    rest: &[&str],
) -> Result<(), ReadError<FaultKind>>
    requires profile { IsWithinInstance profile.now }
    requires new { is_row draft.old name.now ≡ false }
    ensures { Follows result draft.new (with_new_row profile.now draft.old name.now kind (map (λ f. f.now) rest.now)) }
{
    if draft.row_count() >= profile.rows {
        return Err(ReadError::Fault(FaultKind::TooMany));
    }
    if !rest.is_empty() {
        return Err(ReadError::Fault(FaultKind::BadLine));
    }
    draft.push_row(alloc, name, kind)?;
    Ok(())
}
