// The lines of COLUMNS.
ghost use Rattle.std.specs.Prelude.{◌≡◌, ◌∷◌, map, Some};
ghost use Rattle.model_text.specs.Profile.{IsWithinInstance};
ghost use Rattle.model_text.specs.Follows.{Follows};
ghost use Rattle.model_text.specs.Steps.{then_do};
ghost use Rattle.mps_reader.specs.RowsAndColumns.{marker_of, begins_with_marker, is_marker, turned, marker_line, at_column, number_in, at_entry, after_pair, at_second_entry, at_entries, column_line};

use crate::literal::number_of;
use fraction::Frac;
use model_text::{FaultKind, Profile, ReadError};
use mps_draft::Draft;

// `col row v [row v]`, or a marker
pub(crate) fn column_line<'a>(
    profile: &Profile,
    draft: &mut Draft<'a>,
    fields: &[&'a str],
) -> Result<(), ReadError<FaultKind>>
    requires { IsWithinInstance profile.now }
    ensures { Follows result draft.new (column_line profile.now draft.old (map (λ f. f.now) fields.now)) }
{
    match fields {
        [] => Err(ReadError::Fault(FaultKind::BadLine)),
        [name, rest @ ..] => named_line(profile, draft, name, rest),
    }
}

fn named_line<'a>(
    profile: &Profile,
    draft: &mut Draft<'a>,
    name: &'a str,
    fields: &[&'a str],
) -> Result<(), ReadError<FaultKind>>
    requires { IsWithinInstance profile.now }
    ensures { Follows result draft.new (column_line profile.now draft.old (name.now ∷ map (λ f. f.now) fields.now)) }
{
    if is_marker(draft, fields) {
        marker_line(draft, fields)
    } else {
        entry_line(profile, draft, name, fields)
    }
}

fn entry_line<'a>(
    profile: &Profile,
    draft: &mut Draft<'a>,
    name: &'a str,
    fields: &[&'a str],
) -> Result<(), ReadError<FaultKind>>
    requires { IsWithinInstance profile.now }
    ensures { Follows result draft.new (then_do (at_entries profile.now (map (λ f. f.now) fields.now)) (at_column profile.now draft.old name.now)) }
{
    at_column(profile, draft, name)?;
    at_entries(profile, draft, fields)
}

// ---- markers: `name 'MARKER' 'INTORG'` and `'INTEND'`

// Whether INTORG, which begins integer columns, or INTEND, which ends them.
fn marker_of(word: &str) -> Option<bool>
    ensures { result ≡ marker_of word.now }
{
    match word {
        "'INTORG'" => Some(true),
        "'INTEND'" => Some(false),
        _ => None,
    }
}

fn begins_with_marker(fields: &[&str]) -> bool
    ensures { result ≡ begins_with_marker (map (λ f. f.now) fields.now) }
{
    match fields {
        [] => false,
        [word, ..] => marker_of(word).is_some(),
    }
}

// By the fields after the first; where a row is named 'MARKER', only a whole marker is one.
fn is_marker(draft: &Draft, fields: &[&str]) -> bool
    ensures { result ≡ is_marker draft.now (map (λ f. f.now) fields.now) }
{
    match fields {
        [] => false,
        [word, rest @ ..] => {
            *word == "'MARKER'" && (begins_with_marker(rest) || !draft.has_row(word))
        }
    }
}

fn marker_line(draft: &mut Draft, fields: &[&str]) -> Result<(), ReadError<FaultKind>>
    ensures { Follows result draft.new (marker_line draft.old (map (λ f. f.now) fields.now)) }
{
    match fields {
        [_, marker, rest @ ..] => match marker_of(marker) {
            None => Err(ReadError::Fault(FaultKind::BadLine)),
            Some(begins) => turn(draft, begins, rest),
        },
        _ => Err(ReadError::Fault(FaultKind::BadLine)),
    }
}

// An open INTORG is followed by INTEND and the other way round.
fn turn(draft: &mut Draft, begins: bool, rest: &[&str]) -> Result<(), ReadError<FaultKind>>
    ensures { Follows result draft.new (turned draft.old (Some begins) (map (λ f. f.now) rest.now)) }
{
    if draft.in_integers() == begins || !rest.is_empty() {
        return Err(ReadError::Fault(FaultKind::BadLine));
    }
    draft.turn(begins);
    Ok(())
}

// ---- columns

// A new name begins a column, and the name of the current one goes on with it.
fn at_column<'a>(
    profile: &Profile,
    draft: &mut Draft<'a>,
    name: &'a str,
) -> Result<(), ReadError<FaultKind>>
    requires { IsWithinInstance profile.now }
    ensures { Follows result draft.new (at_column profile.now draft.old name.now) }
{
    if draft.is_current(name) {
        return Ok(());
    }
    if draft.has_column(name) {
        return Err(ReadError::Fault(FaultKind::Twice));
    }
    if draft.column_count() >= profile.columns {
        return Err(ReadError::Fault(FaultKind::TooMany));
    }
    draft.begin_column(name)?;
    Ok(())
}

// `row v [row v]`
fn at_entries<'a>(
    profile: &Profile,
    draft: &mut Draft<'a>,
    fields: &[&'a str],
) -> Result<(), ReadError<FaultKind>>
    requires { IsWithinInstance profile.now }
    ensures { Follows result draft.new (at_entries profile.now (map (λ f. f.now) fields.now) draft.old) }
{
    at_entry(profile, draft, fields)?;
    at_second_entry(profile, draft, after_pair(fields))
}

// The fields after a row and its number.
fn after_pair<'a, 'b>(fields: &'b [&'a str]) -> &'b [&'a str]
    ensures { map (λ f. f.now) result.now ≡ after_pair (map (λ f. f.now) fields.now) }
{
    match fields {
        [_, _, rest @ ..] => rest,
        _ => &[],
    }
}

// `[row v]`
fn at_second_entry<'a>(
    profile: &Profile,
    draft: &mut Draft<'a>,
    fields: &[&'a str],
) -> Result<(), ReadError<FaultKind>>
    requires { IsWithinInstance profile.now }
    ensures { Follows result draft.new (at_second_entry profile.now (map (λ f. f.now) fields.now) draft.old) }
{
    if fields.is_empty() {
        return Ok(());
    }
    at_entry(profile, draft, fields)?;
    if !after_pair(fields).is_empty() {
        return Err(ReadError::Fault(FaultKind::BadLine));
    }
    Ok(())
}

// `row v`
fn at_entry<'a>(
    profile: &Profile,
    draft: &mut Draft<'a>,
    fields: &[&'a str],
) -> Result<(), ReadError<FaultKind>>
    requires { IsWithinInstance profile.now }
    ensures { Follows result draft.new (at_entry profile.now draft.old (map (λ f. f.now) fields.now)) }
{
    match fields {
        [] => Err(ReadError::Fault(FaultKind::BadLine)),
        [row, rest @ ..] => draft.add_entry(row, number_in(rest), profile.entries),
    }
}

// The number beside a row's name.
fn number_in(fields: &[&str]) -> Result<Frac, FaultKind>
    ensures { result ≡ number_in (map (λ f. f.now) fields.now) }
{
    match fields {
        [] => Err(FaultKind::BadLine),
        [number, ..] => number_of(number),
    }
}
