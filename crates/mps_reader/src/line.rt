// One line of a text.
ghost use Rattle.std.specs.Prelude.{◌≡◌, map, Some};
ghost use Rattle.std.specs.List.{list_all};
ghost use Rattle.mps_reader.specs.Lines.{is_blank};
ghost use Rattle.model_text.specs.Profile.{IsWithinInstance};
ghost use Rattle.model_text.specs.Follows.{Follows};
ghost use Rattle.mps_reader.specs.FreeMps.{at_section, after_header, header_line, data_line, is_comment, is_passed_over, text_line, with_line};

use crate::bounds_section::bound_line;
use crate::columns_section::column_line;
use crate::lines::{fields_in, is_header};
use crate::pairs_section::{PairSection, pair_line};
use crate::rows_section::row_line;
use crate::sense_section::{sense_line, sense_on_header};
use model_text::{FaultKind, Profile, ReadError, as_text};
use mps_draft::{Draft, Section};
use std::alloc::Global;

// Adds what a line declares. Nothing after ENDATA is read.
pub(crate) fn read_line<'a>(
    alloc: Global,
    profile: &Profile,
    draft: &mut Draft<'a>,
    line: &'a [u8],
) -> Result<(), ReadError<FaultKind>>
    requires { IsWithinInstance profile.now }
    ensures { Follows result draft.new (with_line profile.now draft.old line.now) }
{
    if draft.section().is_ended() || is_passed_over(line) {
        return Ok(());
    }
    text_line(alloc, profile, draft, line)
}

fn is_comment(line: &[u8]) -> bool
    ensures { result ≡ is_comment line.now }
{
    match line {
        [] => false,
        [first, ..] => *first == b'*',
    }
}

fn is_blank_line(line: &[u8]) -> bool
    ensures { result ≡ list_all is_blank line.now }
{
    line.iter().all(|b| *b == b' ' || *b == b'\t')
}

// Comments and lines of blanks.
fn is_passed_over(line: &[u8]) -> bool
    ensures { result ≡ is_passed_over line.now }
{
    is_comment(line) || is_blank_line(line)
}

fn text_line<'a>(
    alloc: Global,
    profile: &Profile,
    draft: &mut Draft<'a>,
    line: &'a [u8],
) -> Result<(), ReadError<FaultKind>>
    requires { IsWithinInstance profile.now }
    ensures { Follows result draft.new (text_line profile.now draft.old line.now) }
{
    let Some(text) = as_text(line) else {
        return Err(ReadError::Fault(FaultKind::BadLine));
    };
    let fields = fields_in(alloc, text)?;
    if is_header(line) {
        header_line(draft, &fields)
    } else {
        data_line(alloc, profile, draft, &fields)
    }
}

// ---- headers

fn header_line(draft: &mut Draft, fields: &[&str]) -> Result<(), ReadError<FaultKind>>
    ensures { Follows result draft.new (header_line draft.old (map (λ f. f.now) fields.now)) }
{
    match fields {
        [] => Err(ReadError::Fault(FaultKind::BadSection)),
        [word, rest @ ..] => match Section::of_word(word) {
            None => Err(ReadError::Fault(FaultKind::BadSection)),
            Some(section) => at_section(draft, section, rest),
        },
    }
}

// Where the word of OBJSENSE is awaited, no header may come.
fn at_section(
    draft: &mut Draft,
    section: Section,
    rest: &[&str],
) -> Result<(), ReadError<FaultKind>>
    ensures { Follows result draft.new (at_section draft.old (Some section) (map (λ f. f.now) rest.now)) }
{
    if !draft.section().may_be_followed(section) {
        return Err(ReadError::Fault(FaultKind::BadSection));
    }
    if draft.section().awaits_sense() {
        return Err(ReadError::Fault(FaultKind::BadLine));
    }
    draft.enter(section);
    after_header(draft, section, rest)
}

// What follows NAME isn't looked at, OBJSENSE may have its word, and nothing follows another header's word.
fn after_header(
    draft: &mut Draft,
    section: Section,
    rest: &[&str],
) -> Result<(), ReadError<FaultKind>>
    ensures { Follows result draft.new (after_header section (map (λ f. f.now) rest.now) draft.old) }
{
    match section {
        Section::NameLine => Ok(()),
        Section::SenseAwaited => sense_on_header(draft, rest),
        _ => {
            if rest.is_empty() {
                Ok(())
            } else {
                Err(ReadError::Fault(FaultKind::BadLine))
            }
        }
    }
}

// ---- data lines

// A data line belongs to the section of the last header.
fn data_line<'a>(
    alloc: Global,
    profile: &Profile,
    draft: &mut Draft<'a>,
    fields: &[&'a str],
) -> Result<(), ReadError<FaultKind>>
    requires { IsWithinInstance profile.now }
    ensures { Follows result draft.new (data_line profile.now draft.old.section draft.old (map (λ f. f.now) fields.now)) }
{
    match draft.section() {
        Section::Start | Section::NameLine | Section::SenseGiven => {
            Err(ReadError::Fault(FaultKind::BadLine))
        }
        Section::SenseAwaited => sense_line(draft, fields),
        Section::Rows => row_line(alloc, profile, draft, fields),
        Section::Columns => column_line(profile, draft, fields),
        Section::Rhs => pair_line(alloc, PairSection::RhsPairs, draft, fields),
        Section::Ranges => pair_line(alloc, PairSection::RangePairs, draft, fields),
        Section::Bounds => bound_line(draft, fields),
        Section::Ended => Ok(()),
    }
}
