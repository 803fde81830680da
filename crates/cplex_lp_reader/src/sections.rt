// Tokens, by where they stand.
ghost use Rattle.std.specs.Prelude.{◌≡◌};
ghost use Rattle.model_text.specs.Profile.{IsWithinInstance};
ghost use Rattle.model_text.specs.Follows.{Follows};
ghost use Rattle.cplex_lp_reader.specs.CplexLp.{entered, directed, at_section, in_section, by_kind, with_token, at_end};

use crate::bounds::{
    at_binary, at_bound_compared, at_bound_left, at_bound_name, at_bound_named, at_bound_relation,
    at_bound_right, at_bound_start, at_general,
};
use crate::constraints::{
    at_row_colon, at_row_first, at_row_number, at_row_right, at_row_start, in_row_terms,
};
use crate::faults::{fault_at, misplaced};
use crate::objective::{at_objective_colon, at_objective_start, in_objective};
use cplex_lp_draft::{Draft, Expecting};
use cplex_lp_tokens::{Section, Token, TokenKind};
use milp::Direction;
use model_text::{FaultKind, FileFault, Profile, ReadError};
use std::alloc::Global;

// ---- sections

// Another section begins, if it may.
fn enter(
    draft: &mut Draft,
    may: bool,
    next: Expecting,
    token: &Token,
) -> Result<(), ReadError<FileFault>>
    ensures { Follows result draft.new (entered may next draft.old token.now) }
{
    if may {
        draft.set_expecting(next);
        Ok(())
    } else {
        Err(misplaced(token))
    }
}

// The objective comes first.
fn direct(
    draft: &mut Draft,
    direction: Direction,
    token: &Token,
) -> Result<(), ReadError<FileFault>>
    ensures { Follows result draft.new (directed direction draft.old token.now) }
{
    if draft.expecting().is_start() {
        draft.begin_objective(direction);
        Ok(())
    } else {
        Err(misplaced(token))
    }
}

fn at_section(
    draft: &mut Draft,
    section: Section,
    token: &Token,
) -> Result<(), ReadError<FileFault>>
    ensures { Follows result draft.new (at_section section draft.old token.now) }
{
    match section {
        Section::Minimize => direct(draft, Direction::Min, token),
        Section::Maximize => direct(draft, Direction::Max, token),
        Section::Constraints => {
            let may = draft.expecting().ends_objective();
            enter(draft, may, Expecting::RowStart, token)
        }
        Section::Bounds => {
            let may = draft.expecting().ends_section();
            enter(draft, may, Expecting::BoundStart, token)
        }
        Section::General => {
            let may = draft.expecting().ends_section();
            enter(draft, may, Expecting::Generals, token)
        }
        Section::Binary => {
            let may = draft.expecting().ends_section();
            enter(draft, may, Expecting::Binaries, token)
        }
        Section::End => {
            let may = draft.expecting().ends_section();
            enter(draft, may, Expecting::Ended, token)
        }
    }
}

// ---- tokens

// A token inside a section, and those that follow it.
fn in_section<'a>(
    alloc: Global,
    profile: &Profile,
    draft: &mut Draft<'a>,
    token: &Token<'a>,
    rest: &[Token],
) -> Result<(), ReadError<FileFault>>
    requires { IsWithinInstance profile.now }
    ensures { Follows result draft.new (in_section draft.old.expecting profile.now draft.old token.now rest.now) }
{
    match draft.expecting() {
        Expecting::Start => Err(misplaced(token)),
        Expecting::ObjectiveStart => at_objective_start(profile, draft, token, rest),
        Expecting::ObjectiveColon => at_objective_colon(draft, token),
        Expecting::Objective(part) => in_objective(profile, draft, part, token, rest),
        Expecting::RowStart => at_row_start(alloc, profile, draft, token, rest),
        Expecting::RowColon => at_row_colon(draft, token),
        Expecting::RowFirst(sign) => at_row_first(profile, draft, sign, token),
        Expecting::RowNumber(value) => at_row_number(profile, draft, value, token),
        Expecting::RowTerms(part) => in_row_terms(profile, draft, part, token),
        Expecting::RowRight(relation, sign) => {
            at_row_right(alloc, profile, draft, relation, sign, token)
        }
        Expecting::BoundStart => at_bound_start(profile, draft, token),
        Expecting::BoundLeft(sign) => at_bound_left(draft, sign, token),
        Expecting::BoundRelation(limit) => at_bound_relation(draft, limit, token),
        Expecting::BoundName(limit, relation) => {
            at_bound_name(profile, draft, limit, relation, token)
        }
        Expecting::BoundNamed(column) => at_bound_named(profile, draft, column, token),
        Expecting::BoundCompared(column) => at_bound_compared(profile, draft, column, token),
        Expecting::BoundRight(column, relation, sign) => {
            at_bound_right(draft, column, relation, sign, token)
        }
        Expecting::Generals => at_general(profile, draft, token),
        Expecting::Binaries => at_binary(profile, draft, token),
        Expecting::Ended => Ok(()),
    }
}

fn of_kind<'a>(
    alloc: Global,
    profile: &Profile,
    draft: &mut Draft<'a>,
    token: &Token<'a>,
    rest: &[Token],
) -> Result<(), ReadError<FileFault>>
    requires { IsWithinInstance profile.now }
    ensures { Follows result draft.new (by_kind token.now.kind profile.now draft.old token.now rest.now) }
{
    match token.kind() {
        TokenKind::SectionWords(section) => at_section(draft, section, token),
        _ => in_section(alloc, profile, draft, token, rest),
    }
}

// Adds what a token declares. Nothing after the end is read.
pub(crate) fn read_token<'a>(
    alloc: Global,
    profile: &Profile,
    draft: &mut Draft<'a>,
    token: &Token<'a>,
    rest: &[Token],
) -> Result<(), ReadError<FileFault>>
    requires { IsWithinInstance profile.now }
    ensures { Follows result draft.new (with_token profile.now draft.old token.now rest.now) }
{
    if draft.expecting().is_ended() {
        return Ok(());
    }
    of_kind(alloc, profile, draft, token, rest)
}

// A missing `end` is accepted; another fault at the text's end is at the line after the last.
pub(crate) fn at_end(draft: &mut Draft, line: usize) -> Result<(), ReadError<FileFault>>
    ensures { Follows result draft.new (at_end line draft.old) }
{
    if draft.expecting().is_ended() {
        return Ok(());
    }
    if draft.expecting().ends_section() {
        return Ok(());
    }
    Err(fault_at(line, FaultKind::BadLine))
}
