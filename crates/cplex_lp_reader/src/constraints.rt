// The tokens of constraints.
ghost use Rattle.std.specs.Prelude.{◌≡◌, ◌≤◌, ◌+◌, ◌++◌, codes, string_bytes, Ok, IfOk};
ghost use Rattle.std.specs.Fmt.{decimal};
ghost use Rattle.rational.specs.Rational.{one_ℚ};
ghost use Rattle.model_text.specs.Profile.{IsWithinInstance};
ghost use Rattle.model_text.specs.Follows.{Follows};
ghost use Rattle.model_text.specs.Steps.{then_do};
ghost use Rattle.cplex_lp_draft.specs.Steps.{number_of};
ghost use Rattle.cplex_lp_draft.specs.Signs.{signed};
ghost use Rattle.cplex_lp_draft.specs.declared.expecting.Expecting.TheVariants as expecting;
ghost use Rattle.cplex_lp_draft.specs.declared.expecting.TermPart.TheVariants.{Factor};
ghost use Rattle.cplex_lp_draft.specs.Declaration.{now_expecting};
ghost use Rattle.cplex_lp_draft.specs.Rows.{with_right};
ghost use Rattle.cplex_lp_reader.specs.Constraints.{row_opened, unnamed_row, unnamed_row_at, row_term, row_begun, row_factor, row_done, in_row_terms, may_follow, at_row_name, at_row_start, at_row_colon, at_row_first, at_row_number, at_row_right, row_closed};

use crate::columns::mention;
use crate::faults::{fault_at, misplaced, number_of_token};
use cplex_lp_draft::{Draft, Expecting, Sign, TermPart};
use cplex_lp_tokens::{Relation, Token, TokenKind, is_before_colon};
use fraction::Frac;
use model_text::{FaultKind, FileFault, Profile, ReadError};
use std::alloc::{AllocError, Global};

// ---- a row begins

// The row of this name begins at a line; a name is used once.
fn open_row(
    alloc: Global,
    profile: &Profile,
    draft: &mut Draft,
    line: usize,
    name: String,
) -> Result<(), ReadError<FileFault>>
    requires { IsWithinInstance profile.now }
    ensures { Follows result draft.new (row_opened profile.now line (string_bytes name) draft.old) }
{
    if draft.has_row(name.as_str()) {
        return Err(fault_at(line, FaultKind::Twice));
    }
    if draft.row_count() >= profile.rows {
        return Err(fault_at(line, FaultKind::TooMany));
    }
    draft.push_row(alloc, line, name)?;
    Ok(())
}

fn named_row(
    alloc: Global,
    profile: &Profile,
    draft: &mut Draft,
    token: &Token,
) -> Result<(), ReadError<FileFault>>
    requires { IsWithinInstance profile.now }
    ensures { Follows result draft.new (row_opened profile.now token.now.line token.now.text draft.old) }
{
    let name = token.text().to_string(alloc)?;
    open_row(alloc, profile, draft, token.line(), name)
}

// The row after so many, without a name.
fn default_name(alloc: Global, rows: usize) -> Result<String, AllocError>
    requires { rows ≤ 1_000_000 }
    ensures { IfOk result (λ name. string_bytes name ≡ codes "r." ++ decimal (rows + 1)) }
{
    let number = rows + 1;
    format!(in alloc; "r.{number}")
}

// A row without a name begins at a line.
fn unnamed_row(
    alloc: Global,
    profile: &Profile,
    draft: &mut Draft,
    line: usize,
) -> Result<(), ReadError<FileFault>>
    requires { IsWithinInstance profile.now }
    ensures { Follows result draft.new (unnamed_row profile.now line draft.old) }
{
    let name = default_name(alloc, draft.row_count())?;
    open_row(alloc, profile, draft, line, name)
}

// The same, and another token comes.
fn unnamed_row_at(
    alloc: Global,
    profile: &Profile,
    draft: &mut Draft,
    next: Expecting,
    line: usize,
) -> Result<(), ReadError<FileFault>>
    requires { IsWithinInstance profile.now }
    ensures { Follows result draft.new (unnamed_row_at next profile.now line draft.old) }
{
    unnamed_row(alloc, profile, draft, line)?;
    draft.set_expecting(next);
    Ok(())
}

// ---- terms

// A number times the column of a name.
fn row_term<'a>(
    profile: &Profile,
    draft: &mut Draft<'a>,
    value: Frac,
    token: &Token<'a>,
) -> Result<(), ReadError<FileFault>>
    requires { IsWithinInstance profile.now }
    ensures { Follows result draft.new (row_term profile.now value token.now draft.old) }
{
    let column = draft.column_place(token.text());
    mention(profile, draft, token)?;
    draft.add_to_row(token.line(), column, value)
}

fn row_literal(draft: &mut Draft, sign: Sign, token: &Token) -> Result<(), ReadError<FileFault>>
    ensures { Follows result draft.new (then_do (λ v. Ok (now_expecting (expecting.RowTerms (Factor (signed sign v))) draft.old)) (number_of token.now)) }
{
    let value = number_of_token(token)?;
    draft.set_expecting(Expecting::RowTerms(TermPart::Factor(sign.signed(value))));
    Ok(())
}

// A term is about to begin, or has signs alone.
fn row_begun<'a>(
    profile: &Profile,
    draft: &mut Draft<'a>,
    sign: Sign,
    token: &Token<'a>,
) -> Result<(), ReadError<FileFault>>
    requires { IsWithinInstance profile.now }
    ensures { Follows result draft.new (row_begun token.now.kind profile.now draft.old sign token.now) }
{
    match token.kind() {
        TokenKind::Plus => {
            draft.set_expecting(Expecting::RowTerms(TermPart::Begun(sign.after_plus())));
            Ok(())
        }
        TokenKind::Minus => {
            draft.set_expecting(Expecting::RowTerms(TermPart::Begun(sign.after_minus())));
            Ok(())
        }
        TokenKind::Literal => row_literal(draft, sign, token),
        TokenKind::Word => row_term(profile, draft, sign.signed(Frac::one()), token),
        _ => Err(misplaced(token)),
    }
}

// After the number before a name.
fn row_factor<'a>(
    profile: &Profile,
    draft: &mut Draft<'a>,
    value: Frac,
    token: &Token<'a>,
) -> Result<(), ReadError<FileFault>>
    requires { IsWithinInstance profile.now }
    ensures { Follows result draft.new (row_factor token.now.kind profile.now draft.old value token.now) }
{
    match token.kind() {
        TokenKind::Word => row_term(profile, draft, value, token),
        _ => Err(misplaced(token)),
    }
}

// Two relations have the same direction, and neither is `=`.
fn may_follow(left: Option<Relation>, relation: Relation) -> bool
    ensures { result ≡ may_follow left relation }
{
    match left {
        None => true,
        Some(Relation::AtMost) => match relation {
            Relation::AtMost => true,
            Relation::AtLeast | Relation::Exactly => false,
        },
        Some(Relation::AtLeast) => match relation {
            Relation::AtLeast => true,
            Relation::AtMost | Relation::Exactly => false,
        },
        Some(Relation::Exactly) => false,
    }
}

// The relation before the number on the row's right.
fn row_relation(
    draft: &mut Draft,
    relation: Relation,
    token: &Token,
) -> Result<(), ReadError<FileFault>>
    ensures { Follows result draft.new (row_done (TokenKind.Compared relation) draft.old token.now) }
{
    if may_follow(draft.row_left(), relation) {
        draft.set_expecting(Expecting::RowRight(relation, Sign::Unsigned));
        Ok(())
    } else {
        Err(misplaced(token))
    }
}

// After a term.
fn row_done(draft: &mut Draft, token: &Token) -> Result<(), ReadError<FileFault>>
    ensures { Follows result draft.new (row_done token.now.kind draft.old token.now) }
{
    match token.kind() {
        TokenKind::Plus => {
            draft.set_expecting(Expecting::RowTerms(TermPart::Begun(Sign::Plus)));
            Ok(())
        }
        TokenKind::Minus => {
            draft.set_expecting(Expecting::RowTerms(TermPart::Begun(Sign::Minus)));
            Ok(())
        }
        TokenKind::Compared(relation) => row_relation(draft, relation, token),
        _ => Err(misplaced(token)),
    }
}

pub(crate) fn in_row_terms<'a>(
    profile: &Profile,
    draft: &mut Draft<'a>,
    part: TermPart,
    token: &Token<'a>,
) -> Result<(), ReadError<FileFault>>
    requires { IsWithinInstance profile.now }
    ensures { Follows result draft.new (in_row_terms part profile.now draft.old token.now) }
{
    match part {
        TermPart::Begun(sign) => row_begun(profile, draft, sign, token),
        TermPart::Factor(value) => row_factor(profile, draft, value, token),
        TermPart::Done => row_done(draft, token),
    }
}

// ---- the first tokens

// The name of a row.
fn row_name(
    alloc: Global,
    profile: &Profile,
    draft: &mut Draft,
    token: &Token,
) -> Result<(), ReadError<FileFault>>
    requires { IsWithinInstance profile.now }
    ensures { Follows result draft.new (then_do (λ opened. Ok (now_expecting expecting.RowColon opened)) (row_opened profile.now token.now.line token.now.text draft.old)) }
{
    named_row(alloc, profile, draft, token)?;
    draft.set_expecting(Expecting::RowColon);
    Ok(())
}

// The name of an unnamed row's first term.
fn unnamed_term<'a>(
    alloc: Global,
    profile: &Profile,
    draft: &mut Draft<'a>,
    token: &Token<'a>,
) -> Result<(), ReadError<FileFault>>
    requires { IsWithinInstance profile.now }
    ensures { Follows result draft.new (then_do (row_term profile.now one_ℚ token.now) (unnamed_row profile.now token.now.line draft.old)) }
{
    unnamed_row(alloc, profile, draft, token.line())?;
    row_term(profile, draft, Frac::one(), token)
}

// A name before a colon is the row's, and another is that of its first term.
fn at_row_name<'a>(
    alloc: Global,
    profile: &Profile,
    draft: &mut Draft<'a>,
    token: &Token<'a>,
    rest: &[Token],
) -> Result<(), ReadError<FileFault>>
    requires { IsWithinInstance profile.now }
    ensures { Follows result draft.new (at_row_name profile.now draft.old token.now rest.now) }
{
    if is_before_colon(rest) {
        row_name(alloc, profile, draft, token)
    } else {
        unnamed_term(alloc, profile, draft, token)
    }
}

// The first number of an unnamed row.
fn unnamed_literal(
    alloc: Global,
    profile: &Profile,
    draft: &mut Draft,
    token: &Token,
) -> Result<(), ReadError<FileFault>>
    requires { IsWithinInstance profile.now }
    ensures { Follows result draft.new (then_do (λ v. unnamed_row_at (expecting.RowNumber v) profile.now token.now.line draft.old) (number_of token.now)) }
{
    let value = number_of_token(token)?;
    unnamed_row_at(
        alloc,
        profile,
        draft,
        Expecting::RowNumber(value),
        token.line(),
    )
}

pub(crate) fn at_row_start<'a>(
    alloc: Global,
    profile: &Profile,
    draft: &mut Draft<'a>,
    token: &Token<'a>,
    rest: &[Token],
) -> Result<(), ReadError<FileFault>>
    requires { IsWithinInstance profile.now }
    ensures { Follows result draft.new (at_row_start token.now.kind profile.now draft.old token.now rest.now) }
{
    match token.kind() {
        TokenKind::Word => at_row_name(alloc, profile, draft, token, rest),
        TokenKind::Plus => {
            let next = Expecting::RowFirst(Sign::Plus);
            unnamed_row_at(alloc, profile, draft, next, token.line())
        }
        TokenKind::Minus => {
            let next = Expecting::RowFirst(Sign::Minus);
            unnamed_row_at(alloc, profile, draft, next, token.line())
        }
        TokenKind::Literal => unnamed_literal(alloc, profile, draft, token),
        _ => Err(misplaced(token)),
    }
}

pub(crate) fn at_row_colon(draft: &mut Draft, token: &Token) -> Result<(), ReadError<FileFault>>
    ensures { Follows result draft.new (at_row_colon draft.old token.now) }
{
    if token.kind().is_colon() {
        draft.set_expecting(Expecting::RowFirst(Sign::Unsigned));
        Ok(())
    } else {
        Err(misplaced(token))
    }
}

fn first_literal(draft: &mut Draft, sign: Sign, token: &Token) -> Result<(), ReadError<FileFault>>
    ensures { Follows result draft.new (then_do (λ v. Ok (now_expecting (expecting.RowNumber (signed sign v)) draft.old)) (number_of token.now)) }
{
    let value = number_of_token(token)?;
    draft.set_expecting(Expecting::RowNumber(sign.signed(value)));
    Ok(())
}

// The first term or the number on the left is about to begin, or has signs alone.
pub(crate) fn at_row_first<'a>(
    profile: &Profile,
    draft: &mut Draft<'a>,
    sign: Sign,
    token: &Token<'a>,
) -> Result<(), ReadError<FileFault>>
    requires { IsWithinInstance profile.now }
    ensures { Follows result draft.new (at_row_first token.now.kind profile.now draft.old sign token.now) }
{
    match token.kind() {
        TokenKind::Plus => {
            draft.set_expecting(Expecting::RowFirst(sign.after_plus()));
            Ok(())
        }
        TokenKind::Minus => {
            draft.set_expecting(Expecting::RowFirst(sign.after_minus()));
            Ok(())
        }
        TokenKind::Literal => first_literal(draft, sign, token),
        TokenKind::Word => row_term(profile, draft, sign.signed(Frac::one()), token),
        _ => Err(misplaced(token)),
    }
}

// After a row's first number a name or a relation comes, which isn't `=`.
pub(crate) fn at_row_number<'a>(
    profile: &Profile,
    draft: &mut Draft<'a>,
    value: Frac,
    token: &Token<'a>,
) -> Result<(), ReadError<FileFault>>
    requires { IsWithinInstance profile.now }
    ensures { Follows result draft.new (at_row_number token.now.kind profile.now draft.old value token.now) }
{
    match token.kind() {
        TokenKind::Word => row_term(profile, draft, value, token),
        TokenKind::Compared(Relation::AtMost) => {
            draft.set_left(Relation::AtMost, value);
            Ok(())
        }
        TokenKind::Compared(Relation::AtLeast) => {
            draft.set_left(Relation::AtLeast, value);
            Ok(())
        }
        _ => Err(misplaced(token)),
    }
}

// ---- a row ends

// The last row is read to its end; entries past their limit are a fault of its first line.
fn close_row(
    alloc: Global,
    profile: &Profile,
    draft: &mut Draft,
) -> Result<(), ReadError<FileFault>>
    requires { IsWithinInstance profile.now }
    ensures { Follows result draft.new (row_closed profile.now draft.old) }
{
    let entries = draft.row_entries(alloc)?;
    if draft.entry_count() + entries.len() > profile.entries {
        return Err(fault_at(draft.row_line(), FaultKind::TooMany));
    }
    draft.close_row(entries);
    Ok(())
}

fn close_at(
    alloc: Global,
    profile: &Profile,
    draft: &mut Draft,
    relation: Relation,
    value: Frac,
) -> Result<(), ReadError<FileFault>>
    requires { IsWithinInstance profile.now }
    ensures { Follows result draft.new (row_closed profile.now (with_right draft.old value relation)) }
{
    draft.set_right(relation, value);
    close_row(alloc, profile, draft)
}

fn right_literal(
    alloc: Global,
    profile: &Profile,
    draft: &mut Draft,
    relation: Relation,
    sign: Sign,
    token: &Token,
) -> Result<(), ReadError<FileFault>>
    requires { IsWithinInstance profile.now }
    ensures { Follows result draft.new (then_do (λ v. row_closed profile.now (with_right draft.old (signed sign v) relation)) (number_of token.now)) }
{
    let value = number_of_token(token)?;
    close_at(alloc, profile, draft, relation, sign.signed(value))
}

// The number on the right is about to come, or has signs alone.
pub(crate) fn at_row_right(
    alloc: Global,
    profile: &Profile,
    draft: &mut Draft,
    relation: Relation,
    sign: Sign,
    token: &Token,
) -> Result<(), ReadError<FileFault>>
    requires { IsWithinInstance profile.now }
    ensures { Follows result draft.new (at_row_right token.now.kind profile.now draft.old relation sign token.now) }
{
    match token.kind() {
        TokenKind::Plus => {
            draft.set_expecting(Expecting::RowRight(relation, sign.after_plus()));
            Ok(())
        }
        TokenKind::Minus => {
            draft.set_expecting(Expecting::RowRight(relation, sign.after_minus()));
            Ok(())
        }
        TokenKind::Literal => right_literal(alloc, profile, draft, relation, sign, token),
        _ => Err(misplaced(token)),
    }
}
