// The tokens of bounds, and of general and binary columns.
ghost use Rattle.std.specs.Prelude.{◌≡◌, Ok, true};
ghost use Rattle.model_text.specs.Profile.{IsWithinInstance};
ghost use Rattle.model_text.specs.Follows.{Follows};
ghost use Rattle.model_text.specs.Steps.{then_do};
ghost use Rattle.cplex_lp_draft.specs.Steps.{number_of};
ghost use Rattle.cplex_lp_draft.specs.Signs.{signed};
ghost use Rattle.cplex_lp_draft.specs.declared.expecting.Expecting.TheVariants as expecting;
ghost use Rattle.cplex_lp_draft.specs.declared.expecting.Limit.TheVariants.{Finite};
ghost use Rattle.cplex_lp_draft.specs.Declaration.{now_expecting};
ghost use Rattle.cplex_lp_reader.specs.Bounds.{is_infinity, infinite, is_possible, turned, bound_word, with_right_bound, at_bound_start, at_bound_left, at_bound_relation, at_bound_name, at_bound_compared, at_bound_named, at_bound_right, at_general, at_binary};

use crate::columns::mention_changed;
use crate::faults::{misplaced, number_of_token};
use cplex_lp_draft::{ColumnChange, Draft, Expecting, Limit, Sign};
use cplex_lp_tokens::{Relation, Token, TokenKind, is_word};
use model_text::{FileFault, Profile, ReadError};

// ---- limits

// `inf` and `infinity`, in any case of letters.
fn is_infinity(text: &str) -> bool
    ensures { result ≡ is_infinity text.now }
{
    is_word(text, "inf") || is_word(text, "infinity")
}

fn infinite(sign: Sign) -> Limit
    ensures { result ≡ infinite sign }
{
    match sign {
        Sign::Unsigned => Limit::PlusInfinity,
        Sign::Plus => Limit::PlusInfinity,
        Sign::Minus => Limit::MinusInfinity,
    }
}

// No lower bound is +inf and no upper bound -inf.
fn is_possible(relation: Relation, limit: &Limit) -> bool
    ensures { result ≡ is_possible relation limit.now }
{
    match limit {
        Limit::Finite(_) => true,
        Limit::MinusInfinity => match relation {
            Relation::AtLeast => true,
            Relation::AtMost | Relation::Exactly => false,
        },
        Limit::PlusInfinity => match relation {
            Relation::AtMost => true,
            Relation::AtLeast | Relation::Exactly => false,
        },
    }
}

// The relation read from its other side.
fn turned(relation: Relation) -> Relation
    ensures { result ≡ turned relation }
{
    match relation {
        Relation::AtMost => Relation::AtLeast,
        Relation::AtLeast => Relation::AtMost,
        Relation::Exactly => Relation::Exactly,
    }
}

// ---- the number on the left

// `inf` begins a bound as a number, and another word as a name.
fn bound_word<'a>(
    profile: &Profile,
    draft: &mut Draft<'a>,
    token: &Token<'a>,
) -> Result<(), ReadError<FileFault>>
    requires { IsWithinInstance profile.now }
    ensures { Follows result draft.new (bound_word profile.now draft.old token.now) }
{
    if is_infinity(token.text()) {
        draft.set_expecting(Expecting::BoundRelation(Limit::PlusInfinity));
        Ok(())
    } else {
        let next = Expecting::BoundNamed(draft.column_place(token.text()));
        mention_changed(profile, draft, token, next, ColumnChange::Kept)
    }
}

fn left_literal(draft: &mut Draft, sign: Sign, token: &Token) -> Result<(), ReadError<FileFault>>
    ensures { Follows result draft.new (then_do (λ v. Ok (now_expecting (expecting.BoundRelation (Finite (signed sign v))) draft.old)) (number_of token.now)) }
{
    let value = number_of_token(token)?;
    draft.set_expecting(Expecting::BoundRelation(Limit::Finite(sign.signed(value))));
    Ok(())
}

pub(crate) fn at_bound_start<'a>(
    profile: &Profile,
    draft: &mut Draft<'a>,
    token: &Token<'a>,
) -> Result<(), ReadError<FileFault>>
    requires { IsWithinInstance profile.now }
    ensures { Follows result draft.new (at_bound_start token.now.kind profile.now draft.old token.now) }
{
    match token.kind() {
        TokenKind::Word => bound_word(profile, draft, token),
        TokenKind::Plus => {
            draft.set_expecting(Expecting::BoundLeft(Sign::Plus));
            Ok(())
        }
        TokenKind::Minus => {
            draft.set_expecting(Expecting::BoundLeft(Sign::Minus));
            Ok(())
        }
        TokenKind::Literal => left_literal(draft, Sign::Unsigned, token),
        _ => Err(misplaced(token)),
    }
}

// `inf` after signs.
fn left_infinity(draft: &mut Draft, sign: Sign, token: &Token) -> Result<(), ReadError<FileFault>>
    ensures { Follows result draft.new (at_bound_left TokenKind.Word draft.old sign token.now) }
{
    if is_infinity(token.text()) {
        draft.set_expecting(Expecting::BoundRelation(infinite(sign)));
        Ok(())
    } else {
        Err(misplaced(token))
    }
}

// The number on the left has signs alone.
pub(crate) fn at_bound_left(
    draft: &mut Draft,
    sign: Sign,
    token: &Token,
) -> Result<(), ReadError<FileFault>>
    ensures { Follows result draft.new (at_bound_left token.now.kind draft.old sign token.now) }
{
    match token.kind() {
        TokenKind::Plus => {
            draft.set_expecting(Expecting::BoundLeft(sign.after_plus()));
            Ok(())
        }
        TokenKind::Minus => {
            draft.set_expecting(Expecting::BoundLeft(sign.after_minus()));
            Ok(())
        }
        TokenKind::Literal => left_literal(draft, sign, token),
        TokenKind::Word => left_infinity(draft, sign, token),
        _ => Err(misplaced(token)),
    }
}

// A relation in which the number on the left can't stand is misplaced.
fn left_relation(
    draft: &mut Draft,
    limit: Limit,
    relation: Relation,
    token: &Token,
) -> Result<(), ReadError<FileFault>>
    ensures { Follows result draft.new (at_bound_relation (TokenKind.Compared relation) draft.old limit token.now) }
{
    if is_possible(turned(relation), &limit) {
        draft.set_expecting(Expecting::BoundName(limit, relation));
        Ok(())
    } else {
        Err(misplaced(token))
    }
}

pub(crate) fn at_bound_relation(
    draft: &mut Draft,
    limit: Limit,
    token: &Token,
) -> Result<(), ReadError<FileFault>>
    ensures { Follows result draft.new (at_bound_relation token.now.kind draft.old limit token.now) }
{
    match token.kind() {
        TokenKind::Compared(relation) => left_relation(draft, limit, relation, token),
        _ => Err(misplaced(token)),
    }
}

// ---- the name

// `inf` is no name here.
fn name_word<'a>(
    profile: &Profile,
    draft: &mut Draft<'a>,
    limit: Limit,
    relation: Relation,
    token: &Token<'a>,
) -> Result<(), ReadError<FileFault>>
    requires { IsWithinInstance profile.now }
    ensures { Follows result draft.new (at_bound_name TokenKind.Word profile.now draft.old limit relation token.now) }
{
    if is_infinity(token.text()) {
        Err(misplaced(token))
    } else {
        let next = Expecting::BoundCompared(draft.column_place(token.text()));
        let change = ColumnChange::Bounded(turned(relation), limit);
        mention_changed(profile, draft, token, next, change)
    }
}

pub(crate) fn at_bound_name<'a>(
    profile: &Profile,
    draft: &mut Draft<'a>,
    limit: Limit,
    relation: Relation,
    token: &Token<'a>,
) -> Result<(), ReadError<FileFault>>
    requires { IsWithinInstance profile.now }
    ensures { Follows result draft.new (at_bound_name token.now.kind profile.now draft.old limit relation token.now) }
{
    match token.kind() {
        TokenKind::Word => name_word(profile, draft, limit, relation, token),
        _ => Err(misplaced(token)),
    }
}

// After a name the number on its right may come; else another bound begins.
pub(crate) fn at_bound_compared<'a>(
    profile: &Profile,
    draft: &mut Draft<'a>,
    column: u32,
    token: &Token<'a>,
) -> Result<(), ReadError<FileFault>>
    requires { IsWithinInstance profile.now }
    ensures { Follows result draft.new (at_bound_compared token.now.kind profile.now draft.old column token.now) }
{
    match token.kind() {
        TokenKind::Compared(relation) => {
            draft.set_expecting(Expecting::BoundRight(column, relation, Sign::Unsigned));
            Ok(())
        }
        _ => at_bound_start(profile, draft, token),
    }
}

// `free`, or another bound's first word.
fn named_word<'a>(
    profile: &Profile,
    draft: &mut Draft<'a>,
    column: u32,
    token: &Token<'a>,
) -> Result<(), ReadError<FileFault>>
    requires { IsWithinInstance profile.now }
    ensures { Follows result draft.new (at_bound_named TokenKind.Word profile.now draft.old column token.now) }
{
    if is_word(token.text(), "free") {
        draft.change_column(column, ColumnChange::Freed);
        draft.set_expecting(Expecting::BoundStart);
        Ok(())
    } else {
        bound_word(profile, draft, token)
    }
}

// After a name that stands first.
pub(crate) fn at_bound_named<'a>(
    profile: &Profile,
    draft: &mut Draft<'a>,
    column: u32,
    token: &Token<'a>,
) -> Result<(), ReadError<FileFault>>
    requires { IsWithinInstance profile.now }
    ensures { Follows result draft.new (at_bound_named token.now.kind profile.now draft.old column token.now) }
{
    match token.kind() {
        TokenKind::Word => named_word(profile, draft, column, token),
        _ => at_bound_compared(profile, draft, column, token),
    }
}

// ---- the number on the right

fn with_right_bound(
    draft: &mut Draft,
    column: u32,
    relation: Relation,
    limit: Limit,
    token: &Token,
) -> Result<(), ReadError<FileFault>>
    ensures { Follows result draft.new (with_right_bound draft.old column relation limit token.now) }
{
    if is_possible(relation, &limit) {
        draft.change_column(column, ColumnChange::Bounded(relation, limit));
        draft.set_expecting(Expecting::BoundStart);
        Ok(())
    } else {
        Err(misplaced(token))
    }
}

fn right_literal(
    draft: &mut Draft,
    column: u32,
    relation: Relation,
    sign: Sign,
    token: &Token,
) -> Result<(), ReadError<FileFault>>
    ensures { Follows result draft.new (then_do (λ v. with_right_bound draft.old column relation (Finite (signed sign v)) token.now) (number_of token.now)) }
{
    let value = number_of_token(token)?;
    let limit = Limit::Finite(sign.signed(value));
    with_right_bound(draft, column, relation, limit, token)
}

// `inf` after signs.
fn right_infinity(
    draft: &mut Draft,
    column: u32,
    relation: Relation,
    sign: Sign,
    token: &Token,
) -> Result<(), ReadError<FileFault>>
    ensures { Follows result draft.new (at_bound_right TokenKind.Word draft.old column relation sign token.now) }
{
    if is_infinity(token.text()) {
        with_right_bound(draft, column, relation, infinite(sign), token)
    } else {
        Err(misplaced(token))
    }
}

// The number on the right is about to come, or has signs alone.
pub(crate) fn at_bound_right(
    draft: &mut Draft,
    column: u32,
    relation: Relation,
    sign: Sign,
    token: &Token,
) -> Result<(), ReadError<FileFault>>
    ensures { Follows result draft.new (at_bound_right token.now.kind draft.old column relation sign token.now) }
{
    match token.kind() {
        TokenKind::Plus => {
            draft.set_expecting(Expecting::BoundRight(column, relation, sign.after_plus()));
            Ok(())
        }
        TokenKind::Minus => {
            draft.set_expecting(Expecting::BoundRight(column, relation, sign.after_minus()));
            Ok(())
        }
        TokenKind::Literal => right_literal(draft, column, relation, sign, token),
        TokenKind::Word => right_infinity(draft, column, relation, sign, token),
        _ => Err(misplaced(token)),
    }
}

// ---- general and binary columns

pub(crate) fn at_general<'a>(
    profile: &Profile,
    draft: &mut Draft<'a>,
    token: &Token<'a>,
) -> Result<(), ReadError<FileFault>>
    requires { IsWithinInstance profile.now }
    ensures { Follows result draft.new (at_general token.now.kind profile.now draft.old token.now) }
{
    match token.kind() {
        TokenKind::Word => mention_changed(
            profile,
            draft,
            token,
            Expecting::Generals,
            ColumnChange::MadeInteger,
        ),
        _ => Err(misplaced(token)),
    }
}

pub(crate) fn at_binary<'a>(
    profile: &Profile,
    draft: &mut Draft<'a>,
    token: &Token<'a>,
) -> Result<(), ReadError<FileFault>>
    requires { IsWithinInstance profile.now }
    ensures { Follows result draft.new (at_binary token.now.kind profile.now draft.old token.now) }
{
    match token.kind() {
        TokenKind::Word => mention_changed(
            profile,
            draft,
            token,
            Expecting::Binaries,
            ColumnChange::MadeBinary,
        ),
        _ => Err(misplaced(token)),
    }
}
