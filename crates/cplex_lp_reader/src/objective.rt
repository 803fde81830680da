// The tokens of the objective.
ghost use Rattle.std.specs.Prelude.{◌≡◌};
ghost use Rattle.fraction.specs.Answers.{add_answer};
ghost use Rattle.model_text.specs.Profile.{IsWithinInstance};
ghost use Rattle.model_text.specs.Follows.{Follows};
ghost use Rattle.model_text.specs.Steps.{then_do};
ghost use Rattle.cplex_lp_draft.specs.Steps.{number_of};
ghost use Rattle.cplex_lp_draft.specs.Signs.{signed};
ghost use Rattle.cplex_lp_reader.specs.Objective.{objective_term, with_constant, objective_number, objective_begun, objective_factor, objective_done, in_objective, at_objective_start, at_objective_colon};

use crate::columns::mention;
use crate::faults::{misplaced, number_of_token};
use cplex_lp_draft::{Draft, Expecting, Sign, TermPart, sum_at};
use cplex_lp_tokens::{Token, TokenKind, is_before_colon, is_before_name};
use fraction::Frac;
use model_text::{FileFault, Profile, ReadError};

// ---- terms

// A number times the column of a name.
fn objective_term<'a>(
    profile: &Profile,
    draft: &mut Draft<'a>,
    value: Frac,
    token: &Token<'a>,
) -> Result<(), ReadError<FileFault>>
    requires { IsWithinInstance profile.now }
    ensures { Follows result draft.new (objective_term profile.now draft.old value token.now) }
{
    let column = draft.column_place(token.text());
    mention(profile, draft, token)?;
    draft.add_to_objective(token.line(), column, value)
}

fn with_constant(draft: &mut Draft, value: Frac, token: &Token) -> Result<(), ReadError<FileFault>>
    ensures { Follows result draft.new (with_constant draft.old value token.now) }
{
    let sum = sum_at(token.line(), draft.constant(), value)?;
    draft.set_constant(sum);
    Ok(())
}

// The number before a name, or a term without a name.
fn objective_number(
    draft: &mut Draft,
    token: &Token,
    rest: &[Token],
    value: Frac,
) -> Result<(), ReadError<FileFault>>
    ensures { Follows result draft.new (objective_number draft.old token.now rest.now value) }
{
    if is_before_name(rest) {
        draft.set_expecting(Expecting::Objective(TermPart::Factor(value)));
        Ok(())
    } else {
        with_constant(draft, value, token)
    }
}

fn objective_literal(
    draft: &mut Draft,
    sign: Sign,
    token: &Token,
    rest: &[Token],
) -> Result<(), ReadError<FileFault>>
    ensures { Follows result draft.new (then_do (λ v. objective_number draft.old token.now rest.now (signed sign v)) (number_of token.now)) }
{
    let value = number_of_token(token)?;
    objective_number(draft, token, rest, sign.signed(value))
}

// A term is about to begin, or has signs alone.
fn objective_begun<'a>(
    profile: &Profile,
    draft: &mut Draft<'a>,
    sign: Sign,
    token: &Token<'a>,
    rest: &[Token],
) -> Result<(), ReadError<FileFault>>
    requires { IsWithinInstance profile.now }
    ensures { Follows result draft.new (objective_begun token.now.kind profile.now draft.old sign token.now rest.now) }
{
    match token.kind() {
        TokenKind::Plus => {
            draft.set_expecting(Expecting::Objective(TermPart::Begun(sign.after_plus())));
            Ok(())
        }
        TokenKind::Minus => {
            draft.set_expecting(Expecting::Objective(TermPart::Begun(sign.after_minus())));
            Ok(())
        }
        TokenKind::Literal => objective_literal(draft, sign, token, rest),
        TokenKind::Word => objective_term(profile, draft, sign.signed(Frac::one()), token),
        _ => Err(misplaced(token)),
    }
}

// After the number before a name.
fn objective_factor<'a>(
    profile: &Profile,
    draft: &mut Draft<'a>,
    value: Frac,
    token: &Token<'a>,
) -> Result<(), ReadError<FileFault>>
    requires { IsWithinInstance profile.now }
    ensures { Follows result draft.new (objective_factor token.now.kind profile.now draft.old value token.now) }
{
    match token.kind() {
        TokenKind::Word => objective_term(profile, draft, value, token),
        _ => Err(misplaced(token)),
    }
}

// After a term.
fn objective_done(draft: &mut Draft, token: &Token) -> Result<(), ReadError<FileFault>>
    ensures { Follows result draft.new (objective_done token.now.kind draft.old token.now) }
{
    match token.kind() {
        TokenKind::Plus => {
            draft.set_expecting(Expecting::Objective(TermPart::Begun(Sign::Plus)));
            Ok(())
        }
        TokenKind::Minus => {
            draft.set_expecting(Expecting::Objective(TermPart::Begun(Sign::Minus)));
            Ok(())
        }
        _ => Err(misplaced(token)),
    }
}

pub(crate) fn in_objective<'a>(
    profile: &Profile,
    draft: &mut Draft<'a>,
    part: TermPart,
    token: &Token<'a>,
    rest: &[Token],
) -> Result<(), ReadError<FileFault>>
    requires { IsWithinInstance profile.now }
    ensures { Follows result draft.new (in_objective part profile.now draft.old token.now rest.now) }
{
    match part {
        TermPart::Begun(sign) => objective_begun(profile, draft, sign, token, rest),
        TermPart::Factor(value) => objective_factor(profile, draft, value, token),
        TermPart::Done => objective_done(draft, token),
    }
}

// ---- the first tokens

// A name before a colon is the objective's.
pub(crate) fn at_objective_start<'a>(
    profile: &Profile,
    draft: &mut Draft<'a>,
    token: &Token<'a>,
    rest: &[Token],
) -> Result<(), ReadError<FileFault>>
    requires { IsWithinInstance profile.now }
    ensures { Follows result draft.new (at_objective_start profile.now draft.old token.now rest.now) }
{
    if token.kind().is_name() && is_before_colon(rest) {
        draft.name_objective(token.text());
        Ok(())
    } else {
        objective_begun(profile, draft, Sign::Unsigned, token, rest)
    }
}

pub(crate) fn at_objective_colon(
    draft: &mut Draft,
    token: &Token,
) -> Result<(), ReadError<FileFault>>
    ensures { Follows result draft.new (at_objective_colon draft.old token.now) }
{
    if token.kind().is_colon() {
        draft.set_expecting(Expecting::Objective(TermPart::Begun(Sign::Unsigned)));
        Ok(())
    } else {
        Err(misplaced(token))
    }
}
