// Check, display and printf statements, behind their words.
ghost use Rattle.std.specs.Prelude.{◌≡◌};
ghost use Rattle.gmpl_input.specs.Rules.{Reads, further};
ghost use Rattle.gmpl_expressions.specs.Grammar.{expression};
ghost use Rattle.gmpl_statements.specs.Simple as spec;

use gmpl_expressions::Reader;
use gmpl_input::{Cursor, ParseError, list_of_one};
use gmpl_syntax::{Action, Expr, Indexing};
use gmpl_token::TokenKind;
use gmpl_words::is_domain;
use sqlite_items::Items;

#[tactic(auto, unfolding(crate::specs::Simple::governing_domain))]
fn governing_domain(reader: Reader, tokens: &mut Cursor<'_>) -> Result<Option<Indexing>, ParseError>
    ensures { Reads (spec.governing_domain reader.depth tokens.old) result tokens.new }
{
    if tokens.sees(TokenKind::OpenBrace) && is_domain(tokens.rest()) {
        Ok(Some(reader.indexing_expression(tokens)?))
    } else {
        Ok(None)
    }
}

// A domain and a colon, each of which may be wanting.
#[tactic(auto, unfolding(crate::specs::Simple::governed))]
fn governed(reader: Reader, tokens: &mut Cursor<'_>) -> Result<Option<Indexing>, ParseError>
    ensures { Reads (spec.governed reader.depth tokens.old) result tokens.new }
{
    let domain = governing_domain(reader, tokens)?;
    tokens.eat(TokenKind::Colon);
    Ok(domain)
}

fn more_listed(
    reader: Reader,
    tokens: &mut Cursor<'_>,
    mut found: Items<Expr>,
) -> Result<Items<Expr>, ParseError>
    ensures { Reads (further (expression reader.depth) found tokens.old) result tokens.new }
{
    for _turn in 0..tokens.left() {
        if !tokens.eat(TokenKind::Comma) {
            return Ok(found);
        }
        found.push(reader.expression(tokens)?)?;
    }
    Ok(found)
}

#[tactic(auto, unfolding(crate::specs::Simple::listed))]
fn listed(reader: Reader, tokens: &mut Cursor<'_>) -> Result<Items<Expr>, ParseError>
    ensures { Reads (spec.listed reader.depth tokens.old) result tokens.new }
{
    let first = list_of_one(reader.alloc, reader.expression(tokens)?)?;
    more_listed(reader, tokens, first)
}

/// What must hold.
#[tactic(auto, unfolding(crate::specs::Simple::check))]
pub(crate) fn check(reader: Reader, tokens: &mut Cursor<'_>) -> Result<Action, ParseError>
    ensures { Reads (spec.check reader.depth tokens.old) result tokens.new }
{
    let domain = governed(reader, tokens)?;
    let condition = reader.logical_expression(tokens)?;
    tokens.expect(TokenKind::Semicolon)?;
    Ok(Action::Check(domain, condition))
}

/// What is shown.
#[tactic(auto, unfolding(crate::specs::Simple::display))]
pub(crate) fn display(reader: Reader, tokens: &mut Cursor<'_>) -> Result<Action, ParseError>
    ensures { Reads (spec.display reader.depth tokens.old) result tokens.new }
{
    let domain = governed(reader, tokens)?;
    let items = listed(reader, tokens)?;
    tokens.expect(TokenKind::Semicolon)?;
    Ok(Action::Display(domain, items))
}

// The file behind `>` or `>>`.
#[tactic(auto, unfolding(crate::specs::Simple::printed_file))]
fn printed_file(reader: Reader, tokens: &mut Cursor<'_>) -> Result<Option<Expr>, ParseError>
    ensures { Reads (spec.printed_file reader.depth tokens.old) result tokens.new }
{
    if !tokens.eat(TokenKind::Above) {
        return Ok(None);
    }
    tokens.eat(TokenKind::Above);
    Ok(Some(reader.expression(tokens)?))
}

/// What is printed.
#[tactic(auto, unfolding(crate::specs::Simple::printf))]
pub(crate) fn printf(reader: Reader, tokens: &mut Cursor<'_>) -> Result<Action, ParseError>
    ensures { Reads (spec.printf reader.depth tokens.old) result tokens.new }
{
    let domain = governed(reader, tokens)?;
    let items = listed(reader, tokens)?;
    let file = printed_file(reader, tokens)?;
    tokens.expect(TokenKind::Semicolon)?;
    Ok(Action::Printf(domain, items, file))
}
