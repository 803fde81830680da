// Statements that a `for` may hold, and `for` itself.
ghost use Rattle.std.specs.Prelude.{◌≡◌};
ghost use Rattle.gmpl_input.specs.Rules.{Reads};
ghost use Rattle.gmpl_statements.specs.Actions as spec;
ghost use Rattle.gmpl_statements.specs.Actions.{GoesInto};

use crate::simple::{check, display, printf};
use crate::{table_output, titled_name};
use gmpl_expressions::Reader;
use gmpl_input::{Cursor, ParseError, list_of_one};
use gmpl_syntax::{Action, Indexing, SyntaxFaultKind};
use gmpl_token::TokenKind;
use gmpl_words::{Beginning, begins_with};
use sqlite_items::Items;

// ---- the heads of a `for`

#[tactic(auto, unfolding(crate::specs::Actions::one_head))]
fn one_head(reader: Reader, tokens: &mut Cursor<'_>) -> Result<Indexing, ParseError>
    ensures { Reads (spec.one_head reader.depth tokens.old) result tokens.new }
{
    let domain = reader.indexing_expression(tokens)?;
    tokens.eat(TokenKind::Colon);
    Ok(domain)
}

fn is_for(beginning: Beginning) -> bool
    ensures { result ≡ spec.is_for beginning }
{
    match beginning {
        Beginning::For => true,
        _ => false,
    }
}

fn more_heads(
    reader: Reader,
    tokens: &mut Cursor<'_>,
    most: usize,
    mut found: Items<Indexing>,
) -> Result<Items<Indexing>, ParseError>
    ensures { Reads (spec.heads_from reader.depth most found tokens.old) result tokens.new }
{
    for _turn in 0..most {
        if !is_for(begins_with(tokens.peek(), tokens.spelling())) {
            return Ok(found);
        }
        tokens.take();
        found.push(one_head(reader, tokens)?)?;
    }
    Ok(found)
}

#[tactic(auto, unfolding(crate::specs::Actions::heads))]
fn heads(reader: Reader, tokens: &mut Cursor<'_>) -> Result<Items<Indexing>, ParseError>
    ensures { Reads (spec.heads reader.depth tokens.old) result tokens.new }
{
    let first = list_of_one(reader.alloc, one_head(reader, tokens)?)?;
    let most = tokens.left();
    more_heads(reader, tokens, most, first)
}

// ---- its body

// Behind the brace of one more body.
#[tactic(auto, unfolding(crate::specs::Actions::block))]
fn into_block(reader: Reader) -> Result<Reader, ParseError>
    ensures { GoesInto reader.depth result }
{
    if reader.depth == 0 {
        Err(ParseError::Fault(SyntaxFaultKind::TooDeep))
    } else {
        Ok(Reader {
            alloc: reader.alloc,
            depth: reader.depth - 1,
        })
    }
}

#[tactic(auto, unfolding(crate::specs::Actions::written_table))]
fn written_table(reader: Reader, tokens: &mut Cursor<'_>) -> Result<Action, ParseError>
    ensures { Reads (spec.written_table reader.depth tokens.old) result tokens.new }
{
    let name = titled_name(reader.alloc, tokens)?;
    Ok(Action::TableOutput(table_output(reader, tokens, name)?))
}

// An inner statement that is no `for`.
fn simple(
    reader: Reader,
    tokens: &mut Cursor<'_>,
    beginning: Beginning,
) -> Result<Action, ParseError>
    ensures { Reads (spec.simple_by reader.depth (spec.block reader.depth) beginning tokens.old) result tokens.new }
{
    match beginning {
        Beginning::Check => {
            tokens.take();
            check(reader, tokens)
        }
        Beginning::Display => {
            tokens.take();
            display(reader, tokens)
        }
        Beginning::Printf => {
            tokens.take();
            printf(reader, tokens)
        }
        Beginning::Table => {
            tokens.take();
            written_table(reader, tokens)
        }
        _ => Err(tokens.refuse()),
    }
}

/// A statement that a `for` may hold.
#[cycle(actions)]
#[tactic(auto, unfolding(crate::specs::Actions::action_with))]
pub fn action(reader: Reader, tokens: &mut Cursor<'_>) -> Result<Action, ParseError>
    ensures { Reads (spec.action reader.depth tokens.old) result tokens.new }
{
    let beginning = begins_with(tokens.peek(), tokens.spelling());
    match beginning {
        Beginning::For => {
            tokens.take();
            looped(reader, tokens)
        }
        _ => simple(reader, tokens, beginning),
    }
}

#[cycle(actions)]
#[tactic(auto, unfolding(crate::specs::Actions::looped))]
fn looped(reader: Reader, tokens: &mut Cursor<'_>) -> Result<Action, ParseError>
    ensures { Reads (spec.looped reader.depth (spec.block reader.depth) tokens.old) result tokens.new }
{
    let heads = heads(reader, tokens)?;
    let inner = body(reader, tokens)?;
    Ok(Action::For(heads, inner))
}

#[cycle(actions)]
#[tactic(auto, unfolding(crate::specs::Actions::body, crate::specs::Actions::simple))]
fn body(reader: Reader, tokens: &mut Cursor<'_>) -> Result<Items<Action>, ParseError>
    ensures { Reads (spec.body reader.depth (spec.block reader.depth) tokens.old) result tokens.new }
{
    if tokens.eat(TokenKind::OpenBrace) {
        block(reader, tokens)
    } else {
        let beginning = begins_with(tokens.peek(), tokens.spelling());
        let inner = simple(reader, tokens, beginning)?;
        Ok(list_of_one(reader.alloc, inner)?)
    }
}

#[cycle(actions)]
#[tactic(auto, unfolding(crate::specs::Actions::block_in))]
fn block(reader: Reader, tokens: &mut Cursor<'_>) -> Result<Items<Action>, ParseError>
    ensures { Reads (spec.block reader.depth tokens.old) result tokens.new }
{
    let inside = into_block(reader)?;
    let all = actions(inside, tokens)?;
    tokens.expect(TokenKind::CloseBrace)?;
    Ok(all)
}

#[cycle(actions)]
fn actions(reader: Reader, tokens: &mut Cursor<'_>) -> Result<Items<Action>, ParseError>
    ensures { Reads (spec.actions (spec.action reader.depth) tokens.old) result tokens.new }
{
    let mut found = Items::new(reader.alloc);
    for _turn in 0..tokens.left() {
        if tokens.sees(TokenKind::CloseBrace) {
            return Ok(found);
        }
        found.push(action(reader, tokens)?)?;
    }
    Ok(found)
}
