// Parts of several statements.
ghost use Rattle.std.specs.Prelude.{◌≡◌};
ghost use Rattle.gmpl_input.specs.Rules.{Reads};
ghost use Rattle.gmpl_statements.specs.Parts as spec;

use gmpl_expressions::Reader;
use gmpl_input::{Cursor, ParseError};
use gmpl_syntax::{Head, Indexing};
use gmpl_text::Text;
use gmpl_token::TokenKind;
use std::alloc::Global;

/// N: a name that isn't reserved.
#[tactic(auto, unfolding(crate::specs::Parts::name))]
pub fn name(alloc: Global, tokens: &mut Cursor<'_>) -> Result<Text, ParseError>
    ensures { Reads (spec.name tokens.old) result tokens.new }
{
    match tokens.peek() {
        Some(TokenKind::Name) => Ok(Text::new(alloc, tokens.take())?),
        _ => Err(tokens.refuse()),
    }
}

/// N and a string or none, which is dropped.
#[tactic(auto, unfolding(crate::specs::Parts::titled_name))]
pub fn titled_name(alloc: Global, tokens: &mut Cursor<'_>) -> Result<Text, ParseError>
    ensures { Reads (spec.titled_name tokens.old) result tokens.new }
{
    let name = name(alloc, tokens)?;
    tokens.eat(TokenKind::StringLiteral);
    Ok(name)
}

#[tactic(auto, unfolding(crate::specs::Parts::optional_domain))]
fn optional_domain(reader: Reader, tokens: &mut Cursor<'_>) -> Result<Option<Indexing>, ParseError>
    ensures { Reads (spec.optional_domain reader.depth tokens.old) result tokens.new }
{
    if tokens.sees(TokenKind::OpenBrace) {
        Ok(Some(reader.indexing_expression(tokens)?))
    } else {
        Ok(None)
    }
}

/// A name with its domain.
#[tactic(auto, unfolding(crate::specs::Parts::head))]
pub(crate) fn head(reader: Reader, tokens: &mut Cursor<'_>) -> Result<Head, ParseError>
    ensures { Reads (spec.head reader.depth tokens.old) result tokens.new }
{
    let name = titled_name(reader.alloc, tokens)?;
    let domain = optional_domain(reader, tokens)?;
    Ok(Head { name, domain })
}
