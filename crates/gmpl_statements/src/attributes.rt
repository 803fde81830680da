// Attributes of sets, parameters and variables.
ghost use Rattle.std.specs.Prelude.{◌≡◌};
ghost use Rattle.gmpl_input.specs.Rules.{Reads};
ghost use Rattle.gmpl_statements.specs.Attributes as spec;

use fraction::Frac;
use gmpl_expressions::{Reader, number};
use gmpl_input::{Cursor, ParseError};
use gmpl_syntax::Attribute;
use gmpl_token::TokenKind;
use gmpl_words::{AttributeWord, Declared, attribute_word, fits, note};
use sqlite_items::Items;

#[tactic(auto, unfolding(crate::specs::Attributes::literal))]
fn literal(tokens: &mut Cursor<'_>) -> Result<Frac, ParseError>
    ensures { Reads (spec.literal tokens.old) result tokens.new }
{
    match tokens.peek() {
        Some(TokenKind::NumericLiteral) => number(tokens),
        _ => Err(tokens.refuse()),
    }
}

// What stands behind an attribute's word.
fn attribute_value(
    reader: Reader,
    tokens: &mut Cursor<'_>,
    word: AttributeWord,
) -> Result<Attribute, ParseError>
    ensures { Reads (spec.attribute_value reader.depth word tokens.old) result tokens.new }
{
    match word {
        AttributeWord::Dimension => Ok(Attribute::Dimension(literal(tokens)?)),
        AttributeWord::Restriction(relation) => {
            Ok(Attribute::Restriction(relation, reader.expression(tokens)?))
        }
        AttributeWord::Assigned => Ok(Attribute::Assigned(reader.expression(tokens)?)),
        AttributeWord::Default => Ok(Attribute::Default(reader.expression(tokens)?)),
        AttributeWord::Integer => Ok(Attribute::Integer),
        AttributeWord::Binary => Ok(Attribute::Binary),
        AttributeWord::Symbolic => Ok(Attribute::Symbolic),
    }
}

#[tactic(auto, unfolding(crate::specs::Attributes::attribute))]
fn attribute(
    reader: Reader,
    tokens: &mut Cursor<'_>,
    word: AttributeWord,
) -> Result<Attribute, ParseError>
    ensures { Reads (spec.attribute reader.depth word tokens.old) result tokens.new }
{
    tokens.take();
    attribute_value(reader, tokens, word)
}

/// Attributes that stand together, each behind a comma or none.
pub(crate) fn attributes(
    reader: Reader,
    tokens: &mut Cursor<'_>,
    declared: Declared,
) -> Result<Items<Attribute>, ParseError>
    ensures { Reads (spec.attributes reader.depth declared tokens.old) result tokens.new }
{
    let mut words = Items::new(reader.alloc);
    let mut found = Items::from_vec(Vec::with_capacity(reader.alloc, 1)?);
    for _turn in 0..tokens.left() {
        let has_comma = tokens.eat(TokenKind::Comma);
        match attribute_word(declared, tokens.peek(), tokens.spelling()) {
            None => {
                if has_comma {
                    return Err(tokens.refuse());
                }
                return Ok(found);
            }
            Some(word) => {
                if !fits(declared, words.as_slice(), word) {
                    return Err(tokens.refuse());
                }
                note(declared, &mut words, word)?;
                found.push(attribute(reader, tokens, word)?)?;
            }
        }
    }
    Ok(found)
}
