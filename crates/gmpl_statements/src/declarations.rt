// Statements that declare, behind their words.
ghost use Rattle.std.specs.Prelude.{◌≡◌};
ghost use Rattle.gmpl_input.specs.Rules.{Reads};
ghost use Rattle.gmpl_expressions.specs.Grammar as expressions;
ghost use Rattle.gmpl_statements.specs.Declarations as spec;

use crate::attributes::attributes;
use crate::parts::head;
use gmpl_expressions::Reader;
use gmpl_input::{Cursor, ParseError};
use gmpl_syntax::{Constraint, Declaration, Direction, Expr, Head, Objective, Relation};
use gmpl_token::TokenKind;
use gmpl_words::{Declared, bound_relation, may_follow};
use sqlite_items::Boxed;

/// A set, a parameter or a variable.
#[tactic(auto, unfolding(crate::specs::Declarations::declaration))]
pub fn declaration(
    reader: Reader,
    tokens: &mut Cursor<'_>,
    declared: Declared,
) -> Result<Declaration, ParseError>
    ensures { Reads (spec.declaration reader.depth declared tokens.old) result tokens.new }
{
    let head = head(reader, tokens)?;
    let attributes = attributes(reader, tokens, declared)?;
    tokens.expect(TokenKind::Semicolon)?;
    Ok(Declaration { head, attributes })
}

#[tactic(auto, unfolding(crate::specs::Declarations::first_relation))]
fn first_relation(tokens: &mut Cursor<'_>) -> Result<Relation, ParseError>
    ensures { Reads (spec.first_relation tokens.old) result tokens.new }
{
    match bound_relation(tokens.peek()) {
        Some(relation) => {
            tokens.take();
            Ok(relation)
        }
        None => Err(tokens.refuse()),
    }
}

// The second relation with its side.
#[tactic(auto, unfolding(crate::specs::Declarations::last_side))]
fn last_side(reader: Reader, tokens: &mut Cursor<'_>, first: Relation) -> Result<Expr, ParseError>
    ensures { Reads (spec.last_side reader.depth first tokens.old) result tokens.new }
{
    tokens.eat(TokenKind::Comma);
    if !may_follow(first, tokens.peek()) {
        return Err(tokens.refuse());
    }
    tokens.take();
    reader.expression(tokens)
}

#[tactic(auto, unfolding(crate::specs::Declarations::optional_last_side))]
fn optional_last_side(
    reader: Reader,
    tokens: &mut Cursor<'_>,
    first: Relation,
) -> Result<Option<Expr>, ParseError>
    ensures { Reads (spec.optional_last_side reader.depth first tokens.old) result tokens.new }
{
    if tokens.sees(TokenKind::Semicolon) {
        Ok(None)
    } else {
        Ok(Some(last_side(reader, tokens, first)?))
    }
}

// An expression in a `Boxed`, where others are read before it is used: a function that owns a tree by value is dear to prove.
fn boxed_expression(reader: Reader, tokens: &mut Cursor<'_>) -> Result<Boxed<Expr>, ParseError>
    ensures { Reads (expressions.expression reader.depth tokens.old) result tokens.new }
{
    let made = reader.expression(tokens)?;
    Ok(Boxed::new(reader.alloc, made)?)
}

// The sides of a constraint with this head.
#[tactic(auto, unfolding(crate::specs::Declarations::sides))]
fn sides(reader: Reader, tokens: &mut Cursor<'_>, head: Head) -> Result<Constraint, ParseError>
    ensures { Reads (spec.sides reader.depth head tokens.old) result tokens.new }
{
    let left = boxed_expression(reader, tokens)?;
    tokens.eat(TokenKind::Comma);
    let relation = first_relation(tokens)?;
    let right = boxed_expression(reader, tokens)?;
    let last = optional_last_side(reader, tokens, relation)?;
    Ok(Constraint {
        head,
        left: left.into_inner(),
        relation,
        right: right.into_inner(),
        last,
    })
}

fn boxed_sides(
    reader: Reader,
    tokens: &mut Cursor<'_>,
    head: Head,
) -> Result<Boxed<Constraint>, ParseError>
    ensures { Reads (spec.sides reader.depth head tokens.old) result tokens.new }
{
    let made = sides(reader, tokens, head)?;
    Ok(Boxed::new(reader.alloc, made)?)
}

/// A constraint.
#[tactic(auto, unfolding(crate::specs::Declarations::constraint))]
pub fn constraint(reader: Reader, tokens: &mut Cursor<'_>) -> Result<Constraint, ParseError>
    ensures { Reads (spec.constraint reader.depth tokens.old) result tokens.new }
{
    let head = head(reader, tokens)?;
    tokens.expect(TokenKind::Colon)?;
    let constraint = boxed_sides(reader, tokens, head)?;
    tokens.expect(TokenKind::Semicolon)?;
    Ok(constraint.into_inner())
}

/// An objective.
#[tactic(auto, unfolding(crate::specs::Declarations::objective))]
pub fn objective(
    reader: Reader,
    tokens: &mut Cursor<'_>,
    direction: Direction,
) -> Result<Objective, ParseError>
    ensures { Reads (spec.objective reader.depth direction tokens.old) result tokens.new }
{
    let head = head(reader, tokens)?;
    tokens.expect(TokenKind::Colon)?;
    let form = boxed_expression(reader, tokens)?;
    tokens.expect(TokenKind::Semicolon)?;
    Ok(Objective {
        direction,
        head,
        form: form.into_inner(),
    })
}
