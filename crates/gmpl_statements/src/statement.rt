// One statement.
ghost use Rattle.std.specs.Prelude.{◌≡◌};
ghost use Rattle.gmpl_input.specs.Rules.{Reads};
ghost use Rattle.gmpl_statements.specs.Statement as spec;

use crate::{
    action, constraint, declaration, input_word, objective, table_input, table_output, titled_name,
};
use gmpl_expressions::Reader;
use gmpl_input::{Cursor, ParseError};
use gmpl_syntax::{Action, Constraint, Direction, Statement};
use gmpl_text::Text;
use gmpl_token::TokenKind;
use gmpl_words::{Beginning, Declared, begins_with, is_to};
use std::alloc::Global;

#[tactic(auto, unfolding(crate::specs::Statement::subject))]
fn subject(reader: Reader, tokens: &mut Cursor<'_>) -> Result<Constraint, ParseError>
    ensures { Reads (spec.subject reader.depth tokens.old) result tokens.new }
{
    match tokens.peek() {
        Some(TokenKind::Name) => {
            if is_to(tokens.spelling()) {
                tokens.take();
                constraint(reader, tokens)
            } else {
                Err(tokens.refuse())
            }
        }
        _ => Err(tokens.refuse()),
    }
}

#[tactic(auto, unfolding(crate::specs::Statement::read_table))]
fn read_table(
    reader: Reader,
    tokens: &mut Cursor<'_>,
    solved: bool,
    name: Text,
) -> Result<Statement, ParseError>
    ensures { Reads (spec.read_table reader.depth solved name tokens.old) result tokens.new }
{
    input_word(tokens, solved)?;
    Ok(Statement::TableInput(table_input(reader, tokens, name)?))
}

#[tactic(auto, unfolding(crate::specs::Statement::table))]
fn table(reader: Reader, tokens: &mut Cursor<'_>, solved: bool) -> Result<Statement, ParseError>
    ensures { Reads (spec.table reader.depth solved tokens.old) result tokens.new }
{
    let name = titled_name(reader.alloc, tokens)?;
    match tokens.peek() {
        Some(TokenKind::OpenBrace) => {
            let table = table_output(reader, tokens, name)?;
            Ok(Statement::Action(Action::TableOutput(table)))
        }
        _ => read_table(reader, tokens, solved, name),
    }
}

#[tactic(auto, unfolding(crate::specs::Statement::solve))]
fn solve(tokens: &mut Cursor<'_>) -> Result<Statement, ParseError>
    ensures { Reads (spec.solve tokens.old) result tokens.new }
{
    tokens.expect(TokenKind::Semicolon)?;
    Ok(Statement::Solve)
}

// The statement that begins so, behind `solve` or before it.
#[tactic(auto, unfolding(crate::specs::Statement::statement_by))]
fn statement_by(
    reader: Reader,
    tokens: &mut Cursor<'_>,
    solved: bool,
    beginning: Beginning,
) -> Result<Statement, ParseError>
    ensures { Reads (spec.statement_by reader.depth solved beginning tokens.old) result tokens.new }
{
    match (solved, beginning) {
        (_, Beginning::Set) => {
            tokens.take();
            Ok(Statement::Set(declaration(reader, tokens, Declared::Set)?))
        }
        (_, Beginning::Param) => {
            tokens.take();
            Ok(Statement::Param(declaration(reader, tokens, Declared::Param)?))
        }
        (false, Beginning::Var) => {
            tokens.take();
            Ok(Statement::Var(declaration(reader, tokens, Declared::Var)?))
        }
        (false, Beginning::SubjectTo) => {
            tokens.take();
            Ok(Statement::Constraint(constraint(reader, tokens)?))
        }
        (false, Beginning::Subject) => {
            tokens.take();
            Ok(Statement::Constraint(subject(reader, tokens)?))
        }
        (false, Beginning::Name) => Ok(Statement::Constraint(constraint(reader, tokens)?)),
        (false, Beginning::Minimize) => {
            tokens.take();
            Ok(Statement::Objective(objective(reader, tokens, Direction::Minimize)?))
        }
        (false, Beginning::Maximize) => {
            tokens.take();
            Ok(Statement::Objective(objective(reader, tokens, Direction::Maximize)?))
        }
        (false, Beginning::Solve) => {
            tokens.take();
            solve(tokens)
        }
        (_, Beginning::Table) => {
            tokens.take();
            table(reader, tokens, solved)
        }
        (_, Beginning::Check | Beginning::Display | Beginning::Printf | Beginning::For) => {
            Ok(Statement::Action(action(reader, tokens)?))
        }
        _ => Err(tokens.refuse()),
    }
}

/// The next statement, behind `solve` or before it.
#[tactic(auto, unfolding(crate::specs::Statement::statement))]
pub(crate) fn statement(
    alloc: Global,
    tokens: &mut Cursor<'_>,
    solved: bool,
) -> Result<Statement, ParseError>
    ensures { Reads (spec.statement solved tokens.old) result tokens.new }
{
    let beginning = begins_with(tokens.peek(), tokens.spelling());
    statement_by(Reader::new(alloc), tokens, solved, beginning)
}
