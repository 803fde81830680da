// Table statements, behind their names.
ghost use Rattle.std.specs.Prelude.{◌≡◌, []};
ghost use Rattle.gmpl_input.specs.Rules.{Reads, further, further_from};
ghost use Rattle.gmpl_statements.specs.Parts as parts;
ghost use Rattle.gmpl_expressions.specs.Grammar as expressions;
ghost use Rattle.gmpl_statements.specs.Tables as spec;

use crate::name;
use gmpl_expressions::{Reader, is_name, string};
use gmpl_input::{Cursor, ParseError, list_of_one};
use gmpl_syntax::{Expr, InputColumn, OutputColumn, TableInput, TableOutput};
use gmpl_text::Text;
use gmpl_token::TokenKind;
use gmpl_words::{is_input, is_output};
use sqlite_items::{Boxed, Items};
use std::alloc::Global;

// ---- the driver and the file

#[tactic(auto, unfolding(crate::specs::Tables::driver))]
fn driver(alloc: Global, tokens: &mut Cursor<'_>) -> Result<Text, ParseError>
    ensures { Reads (spec.driver tokens.old) result tokens.new }
{
    match tokens.peek() {
        Some(TokenKind::StringLiteral) => string(alloc, tokens),
        _ => Err(tokens.refuse()),
    }
}

// A function that owns a tree by value across other reads is dear to prove.
fn boxed_expression(reader: Reader, tokens: &mut Cursor<'_>) -> Result<Boxed<Expr>, ParseError>
    ensures { Reads (expressions.expression reader.depth tokens.old) result tokens.new }
{
    let made = reader.expression(tokens)?;
    Ok(Boxed::new(reader.alloc, made)?)
}

#[tactic(auto, unfolding(crate::specs::Tables::argument))]
fn argument(reader: Reader, tokens: &mut Cursor<'_>) -> Result<(), ParseError>
    ensures { Reads (spec.argument reader.depth tokens.old) result tokens.new }
{
    tokens.eat(TokenKind::Comma);
    boxed_expression(reader, tokens)?;
    Ok(())
}

fn arguments(reader: Reader, tokens: &mut Cursor<'_>) -> Result<(), ParseError>
    ensures { Reads (spec.arguments reader.depth tokens.old) result tokens.new }
{
    for _turn in 0..tokens.left() {
        if tokens.sees(TokenKind::Colon) {
            return Ok(());
        }
        argument(reader, tokens)?;
    }
    Ok(())
}

// Another driver than CSV may take more than a file. It is not supported, and is read whole.
#[tactic(auto, unfolding(crate::specs::Tables::behind_file))]
fn behind_file(reader: Reader, tokens: &mut Cursor<'_>, driver: &Text) -> Result<(), ParseError>
    ensures { Reads (spec.behind_file reader.depth driver.now tokens.old) result tokens.new }
{
    if driver.as_str() == "CSV" {
        Ok(())
    } else {
        arguments(reader, tokens)
    }
}

#[tactic(auto, unfolding(crate::specs::Tables::driver_and_file))]
fn driver_and_file(
    reader: Reader,
    tokens: &mut Cursor<'_>,
) -> Result<(Text, Boxed<Expr>), ParseError>
    ensures { Reads (spec.driver_and_file reader.depth tokens.old) result tokens.new }
{
    let driver = driver(reader.alloc, tokens)?;
    let file = boxed_expression(reader, tokens)?;
    behind_file(reader, tokens, &driver)?;
    tokens.expect(TokenKind::Colon)?;
    Ok((driver, file))
}

#[tactic(auto, unfolding(crate::specs::Tables::optional_field))]
fn optional_field(alloc: Global, tokens: &mut Cursor<'_>) -> Result<Option<Text>, ParseError>
    ensures { Reads (spec.optional_field tokens.old) result tokens.new }
{
    if tokens.eat(TokenKind::Tilde) {
        Ok(Some(name(alloc, tokens)?))
    } else {
        Ok(None)
    }
}

// ---- a table that is read

#[tactic(auto, unfolding(crate::specs::Tables::optional_set))]
fn optional_set(alloc: Global, tokens: &mut Cursor<'_>) -> Result<Option<Text>, ParseError>
    ensures { Reads (spec.optional_set tokens.old) result tokens.new }
{
    match tokens.peek() {
        Some(TokenKind::Name) => {
            let set = name(alloc, tokens)?;
            tokens.expect(TokenKind::Arrow)?;
            Ok(Some(set))
        }
        _ => Ok(None),
    }
}

fn further_names(
    alloc: Global,
    tokens: &mut Cursor<'_>,
    mut found: Items<Text>,
) -> Result<Items<Text>, ParseError>
    ensures { Reads (further parts.name found tokens.old) result tokens.new }
{
    for _turn in 0..tokens.left() {
        if !tokens.eat(TokenKind::Comma) {
            return Ok(found);
        }
        found.push(name(alloc, tokens)?)?;
    }
    Ok(found)
}

#[tactic(auto, unfolding(crate::specs::Tables::keys))]
fn keys(alloc: Global, tokens: &mut Cursor<'_>) -> Result<Items<Text>, ParseError>
    ensures { Reads (spec.keys tokens.old) result tokens.new }
{
    tokens.expect(TokenKind::OpenBracket)?;
    let first = list_of_one(alloc, name(alloc, tokens)?)?;
    let all = further_names(alloc, tokens, first)?;
    tokens.expect(TokenKind::CloseBracket)?;
    Ok(all)
}

#[tactic(auto, unfolding(crate::specs::Tables::input_column))]
fn input_column(alloc: Global, tokens: &mut Cursor<'_>) -> Result<InputColumn, ParseError>
    ensures { Reads (spec.input_column tokens.old) result tokens.new }
{
    let parameter = name(alloc, tokens)?;
    let field = optional_field(alloc, tokens)?;
    Ok(InputColumn { parameter, field })
}

fn input_columns(alloc: Global, tokens: &mut Cursor<'_>) -> Result<Items<InputColumn>, ParseError>
    ensures { Reads (further spec.input_column [] tokens.old) result tokens.new }
{
    let mut found = Items::new(alloc);
    for _turn in 0..tokens.left() {
        if !tokens.eat(TokenKind::Comma) {
            return Ok(found);
        }
        found.push(input_column(alloc, tokens)?)?;
    }
    Ok(found)
}

/// A table that is read, behind `IN`.
#[tactic(auto, unfolding(crate::specs::Tables::table_input))]
pub fn table_input(
    reader: Reader,
    tokens: &mut Cursor<'_>,
    name: Text,
) -> Result<TableInput, ParseError>
    ensures { Reads (spec.table_input reader.depth name tokens.old) result tokens.new }
{
    let (driver, file) = driver_and_file(reader, tokens)?;
    let set = optional_set(reader.alloc, tokens)?;
    let keys = keys(reader.alloc, tokens)?;
    let columns = input_columns(reader.alloc, tokens)?;
    tokens.expect(TokenKind::Semicolon)?;
    Ok(TableInput {
        name,
        driver,
        file: file.into_inner(),
        set,
        keys,
        columns,
    })
}

/// `IN`, where it is not refused.
#[tactic(auto, unfolding(crate::specs::Tables::input_word))]
pub fn input_word(tokens: &mut Cursor<'_>, is_refused: bool) -> Result<(), ParseError>
    ensures { Reads (spec.input_word is_refused tokens.old) result tokens.new }
{
    match tokens.peek() {
        Some(TokenKind::Name) => {
            if is_input(tokens.spelling()) && !is_refused {
                tokens.take();
                Ok(())
            } else {
                Err(tokens.refuse())
            }
        }
        _ => Err(tokens.refuse()),
    }
}

// ---- a table that is written

#[tactic(auto, unfolding(crate::specs::Tables::output_word))]
fn output_word(tokens: &mut Cursor<'_>) -> Result<(), ParseError>
    ensures { Reads (spec.output_word tokens.old) result tokens.new }
{
    match tokens.peek() {
        Some(TokenKind::Name) => {
            if is_output(tokens.spelling()) {
                tokens.take();
                Ok(())
            } else {
                Err(tokens.refuse())
            }
        }
        _ => Err(tokens.refuse()),
    }
}

// The field of a column, which may be wanting where the column is a name alone.
#[tactic(auto, unfolding(crate::specs::Tables::output_field))]
fn output_field(
    alloc: Global,
    tokens: &mut Cursor<'_>,
    is_name: bool,
) -> Result<Option<Text>, ParseError>
    ensures { Reads (spec.output_field is_name tokens.old) result tokens.new }
{
    if is_name {
        return optional_field(alloc, tokens);
    }
    tokens.expect(TokenKind::Tilde)?;
    Ok(Some(name(alloc, tokens)?))
}

#[tactic(auto, unfolding(crate::specs::Tables::output_column))]
fn output_column(reader: Reader, tokens: &mut Cursor<'_>) -> Result<OutputColumn, ParseError>
    ensures { Reads (spec.output_column reader.depth tokens.old) result tokens.new }
{
    let value = boxed_expression(reader, tokens)?;
    let field = output_field(reader.alloc, tokens, is_name(value.get()))?;
    Ok(OutputColumn {
        value: value.into_inner(),
        field,
    })
}

fn further_columns(
    reader: Reader,
    tokens: &mut Cursor<'_>,
    mut found: Items<OutputColumn>,
) -> Result<Items<OutputColumn>, ParseError>
    ensures { Reads (further (spec.output_column reader.depth) found tokens.old) result tokens.new }
{
    for _turn in 0..tokens.left() {
        if !tokens.eat(TokenKind::Comma) {
            return Ok(found);
        }
        found.push(output_column(reader, tokens)?)?;
    }
    Ok(found)
}

#[tactic(auto, unfolding(crate::specs::Tables::output_columns))]
fn output_columns(
    reader: Reader,
    tokens: &mut Cursor<'_>,
) -> Result<Items<OutputColumn>, ParseError>
    ensures { Reads (spec.output_columns reader.depth tokens.old) result tokens.new }
{
    let first = list_of_one(reader.alloc, output_column(reader, tokens)?)?;
    further_columns(reader, tokens, first)
}

/// A table that is written, behind its name.
#[tactic(auto, unfolding(crate::specs::Tables::table_output))]
pub fn table_output(
    reader: Reader,
    tokens: &mut Cursor<'_>,
    name: Text,
) -> Result<TableOutput, ParseError>
    ensures { Reads (spec.table_output reader.depth name tokens.old) result tokens.new }
{
    let domain = reader.indexing_expression(tokens)?;
    output_word(tokens)?;
    let (driver, file) = driver_and_file(reader, tokens)?;
    let columns = output_columns(reader, tokens)?;
    tokens.expect(TokenKind::Semicolon)?;
    Ok(TableOutput {
        name,
        domain,
        driver,
        file: file.into_inner(),
        columns,
    })
}
