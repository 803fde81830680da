// What the block of a parameter gives to its members.
ghost use Rattle.std.specs.Prelude.{◌≡◌, length};
ghost use Rattle.gmpl_blocks.specs.Rules.{Reads, Judges};
ghost use Rattle.gmpl_blocks.specs.Parameters as spec;
ghost use Rattle.gmpl_blocks.specs.Slots.{placed};

use crate::block_slots::{TableHead, all_stars, comma, placed, slice, table, tuple};
use crate::{Cursor, DataError, DataFaultKind, next_symbol, symbol, word};
use gmpl_members::{Members, Value};
use gmpl_token::TokenKind;
use gmpl_value::{Symbol, Tuple};
use sqlite_items::Items;
use std::alloc::Global;

/// What data give to a parameter: the values of its members, and the symbol of those that are given none.
#[derive(Drop)]
pub struct ParameterData {
    pub values: Members,
    pub default: Option<Symbol>,
}

// A block between two items: the slice, `(tr)` and the table that are in force, the values so far, and whether an item stands
// right before, behind which a comma may come.
#[derive(Drop)]
pub(crate) struct ParameterBlock {
    pub(crate) slots: Items<Option<Symbol>>,
    pub(crate) is_transposed: bool,
    pub(crate) table: Option<TableHead>,
    pub(crate) values: Members,
    pub(crate) is_behind_item: bool,
}

// ---- values

/// Gives a member its value. It is `Twice` where it has one.
pub fn given_value(member: Tuple, value: Symbol, values: Members) -> Result<Members, DataError>
    ensures { Judges (spec.given_value member value values) result }
{
    if values.get(&member).is_some() {
        return Err(DataError::Fault(DataFaultKind::Twice));
    }
    let mut values = values;
    match values.insert(member, Value::Scalar(value)).ok() {
        Some(()) => Ok(values),
        None => Err(DataError::NoMemory),
    }
}

// A tuple, and behind it the value of the member with these subscripts.
#[tactic(auto, unfolding(crate::specs::Parameters::entry))]
fn entry(
    alloc: Global,
    slots: &[Option<Symbol>],
    values: Members,
    tokens: &mut Cursor<'_, '_>,
) -> Result<Members, DataError>
    ensures { Reads (spec.entry slots.now values tokens.old) result tokens.new }
{
    let member = tuple(alloc, slots, tokens)?;
    let value = next_symbol(alloc, tokens)?;
    given_value(member, value, values)
}

/// A value in a table behind a comma or none, or `.` for none.
#[tactic(auto, unfolding(crate::specs::Parameters::cell))]
pub fn cell(alloc: Global, tokens: &mut Cursor<'_, '_>) -> Result<Option<Symbol>, DataError>
    ensures { Reads (spec.cell tokens.old) result tokens.new }
{
    tokens.eat(TokenKind::Comma);
    if word(".", tokens) {
        Ok(None)
    } else {
        Ok(Some(symbol(alloc, tokens)?))
    }
}

// The values with that of a place in a table, if there is one.
fn given_cell(
    alloc: Global,
    table: &TableHead,
    slots: &[Option<Symbol>],
    row: &Symbol,
    column: &Symbol,
    value: Option<Symbol>,
    values: Members,
) -> Result<Members, DataError>
    ensures { Judges (spec.given_cell (placed table.now.is_transposed slots.now row.now column.now) value values) result }
{
    match value {
        None => Ok(values),
        Some(value) => {
            let member = placed(alloc, table.is_transposed, slots, row, column)?;
            given_value(member, value, values)
        }
    }
}

// A row of a table.
#[tactic(auto, unfolding(crate::specs::Parameters::row))]
fn row(
    alloc: Global,
    table: &TableHead,
    slots: &[Option<Symbol>],
    mut values: Members,
    tokens: &mut Cursor<'_, '_>,
) -> Result<Members, DataError>
    ensures { Reads (spec.row table.now slots.now values tokens.old) result tokens.new }
{
    let row = next_symbol(alloc, tokens)?;
    for column in table.columns.as_slice() {
        let value = cell(alloc, tokens)?;
        values = given_cell(alloc, table, slots, &row, column, value, values)?;
    }
    Ok(values)
}

// What begins with a symbol: a row where a table is in force, else a tuple with its value.
fn values(
    alloc: Global,
    table: &Option<TableHead>,
    slots: &[Option<Symbol>],
    values: Members,
    tokens: &mut Cursor<'_, '_>,
) -> Result<Members, DataError>
    ensures { Reads (spec.values table.now slots.now values tokens.old) result tokens.new }
{
    match table {
        None => entry(alloc, slots, values, tokens),
        Some(table) => row(alloc, table, slots, values, tokens),
    }
}

// ---- the items of a block

#[tactic(auto, unfolding(crate::specs::Parameters::assignment))]
fn assignment(
    block: ParameterBlock,
    tokens: &mut Cursor<'_, '_>,
) -> Result<ParameterBlock, DataError>
    ensures { Reads (spec.assignment block tokens.old) result tokens.new }
{
    tokens.expect(TokenKind::Assign)?;
    Ok(ParameterBlock {
        slots: block.slots,
        is_transposed: block.is_transposed,
        table: None,
        values: block.values,
        is_behind_item: false,
    })
}

#[tactic(auto, unfolding(crate::specs::Parameters::separator))]
fn separator(
    block: ParameterBlock,
    tokens: &mut Cursor<'_, '_>,
) -> Result<ParameterBlock, DataError>
    ensures { Reads (spec.separator block tokens.old) result tokens.new }
{
    comma(block.is_behind_item, tokens)?;
    Ok(ParameterBlock {
        slots: block.slots,
        is_transposed: block.is_transposed,
        table: block.table,
        values: block.values,
        is_behind_item: false,
    })
}

#[tactic(auto, unfolding(crate::specs::Parameters::slice_item))]
fn slice_item(
    alloc: Global,
    dimension: usize,
    block: ParameterBlock,
    tokens: &mut Cursor<'_, '_>,
) -> Result<ParameterBlock, DataError>
    ensures { Reads (spec.slice_item dimension block tokens.old) result tokens.new }
{
    tokens.expect(TokenKind::OpenBracket)?;
    let slots = slice(alloc, TokenKind::CloseBracket, dimension, tokens)?;
    Ok(ParameterBlock {
        slots,
        is_transposed: false,
        table: None,
        values: block.values,
        is_behind_item: true,
    })
}

#[tactic(auto, unfolding(crate::specs::Parameters::table_item))]
fn table_item(
    alloc: Global,
    is_transposed: bool,
    block: ParameterBlock,
    tokens: &mut Cursor<'_, '_>,
) -> Result<ParameterBlock, DataError>
    ensures { Reads (spec.table_item is_transposed block tokens.old) result tokens.new }
{
    tokens.expect(TokenKind::Colon)?;
    let head = table(alloc, is_transposed, block.slots.as_slice(), tokens)?;
    Ok(ParameterBlock {
        slots: block.slots,
        is_transposed,
        table: Some(head),
        values: block.values,
        is_behind_item: false,
    })
}

// The mark of a transposed table, before its colon.
#[tactic(auto, unfolding(crate::specs::Parameters::transposition))]
fn transposition(tokens: &mut Cursor<'_, '_>) -> Result<(), DataError>
    ensures { Reads (spec.transposition tokens.old) result tokens.new }
{
    tokens.expect(TokenKind::OpenParenthesis)?;
    if word("tr", tokens) {
        tokens.expect(TokenKind::CloseParenthesis)
    } else {
        Err(tokens.refuse())
    }
}

#[tactic(auto, unfolding(crate::specs::Parameters::transposed_item))]
fn transposed_item(
    alloc: Global,
    block: ParameterBlock,
    tokens: &mut Cursor<'_, '_>,
) -> Result<ParameterBlock, DataError>
    ensures { Reads (spec.transposed_item block tokens.old) result tokens.new }
{
    transposition(tokens)?;
    table_item(alloc, true, block, tokens)
}

#[tactic(auto, unfolding(crate::specs::Parameters::values_item))]
fn values_item(
    alloc: Global,
    block: ParameterBlock,
    tokens: &mut Cursor<'_, '_>,
) -> Result<ParameterBlock, DataError>
    ensures { Reads (spec.values_item block tokens.old) result tokens.new }
{
    let ParameterBlock {
        slots,
        is_transposed,
        table,
        values: before,
        ..
    } = block;
    let values = values(alloc, &table, slots.as_slice(), before, tokens)?;
    Ok(ParameterBlock {
        slots,
        is_transposed,
        table,
        values,
        is_behind_item: true,
    })
}

#[tactic(auto, unfolding(crate::specs::Parameters::item))]
fn item(
    alloc: Global,
    dimension: usize,
    block: ParameterBlock,
    tokens: &mut Cursor<'_, '_>,
) -> Result<ParameterBlock, DataError>
    ensures { Reads (spec.item dimension block tokens.old) result tokens.new }
{
    match tokens.peek() {
        Some(TokenKind::Assign) => assignment(block, tokens),
        Some(TokenKind::Comma) => separator(block, tokens),
        Some(TokenKind::OpenBracket) => slice_item(alloc, dimension, block, tokens),
        Some(TokenKind::Colon) => table_item(alloc, block.is_transposed, block, tokens),
        Some(TokenKind::OpenParenthesis) => transposed_item(alloc, block, tokens),
        Some(TokenKind::NumericLiteral) => values_item(alloc, block, tokens),
        Some(TokenKind::Name) => values_item(alloc, block, tokens),
        Some(TokenKind::StringLiteral) => values_item(alloc, block, tokens),
        _ => Err(tokens.refuse()),
    }
}

fn items(
    alloc: Global,
    dimension: usize,
    mut block: ParameterBlock,
    tokens: &mut Cursor<'_, '_>,
) -> Result<Members, DataError>
    ensures { Reads (spec.items dimension block tokens.old) result tokens.new }
{
    for _turn in 0..tokens.left() {
        if tokens.eat(TokenKind::Semicolon) {
            return Ok(block.values);
        }
        block = item(alloc, dimension, block, tokens)?;
    }
    Err(tokens.refuse())
}

// ---- the block

/// The default of a parameter. It is `Twice` where it was given one before.
pub fn given_default(value: Symbol, before: Option<Symbol>) -> Result<Option<Symbol>, DataError>
    ensures { Judges (spec.given_default value before) result }
{
    match before {
        Some(_) => Err(DataError::Fault(DataFaultKind::Twice)),
        None => Ok(Some(value)),
    }
}

/// The default that a block gives, or the one that was given before.
#[tactic(auto, unfolding(crate::specs::Parameters::default))]
pub fn default(
    alloc: Global,
    before: Option<Symbol>,
    tokens: &mut Cursor<'_, '_>,
) -> Result<Option<Symbol>, DataError>
    ensures { Reads (spec.default before tokens.old) result tokens.new }
{
    if word("default", tokens) {
        let value = symbol(alloc, tokens)?;
        given_default(value, before)
    } else {
        Ok(before)
    }
}

/// The block of a parameter of this dimension, behind its name, with its semicolon: what it and the blocks before it give.
#[tactic(auto, unfolding(crate::specs::Parameters::parameter_block))]
pub fn parameter_block(
    alloc: Global,
    dimension: usize,
    before: ParameterData,
    tokens: &mut Cursor<'_, '_>,
) -> Result<ParameterData, DataError>
    ensures { Reads (spec.parameter_block dimension before tokens.old) result tokens.new }
{
    let default = default(alloc, before.default, tokens)?;
    let slots = all_stars(alloc, dimension)?;
    let block = ParameterBlock {
        slots,
        is_transposed: false,
        table: None,
        values: before.values,
        is_behind_item: false,
    };
    let values = items(alloc, dimension, block, tokens)?;
    Ok(ParameterData { values, default })
}
