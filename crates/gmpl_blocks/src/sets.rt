// What the block of a set gives to it.
ghost use Rattle.std.specs.Prelude.{◌≡◌, length};
ghost use Rattle.gmpl_blocks.specs.Rules.{Reads, Judges};
ghost use Rattle.gmpl_blocks.specs.Sets as spec;
ghost use Rattle.gmpl_blocks.specs.Slots.{placed};

use crate::block_slots::{TableHead, all_stars, comma, placed, slice, stars, table, tuple};
use crate::{Cursor, DataError, DataFaultKind, next_symbol, symbol, word};
use gmpl_token::TokenKind;
use gmpl_value::{SetFault, SetValue, Symbol, Tuple};
use sqlite_items::Items;
use std::alloc::Global;

/// What data give to a set, or to a member of one: its elements, and whether more are given than a set may have.
#[derive(Drop)]
pub struct SetData {
    pub elements: SetValue,
    pub is_overfull: bool,
}

// A block between two items: the slice, `(tr)` and the matrix that are in force, the elements so far, and whether an item stands
// right before, behind which a comma may come.
#[derive(Drop)]
pub(crate) struct SetBlock {
    pub(crate) slots: Items<Option<Symbol>>,
    pub(crate) is_transposed: bool,
    pub(crate) table: Option<TableHead>,
    pub(crate) given: SetData,
    pub(crate) is_behind_item: bool,
}

// ---- elements

/// Gives a set an element. It is `Twice` where the set has it. What passes the number of elements that a set may have is noted.
pub fn given_element(tuple: Tuple, given: SetData) -> Result<SetData, DataError>
    ensures { Judges (spec.given_element tuple given) result }
{
    let SetData {
        mut elements,
        is_overfull,
    } = given;
    if elements.contains(&tuple) {
        return Err(DataError::Fault(DataFaultKind::Twice));
    }
    match elements.insert(tuple) {
        Ok(_) => Ok(SetData {
            elements,
            is_overfull,
        }),
        Err((_, SetFault::NoMemory)) => Err(DataError::NoMemory),
        Err(_) => Ok(SetData {
            elements,
            is_overfull: true,
        }),
    }
}

// A tuple, which has a slot to fill.
#[tactic(auto, unfolding(crate::specs::Sets::element))]
fn element(
    alloc: Global,
    slots: &[Option<Symbol>],
    given: SetData,
    tokens: &mut Cursor<'_, '_>,
) -> Result<SetData, DataError>
    ensures { Reads (spec.element slots.now given tokens.old) result tokens.new }
{
    if stars(slots) == 0 {
        return Err(tokens.refuse());
    }
    let tuple = tuple(alloc, slots, tokens)?;
    given_element(tuple, given)
}

// A slice without `*` is an element itself.
#[tactic(auto, unfolding(crate::specs::Sets::whole_slice))]
fn whole_slice(
    alloc: Global,
    slots: &[Option<Symbol>],
    given: SetData,
    tokens: &mut Cursor<'_, '_>,
) -> Result<SetData, DataError>
    ensures { Reads (spec.whole_slice slots.now given tokens.old) result tokens.new }
{
    if stars(slots) == 0 {
        let tuple = tuple(alloc, slots, tokens)?;
        given_element(tuple, given)
    } else {
        Ok(given)
    }
}

// `+` for an element, `-` for none.
#[tactic(auto, unfolding(crate::specs::Sets::mark))]
fn mark(tokens: &mut Cursor<'_, '_>) -> Result<bool, DataError>
    ensures { Reads (spec.mark tokens.old) result tokens.new }
{
    tokens.eat(TokenKind::Comma);
    if word("+", tokens) {
        Ok(true)
    } else if word("-", tokens) {
        Ok(false)
    } else {
        Err(tokens.refuse())
    }
}

// The elements with that of a place in a matrix, if it is marked as one.
fn marked(
    alloc: Global,
    is_element: bool,
    head: &TableHead,
    slots: &[Option<Symbol>],
    row: &Symbol,
    column: &Symbol,
    given: SetData,
) -> Result<SetData, DataError>
    ensures { Judges (spec.marked is_element (placed head.now.is_transposed slots.now row.now column.now) given) result }
{
    if !is_element {
        return Ok(given);
    }
    let tuple = placed(alloc, head.is_transposed, slots, row, column)?;
    given_element(tuple, given)
}

// A row of a matrix.
#[tactic(auto, unfolding(crate::specs::Sets::row))]
fn row(
    alloc: Global,
    head: &TableHead,
    slots: &[Option<Symbol>],
    mut given: SetData,
    tokens: &mut Cursor<'_, '_>,
) -> Result<SetData, DataError>
    ensures { Reads (spec.row head.now slots.now given tokens.old) result tokens.new }
{
    let row = next_symbol(alloc, tokens)?;
    for column in head.columns.as_slice() {
        let is_element = mark(tokens)?;
        given = marked(alloc, is_element, head, slots, &row, column, given)?;
    }
    Ok(given)
}

// What begins with a symbol: a row where a matrix is in force, else a tuple.
fn elements(
    alloc: Global,
    head: &Option<TableHead>,
    slots: &[Option<Symbol>],
    given: SetData,
    tokens: &mut Cursor<'_, '_>,
) -> Result<SetData, DataError>
    ensures { Reads (spec.elements head.now slots.now given tokens.old) result tokens.new }
{
    match head {
        None => element(alloc, slots, given, tokens),
        Some(head) => row(alloc, head, slots, given, tokens),
    }
}

// ---- the items of a block

#[tactic(auto, unfolding(crate::specs::Sets::assignment))]
fn assignment(block: SetBlock, tokens: &mut Cursor<'_, '_>) -> Result<SetBlock, DataError>
    ensures { Reads (spec.assignment block tokens.old) result tokens.new }
{
    tokens.expect(TokenKind::Assign)?;
    Ok(SetBlock {
        slots: block.slots,
        is_transposed: block.is_transposed,
        table: None,
        given: block.given,
        is_behind_item: false,
    })
}

#[tactic(auto, unfolding(crate::specs::Sets::separator))]
fn separator(block: SetBlock, tokens: &mut Cursor<'_, '_>) -> Result<SetBlock, DataError>
    ensures { Reads (spec.separator block tokens.old) result tokens.new }
{
    comma(block.is_behind_item, tokens)?;
    Ok(SetBlock {
        slots: block.slots,
        is_transposed: block.is_transposed,
        table: block.table,
        given: block.given,
        is_behind_item: false,
    })
}

#[tactic(auto, unfolding(crate::specs::Sets::slice_item))]
fn slice_item(
    alloc: Global,
    dimension: usize,
    block: SetBlock,
    tokens: &mut Cursor<'_, '_>,
) -> Result<SetBlock, DataError>
    ensures { Reads (spec.slice_item dimension block tokens.old) result tokens.new }
{
    tokens.expect(TokenKind::OpenParenthesis)?;
    let slots = slice(alloc, TokenKind::CloseParenthesis, dimension, tokens)?;
    let given = whole_slice(alloc, slots.as_slice(), block.given, tokens)?;
    Ok(SetBlock {
        slots,
        is_transposed: false,
        table: None,
        given,
        is_behind_item: true,
    })
}

#[tactic(auto, unfolding(crate::specs::Sets::matrix_item))]
fn matrix_item(
    alloc: Global,
    is_transposed: bool,
    block: SetBlock,
    tokens: &mut Cursor<'_, '_>,
) -> Result<SetBlock, DataError>
    ensures { Reads (spec.matrix_item is_transposed block tokens.old) result tokens.new }
{
    tokens.expect(TokenKind::Colon)?;
    let head = table(alloc, is_transposed, block.slots.as_slice(), tokens)?;
    Ok(SetBlock {
        slots: block.slots,
        is_transposed,
        table: Some(head),
        given: block.given,
        is_behind_item: false,
    })
}

#[tactic(auto, unfolding(crate::specs::Sets::transposed_item))]
fn transposed_item(
    alloc: Global,
    block: SetBlock,
    tokens: &mut Cursor<'_, '_>,
) -> Result<SetBlock, DataError>
    ensures { Reads (spec.transposed_item block tokens.old) result tokens.new }
{
    tokens.take();
    tokens.take();
    tokens.take();
    matrix_item(alloc, true, block, tokens)
}

// `(tr)` marks a matrix directly before its colon alone.
#[tactic(auto, unfolding(crate::specs::Sets::parenthesis_item))]
fn parenthesis_item(
    alloc: Global,
    dimension: usize,
    block: SetBlock,
    tokens: &mut Cursor<'_, '_>,
) -> Result<SetBlock, DataError>
    ensures { Reads (spec.parenthesis_item dimension block tokens.old) result tokens.new }
{
    if tokens.sees_transposition() {
        transposed_item(alloc, block, tokens)
    } else {
        slice_item(alloc, dimension, block, tokens)
    }
}

#[tactic(auto, unfolding(crate::specs::Sets::elements_item))]
fn elements_item(
    alloc: Global,
    block: SetBlock,
    tokens: &mut Cursor<'_, '_>,
) -> Result<SetBlock, DataError>
    ensures { Reads (spec.elements_item block tokens.old) result tokens.new }
{
    let SetBlock {
        slots,
        is_transposed,
        table,
        given: before,
        ..
    } = block;
    let given = elements(alloc, &table, slots.as_slice(), before, tokens)?;
    Ok(SetBlock {
        slots,
        is_transposed,
        table,
        given,
        is_behind_item: true,
    })
}

#[tactic(auto, unfolding(crate::specs::Sets::item))]
fn item(
    alloc: Global,
    dimension: usize,
    block: SetBlock,
    tokens: &mut Cursor<'_, '_>,
) -> Result<SetBlock, DataError>
    ensures { Reads (spec.item dimension block tokens.old) result tokens.new }
{
    match tokens.peek() {
        Some(TokenKind::Assign) => assignment(block, tokens),
        Some(TokenKind::Comma) => separator(block, tokens),
        Some(TokenKind::Colon) => matrix_item(alloc, block.is_transposed, block, tokens),
        Some(TokenKind::OpenParenthesis) => parenthesis_item(alloc, dimension, block, tokens),
        Some(TokenKind::NumericLiteral) => elements_item(alloc, block, tokens),
        Some(TokenKind::Name) => elements_item(alloc, block, tokens),
        Some(TokenKind::StringLiteral) => elements_item(alloc, block, tokens),
        _ => Err(tokens.refuse()),
    }
}

fn items(
    alloc: Global,
    dimension: usize,
    mut block: SetBlock,
    tokens: &mut Cursor<'_, '_>,
) -> Result<SetData, DataError>
    ensures { Reads (spec.items dimension block tokens.old) result tokens.new }
{
    for _turn in 0..tokens.left() {
        if tokens.eat(TokenKind::Semicolon) {
            return Ok(block.given);
        }
        block = item(alloc, dimension, block, tokens)?;
    }
    Err(tokens.refuse())
}

// ---- the block

/// The block of a set of this dimension, behind its name and its subscripts, with its semicolon: what it and the blocks before
/// it give.
#[tactic(auto, unfolding(crate::specs::Sets::set_block))]
pub fn set_block(
    alloc: Global,
    dimension: usize,
    before: SetData,
    tokens: &mut Cursor<'_, '_>,
) -> Result<SetData, DataError>
    ensures { Reads (spec.set_block dimension before tokens.old) result tokens.new }
{
    let slots = all_stars(alloc, dimension)?;
    let block = SetBlock {
        slots,
        is_transposed: false,
        table: None,
        given: before,
        is_behind_item: false,
    };
    items(alloc, dimension, block, tokens)
}

// ---- the subscripts of a member of a set

fn further_subscripts(
    alloc: Global,
    tokens: &mut Cursor<'_, '_>,
    mut found: Tuple,
) -> Result<Tuple, DataError>
    ensures { Reads (spec.further_subscripts found tokens.old) result tokens.new }
{
    for _turn in 0..tokens.left() {
        if tokens.eat(TokenKind::CloseBracket) {
            return Ok(found);
        }
        found.push(next_symbol(alloc, tokens)?)?;
    }
    Err(tokens.refuse())
}

fn no_subscripts(
    alloc: Global,
    count: usize,
    tokens: &mut Cursor<'_, '_>,
) -> Result<Tuple, DataError>
    ensures { Reads (spec.no_subscripts count tokens.old) result tokens.new }
{
    match count {
        0 => Ok(Tuple::new(alloc)),
        _ => Err(DataError::Fault(tokens.wanting())),
    }
}

fn subscripts_by(
    alloc: Global,
    count: usize,
    is_open: bool,
    tokens: &mut Cursor<'_, '_>,
) -> Result<Tuple, DataError>
    ensures { Reads (spec.subscripts_by count is_open tokens.old) result tokens.new }
{
    if !is_open {
        return no_subscripts(alloc, count, tokens);
    }
    let first = Tuple::single(alloc, symbol(alloc, tokens)?)?;
    further_subscripts(alloc, tokens, first)
}

/// The subscripts of a member of a set that has so many, in brackets. Where these are wanting, a bad token that comes next decides,
/// else it is `WrongDimension`.
#[tactic(auto, unfolding(crate::specs::Sets::subscripts))]
pub fn subscripts(
    alloc: Global,
    count: usize,
    tokens: &mut Cursor<'_, '_>,
) -> Result<Tuple, DataError>
    ensures { Reads (spec.subscripts count tokens.old) result tokens.new }
{
    let is_open = tokens.eat(TokenKind::OpenBracket);
    let found = subscripts_by(alloc, count, is_open, tokens)?;
    if found.len() == count {
        Ok(found)
    } else {
        Err(DataError::Fault(DataFaultKind::WrongDimension))
    }
}
