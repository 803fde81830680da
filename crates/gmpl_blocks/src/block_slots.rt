// Slices and tables, which sets and parameters share.
ghost use Rattle.std.specs.Prelude.{◌≡◌, IfOk};
ghost use Rattle.gmpl_blocks.specs.Rules.{Reads};
ghost use Rattle.gmpl_blocks.specs.Slots as spec;

use crate::{Cursor, DataError, DataFaultKind, begins_symbol, columns, next_symbol, slots};
use gmpl_token::TokenKind;
use gmpl_value::{Symbol, Tuple};
use sqlite_items::Items;
use std::alloc::{AllocError, Global};

/// The head of a table: the symbols of its columns, and whether these fill the first slot.
#[derive(Drop)]
pub struct TableHead {
    pub is_transposed: bool,
    pub columns: Items<Symbol>,
}

/// Slots that are all to be filled.
pub fn all_stars(alloc: Global, dimension: usize) -> Result<Items<Option<Symbol>>, AllocError>
    ensures { IfOk result (λ slots. slots ≡ spec.all_stars dimension) }
{
    let mut slots = Items::new(alloc);
    for _slot in 0..dimension {
        slots.push(None)?;
    }
    Ok(slots)
}

/// How many slots are to be filled.
pub(crate) fn stars(slots: &[Option<Symbol>]) -> usize
    ensures { result ≡ spec.stars slots.now }
{
    slots.iter().filter(|slot| slot.is_none()).count()
}

// A slot's own symbol, or the next one.
fn slot_symbol(
    alloc: Global,
    slot: &Option<Symbol>,
    tokens: &mut Cursor<'_, '_>,
) -> Result<Symbol, DataError>
    ensures { Reads (spec.slot_symbol slot.now tokens.old) result tokens.new }
{
    match slot {
        Some(symbol) => Ok(symbol.copied(alloc)?),
        None => next_symbol(alloc, tokens),
    }
}

/// The tuple that the next symbols make in the slots.
#[tactic(auto, unfolding(crate::specs::Slots::tuple))]
pub fn tuple(
    alloc: Global,
    slots: &[Option<Symbol>],
    tokens: &mut Cursor<'_, '_>,
) -> Result<Tuple, DataError>
    ensures { Reads (spec.tuple slots.now tokens.old) result tokens.new }
{
    let mut found = Tuple::with_capacity(alloc, slots.len())?;
    for slot in slots {
        found.push(slot_symbol(alloc, slot, tokens)?)?;
    }
    Ok(found)
}

/// A slice behind what opens it, with what closes it: it has as many slots as the dimension.
#[tactic(auto, unfolding(crate::specs::Slots::slice))]
pub(crate) fn slice(
    alloc: Global,
    close: TokenKind,
    dimension: usize,
    tokens: &mut Cursor<'_, '_>,
) -> Result<Items<Option<Symbol>>, DataError>
    ensures { Reads (spec.slice close dimension tokens.old) result tokens.new }
{
    let found = slots(alloc, close, tokens)?;
    if found.len() == dimension {
        Ok(found)
    } else {
        Err(DataError::Fault(DataFaultKind::WrongDimension))
    }
}

/// The head of a table behind its colon: two slots are to be filled.
#[tactic(auto, unfolding(crate::specs::Slots::table))]
pub(crate) fn table(
    alloc: Global,
    is_transposed: bool,
    slots: &[Option<Symbol>],
    tokens: &mut Cursor<'_, '_>,
) -> Result<TableHead, DataError>
    ensures { Reads (spec.table is_transposed slots.now tokens.old) result tokens.new }
{
    if stars(slots) == 2 {
        let columns = columns(alloc, tokens)?;
        Ok(TableHead {
            is_transposed,
            columns,
        })
    } else {
        Err(DataError::Fault(DataFaultKind::WrongDimension))
    }
}

// The slots with one symbol in the first that is to be filled, and another in those behind it.
fn filled(
    alloc: Global,
    slots: &[Option<Symbol>],
    first: &Symbol,
    second: &Symbol,
) -> Result<Tuple, AllocError>
    ensures { IfOk result (λ made. made ≡ spec.filled slots.now first.now second.now) }
{
    let mut made = Tuple::with_capacity(alloc, slots.len())?;
    let mut next = first;
    for slot in slots {
        match slot {
            Some(symbol) => made.push(symbol.copied(alloc)?)?,
            None => {
                made.push(next.copied(alloc)?)?;
                next = second;
            }
        }
    }
    Ok(made)
}

/// The place in a table of this row and this column.
pub(crate) fn placed(
    alloc: Global,
    is_transposed: bool,
    slots: &[Option<Symbol>],
    row: &Symbol,
    column: &Symbol,
) -> Result<Tuple, AllocError>
    ensures { IfOk result (λ made. made ≡ spec.placed is_transposed slots.now row.now column.now) }
{
    if is_transposed {
        filled(alloc, slots, column, row)
    } else {
        filled(alloc, slots, row, column)
    }
}

fn begins_item(kind: Option<TokenKind>) -> bool
    ensures { result ≡ spec.begins_item kind }
{
    match kind {
        Some(TokenKind::OpenParenthesis) => true,
        Some(TokenKind::OpenBracket) => true,
        _ => begins_symbol(kind),
    }
}

/// A comma, which stands between two items.
#[tactic(auto, unfolding(crate::specs::Slots::comma))]
pub fn comma(is_behind_item: bool, tokens: &mut Cursor<'_, '_>) -> Result<(), DataError>
    ensures { Reads (spec.comma is_behind_item tokens.old) result tokens.new }
{
    if !is_behind_item {
        return Err(tokens.refuse());
    }
    tokens.take();
    if begins_item(tokens.peek()) {
        Ok(())
    } else {
        Err(tokens.refuse())
    }
}
