// Symbols, and lists of them.
ghost use Rattle.std.specs.Prelude.{◌≡◌, ◌∷◌, [], IfOk};
ghost use Rattle.gmpl_blocks.specs.Rules.{Reads};
ghost use Rattle.gmpl_blocks.specs.Symbols as spec;

use crate::cursor::Cursor;
use crate::fault::DataError;
use crate::strings::string_text;
use fraction::Frac;
use gmpl_text::Text;
use gmpl_token::TokenKind;
use gmpl_value::Symbol;
use sqlite_items::Items;
use std::alloc::{AllocError, Global};

// ---- a symbol

fn number(tokens: &mut Cursor<'_, '_>) -> Result<Symbol, DataError>
    ensures { Reads (spec.numeric tokens.old) result tokens.new }
{
    match Frac::read(tokens.spelling()) {
        Ok(value) => {
            tokens.take();
            Ok(Symbol::Number(value))
        }
        Err(_) => Err(tokens.refuse()),
    }
}

fn bare(alloc: Global, tokens: &mut Cursor<'_, '_>) -> Result<Symbol, DataError>
    ensures { Reads (spec.bare tokens.old) result tokens.new }
{
    let text = Text::new(alloc, tokens.take())?;
    Ok(Symbol::Word(text))
}

fn string(alloc: Global, tokens: &mut Cursor<'_, '_>) -> Result<Symbol, DataError>
    ensures { Reads (spec.string tokens.old) result tokens.new }
{
    match string_text(alloc, tokens.spelling())? {
        Some(text) => {
            tokens.take();
            Ok(Symbol::Word(text))
        }
        None => Err(tokens.refuse()),
    }
}

/// A number, or a string with quotes or without.
#[tactic(auto, unfolding(crate::specs::Symbols::symbol))]
pub fn symbol(alloc: Global, tokens: &mut Cursor<'_, '_>) -> Result<Symbol, DataError>
    ensures { Reads (spec.symbol tokens.old) result tokens.new }
{
    match tokens.peek() {
        Some(TokenKind::NumericLiteral) => number(tokens),
        Some(TokenKind::Name) => bare(alloc, tokens),
        Some(TokenKind::StringLiteral) => string(alloc, tokens),
        _ => Err(tokens.refuse()),
    }
}

/// A token of this kind begins a symbol.
pub fn begins_symbol(kind: Option<TokenKind>) -> bool
    ensures { result ≡ spec.begins_symbol kind }
{
    match kind {
        Some(TokenKind::NumericLiteral) => true,
        Some(TokenKind::Name) => true,
        Some(TokenKind::StringLiteral) => true,
        _ => false,
    }
}

/// A symbol behind a comma or none.
#[tactic(auto, unfolding(crate::specs::Symbols::next_symbol))]
pub fn next_symbol(alloc: Global, tokens: &mut Cursor<'_, '_>) -> Result<Symbol, DataError>
    ensures { Reads (spec.next_symbol tokens.old) result tokens.new }
{
    tokens.eat(TokenKind::Comma);
    symbol(alloc, tokens)
}

/// This bare word comes next.
#[tactic(auto, unfolding(crate::specs::Symbols::is_word))]
pub fn is_word(wanted: &str, tokens: &Cursor<'_, '_>) -> bool
    ensures { result ≡ spec.is_word wanted.now tokens.now }
{
    match tokens.peek() {
        Some(TokenKind::Name) => tokens.spelling() == wanted,
        _ => false,
    }
}

/// Goes behind the next token if it is this bare word, and tells whether it is.
#[tactic(auto, unfolding(crate::specs::Symbols::after_word))]
pub fn word(wanted: &str, tokens: &mut Cursor<'_, '_>) -> bool
    ensures found { result ≡ spec.is_word wanted.now tokens.old }
    ensures after { tokens.new ≡ spec.after_word wanted.now tokens.old }
{
    let found = is_word(wanted, tokens);
    if found {
        tokens.take();
    }
    found
}

// The list of this item alone.
fn list_of_one<T: Drop>(alloc: Global, item: T) -> Result<Items<T>, AllocError>
    ensures { IfOk result (λ list. list ≡ item ∷ []) }
{
    let mut list = Vec::with_capacity(alloc, 1)?;
    list.push(item)?;
    Ok(Items::from_vec(list))
}

// ---- slots

#[tactic(auto, unfolding(crate::specs::Symbols::slot))]
fn slot(alloc: Global, tokens: &mut Cursor<'_, '_>) -> Result<Option<Symbol>, DataError>
    ensures { Reads (spec.slot tokens.old) result tokens.new }
{
    match tokens.peek() {
        Some(TokenKind::Times) => {
            tokens.take();
            Ok(None)
        }
        _ => Ok(Some(symbol(alloc, tokens)?)),
    }
}

#[tactic(auto, unfolding(crate::specs::Symbols::next_slot))]
fn next_slot(alloc: Global, tokens: &mut Cursor<'_, '_>) -> Result<Option<Symbol>, DataError>
    ensures { Reads (spec.next_slot tokens.old) result tokens.new }
{
    tokens.eat(TokenKind::Comma);
    slot(alloc, tokens)
}

fn further_slots(
    alloc: Global,
    close: TokenKind,
    tokens: &mut Cursor<'_, '_>,
    mut found: Items<Option<Symbol>>,
) -> Result<Items<Option<Symbol>>, DataError>
    ensures { Reads (spec.further_slots close found tokens.old) result tokens.new }
{
    for _turn in 0..tokens.left() {
        if tokens.eat(close) {
            return Ok(found);
        }
        found.push(next_slot(alloc, tokens)?)?;
    }
    Err(tokens.refuse())
}

/// The slots of a slice, behind what opens it, with what closes it: a symbol, or none where a slot is to be filled.
#[tactic(auto, unfolding(crate::specs::Symbols::slots))]
pub fn slots(
    alloc: Global,
    close: TokenKind,
    tokens: &mut Cursor<'_, '_>,
) -> Result<Items<Option<Symbol>>, DataError>
    ensures { Reads (spec.slots close tokens.old) result tokens.new }
{
    let first = list_of_one(alloc, slot(alloc, tokens)?)?;
    further_slots(alloc, close, tokens, first)
}

// ---- the symbols of columns

fn further_columns(
    alloc: Global,
    tokens: &mut Cursor<'_, '_>,
    mut found: Items<Symbol>,
) -> Result<Items<Symbol>, DataError>
    ensures { Reads (spec.further_columns found tokens.old) result tokens.new }
{
    for _turn in 0..tokens.left() {
        if tokens.eat(TokenKind::Assign) {
            return Ok(found);
        }
        found.push(next_symbol(alloc, tokens)?)?;
    }
    Err(tokens.refuse())
}

/// The symbols of a table's columns, behind the colon, with `:=`.
#[tactic(auto, unfolding(crate::specs::Symbols::columns))]
pub fn columns(alloc: Global, tokens: &mut Cursor<'_, '_>) -> Result<Items<Symbol>, DataError>
    ensures { Reads (spec.columns tokens.old) result tokens.new }
{
    let first = list_of_one(alloc, symbol(alloc, tokens)?)?;
    further_columns(alloc, tokens, first)
}
