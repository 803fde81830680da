// The functions on strings, and the size of a set.
ghost use Rattle.std.specs.Prelude.{◌≡◌, IfOk, OnOk, string_bytes, length, pos, take, drop, ◌++◌, ◌+ℤ◌, ◌-ℤ◌};
ghost use Rattle.std.specs.Str.{chars, encode_utf8_all};
ghost use Rattle.rational.specs.Rational.{whole};
ghost use Rattle.gmpl_value.specs.Outcome.{Gives};
ghost use Rattle.gmpl_functions.specs.Strings.{plain_text, joined_texts, characters, length_of, characters_from, substring_of, rest_of};

use fraction::Frac;
use gmpl_text::Text;
use gmpl_value::{EvalFault, SetValue, Symbol};
use std::alloc::{AllocError, Global};

/// A number as `n` or `n/d`, a string as it is.
pub fn plain_text(alloc: Global, symbol: &Symbol) -> Result<String, AllocError>
    ensures { IfOk result (λ text. string_bytes text ≡ plain_text symbol.now) }
{
    match symbol {
        Symbol::Number(number) => number.text(alloc),
        Symbol::Word(text) => text.as_str().to_string(alloc),
    }
}

/// The texts of two symbols, one behind the other: the operator `&`.
pub fn join(alloc: Global, first: &Symbol, second: &Symbol) -> Result<Symbol, AllocError>
    ensures { IfOk result (λ made. made ≡ joined_texts first.now second.now) }
{
    let mut text = plain_text(alloc, first)?;
    let more = plain_text(alloc, second)?;
    text.push_str(&more)?;
    Ok(Symbol::Word(Text::from(text)))
}

/// The number of characters of a symbol's text.
pub fn length(alloc: Global, symbol: &Symbol) -> Result<Frac, AllocError>
    ensures { IfOk result (λ count. count ≡ length_of symbol.now) }
{
    let text = plain_text(alloc, symbol)?;
    let characters = characters_of(alloc, &text)?;
    Ok(Frac::whole(characters.len() as i128))
}

fn characters_of(alloc: Global, text: &str) -> Result<Vec<char>, AllocError>
    ensures { IfOk result (λ made. made.items ≡ chars text.now) }
{
    text.chars().collect(alloc)
}

/// So many characters of a symbol's text, from a place on, where the first has place 1. `NotWhole` where a number isn't
/// whole, `OutOfDomain` where not all of them are there.
pub fn substring(
    alloc: Global,
    symbol: &Symbol,
    place: Frac,
    count: Frac,
) -> Result<Symbol, EvalFault>
    ensures { Gives result (substring_of symbol.now place count) }
{
    if !place.is_whole() || !count.is_whole() {
        return Err(EvalFault::NotWhole);
    }
    let (place, _) = place.parts();
    let (count, _) = count.parts();
    let text = plain_text(alloc, symbol)?;
    let characters = characters_of(alloc, &text)?;
    characters_from(alloc, &characters, place, count)
}

/// The characters of a symbol's text from a place to its end.
pub fn substring_from(alloc: Global, symbol: &Symbol, place: Frac) -> Result<Symbol, EvalFault>
    ensures { Gives result (rest_of symbol.now place) }
{
    if !place.is_whole() {
        return Err(EvalFault::NotWhole);
    }
    let (place, _) = place.parts();
    let text = plain_text(alloc, symbol)?;
    let characters = characters_of(alloc, &text)?;
    last_characters(alloc, &characters, place)
}

fn characters_from(
    alloc: Global,
    characters: &[char],
    place: i128,
    count: i128,
) -> Result<Symbol, EvalFault>
    ensures { Gives result (characters_from characters.now place count) }
{
    let end = characters.len() as i128 + 1;
    if place < 1 || count < 0 || place > end || count > end - place {
        return Err(EvalFault::OutOfDomain);
    }
    let skipped = (place - 1) as usize;
    let text = text_of(alloc, &characters[skipped..skipped + count as usize])?;
    Ok(Symbol::Word(Text::from(text)))
}

fn last_characters(alloc: Global, characters: &[char], place: i128) -> Result<Symbol, EvalFault>
    ensures { Gives result (characters_from characters.now place (pos (length characters.now) +ℤ pos 1 -ℤ place)) }
{
    let end = characters.len() as i128 + 1;
    if place < 1 || place > end {
        return Err(EvalFault::OutOfDomain);
    }
    characters_from(alloc, characters, place, end - place)
}

fn text_of(alloc: Global, characters: &[char]) -> Result<String, AllocError>
    ensures { IfOk result (λ text. string_bytes text ≡ encode_utf8_all characters.now) }
{
    let mut text = String::new(alloc);
    for character in characters {
        text.push(*character)?;
    }
    Ok(text)
}

/// The number of elements of a set.
pub fn card(set: &SetValue) -> Frac
    ensures { result ≡ whole (pos (length set.now)) }
{
    Frac::whole(set.len() as i128)
}
