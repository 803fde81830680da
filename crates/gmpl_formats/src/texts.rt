// The text of a conversion.
ghost use Rattle.std.specs.Prelude.{◌≡◌, ◌<◌, ◌++◌, IfOk, OnOk, string_bytes, replicate, unsigned_abs};
ghost use Rattle.std.specs.Str.{encode_utf8_all};
ghost use Rattle.std.specs.Fmt.{sign_text};
ghost use Rattle.gmpl_value.specs.Outcome.{GivesAs};
ghost use Rattle.gmpl_functions.specs.Strings.{characters};
ghost use Rattle.gmpl_formats.specs.Texts.{padded, cut, bare_text, number_text, whole_digits, whole_text, digits_of, fixed_text, general_text, conversion_text};

use crate::conversion::{Conversion, Style};
use crate::pieces::characters_of;
use decimals::{fixed, general};
use fraction::Frac;
use gmpl_functions::{number_of, plain_text};
use gmpl_value::{EvalFault, Symbol};
use std::alloc::{AllocError, Global};

// The precision where a conversion has none.
const USUAL_PRECISION: u32 = 6;

/// The text that a conversion makes of a symbol. `NotANumber` where `%d`, `%i`, `%f` or `%g` gets a string that is no
/// number, `NotWhole` where `%d` or `%i` gets a number that isn't whole.
#[tactic(auto, unfolding(crate::specs::Texts::conversion_text))]
pub fn conversion_text(
    alloc: Global,
    conversion: &Conversion,
    symbol: &Symbol,
) -> Result<String, EvalFault>
    ensures { GivesAs string_bytes result (conversion_text conversion.now symbol.now) }
{
    match conversion.style {
        Style::Bare => symbol_text(alloc, conversion, symbol),
        Style::Whole => whole_text(alloc, conversion, number_of(symbol)?),
        Style::Fixed => fixed_text(alloc, conversion, number_of(symbol)?),
        Style::General => general_text(alloc, conversion, number_of(symbol)?),
    }
}

// So often the same character.
fn push_repeated(text: &mut String, character: char, count: usize) -> Result<(), AllocError>
    requires { character < 128 }
    ensures { OnOk result (string_bytes text.new ≡ string_bytes text.old ++ replicate count character) }
{
    for _done in 0..count {
        text.push(character)?;
    }
    Ok(())
}

// A text of so many characters, with blanks up to the width.
fn padded(
    alloc: Global,
    conversion: &Conversion,
    count: usize,
    text: &str,
) -> Result<String, AllocError>
    ensures { IfOk result (λ made. string_bytes made ≡ padded conversion.now count text.now) }
{
    let blanks = (conversion.width as usize).saturating_sub(count);
    let mut made = String::new(alloc);
    if conversion.left {
        made.push_str(text)?;
        push_repeated(&mut made, ' ', blanks)?;
    } else {
        push_repeated(&mut made, ' ', blanks)?;
        made.push_str(text)?;
    }
    Ok(made)
}

// ---- strings

fn symbol_text(alloc: Global, conversion: &Conversion, symbol: &Symbol) -> Result<String, EvalFault>
    ensures { GivesAs string_bytes result (Ok (bare_text conversion.now (characters symbol.now))) }
{
    let text = plain_text(alloc, symbol)?;
    let characters = characters_of(alloc, &text)?;
    Ok(bare_text(alloc, conversion, &characters)?)
}

fn cut(precision: Option<u32>, characters: &[char]) -> &[char]
    ensures { result.now ≡ cut precision characters.now }
{
    match precision {
        Some(most) if (most as usize) < characters.len() => &characters[..most as usize],
        _ => characters,
    }
}

fn bare_text(
    alloc: Global,
    conversion: &Conversion,
    characters: &[char],
) -> Result<String, AllocError>
    ensures { IfOk result (λ made. string_bytes made ≡ bare_text conversion.now characters.now) }
{
    let shown = cut(conversion.precision, characters);
    let text = text_of(alloc, shown)?;
    padded(alloc, conversion, shown.len(), &text)
}

fn text_of(alloc: Global, characters: &[char]) -> Result<String, AllocError>
    ensures { IfOk result (λ text. string_bytes text ≡ encode_utf8_all characters.now) }
{
    let mut text = String::new(alloc);
    for character in characters {
        text.push(*character)?;
    }
    Ok(text)
}

// ---- numbers

// A sign and digits, with blanks before them or behind them, or zeros between them.
#[tactic(auto, unfolding(crate::specs::Texts::number_text))]
fn number_text(
    alloc: Global,
    conversion: &Conversion,
    zeros: bool,
    negative: bool,
    digits: &str,
) -> Result<String, AllocError>
    ensures { IfOk result (λ made. string_bytes made ≡ number_text conversion.now zeros negative digits.now) }
{
    let mut signed = String::from_str(alloc, if negative { "-" } else { "" })?;
    if zeros && !conversion.left {
        let count = (conversion.width as usize)
            .saturating_sub(signed.len())
            .saturating_sub(digits.len());
        push_repeated(&mut signed, '0', count)?;
        signed.push_str(digits)?;
        return Ok(signed);
    }
    signed.push_str(digits)?;
    padded(alloc, conversion, signed.len(), &signed)
}

// At least as many digits as the precision says.
fn whole_digits(alloc: Global, precision: Option<u32>, number: u128) -> Result<String, AllocError>
    ensures { IfOk result (λ made. string_bytes made ≡ whole_digits precision number) }
{
    let Some(least) = precision else {
        return format!(in alloc; "{number}");
    };
    let mut text = String::new(alloc);
    if number == 0 && least == 0 {
        return Ok(text);
    }
    let digits = format!(in alloc; "{number}")?;
    push_repeated(
        &mut text,
        '0',
        (least as usize).saturating_sub(digits.len()),
    )?;
    text.push_str(&digits)?;
    Ok(text)
}

fn whole_text(alloc: Global, conversion: &Conversion, value: Frac) -> Result<String, EvalFault>
    ensures { GivesAs string_bytes result (whole_text conversion.now value) }
{
    if !value.is_whole() {
        return Err(EvalFault::NotWhole);
    }
    let (numerator, _) = value.parts();
    let digits = whole_digits(alloc, conversion.precision, numerator.unsigned_abs())?;
    let zeros = conversion.zeros && conversion.precision.is_none();
    Ok(number_text(alloc, conversion, zeros, value.is_negative(), &digits)?)
}

fn digits_of(conversion: &Conversion) -> u32
    ensures { result ≡ digits_of conversion.now }
{
    conversion.precision.unwrap_or(USUAL_PRECISION)
}

fn fixed_text(alloc: Global, conversion: &Conversion, value: Frac) -> Result<String, EvalFault>
    ensures { GivesAs string_bytes result (Ok (fixed_text conversion.now value)) }
{
    let digits = fixed(alloc, value.abs(), digits_of(conversion))?;
    Ok(number_text(
        alloc,
        conversion,
        conversion.zeros,
        value.is_negative(),
        &digits,
    )?)
}

fn general_text(alloc: Global, conversion: &Conversion, value: Frac) -> Result<String, EvalFault>
    ensures { GivesAs string_bytes result (Ok (general_text conversion.now value)) }
{
    let digits = general(alloc, value.abs(), digits_of(conversion))?;
    Ok(number_text(
        alloc,
        conversion,
        conversion.zeros,
        value.is_negative(),
        &digits,
    )?)
}
