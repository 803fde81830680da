// The texts of symbols.
ghost use Rattle.std.specs.Prelude.{◌≡◌, IfOk, OnOk, string_bytes, ◌++◌};
ghost use Rattle.std.specs.List.{list_all};
ghost use Rattle.fraction.specs.Text.{text_of};
ghost use Rattle.gmpl_value.specs.declared.symbol.Symbol.TheVariants.{Number};
ghost use Rattle.gmpl_member_names.specs.Names.{symbol_text, word_text, quoted, doubled, is_bare, begins_bare, goes_on_bare};
ghost use Rattle.gmpl_member_names.specs.Narrow.{IsNarrow};

use fraction::Frac;
use gmpl_value::Symbol;
use std::alloc::{AllocError, Global};

/// The text of a symbol: a number as `n` or `n/d`; a string bare where it begins with a letter or `_` and has only
/// letters, digits and `+-._`, else between single quotes, with each of its single quotes twice.
pub fn symbol_text(alloc: Global, symbol: &Symbol) -> Result<String, AllocError>
    ensures text { IfOk result (λ text. string_bytes text ≡ symbol_text symbol.now) }
    ensures narrow { OnOk result (IsNarrow symbol.now) }
{
    match symbol {
        Symbol::Number(number) => number_text(alloc, *number),
        Symbol::Word(text) => word_text(alloc, text.as_str()),
    }
}

fn number_text(alloc: Global, number: Frac) -> Result<String, AllocError>
    ensures text { IfOk result (λ text. string_bytes text ≡ text_of number) }
    ensures narrow { IsNarrow (Number number) }
{
    let (_numerator, _denominator) = number.parts();
    number.text(alloc)
}

fn word_text(alloc: Global, text: &str) -> Result<String, AllocError>
    ensures { IfOk result (λ made. string_bytes made ≡ word_text text.now) }
{
    if is_bare(text.as_bytes()) {
        text.to_string(alloc)
    } else {
        quoted(alloc, text)
    }
}

fn is_bare(text: &[u8]) -> bool
    ensures { result ≡ is_bare text.now }
{
    match text {
        [first, rest @ ..] => begins_bare(*first) && all_go_on_bare(rest),
        [] => false,
    }
}

fn all_go_on_bare(text: &[u8]) -> bool
    ensures { result ≡ list_all goes_on_bare text.now }
{
    for c in text {
        if !goes_on_bare(*c) {
            return false;
        }
    }
    true
}

fn begins_bare(c: u8) -> bool
    ensures { result ≡ begins_bare c }
{
    c.is_ascii_alphabetic() || c == b'_'
}

fn goes_on_bare(c: u8) -> bool
    ensures { result ≡ goes_on_bare c }
{
    c.is_ascii_alphanumeric() || (c == b'+' || (c == b'-' || (c == b'.' || c == b'_')))
}

fn quoted(alloc: Global, text: &str) -> Result<String, AllocError>
    ensures { IfOk result (λ made. string_bytes made ≡ quoted text.now) }
{
    let mut made = "'".to_string(alloc)?;
    push_doubled(&mut made, text)?;
    made.push_str("'")?;
    Ok(made)
}

fn push_doubled(made: &mut String, text: &str) -> Result<(), AllocError>
    ensures { OnOk result (string_bytes made.new ≡ string_bytes made.old ++ doubled text.now) }
{
    let mut rest = text;
    while let Some((before, after)) = rest.split_once('\'') {
        made.push_str(before)?;
        made.push_str("''")?;
        rest = after;
    }
    made.push_str(rest)
}
