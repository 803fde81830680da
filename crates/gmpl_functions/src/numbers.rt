// The operators on numbers.
ghost use Rattle.std.specs.Prelude.{◌≡◌};
ghost use Rattle.gmpl_value.specs.Outcome.{Gives};
ghost use Rattle.gmpl_functions.specs.Numbers.{number_of, read_number, truth_of, greater_of, lesser_of, greatest_of, least_of, less_of, quotient_of, div_of, mod_of};
ghost use Rattle.fraction.specs.Literal.{read_of};

use crate::rounding::{floor, trunc};
use crate::words::word_remainder;
use fraction::Frac;
use gmpl_value::{EvalFault, Symbol};

/// A symbol in a numeric place: a string is read as a literal with an optional sign. `NotANumber` where it is none, or
/// too wide.
pub fn number_of(symbol: &Symbol) -> Result<Frac, EvalFault>
    ensures { result ≡ number_of symbol.now }
{
    match symbol {
        Symbol::Number(number) => Ok(*number),
        Symbol::Word(text) => literal(text.as_str()),
    }
}

fn literal(text: &str) -> Result<Frac, EvalFault>
    ensures { result ≡ read_number (read_of text.now) }
{
    match Frac::read(text) {
        Ok(number) => Ok(number),
        Err(_) => Err(EvalFault::NotANumber),
    }
}

/// A symbol in a logical place: a number is true where it isn't 0. `NotANumber` for a string.
pub fn truth_of(symbol: &Symbol) -> Result<bool, EvalFault>
    ensures { result ≡ truth_of symbol.now }
{
    match symbol {
        Symbol::Number(number) => Ok(!number.is_zero()),
        Symbol::Word(_) => Err(EvalFault::NotANumber),
    }
}

/// The greater of two numbers.
pub fn greater(a: Frac, b: Frac) -> Frac
    ensures { result ≡ greater_of a b }
{
    if a < b { b } else { a }
}

/// The lesser of two numbers.
pub fn lesser(a: Frac, b: Frac) -> Frac
    ensures { result ≡ lesser_of a b }
{
    if b < a { b } else { a }
}

/// The greatest of some numbers, or `NoValue` where there is none.
pub fn greatest(numbers: &[Frac]) -> Result<Frac, EvalFault>
    ensures { result ≡ greatest_of numbers.now }
{
    let [first, rest @ ..] = numbers else {
        return Err(EvalFault::NoValue);
    };
    let mut found = *first;
    for number in rest {
        found = greater(found, *number);
    }
    Ok(found)
}

/// The least of some numbers, or `NoValue` where there is none.
pub fn least(numbers: &[Frac]) -> Result<Frac, EvalFault>
    ensures { result ≡ least_of numbers.now }
{
    let [first, rest @ ..] = numbers else {
        return Err(EvalFault::NoValue);
    };
    let mut found = *first;
    for number in rest {
        found = lesser(found, *number);
    }
    Ok(found)
}

/// How far `a` is above `b`, and 0 where it is not.
pub fn less(a: Frac, b: Frac) -> Result<Frac, EvalFault>
    ensures { Gives result (less_of a b) }
{
    let difference = a.sub(b)?;
    Ok(if difference.is_negative() {
        Frac::zero()
    } else {
        difference
    })
}

/// The quotient, or `DivZero`.
pub fn quotient(a: Frac, b: Frac) -> Result<Frac, EvalFault>
    ensures { Gives result (quotient_of a b) }
{
    if b.is_zero() {
        return Err(EvalFault::DivZero);
    }
    Ok(a.div(b)?)
}

/// The quotient, rounded towards 0.
pub fn div(a: Frac, b: Frac) -> Result<Frac, EvalFault>
    ensures { Gives result (div_of a b) }
{
    let quotient = quotient(a, b)?;
    Ok(trunc(quotient))
}

/// What is left of `a` when `b` is taken off as often as the floor of their quotient says: it has `b`'s sign.
pub fn modulo(a: Frac, b: Frac) -> Result<Frac, EvalFault>
    ensures { Gives result (mod_of a b) }
{
    match word_remainder(a, b) {
        Some(left) => Ok(left),
        None => left_by_quotient(a, b),
    }
}

fn left_by_quotient(a: Frac, b: Frac) -> Result<Frac, EvalFault>
    ensures { Gives result (mod_of a b) }
{
    let times = floor(quotient(a, b)?);
    let taken = b.mul(times)?;
    Ok(a.sub(taken)?)
}
