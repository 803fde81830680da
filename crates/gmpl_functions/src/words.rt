// Short ways where numbers are whole, and their sizes are words of 63 bits.
ghost use Rattle.std.specs.Prelude.{◌≡◌, ◌≤◌, ◌<◌, ◌^◌, ◌+ℤ◌, ◌-ℤ◌, ◌*ℤ◌, IfSome, Ok, pos, unsigned_abs};
ghost use Rattle.rational.specs.Rational.{whole};
ghost use Rattle.fraction.specs.Answers.{add_answer, mul_answer, sub_answer};
ghost use Rattle.gmpl_functions.specs.Numbers.{mod_of};

use fraction::{Frac, NoFit, whole_numbers};

const GREATEST_WORD: u128 = i64::MAX as u128;

// The sum, or `NoFit` as in `Frac::add`.
pub(crate) fn sum(a: Frac, b: Frac) -> Result<Frac, NoFit>
    ensures { result ≡ add_answer a b }
{
    match word_sum(a, b) {
        Some(sum) => Ok(sum),
        None => a.add(b),
    }
}

// The difference, or `NoFit` as in `Frac::sub`.
pub(crate) fn difference(a: Frac, b: Frac) -> Result<Frac, NoFit>
    ensures { result ≡ sub_answer a b }
{
    match word_difference(a, b) {
        Some(difference) => Ok(difference),
        None => a.sub(b),
    }
}

// The product, or `NoFit` as in `Frac::mul`.
pub(crate) fn product(a: Frac, b: Frac) -> Result<Frac, NoFit>
    ensures { result ≡ mul_answer a b }
{
    match word_product(a, b) {
        Some(product) => Ok(product),
        None => a.mul(b),
    }
}

/// The sum of whole numbers within plus or minus 2^63 - 1.
pub fn word_sum(a: Frac, b: Frac) -> Option<Frac>
    ensures { IfSome result (λ sum. add_answer a b ≡ Ok sum) }
{
    Some(sum_of(word(a)?, word(b)?))
}

/// The difference of whole numbers within plus or minus 2^63 - 1.
pub fn word_difference(a: Frac, b: Frac) -> Option<Frac>
    ensures { IfSome result (λ difference. sub_answer a b ≡ Ok difference) }
{
    Some(difference_of(word(a)?, word(b)?))
}

/// The product of whole numbers within plus or minus 2^63 - 1.
pub fn word_product(a: Frac, b: Frac) -> Option<Frac>
    ensures { IfSome result (λ product. mul_answer a b ≡ Ok product) }
{
    Some(product_of(word(a)?, word(b)?))
}

/// What is left of a whole number from 0 to 2^63 - 1 by one from 1 to 2^63 - 1.
pub fn word_remainder(a: Frac, b: Frac) -> Option<Frac>
    ensures { IfSome result (λ left. mod_of a b ≡ Ok left) }
{
    let a = natural_word(a)?;
    let b = natural_word(b)?;
    if b == 0 { None } else { Some(left_of(a, b)) }
}

// The whole number that a number is.
fn word(number: Frac) -> Option<i128>
    ensures { IfSome result (λ n. (number ≡ whole n) × (unsigned_abs n < 2 ^ 63)) }
{
    let (numerator, denominator) = number.parts();
    if denominator == 1 && numerator.unsigned_abs() <= GREATEST_WORD {
        Some(numerator)
    } else {
        None
    }
}

// The same of a number from 0 on.
fn natural_word(number: Frac) -> Option<u128>
    ensures { IfSome result (λ n. (number ≡ whole (pos n)) × (n < 2 ^ 63)) }
{
    let number = word(number)?;
    if number < 0 {
        None
    } else {
        Some(number.unsigned_abs())
    }
}

fn sum_of(a: i128, b: i128) -> Frac
    requires first { unsigned_abs a < 2 ^ 63 }
    requires second { unsigned_abs b < 2 ^ 63 }
    ensures { add_answer (whole a) (whole b) ≡ Ok result }
{
    whole_numbers();
    Frac::whole(a + b)
}

fn difference_of(a: i128, b: i128) -> Frac
    requires first { unsigned_abs a < 2 ^ 63 }
    requires second { unsigned_abs b < 2 ^ 63 }
    ensures { sub_answer (whole a) (whole b) ≡ Ok result }
{
    whole_numbers();
    Frac::whole(a - b)
}

fn product_of(a: i128, b: i128) -> Frac
    requires first { unsigned_abs a < 2 ^ 63 }
    requires second { unsigned_abs b < 2 ^ 63 }
    ensures { mul_answer (whole a) (whole b) ≡ Ok result }
{
    whole_numbers();
    Frac::whole(a * b)
}

fn left_of(a: u128, b: u128) -> Frac
    requires some { 0 < b }
    requires first { a < 2 ^ 63 }
    requires second { b < 2 ^ 63 }
    ensures { mod_of (whole (pos a)) (whole (pos b)) ≡ Ok result }
{
    whole_numbers();
    Frac::whole((a % b) as i128)
}
