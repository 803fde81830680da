// Powers, and rounding to a number of decimal places.
ghost use Rattle.std.specs.Prelude.{◌≡◌, unsigned_abs};
ghost use Rattle.rational.specs.Rational.{one_ℚ};
ghost use Rattle.gmpl_value.specs.Outcome.{Gives};
ghost use Rattle.gmpl_functions.specs.Powers.{with_factors, product_of, power_of, round_to, trunc_to};

use crate::numbers::quotient;
use crate::rounding::{round, trunc};
use fraction::{Frac, whole_numbers};
use gmpl_value::EvalFault;

/// `x ** n`: the product of n factors x, from the left, and for a negative n 1 over that of -n factors. `NotWhole` where n
/// isn't whole, `DivZero` for a negative power of 0.
pub fn power(x: Frac, n: Frac) -> Result<Frac, EvalFault>
    ensures { Gives result (power_of x n) }
{
    if !n.is_whole() {
        return Err(EvalFault::NotWhole);
    }
    let (exponent, _) = n.parts();
    let power = product(x, exponent.unsigned_abs())?;
    if n.is_negative() {
        quotient(Frac::one(), power)
    } else {
        Ok(power)
    }
}

// The product of so many factors.
fn product(x: Frac, count: u128) -> Result<Frac, EvalFault>
    ensures { Gives result (product_of x count) }
{
    multiplied(x, factors_needed(x, count))
}

// How many factors give the same product: powers of 0, 1 and -1 repeat.
fn factors_needed(x: Frac, count: u128) -> u128
    ensures { product_of x result ≡ product_of x count }
{
    let (numerator, denominator) = x.parts();
    if denominator != 1 {
        return count;
    }
    if numerator.unsigned_abs() > 1 {
        return count;
    }
    if count < 3 {
        return count;
    }
    whole_numbers();
    2 - count % 2
}

fn multiplied(x: Frac, count: u128) -> Result<Frac, EvalFault>
    ensures { Gives result (product_of x count) }
{
    let mut product = Frac::one();
    for _step in 0..count {
        product = product.mul(x)?;
    }
    Ok(product)
}

/// The number rounded to n decimal places: `round(x * 10**n) / 10**n`.
pub fn round_to(x: Frac, n: Frac) -> Result<Frac, EvalFault>
    ensures { Gives result (round_to x n) }
{
    let scale = power(Frac::whole(10), n)?;
    let scaled = x.mul(scale)?;
    let rounded = round(scaled)?;
    quotient(rounded, scale)
}

/// The number cut to n decimal places: `trunc(x * 10**n) / 10**n`.
pub fn trunc_to(x: Frac, n: Frac) -> Result<Frac, EvalFault>
    ensures { Gives result (trunc_to x n) }
{
    let scale = power(Frac::whole(10), n)?;
    let scaled = x.mul(scale)?;
    quotient(trunc(scaled), scale)
}
