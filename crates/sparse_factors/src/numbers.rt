// Arithmetic on fractions, and their sizes as logarithms, which only guide.
ghost use Rattle.std.specs.Prelude.{◌≤◌, ◌<◌};

use crate::stop::Stop;
use fraction::Frac;

/// The whole number n.
pub fn whole(n: i128) -> Result<Frac, Stop> {
    if n == i128::MIN {
        return Err(Stop::NoFit);
    }
    Ok(Frac::whole(n))
}

/// The product of whole numbers, where it fits: at once where both are words.
pub(crate) fn checked_times(a: i128, b: i128) -> Option<i128> {
    match (i64::try_from(a), i64::try_from(b)) {
        (Ok(a), Ok(b)) => Some(i128::from(a) * i128::from(b)),
        _ => a.checked_mul(b),
    }
}

/// a b
pub fn product(a: Frac, b: Frac) -> Result<Frac, Stop> {
    if a.is_zero() || b.is_zero() {
        return Ok(Frac::zero());
    }
    match whole_product(a, b) {
        Some(c) => Ok(c),
        None => fraction_product(a, b),
    }
}

// The product of two whole numbers, where it fits.
fn whole_product(a: Frac, b: Frac) -> Option<Frac> {
    if a.is_whole() && b.is_whole() {
        whole(checked_times(a.parts().0, b.parts().0)?).ok()
    } else {
        None
    }
}

fn fraction_product(a: Frac, b: Frac) -> Result<Frac, Stop> {
    match a.mul(b) {
        Ok(c) => Ok(c),
        Err(_) => Err(Stop::NoFit),
    }
}

/// t a + b, exact where the value fits.
#[inline]
pub fn fused(t: Frac, a: Frac, b: Frac) -> Result<Frac, Stop> {
    if t.is_zero() || a.is_zero() {
        return Ok(b);
    }
    match whole_fused(t, a, b) {
        Some(c) => Ok(c),
        None => fraction_fused(t, a, b),
    }
}

// t a + b for three whole numbers, where it fits.
fn whole_fused(t: Frac, a: Frac, b: Frac) -> Option<Frac> {
    if t.is_whole() && a.is_whole() && b.is_whole() {
        let product = checked_times(t.parts().0, a.parts().0)?;
        whole(product.checked_add(b.parts().0)?).ok()
    } else {
        None
    }
}

/// The number, where it is whole.
#[inline]
pub fn whole_part(a: Frac) -> Result<i128, Stop> {
    let (numerator, denominator) = a.parts();
    if denominator == 1 {
        Ok(numerator)
    } else {
        Err(Stop::NoFit)
    }
}

/// A whole number that is a word.
pub fn word(a: Frac) -> Option<i64> {
    if a.is_whole() {
        i64::try_from(a.parts().0).ok()
    } else {
        None
    }
}

/// t a + b for whole numbers, where it fits: at once where t and a are words.
#[inline]
pub fn plus_product(b: i128, t: i128, a: i128) -> Result<i128, Stop> {
    match checked_times(t, a) {
        Some(product) => match b.checked_add(product) {
            Some(sum) => Ok(sum),
            None => Err(Stop::NoFit),
        },
        None => Err(Stop::NoFit),
    }
}

/// t a + b, as `fused` has it; sooner where the word of t is there, and a and b are whole.
#[inline]
pub fn fused_by_word(t: Frac, word_of_t: Option<i64>, a: Frac, b: Frac) -> Result<Frac, Stop> {
    match word_fused(word_of_t, a, b) {
        Some(c) => Ok(c),
        None => fused(t, a, b),
    }
}

#[inline]
fn word_fused(t: Option<i64>, a: Frac, b: Frac) -> Option<Frac> {
    let product = i128::from(t?) * i128::from(word(a)?);
    if b.is_whole() {
        whole(product.checked_add(b.parts().0)?).ok()
    } else {
        None
    }
}

fn fraction_fused(t: Frac, a: Frac, b: Frac) -> Result<Frac, Stop> {
    match t.mul_add(a, b) {
        Ok(c) => Ok(c),
        Err(_) => Err(Stop::NoFit),
    }
}

/// a + b, exact where the value fits.
pub fn sum(a: Frac, b: Frac) -> Result<Frac, Stop> {
    if a.is_zero() {
        return Ok(b);
    }
    if b.is_zero() {
        return Ok(a);
    }
    match whole_sum(a, b) {
        Some(c) => Ok(c),
        None => fraction_fused(Frac::one(), a, b),
    }
}

// The sum of two whole numbers, where it fits.
fn whole_sum(a: Frac, b: Frac) -> Option<Frac> {
    if a.is_whole() && b.is_whole() {
        whole(a.parts().0.checked_add(b.parts().0)?).ok()
    } else {
        None
    }
}

/// a - b, exact where the value fits.
pub fn difference(a: Frac, b: Frac) -> Result<Frac, Stop> {
    sum(a, b.neg())
}

/// a / b
pub fn quotient(a: Frac, b: Frac) -> Result<Frac, Stop> {
    if b.is_zero() {
        return Err(Stop::NoFit);
    }
    if b == Frac::one() {
        return Ok(a);
    }
    match a.div(b) {
        Ok(c) => Ok(c),
        Err(_) => Err(Stop::NoFit),
    }
}

/// The logarithm of the size of a number that is not 0, to the base 2, in steps of 1/256.
pub fn log(a: Frac) -> i32 {
    let (numerator, denominator) = a.parts();
    let size = log_of(numerator.unsigned_abs());
    if denominator == 1 {
        size
    } else {
        size.saturating_sub(log_of(denominator.unsigned_abs()))
    }
}

fn log_of(n: u128) -> i32 {
    let top = length(n).saturating_sub(1);
    let steps = 256 * top + after_top(n, top);
    steps as i32
}

// How many binary digits the number has.
fn length(n: u128) -> u32
    ensures { result ≤ 128 }
{
    128 - n.leading_zeros()
}

// The eight binary digits after the first one.
fn after_top(n: u128, top: u32) -> u32
    ensures { result < 256 }
{
    let digits = if top >= 8 {
        n >> (top - 8).min(127)
    } else {
        n << (8 - top)
    };
    (digits & 255) as u32
}

/// How many binary digits the numerator and the denominator have.
pub fn digits(a: Frac) -> i32 {
    let (numerator, denominator) = a.parts();
    let sum = length(numerator.unsigned_abs()) + length(denominator.unsigned_abs());
    sum as i32
}
