// The value of a number that is written as a literal with a sign or none.
ghost use Rattle.std.specs.Prelude.{◌≡◌, ℕ, ℤ, pos, neg_ℤ, ◌+◌, ◌*◌, ◌^◌, ◌<◌, ◌≤◌, ◌++◌, length, drop, min, unsigned_abs, if◌then◌else◌, IfOk, IfSome};
ghost use Rattle.std.specs.Option.{option_map, option_and_then};
ghost use Rattle.std.specs.List.{position};
ghost use Rattle.fraction.specs.Fits.{part_max};
ghost use Rattle.fraction.specs.Literal.{is_point, is_exponent_mark, mantissa_of, exponent_of, mantissa_with, decimal_with, literal_of, read_of, signed_value, scaled};
ghost use Rattle.fraction.specs.Reading.{significant_end, exponent_end, kept, with_digit, kept_on, clipped_exponent_of, kept_mantissa, power_with, power_of, value_of, sign_of};

use crate::digits::{after, digits_up_to};
use crate::frac::{Frac, scaled};

/// Why a text gives no fraction.
#[derive(Clone, Copy, Debug, PartialEq, Eq)]
pub enum ReadFault {
    /// It isn't written as a number.
    NotANumber,
    /// Its number, or a part of it as it is written, doesn't fit.
    TooWide,
}

const SIGNIFICANT_END: u128 = 1 << 127;

const EXPONENT_END: u128 = 1 << 100;

const PART_MAX: u128 = i128::MAX as u128;

// The digits of a number up to the zeros at its end, and how many those are.
#[derive(Clone, Copy)]
struct Digits {
    significant: u128,
    zeros: u64,
}

// The digits of a literal before its exponent mark, and how many of them stand after the point.
#[derive(Clone, Copy)]
struct Mantissa {
    digits: Digits,
    places: usize,
}

// number * 10^exponent.
#[derive(Clone, Copy)]
struct Power {
    number: u128,
    exponent: i128,
}

impl Frac {
    /// The number that a text writes: digits with an optional point, an optional exponent after `e`
    /// or `E`, and an optional sign before each. `NotANumber` exactly where the text is not of this
    /// form. `TooWide` exactly where, with the zeros at the end of its digits moved into the
    /// exponent, the digits or the power of ten pass 2^127 - 1, or the value does not fit.
    pub fn read(text: &str) -> Result<Frac, ReadFault>
        ensures { result ≡ read_of text.now }
    {
        match text.as_bytes() {
            [b'-', rest @ ..] => signed_literal(true, rest),
            [b'+', rest @ ..] => signed_literal(false, rest),
            all => signed_literal(false, all),
        }
    }
}

// The value of a literal before which there is a minus or not.
fn signed_literal(negative: bool, text: &[u8]) -> Result<Frac, ReadFault>
    ensures { result ≡ signed_value (sign_of negative) (literal_of text.now) }
{
    match literal(text) {
        Ok(power) => power.value(negative),
        Err(fault) => Err(fault),
    }
}

// The power of a literal without sign.
fn literal(text: &[u8]) -> Result<Power, ReadFault>
    ensures value { result ≡ power_of (literal_of text.now) }
    ensures small { IfOk result (λ p. (p.number ≤ part_max) × (unsigned_abs p.exponent ≤ 38)) }
{
    match mark_place(text) {
        Some(mark) => raised_power(&text[..mark], after(text, mark)),
        None => match read_mantissa(text) {
            Some(mantissa) => mantissa.with_exponent(0),
            None => Err(ReadFault::NotANumber),
        },
    }
}

// The power of a mantissa and an exponent.
fn raised_power(digits: &[u8], raised: &[u8]) -> Result<Power, ReadFault>
    ensures value { result ≡ power_of (option_and_then (decimal_with (exponent_of raised.now)) (mantissa_of digits.now)) }
    ensures small { IfOk result (λ p. (p.number ≤ part_max) × (unsigned_abs p.exponent ≤ 38)) }
{
    match exponent(raised) {
        Some(exponent) => match read_mantissa(digits) {
            Some(mantissa) => mantissa.with_exponent(exponent),
            None => Err(ReadFault::NotANumber),
        },
        None => Err(ReadFault::NotANumber),
    }
}

impl Power {
    // The number with its sign, where it fits.
    fn value(self, negative: bool) -> Result<Frac, ReadFault>
        requires number { self.number ≤ part_max }
        requires exponent { unsigned_abs self.exponent ≤ 38 }
        ensures { result ≡ value_of (scaled (sign_of negative (pos self.number)) self.exponent) }
    {
        let number = self.number as i128;
        let number = if negative { -number } else { number };
        let power = power_of_ten(self.exponent.unsigned_abs() as u64);
        if self.exponent < 0 {
            return Ok(Frac::reduced(number, power));
        }
        match scaled(number, power) {
            Some(value) => Ok(Frac::whole(value)),
            None => Err(ReadFault::TooWide),
        }
    }
}

impl Mantissa {
    // The digits up to the zeros at their end, and the exponent that these make up for.
    fn with_exponent(self, exponent: i128) -> Result<Power, ReadFault>
        requires { unsigned_abs exponent ≤ exponent_end }
        ensures value { result ≡ power_with self exponent }
        ensures small { IfOk result (λ p. (p.number ≤ part_max) × (unsigned_abs p.exponent ≤ 38)) }
    {
        let number = self.digits.significant;
        if number == 0 {
            return Ok(Power {
                number: 0,
                exponent: 0,
            });
        }
        let exponent = exponent - self.places as i128 + i128::from(self.digits.zeros);
        if number > PART_MAX || exponent.unsigned_abs() > 38 {
            return Err(ReadFault::TooWide);
        }
        Ok(Power { number, exponent })
    }
}

// The digits and places of a literal before its exponent mark.
fn read_mantissa(text: &[u8]) -> Option<Mantissa>
    ensures { result ≡ option_map kept_mantissa (mantissa_of text.now) }
{
    match point_place(text) {
        Some(point) => mantissa_with(&text[..point], after(text, point)),
        None => mantissa_with(text, &[]),
    }
}

fn mantissa_with(digits: &[u8], places: &[u8]) -> Option<Mantissa>
    requires { length digits.now + length places.now < 2 ^ 64 }
    ensures { result ≡ option_map kept_mantissa (mantissa_with (digits.now ++ places.now) (length places.now)) }
{
    if digits.len() + places.len() == 0 {
        return None;
    }
    let none = Digits {
        significant: 0,
        zeros: 0,
    };
    let whole = digits_after(none, digits)?;
    let all = digits_after(whole, places)?;
    Some(Mantissa {
        digits: all,
        places: places.len(),
    })
}

impl Digits {
    // The digits with one more.
    fn with_digit(self, digit: u8) -> Digits
        requires { self.zeros + 1 < 2 ^ 64 }
        ensures { result ≡ with_digit self digit }
    {
        if digit > 0 {
            Digits {
                significant: grown(self.significant, self.zeros, digit),
                zeros: 0,
            }
        } else if self.significant == 0 {
            Digits {
                significant: 0,
                zeros: 0,
            }
        } else {
            Digits {
                significant: self.significant,
                zeros: self.zeros + 1,
            }
        }
    }
}

// number * 10^(zeros + 1) + digit, up to the limit.
fn grown(number: u128, zeros: u64, digit: u8) -> u128
    ensures { result ≡ min (number * 10 ^ (zeros + 1) + digit) significant_end }
{
    if number == 0 {
        return u128::from(digit);
    }
    if zeros > 37 {
        return SIGNIFICANT_END;
    }
    match number.checked_mul(power_of_ten(zeros + 1)) {
        Some(product) if product < SIGNIFICANT_END => {
            (product + u128::from(digit)).min(SIGNIFICANT_END)
        }
        _ => SIGNIFICANT_END,
    }
}

// 10^exponent.
fn power_of_ten(exponent: u64) -> u128
    requires { exponent ≤ 38 }
    ensures value { result ≡ 10 ^ exponent }
    ensures positive { 0 < result }
    ensures fits { result ≤ part_max }
{
    10u128.pow(exponent as u32)
}

// What is kept of the digits and those that follow in the text.
fn digits_after(start: Digits, text: &[u8]) -> Option<Digits>
    requires { start.zeros + length text.now < 2 ^ 64 }
    ensures value { result ≡ kept_on start text.now }
    ensures small { IfSome result (λ d. d.zeros ≤ start.zeros + length text.now) }
{
    let mut kept = start;
    for c in text {
        if !c.is_ascii_digit() {
            return None;
        }
        kept = kept.with_digit(*c - b'0');
    }
    Some(kept)
}

// The exponent, up to the limit.
fn exponent(text: &[u8]) -> Option<i128>
    ensures value { result ≡ clipped_exponent_of text.now }
    ensures small { IfSome result (λ e. unsigned_abs e ≤ exponent_end) }
{
    match text {
        [b'-', rest @ ..] => Some(-(digits_up_to(rest, EXPONENT_END)? as i128)),
        [b'+', rest @ ..] => Some(digits_up_to(rest, EXPONENT_END)? as i128),
        all => Some(digits_up_to(all, EXPONENT_END)? as i128),
    }
}

// Where the first point stands.
fn point_place(text: &[u8]) -> Option<usize>
    ensures { result ≡ position is_point text.now }
{
    text.iter().position(|c| *c == b'.')
}

// Where the first `e` or `E` stands.
fn mark_place(text: &[u8]) -> Option<usize>
    ensures { result ≡ position is_exponent_mark text.now }
{
    text.iter().position(|c| *c == b'e' || *c == b'E')
}
