// Fractions as decimal texts.
ghost use Rattle.std.specs.Prelude.{◌≡◌, ◌≤◌, ◌<◌, ◌≤ℤ◌, ◌++◌, ◌/◌, ◌^◌, ◌-ℤ◌, ℕ, pos, neg_ℤ, min, unsigned_abs, IfOk, OnOk, string_bytes};
ghost use Rattle.std.specs.Fmt.{sign_text};
ghost use Rattle.rational.specs.Compare.{is_negative};
ghost use Rattle.wide.specs.Parts.{part_end};
ghost use Rattle.decimals.specs.Decimals.{fixed, general, two_digits, exponent_text, significand_text};

use crate::digits::{push_shortened, push_written};
use crate::rounding::rounded;
use crate::significand::{Significand, leading_digits, places};
use fraction::Frac;
use std::alloc::{AllocError, Global};

// The most places, and the most significant digits, that are written.
const MOST_DIGITS: u32 = 60;

/// The value rounded to so many places behind the point, ties to the even digit, as `%.Nf` of the language C writes it:
/// at least one digit before the point, no point where there are no places, and a minus before what is below 0, also
/// where it is rounded to 0. More than 60 places count as 60.
pub fn fixed(alloc: Global, value: Frac, places: u32) -> Result<String, AllocError>
    ensures { IfOk result (λ text. string_bytes text ≡ fixed value (min places 60)) }
{
    let places = places.min(MOST_DIGITS);
    let (n, d) = size(value);
    let number = rounded(n, d, places as i32);
    let mut text = sign(alloc, value)?;
    push_written(&mut text, number, places)?;
    Ok(text)
}

/// The value rounded to so many significant digits, ties to the even digit, as `%.Ng` of the language C writes it: with
/// an exponent of at least two digits where that is below -4 or not below the number of digits, and without zeros at the
/// end of the part behind the point. No digits count as one, and more than 60 as 60.
pub fn general(alloc: Global, value: Frac, digits: u32) -> Result<String, AllocError>
    ensures { IfOk result (λ text. string_bytes text ≡ general value (min digits 60)) }
{
    if value.is_zero() {
        return String::from_str(alloc, "0");
    }
    let digits = digits.min(MOST_DIGITS).max(1);
    let (n, d) = size(value);
    let significand = leading_digits(n, d, digits);
    let mut text = sign(alloc, value)?;
    push_significand(&mut text, digits, significand)?;
    Ok(text)
}

// The numerator without its sign, and the denominator.
fn size(value: Frac) -> (u128, u128)
    ensures numerator { result.0 ≡ unsigned_abs value.numerator }
    ensures denominator { result.1 ≡ value.denominator }
    ensures n_small { result.0 < 2 ^ 127 }
    ensures d_small { result.1 < 2 ^ 127 }
    ensures positive { 0 < result.1 }
{
    let (numerator, denominator) = value.abs().parts();
    (numerator as u128, denominator as u128)
}

// A minus before what is below 0.
fn sign(alloc: Global, value: Frac) -> Result<String, AllocError>
    ensures { IfOk result (λ text. string_bytes text ≡ sign_text (is_negative value)) }
{
    String::from_str(alloc, if value.is_negative() { "-" } else { "" })
}

// Writes the digits with the point in its place, or behind the first digit and with the exponent.
#[tactic(auto, unfolding(crate::specs::Decimals::significand_text))]
fn push_significand(
    text: &mut String,
    digits: u32,
    significand: Significand,
) -> Result<(), AllocError>
    requires some { 1 ≤ digits }
    requires few { digits ≤ 60 }
    requires below { significand.number < 10 ^ digits }
    requires whole { (places : ℕ) → pos digits -ℤ pos 1 -ℤ significand.exponent ≡ pos places → significand.number / 10 ^ places < part_end }
    requires low { neg_ℤ (pos 39) ≤ℤ significand.exponent }
    requires high { significand.exponent ≤ℤ pos 39 }
    ensures { OnOk result (string_bytes text.new ≡ string_bytes text.old ++ significand_text digits significand.number significand.exponent) }
{
    let Significand { number, exponent } = significand;
    if -4 <= exponent && exponent < digits as i32 {
        push_shortened(text, number, places(digits, exponent).unsigned_abs())
    } else {
        push_shortened(text, number, digits - 1)?;
        push_exponent(text, exponent)
    }
}

// Writes `e`, the exponent's sign and at least two digits.
fn push_exponent(text: &mut String, exponent: i32) -> Result<(), AllocError>
    ensures { OnOk result (string_bytes text.new ≡ string_bytes text.old ++ exponent_text exponent) }
{
    text.push_str(if exponent < 0 { "e-" } else { "e+" })?;
    push_two_digits(text, exponent.unsigned_abs())
}

// Writes a number with at least two digits.
fn push_two_digits(text: &mut String, number: u32) -> Result<(), AllocError>
    ensures { OnOk result (string_bytes text.new ≡ string_bytes text.old ++ two_digits number) }
{
    if number < 10 {
        text.push('0')?;
    }
    write!(text, "{number}")
}
