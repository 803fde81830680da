// The first digits of a quotient, and where they stand.
ghost use Rattle.std.specs.Prelude.{◌≡◌, ◌≤◌, ◌<◌, ◌≤ℤ◌, ◌*◌, ◌/◌, ◌^◌, ℕ, pos, negsuc, neg_ℤ, ◌-ℤ◌};
ghost use Rattle.wide.specs.Parts.{part_end};
ghost use Rattle.decimals.specs.Significand.{IsExponent, exponent, leading_digits};

use crate::rounding::{rounded, scaled};
use wide::Wide;

/// A number of some digits, of which the first stands for the power of 10 with this exponent.
#[derive(Clone, Copy)]
pub struct Significand {
    pub number: Wide,
    pub exponent: i32,
}

// The exponent -1 - tens.
fn below_one(tens: u32) -> i32
    requires { tens < 39 }
    ensures { result ≡ negsuc tens }
{
    -(tens as i32) - 1
}

// The exponent of n / d.
fn exponent(n: u128, d: u128) -> i32
    requires n { 0 < n }
    requires d { 0 < d }
    ensures value { result ≡ exponent n d }
    ensures is { IsExponent n d result }
    ensures low { neg_ℤ (pos 39) ≤ℤ result }
    ensures high { result ≤ℤ pos 38 }
{
    if d <= n {
        (n / d).ilog10() as i32
    } else {
        below_one(((d - 1) / n).ilog10())
    }
}

/// The places that leave so many digits of a number with this exponent.
pub fn places(digits: u32, exponent: i32) -> i32
    requires few { digits ≤ 60 }
    requires low { neg_ℤ (pos 39) ≤ℤ exponent }
    requires high { exponent ≤ℤ pos 39 }
    ensures { result ≡ pos digits -ℤ pos 1 -ℤ exponent }
{
    digits as i32 - 1 - exponent
}

// The number of that many zeros behind a one.
fn power_of_ten(places: u32) -> Wide
    requires { places ≤ 60 }
    ensures { result ≡ 10 ^ places }
{
    scaled(Wide::product(1, 1), places)
}

/// n / d rounded to so many digits.
#[tactic(auto, unfolding(crate::specs::Significand::leading_digits))]
pub fn leading_digits(n: u128, d: u128, digits: u32) -> Significand
    requires n { 0 < n }
    requires n_small { n < 2 ^ 127 }
    requires d { 0 < d }
    requires d_small { d < 2 ^ 127 }
    requires some { 1 ≤ digits }
    requires few { digits ≤ 60 }
    ensures number { result.number ≡ (leading_digits digits n d).number }
    ensures exponent { result.exponent ≡ (leading_digits digits n d).exponent }
    ensures below { result.number < 10 ^ digits }
    ensures whole { (places : ℕ) → pos digits -ℤ pos 1 -ℤ result.exponent ≡ pos places → result.number / 10 ^ places < part_end }
    ensures low { neg_ℤ (pos 39) ≤ℤ result.exponent }
    ensures high { result.exponent ≤ℤ pos 39 }
{
    let exponent = exponent(n, d);
    let number = rounded(n, d, places(digits, exponent));
    if number.is_below(power_of_ten(digits)) {
        Significand { number, exponent }
    } else {
        Significand {
            number: power_of_ten(digits - 1),
            exponent: exponent + 1,
        }
    }
}
