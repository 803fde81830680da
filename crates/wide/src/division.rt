// Quotients by a number of one part.
ghost use Rattle.std.specs.Prelude.{◌≡◌, ◌<◌, ◌≤◌, ◌+◌, ◌*◌, ◌^◌};

use crate::words::{join, split};

const WORD_MAX: u128 = u64::MAX as u128;

const TOP_BIT: u128 = 1 << 127;

// word + 2^64 * rest, divided, and what is left.
fn word_quotient(rest: u64, word: u64, divisor: u64) -> (u64, u64)
    requires { rest < divisor }
    ensures whole { word + 2 ^ 64 * rest ≡ result.0 * divisor + result.1 }
    ensures small { result.1 < divisor }
{
    let number = join(word, rest);
    let divisor = divisor as u128;
    ((number / divisor) as u64, (number % divisor) as u64)
}

// part + 2^128 * rest, divided by a word, and what is left.
fn part_by_word(rest: u64, part: u128, divisor: u64) -> (u128, u64)
    requires { rest < divisor }
    ensures whole { part + 2 ^ 128 * rest ≡ result.0 * divisor + result.1 }
    ensures small { result.1 < divisor }
{
    let (low, high) = split(part);
    let (first, over) = word_quotient(rest, high, divisor);
    let (second, left) = word_quotient(over, low, divisor);
    (join(second, first), left)
}

// One bit of a quotient: 2 * rest + bit, divided, and what is left.
fn bit_quotient(rest: u128, bit: u128, divisor: u128) -> (u128, u128)
    requires rest { rest < divisor }
    requires bit { bit ≤ 1 }
    requires divisor { divisor < 2 ^ 127 }
    ensures whole { bit + 2 * rest ≡ result.0 * divisor + result.1 }
    ensures bit { result.0 ≤ 1 }
    ensures small { result.1 < divisor }
{
    let number = 2 * rest + bit;
    if number < divisor {
        (0, number)
    } else {
        (1, number - divisor)
    }
}

// part + 2^128 * rest, divided bit by bit, and what is left.
fn part_by_bits(rest: u128, part: u128, divisor: u128) -> (u128, u128)
    requires rest { rest < divisor }
    requires divisor { divisor < 2 ^ 127 }
    ensures whole { part + 2 ^ 128 * rest ≡ result.0 * divisor + result.1 }
    ensures small { result.1 < divisor }
{
    let mut quotient = 0;
    let mut left = rest;
    let mut bits = part;
    for _step in 0u64..128 {
        let (bit, over) = bit_quotient(left, bits / TOP_BIT, divisor);
        quotient = 2 * quotient + bit;
        left = over;
        bits = 2 * (bits % TOP_BIT);
    }
    (quotient, left)
}

// part + 2^128 * rest, divided, and what is left.
pub fn part_quotient(rest: u128, part: u128, divisor: u128) -> (u128, u128)
    requires rest { rest < divisor }
    requires divisor { divisor < 2 ^ 127 }
    ensures whole { part + 2 ^ 128 * rest ≡ result.0 * divisor + result.1 }
    ensures small { result.1 < divisor }
{
    if rest == 0 {
        (part / divisor, part % divisor)
    } else if divisor <= WORD_MAX {
        let (quotient, left) = part_by_word(rest as u64, part, divisor as u64);
        (quotient, left as u128)
    } else {
        part_by_bits(rest, part, divisor)
    }
}
