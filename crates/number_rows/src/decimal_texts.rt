// Fractions as decimal texts.
use crate::fractions::{NO_NUMBER, number};
use decimals::{fixed, general};
use fraction::Frac;
use std::alloc::{AllocError, Global};

// A number and a count.
fn parts(asked: &str) -> Option<(Frac, u32)> {
    let (value, count) = asked.split_once(' ')?;
    Some((number(value)?, count.parse::<u32>().ok()?))
}

/// The text of a number with so many places.
pub(crate) fn fixed_text(alloc: Global, asked: &str) -> Result<String, AllocError> {
    match parts(asked) {
        Some((value, places)) => fixed(alloc, value, places),
        None => NO_NUMBER.to_string(alloc),
    }
}

/// The text of a number with so many significant digits.
pub(crate) fn general_text(alloc: Global, asked: &str) -> Result<String, AllocError> {
    match parts(asked) {
        Some((value, digits)) => general(alloc, value, digits),
        None => NO_NUMBER.to_string(alloc),
    }
}
