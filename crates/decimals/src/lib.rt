//! Fractions as decimal texts, rounded exactly, ties to the even digit.
#![tactic(auto)]

mod digits;
mod laws;
mod rounding;
mod significand;
mod texts;

pub use laws::{exponents, roundings};
pub use texts::{fixed, general};
