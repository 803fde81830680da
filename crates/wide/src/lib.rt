//! Unsigned whole numbers of 384 bits. Clauses see them as whole numbers.
#![tactic(auto)]

mod division;
mod wide;
mod words;

pub use wide::Wide;
