//! Systems of a basis, solved by the prime 2^61 - 1, digit after digit, so that only the numbers of the answer have to fit
//! and none on the way. Nothing is promised of an answer but that each call is safe and returns.
#![tactic(auto)]

mod digits;
mod lifting;
mod residues;

pub use lifting::{lifted_columns, lifted_rows};
