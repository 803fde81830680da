//! Exact fractions in lowest terms, whose numerator and denominator are within plus or minus 2^127 - 1.
//! Each operation is exact, or says that its result does not fit.
#![tactic(auto, using(crate::proofs::FracLemmas::frac_lemmas))]

mod canonical;
mod denominators;
mod digits;
mod euclid;
mod frac;
mod fused;
mod laws;
mod read;
mod wide_quotient;

pub use denominators::common_denominator;
pub use frac::{Frac, NoFit, Op};
pub use laws::{texts, whole_numbers};
pub use read::ReadFault;
