//! Whole numbers: the greatest common divisor, quotients in lowest terms, and the laws of ℤ as an ordered ring.
//! Definitions and laws; no code.
#![tactic(auto)]
