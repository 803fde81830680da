//! The dual values of a problem at the best point of a certificate.
#![tactic(auto)]

mod by_certificate;
mod sums;

pub use by_certificate::dual_values;
