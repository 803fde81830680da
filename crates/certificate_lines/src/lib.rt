//! The lines of a certificate's text, and what their fields are read as: counts, numbers, points, forms and weights, or
//! the first fault.
#![tactic(auto)]

mod fault;
mod fields;
mod lines;

pub use fault::{CertError, CertFault, FaultKind, LineError};
pub use fields::{
    after_word, count, end, fields_in, first, form, index, leaf_weights, number, numbers, weights,
    whole,
};
pub use lines::{Line, Lines, closed, fault_at};
