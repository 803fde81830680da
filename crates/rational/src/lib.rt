//! Rational numbers of any size: an ordered field. Definitions and laws; the functions have contracts and no body.
#![tactic(auto)]

mod ordered_field;

pub use ordered_field::{field_laws, order_laws};
