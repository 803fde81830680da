//! Sparse factors of a basis of a matrix, in exact fractions: B = L U, and the columns that were exchanged since.
//!
//! Nothing is promised of what is solved with them but that each call is safe and returns: whoever takes a solution tests
//! what it is for. Places outside a list are read as a default, and a number that does not fit ends the work.
#![tactic(auto)]

mod elimination;
mod factors;
mod fractions;
mod lists;
mod matrix;
mod numbers;
mod scaled;
mod stop;
mod unknowns;
mod vectors;

pub use factors::{Factored, Factors, factorise};
pub use fractions::Fractions;
pub use lists::{Entry, Lists, entries_of, number_in};
pub use matrix::Matrix;
pub use numbers::{
    difference, digits, fused, fused_by_word, log, plus_product, product, quotient, sum, whole,
    whole_part, word,
};
pub use scaled::Scaled;
pub use stop::Stop;
pub use unknowns::Unknowns;
pub use vectors::{add, add_to, at, copied, empty_lists, filled, number_at, put, zeros};
