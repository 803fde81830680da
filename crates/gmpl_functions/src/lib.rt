//! The functions and operators of MathProg on numbers, strings and sets that need nothing but their operands.
#![tactic(auto)]

mod amount;
mod form;
mod form_terms;
mod numbers;
mod powers;
mod rounding;
mod scaling;
mod strings;
mod terms;
mod variable;
mod words;

pub use amount::Amount;
pub use form::Form;
pub use numbers::{
    div, greater, greatest, least, less, lesser, modulo, number_of, quotient, truth_of,
};
pub use powers::{power, round_to, trunc_to};
pub use rounding::{ceil, floor, round, trunc};
pub use scaling::Scaling;
pub use strings::{card, join, length, plain_text, substring, substring_from};
pub use terms::Sign;
pub use variable::Variable;
pub use words::{word_difference, word_product, word_remainder, word_sum};
