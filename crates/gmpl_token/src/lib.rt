//! The tokens of a MathProg model, for the crate that finds them and those that read them.
#![tactic(auto)]

mod kind;
mod token;

pub use kind::TokenKind;
pub use token::{LexFault, LexFaultKind, Token, Tokens};
