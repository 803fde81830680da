//! The tokens of a MathProg model, or the first place where none can stand, in time that grows with the text.
#![tactic(auto)]

mod bytes;
mod data_tokens;
mod lexeme;
mod numbers;
mod strings;
mod symbols;
mod tokens;
mod words;

pub use data_tokens::read_data_tokens;
pub use lexeme::{Lexeme, LexemeKind, lexeme_at};
pub use tokens::read_tokens;
