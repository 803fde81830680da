//! The tokens of a CPLEX LP text.
#![tactic(auto)]

mod lexeme;
mod lines;
mod scan;
mod section_words;
mod token;
mod tokens;

pub use section_words::is_word;
pub use token::{Relation, Section, Token, TokenKind, is_before_colon, is_before_name};
pub use tokens::TokenReader;
