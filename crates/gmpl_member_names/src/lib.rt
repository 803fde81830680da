//! The texts of symbols and the names of members.
#![tactic(auto)]

mod laws;
mod member;
mod symbols;

pub use laws::names_differ;
pub use member::member_name;
pub use symbols::symbol_text;
