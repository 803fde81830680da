//! What a statement is read from, and the steps of which every rule of the grammar is made.
#![tactic(auto)]

mod cursor;
mod error;
mod list;

pub use cursor::{Cursor, is_kind};
pub use error::ParseError;
pub use list::list_of_one;
