//! What a `table IN` statement adds to the data of a model, from the text of its file.
#![tactic(auto)]

mod adding;
mod columns;
mod objects;
mod sets;

pub use adding::with_table;
