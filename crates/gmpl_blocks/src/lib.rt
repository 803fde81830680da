//! The blocks of a data section: what a block gives to the parameter or the set that it names, or its first fault.
#![tactic(auto)]

mod block_slots;
mod cursor;
mod fault;
mod parameters;
mod sets;
mod strings;
mod symbols;

pub use block_slots::{TableHead, all_stars, comma, tuple};
pub use cursor::{Cursor, is_kind};
pub use fault::{DataError, DataFault, DataFaultKind};
pub use parameters::{ParameterData, cell, default, given_default, given_value, parameter_block};
pub use sets::{SetData, given_element, set_block, subscripts};
pub use symbols::{begins_symbol, columns, is_word, next_symbol, slots, symbol, word};
