//! Exact ranges: how far each cost may go while a best point stays best, and how far each bound of a row may go while the
//! value follows its weight.
#![tactic(auto)]

mod best;
mod bound_ends;
mod bound_rows;
mod bounds;
mod cost_rows;
mod costs;
mod fault;
mod forms;
mod parts;
mod range;
mod reached;
mod sought;
mod table;
mod text;
mod used;
mod verdict;
mod whole;

pub use fault::RangeFault;
pub use range::{Range, Ranges, RowRanges};
pub use sought::{End, Side, Sought};
pub use text::ranges_text;
pub use whole::ranges;
