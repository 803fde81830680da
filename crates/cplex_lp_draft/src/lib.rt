//! What a CPLEX LP text has declared so far, and the problem that it makes.
#![tactic(auto)]

mod column_change;
mod draft;
mod expecting;
mod form;
mod open_row;
mod problem;
mod row;
mod row_table;

pub use column_change::ColumnChange;
pub use draft::Draft;
pub use expecting::{Expecting, Limit, Sign, TermPart};
pub use form::sum_at;
pub use problem::finish;
