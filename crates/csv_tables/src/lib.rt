//! Tables of MathProg models in CSV: the rows that a text gives, and the text of rows.
#![tactic(auto)]

mod columns;
mod fault;
mod reading;
mod records;
mod rows;
mod table;
mod writing;

pub use fault::{TableError, TableFault};
pub use reading::read_table;
pub use table::Table;
pub use writing::table_text;
