//! What a free MPS text has declared so far, and the problem that it makes.
#![tactic(auto)]

mod bound;
mod draft;
mod problem;
mod row;
mod row_table;
mod section;

pub use bound::BoundKind;
pub use draft::Draft;
pub use problem::finish;
pub use row::{DeclaredRow, RowKind, RowRange};
pub use section::Section;
