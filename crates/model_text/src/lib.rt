//! What the readers of model files share: the lines of a text, how long a number is, the names and columns that a text
//! declares, how far a reader goes, and how a fault is told.
#![tactic(auto)]

mod build;
mod column_table;
mod declared_column;
mod error;
mod fault;
mod lines;
mod literals;
mod names;
mod owned_names;
mod profile;

pub use build::{add_columns, add_row};
pub use column_table::ColumnTable;
pub use declared_column::DeclaredColumn;
pub use error::ReadError;
pub use fault::{FaultKind, FileFault};
pub use lines::{as_text, first_line};
pub use literals::{after, digits, places_length, with_exponent};
pub use names::Names;
pub use owned_names::OwnedNames;
pub use profile::{Profile, reader_profile};
