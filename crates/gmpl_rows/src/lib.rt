//! The rows, the columns and the objective that the statements of a MathProg model make, and the problem that they are.
#![tactic(auto)]

mod declared;
mod demanded;
mod draft;
mod fault;
mod finished;
mod laid;
mod laws;
mod member_column;
mod members;
mod named;
mod row_entries;
mod term;
mod variables;

pub use declared::Declared;
pub use draft::{Draft, ObjectiveRow, RowHead};
pub use fault::DraftFault;
pub use finished::finish;
pub use laws::{columns_have_members, rows_have_their_terms};
pub use member_column::Cell;
pub use members::{ColumnMember, column_members, row_members};
pub use term::{Bounds, Term};
