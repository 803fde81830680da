//! Columns for the whole forms of rows, on which a search may split, and certificates without them.
#![tactic(auto)]

mod columns;
mod extending;
mod forms;
mod laws;
mod moving;
mod names;
mod nodes;
mod partials;
mod points;
mod restoring;
mod row_forms;
mod rows;
mod scaling;
mod weights;

pub use columns::add_columns;
pub use extending::{Extension, with_row_columns};
pub use forms::Forms;
pub use laws::{points_extend, restored_partials_show, restored_prove};
pub use names::{new_name, prefix};
pub use partials::restore_partial;
pub use restoring::restore;
pub use weights::{first_items, items_behind};
