//! The checker of certificates: whether a certificate proves its verdict for a problem.
#![tactic(auto)]

mod bounds;
mod by_column;
mod checking;
mod derived;
mod forms;
mod kept;
mod kind;
mod leaves;
mod lookup;
mod named;
mod nodes;
mod part;
mod points;
mod setting;
mod sums;
mod totals;
mod turns;
mod way;

pub use by_column::ByColumn;
pub use checking::check;
pub use derived::check_derived;
pub use leaves::{makes_column, shows_no_point, shows_none_better};
pub use nodes::place_passes;
pub use part::{CheckFault, Checked, Part};
pub use points::{form_value, is_improving_ray};
pub use way::Way;
