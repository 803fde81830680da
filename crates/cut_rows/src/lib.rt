//! A problem with the cuts of a search as rows of the problem that is searched, and a certificate of it as one of the problem
//! itself, in which each of these rows is a derived row.
#![tactic(auto)]

mod adding;
mod cutting;
mod laws;
mod nodes;
mod partials;
mod restoring;

pub use cutting::with_cuts;
pub use laws::{cuts_keep_points, passing_cuts_are_shown, restored_partials_show, restored_prove};
pub use partials::restore_partial;
pub use restoring::restore;
