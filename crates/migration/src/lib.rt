//! Certificates of version 1 as certificates of version 2.
#![tactic(auto)]

mod certificates;
mod columns;
mod kept;
mod nodes;
mod sources;
mod splits;

pub use certificates::migrate;
pub use nodes::named;
