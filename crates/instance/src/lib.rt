//! Mixed-integer linear programs as the program holds them. Clauses see each type as the definitions of `milp` see it.
#![tactic(auto)]

mod bounds;
mod builder;
mod by_column;
mod entries;
mod name;
mod point;
mod points;
mod problem;
mod signs;

pub use bounds::{greater, lesser};
pub use builder::{BuildFault, Builder, MAX_COLUMNS, MAX_ENTRIES, MAX_ROWS};
pub use by_column::{ColumnEntry, EntriesByColumn};
pub use entries::{Entries, Entry};
pub use milp::Direction;
pub use name::Name;
pub use point::Point;
pub use points::{activity, meets, sum, value};
pub use problem::{Column, Instance, Row};
pub use signs::signed;
