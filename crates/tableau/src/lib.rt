//! A linear program at a basis, for a search that proposes: the values and the prices of all variables, rows and columns
//! of the table where they are asked for, and how a step changes them. Only the basis' factors are kept, not the table.
//!
//! Nothing is promised of the numbers but that each call is safe and returns.
#![tactic(auto)]

mod model;
mod moving;
mod prices;
mod ranking;
mod scaling;
mod start;
mod state;

pub use model::{Bounds, Model, model_of};
pub use moving::{Row, Solved, prices_at};
pub use start::{Start, places_of, start_of};
pub use state::{State, TieRule};
