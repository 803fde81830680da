//! Several workers search one problem together, on one board that they share.
#![tactic(auto)]

mod any_problem;
mod crew;
mod gate;
mod leaves;
mod rounds;
mod signals;
mod task;
mod to_the_end;
mod turns;
mod whole;
mod worker;

pub use any_problem::solve_with_workers;
pub use gate::{Gate, OpenGate};
pub use to_the_end::search_with_workers;
pub use whole::search_together;
