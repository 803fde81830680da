//! What the execution of a MathProg model with its data comes to: what it prints, the files that it makes, the tables that it reads,
//! and the problem of the rows that its constraints and objectives make, or its first fault; and what the statements behind `solve`
//! print and make at a point of the problem.
#![tactic(auto)]

mod actions;
mod checks;
mod declared;
mod display;
mod evaluation;
mod execution;
mod fault;
mod input_tables;
mod output_tables;
mod printing;
mod problem;
mod progress;
mod rows;
mod scopes;
mod shown;
mod sides;
mod solved;
mod steps;
mod terms;
mod turns;

pub use declared::all_declared;
pub use fault::{ModelFault, ModelFaultKind};
pub use problem::{End, Executed, Generated, generate, resume};
pub use progress::TableFile;
pub use solved::{Afterwards, after_solve, row_value};
pub use turns::Pause;
