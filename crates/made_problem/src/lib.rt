//! A problem of any size, made of numbers that are drawn: the first six columns are whole, the others are not, and each lies
//! between 0 and 1; three rows leave room for about half of them.
#![tactic(auto)]

mod draws;
mod problem;
mod size;

pub use problem::made_problem;
pub use size::Size;
