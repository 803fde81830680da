//! The third pass over a MathProg model, on its statements: their kinds and dimensions.
//!
//! Statements are judged in order, each with the objects that those before it declare, and by whether `solve` stands before it.
#![tactic(auto)]

mod actions;
mod attributes;
mod judgement;
mod sites;
mod statements;
mod tables;

pub use judgement::Judgement;
pub use statements::judge_statements;
