//! Proposals for verdicts on linear programs: an exact simplex method over fractions, without floating point or rounding,
//! that may use any rule and any representation.
//!
//! Nothing is promised of what is proposed, so hardly a clause stands here, and no edit that must be refused: each call is
//! safe and returns. The checker of certificates judges a proposal, and a proved method decides where none passes.
#![tactic(auto)]

mod branching;
mod crash;
mod dual;
mod ending;
mod gains;
mod primal;
mod proposal;
mod reading;
mod search;
mod spread;

pub use proposal::{Candidate, ProposedOptimum, ProposedRay, Proposer};
