//! What a search leaves that came to a limit: why, and what it has shown of its problem.
#![tactic(auto)]

mod fault;
mod opening;
mod showing;

pub use fault::Unsolved;
pub use showing::unsolved;
