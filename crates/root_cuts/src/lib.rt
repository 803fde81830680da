//! The cuts of a search: Gomory's cuts at an optimal basis of the problem whose columns need not be whole.
#![tactic(auto)]

mod cuts;
mod numbers;
mod places;
mod rates;
mod small;

pub use cuts::root_cuts;
