//! The mathematics under the simplex method: bases of linear programs, their dictionaries and points, Bland's rule,
//! and the numbers of the pivoting arithmetic. Definitions and laws; the functions have contracts and no body.
#![tactic(auto)]

mod dictionaries;
mod exchanges;
mod nodes;
mod numbers;
mod runs;

pub use dictionaries::{dictionary_is_unique, point_is_unique};
pub use exchanges::{flips, pivots};
pub use nodes::{
    base_numbers, infeasible_nodes, node_systems, one_leaf_proves, optimal_nodes, points_of_nodes,
    unbounded_nodes,
};
pub use numbers::operations_of_nodes;
pub use runs::{
    directions, ends_are_final, points_after_steps, runs_are_one, runs_have_dictionaries, starts,
    steps, where_none_is_outside,
};

/// Whether a variable is basic, or else where it rests: at its lower or upper bound, or at 0 where it has neither.
#[derive(Clone, Copy, Debug, PartialEq, Eq)]
pub enum Place {
    Basic,
    AtLower,
    AtUpper,
    AtZero,
}
