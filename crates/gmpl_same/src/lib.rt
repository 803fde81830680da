//! Whether two expressions of a model whose names are resolved are the same.
#![tactic(auto)]

mod parts;
mod same;

pub use same::same_expr;
