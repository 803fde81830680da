//! The second pass over a MathProg model: what its names mean.
#![tactic(auto)]

mod actions;
mod error;
mod expressions;
mod list;
mod meanings;
mod names;
mod parts;
mod resolved;
mod resolver;
mod statements;
mod table_names;
mod tables;

pub use error::NamesError;
pub use expressions::{resolve_expr, resolve_exprs, resolve_indexing};
pub use list::room_for;
pub use meanings::resolve_name;
pub use names::Names;
pub use resolver::Resolver;
