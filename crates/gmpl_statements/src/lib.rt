//! The statements of a MathProg model, from tokens to trees, one by one up to the first bad one.
#![tactic(auto)]

mod actions;
mod ahead;
mod attributes;
mod declarations;
mod parts;
mod reader;
mod simple;
mod statement;
mod tables;

pub use actions::action;
pub use declarations::{constraint, declaration, objective};
pub use parts::{name, titled_name};
pub use reader::{Next, StatementReader};
pub use tables::{input_word, table_input, table_output};
