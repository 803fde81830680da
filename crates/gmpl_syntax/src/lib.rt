//! MathProg models as they are written: the trees of expressions and of statements, and the first fault of a model.
//!
//! Names are those of the GNU MathProg Language Reference, chapters on expressions and on statements.
#![tactic(auto)]

mod expression;
mod fault;
mod index;
mod statement;

pub use expression::{
    Component, Entry, Expr, Function, Indexing, Iteration, Link, Operator, Relation, Sign, Suffix,
};
pub use fault::{SyntaxFault, SyntaxFaultKind};
pub use index::index_components;
pub use statement::{
    Action, Attribute, Constraint, Declaration, Direction, Head, InputColumn, Numbered, Objective,
    OutputColumn, Statement, Statements, TableInput, TableOutput,
};
