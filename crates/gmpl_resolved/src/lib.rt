//! MathProg models whose names are resolved: each name of an index or of an object is a place.
//!
//! The trees are those of crate gmpl_syntax but for the names, and share its operators, relations and functions. Objects are
//! the sets, parameters, variables, constraints and objectives, and the place of one is its place, from 0, among the objects in
//! the order of their declarations. The place of an index is its place, from 0, among the indices in scope, the outermost
//! first: so an evaluator binds indices on a stack.
#![tactic(auto)]

mod expression;
mod statement;

pub use expression::{Component, Entry, Expr, Indexing, Link, Meaning};
pub use statement::{
    Action, Attribute, Constraint, Declaration, Head, InputColumn, Numbered, NumberedStep,
    Objective, OutputColumn, Statement, Statements, Step, TableInput, TableOutput,
};
