//! A model together with what data give to its sets and parameters and, behind `solve`, with its solution.
#![tactic(auto)]

mod tables;

pub use tables::{DataTables, Given, LoadedModel};
