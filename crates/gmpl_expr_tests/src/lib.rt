//! Tests of the evaluation of MathProg expressions, by public calls alone.
#![tactic(auto)]

#[cfg(test)]
mod expressions;
#[cfg(test)]
mod models;
#[cfg(test)]
mod rows;
#[cfg(test)]
mod solved;
#[cfg(test)]
mod texts;
