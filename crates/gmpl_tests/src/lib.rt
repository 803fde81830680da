//! Tests of the crates that read MathProg models, by their public calls alone: they stand above those crates, so that each of
//! those is proved once.
#![tactic(auto)]

#[cfg(test)]
mod models;
#[cfg(test)]
mod rows;
#[cfg(test)]
mod statements;
#[cfg(test)]
mod tokens;
