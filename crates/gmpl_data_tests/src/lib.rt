//! Tests of the crates that read data sections, by their public calls alone: they stand above those crates, so that each of
//! those is proved once.
#![tactic(auto)]

#[cfg(test)]
mod blocks;
#[cfg(test)]
mod rows;
#[cfg(test)]
mod tokens;
