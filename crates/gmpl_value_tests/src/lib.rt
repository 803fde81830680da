//! Tests of the values of MathProg models, by public calls alone.
#![tactic(auto)]

#[cfg(test)]
mod formats;
#[cfg(test)]
mod forms;
#[cfg(test)]
mod functions;
#[cfg(test)]
mod rows;
#[cfg(test)]
mod sets;
#[cfg(test)]
mod texts;
