//! Tests of the program's work, from the words of a command to the bytes that are written, and of files in memory. They use public calls alone, and
//! stand above the crates that they try, so that each of those is proved once.
#![tactic(auto)]

#[cfg(test)]
mod certificates;
#[cfg(test)]
mod cplex_lp;
#[cfg(test)]
mod deeds;
#[cfg(test)]
mod failing;
#[cfg(test)]
mod failing_calls;
#[cfg(test)]
mod faults;
#[cfg(test)]
mod free_mps;
#[cfg(test)]
mod integer_programs;
#[cfg(test)]
mod linear_programs;
#[cfg(test)]
mod math_prog;
#[cfg(test)]
mod memory_files;
#[cfg(test)]
mod printing;
#[cfg(test)]
mod ranges;
#[cfg(test)]
mod raw_solutions;
#[cfg(test)]
mod rows;
#[cfg(test)]
mod runs;
#[cfg(test)]
mod subsets;
#[cfg(test)]
mod tables;
#[cfg(test)]
mod written_files;
