//! Mixed-integer linear programs: what they are, their feasible and optimal points and their improving rays.
//! Definitions; the one type is shared by all crates above.
#![tactic(auto)]

/// Which values of the objective are wanted: the least or the greatest.
#[derive(Clone, Copy, Debug, PartialEq, Eq)]
pub enum Direction {
    Min,
    Max,
}
