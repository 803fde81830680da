// What a phase comes to.
use tableau::{Row, Solved};

/// The row of the inverse at which the dual phase ends, and which bound of its variable is broken.
#[derive(Drop)]
pub(crate) struct Blocked {
    pub above: bool,
    pub row: Row,
}

/// The column of a variable that moves without end.
#[derive(Drop)]
pub(crate) struct Endless {
    pub variable: usize,
    pub rises: bool,
    pub column: Solved,
}

/// What one step comes to.
#[derive(Drop)]
pub(crate) enum Step {
    /// It is taken.
    Taken,
    /// There is nothing to do in this phase.
    Done,
    /// A row can't be mended: there is no point.
    Blocked(Blocked),
    /// Nothing stops the step: there is no best point.
    Endless(Endless),
}

/// What a search comes to.
#[derive(Drop)]
pub(crate) enum End {
    /// No point is better than the cutoff.
    Bounded,
    Optimal,
    Infeasible(Blocked),
    Unbounded(Endless),
}
