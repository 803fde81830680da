// How a verdict is searched for.

/// How a verdict is searched for.
#[derive(Clone, Copy)]
pub struct Plan {
    /// The search may use cuts of its root.
    pub cuts: bool,
    /// It may split on the whole forms of rows, and does so first.
    pub row_splits: bool,
    /// The most splits that are made.
    pub split_limit: usize,
    /// The most steps of the simplex method at a node; 0 is no limit.
    pub pivot_limit: u32,
    /// How many workers search.
    pub workers: u32,
}
