// What workers search.

use certificate::DerivedRows;
use instance::Instance;

/// A problem with its cuts; how many steps Bland's run may take at a node; and the columns before `first_columns` are split first.
#[derive(Drop)]
pub struct Task {
    pub problem: Instance,
    pub cuts: DerivedRows,
    pub pivot_limit: u32,
    pub first_columns: usize,
}
