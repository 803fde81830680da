// Workers.

use crate::board::TaskBoard;
use crate::entry::Lease;
use turn_pool::Pass;

/// A worker: its pass, the lease that it holds, and how many events it made.
#[derive(Drop)]
pub struct Worker {
    pub pass: Pass<TaskBoard>,
    pub held: Option<Lease>,
    pub events: u64,
}
