// What one worker does.
ghost use Rattle.std.specs.Prelude.{◌≡◌};
ghost use Rattle.pool_rows.specs.Tasks.{IsOpen};
ghost use Rattle.pool_rows.specs.Ready.{IsReady, IsWorkerOf, numbers};
ghost use Rattle.turn_pool.specs.Passes.{view_of};

use crate::board::TaskBoard;
use crate::entry::Lease;
use crate::events::{Ask, Settle};
use crate::gate::Gate;
use crate::worker::Worker;
use std::alloc::Global;
use turn_pool::{Pool, PoolFault};

// Tries in a row.
const TRIES: u32 = 100_000;

#[derive(Clone, Copy, Drop, Debug, PartialEq, Eq)]
enum Step {
    Made,
    Busy,
    Ended,
}

/// The amount of a task, which takes some time to find.
pub fn amount_of(task: u64) -> u64 {
    let mut x = task;
    for _ in 0..20_000 {
        x = x
            .wrapping_mul(6_364_136_223_846_793_005)
            .wrapping_add(1_442_695_040_888_963_407);
    }
    x >> 44
}

/// Leases tasks and settles them until none is left, until memory is wanting, or until many tries in a row were in vain.
pub fn work<G: Gate>(alloc: Global, pool: &Pool<TaskBoard>, gate: &G, worker: &mut Worker)
    requires { IsReady pool.now worker.old }
    ensures ready { IsReady pool.now worker.new }
    ensures numbers { numbers worker.new ≡ numbers worker.old }
{
    let mut left = TRIES;
    for turn in 0..u64::MAX {
        gate.arrive(worker.pass.own(), turn);
        match advance(alloc, pool, worker) {
            Step::Made => left = TRIES,
            Step::Busy => {
                if left == 0 {
                    return;
                }
                left -= 1;
            }
            Step::Ended => return,
        }
    }
}

// One call on the pool.
fn advance(alloc: Global, pool: &Pool<TaskBoard>, worker: &mut Worker) -> Step
    requires { IsReady pool.now worker.old }
    ensures ready { IsReady pool.now worker.new }
    ensures numbers { numbers worker.new ≡ numbers worker.old }
{
    match worker.held {
        None => ask(alloc, pool, worker),
        Some(lease) => settle(alloc, pool, worker, lease),
    }
}

fn ask(alloc: Global, pool: &Pool<TaskBoard>, worker: &mut Worker) -> Step
    requires { IsWorkerOf pool.now worker.old }
    ensures ready { IsReady pool.now worker.new }
    ensures numbers { numbers worker.new ≡ numbers worker.old }
{
    worker.held = None;
    match pool.call(alloc, &mut worker.pass, Ask) {
        Ok(lease) => {
            worker.held = lease;
            worker.events = worker.events.saturating_add(1);
            if lease.is_none() {
                Step::Ended
            } else {
                Step::Made
            }
        }
        Err((_, PoolFault::Busy(_))) => Step::Busy,
        Err((_, PoolFault::NoMemory)) => Step::Ended,
    }
}

fn settle(alloc: Global, pool: &Pool<TaskBoard>, worker: &mut Worker, lease: Lease) -> Step
    requires pool { IsWorkerOf pool.now worker.old }
    requires lease { IsOpen (view_of worker.old.pass).spans (view_of worker.old.pass).seen lease }
    ensures ready { IsReady pool.now worker.new }
    ensures numbers { numbers worker.new ≡ numbers worker.old }
{
    worker.held = Some(lease);
    let amount = amount_of(lease.task);
    match pool.call(alloc, &mut worker.pass, Settle { lease, amount }) {
        Ok(()) => {
            worker.held = None;
            worker.events = worker.events.saturating_add(1);
            Step::Made
        }
        Err((_, PoolFault::Busy(_))) => Step::Busy,
        Err((_, PoolFault::NoMemory)) => Step::Ended,
    }
}
