// The end of the work.
ghost use Rattle.std.specs.Prelude.{ℕ, ◌≡◌, ◌<◌, ◌⊎◌, ◌++◌, ◌∷◌, All};
ghost use Rattle.turn_pool.specs.Logs.{Has};
ghost use Rattle.pool_rows.specs.Ready.{IsReady, numbers, AnyHas};

use crate::board::TaskBoard;
use crate::calls::work;
use crate::gate::OpenGate;
use crate::worker::Worker;
use std::alloc::Global;
use turn_pool::Pool;

/// A worker takes in another, with its numbers and the lease that it holds, and goes on with the work.
pub fn take_over(alloc: Global, pool: &Pool<TaskBoard>, worker: &mut Worker, other: Worker)
    requires worker { IsReady pool.now worker.old }
    requires other { IsReady pool.now other }
    ensures ready { IsReady pool.now worker.new }
    ensures numbers { (k : ℕ) → Has (numbers worker.old) k ⊎ Has (numbers other) k → Has (numbers worker.new) k }
{
    work(alloc, pool, &OpenGate, worker);
    takes_in(pool, worker, other);
    work(alloc, pool, &OpenGate, worker);
}

// The pass of the other is joined; its lease is taken over where the worker holds none.
fn takes_in(pool: &Pool<TaskBoard>, worker: &mut Worker, other: Worker)
    requires worker { IsReady pool.now worker.old }
    requires other { IsReady pool.now other }
    ensures ready { IsReady pool.now worker.new }
    ensures numbers { (k : ℕ) → Has (numbers worker.old) k ⊎ Has (numbers other) k → Has (numbers worker.new) k }
{
    let Worker {
        pass,
        held,
        events: _,
    } = other;
    pool.join(&mut worker.pass, pass);
    if worker.held.is_none() {
        worker.held = held;
    }
}

/// One worker takes in all others, and so holds all numbers.
pub fn take_over_all(
    alloc: Global,
    pool: &Pool<TaskBoard>,
    worker: &mut Worker,
    mut others: Vec<Worker>,
)
    requires worker { IsReady pool.now worker.old }
    requires others { All (IsReady pool.now) others.items }
    ensures ready { IsReady pool.now worker.new }
    ensures numbers { (k : ℕ) → Has (numbers worker.old) k ⊎ AnyHas others.items k → Has (numbers worker.new) k }
{
    while let Some(other) = others.pop() {
        take_over(alloc, pool, worker, other);
    }
}
