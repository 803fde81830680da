// All tasks by a number of workers.
ghost use Rattle.std.specs.Prelude.{ℕ, ◌≡◌, ◌+◌, ◌<◌, ◌⊎◌, [], All, map, IfOk, IfSome, None, vec_len};
ghost use Rattle.turn_pool.specs.Logs.{Has};
ghost use Rattle.turn_pool.specs.Passes.{view_of};
ghost use Rattle.pool_rows.specs.Tasks.{Replays, IsOpen};
ghost use Rattle.pool_rows.specs.Ready.{IsReady, numbers, AnyHas};

use crate::board::TaskBoard;
use crate::crew::work_all;
use crate::ends::take_over_all;
use crate::gate::Gate;
use crate::worker::Worker;
use std::alloc::{AllocError, Global};
use std::thread::Threads;
use turn_pool::Pool;

/// Tasks from 0 on, by this many workers at the same time. The board is the replay of its log.
pub fn finish<R: Threads + Sync, G: Gate + Sync>(
    rt: &R,
    alloc: Global,
    tasks: u64,
    workers: u32,
    gate: &G,
) -> Result<TaskBoard, AllocError>
    requires { 0 < workers }
    ensures { IfOk result (λ b. Replays (record { next = 0; tasks = tasks; log = [] }) b) }
{
    let (pool, pass) = Pool::start(alloc, TaskBoard::new(alloc, tasks), workers)?;
    let mut crew = hired(
        alloc,
        &pool,
        Worker {
            pass,
            held: None,
            events: 0,
        },
    )?;
    run_crew(rt, alloc, &pool, gate, &mut crew);
    match last_of(alloc, &pool, crew) {
        Some(last) => Ok(pool.close(last.pass)),
        None => Err(AllocError),
    }
}

// The workers of a crew, at the same time.
fn run_crew<R: Threads + Sync, G: Gate + Sync>(
    rt: &R,
    alloc: Global,
    pool: &Pool<TaskBoard>,
    gate: &G,
    crew: &mut Vec<Worker>,
)
    requires { All (IsReady pool.now) crew.old.items }
    ensures ready { All (IsReady pool.now) crew.new.items }
    ensures numbers { map numbers crew.new.items ≡ map numbers crew.old.items }
{
    work_all(rt, alloc, pool, gate, crew.as_mut_slice());
}

// One worker that took in all of a crew, where it is not empty.
fn last_of(alloc: Global, pool: &Pool<TaskBoard>, mut crew: Vec<Worker>) -> Option<Worker>
    requires { All (IsReady pool.now) crew.items }
    ensures ready { IfSome result (IsReady pool.now) }
    ensures numbers { IfSome result (λ w. (k : ℕ) → AnyHas crew.items k → Has (numbers w) k) }
{
    let mut last = crew.pop()?;
    take_over_all(alloc, pool, &mut last, crew);
    Some(last)
}

// A worker for each number that the first one has not used, and the first one.
fn hired(
    alloc: Global,
    pool: &Pool<TaskBoard>,
    mut first: Worker,
) -> Result<Vec<Worker>, AllocError>
    requires { IsReady pool.now first × (first.held ≡ None) }
    ensures ready { IfOk result (λ crew. All (IsReady pool.now) crew.items) }
    ensures numbers { IfOk result (λ crew. (k : ℕ) → Has (numbers first) k → AnyHas crew.items k) }
{
    let count = first.pass.unused();
    let mut crew = Vec::with_capacity(alloc, count as usize + 1)?;
    for _ in 0..count {
        crew.push_reserved(hired_one(pool, &mut first));
    }
    crew.push_reserved(first);
    Ok(crew)
}

// One more worker.
fn hired_one(pool: &Pool<TaskBoard>, first: &mut Worker) -> Worker
    requires ready { IsReady pool.now first.old × (first.old.held ≡ None) }
    requires unused { (view_of first.old.pass).from < (view_of first.old.pass).to }
    ensures first { IsReady pool.now first.new × (first.new.held ≡ None) }
    ensures unused { ((view_of first.new.pass).from ≡ (view_of first.old.pass).from + 1) × ((view_of first.new.pass).to ≡ (view_of first.old.pass).to) }
    ensures ready { IsReady pool.now result }
    ensures numbers { (k : ℕ) → Has (numbers first.old) k → Has (numbers first.new) k ⊎ Has (numbers result) k }
{
    Worker {
        pass: pool.split(&mut first.pass, 1),
        held: None,
        events: 0,
    }
}
