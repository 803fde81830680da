// The search by several workers.
ghost use Rattle.std.specs.Prelude.{ℕ, ◌≡◌, ◌+◌, ◌<◌, ◌⊎◌, [], All, map, IfOk, IfErr, IfSome, None};
ghost use Rattle.turn_pool.specs.Logs.{Has};
ghost use Rattle.turn_pool.specs.Passes.{key_of, view_of};
ghost use Rattle.search_tree.specs.Steps.{IsReclaim, opening};
ghost use Rattle.branch_search.specs.Faults.{IsFault};
ghost use Rattle.board_pool.specs.Searches.{IsOfSearch};
ghost use Rattle.shared_search.specs.Holders.{first_in, IsTaskOf};
ghost use Rattle.shared_search.specs.Crews.{IsReady, numbers, AnyHas};
ghost use Rattle.shared_search.specs.Left.{IsLeft};

use crate::crew::work_all;
use crate::gate::Gate;
use crate::signals::Signals;
use crate::task::Task;
use crate::worker::Worker;
use board_pool::SharedBoard;
use branch_search::{SearchFault, stopped};
use certificate::DerivedRows;
use instance::Instance;
use std::alloc::{AllocError, Global};
use std::thread::Threads;
use tree_pool::Board;
use turn_pool::Pool;

/// A search over the integer columns of a problem, by so many workers at the same time, who pass the gate. The board with which they
/// end is one from which the search of one worker goes on, to a certificate where all leaves are closed: leaves that workers left
/// behind are to be worked on again, and no lease is open. It has at most `split_limit` splits, and at each node Bland's run, where
/// nothing else decides, takes at most `pivot_limit` steps. Of the columns that may be split, those before `first_columns` come first.
///
/// A fault is one that a worker met: an operation of the work at a node that does not fit, or a run that is too long, each on
/// an honest way, and with the run the board with which the workers end; or a ray that improves the problem. Or memory was wanting
/// before the workers began or after they ended.
pub fn search_together<R: Threads + Sync, G: Gate + Sync>(
    rt: &R,
    alloc: Global,
    problem: &Instance,
    first_columns: usize,
    split_limit: usize,
    pivot_limit: u32,
    workers: u32,
    gate: &G,
) -> Result<Board, SearchFault>
    requires { 0 < workers }
    ensures board { IfOk result (IsLeft problem.now split_limit pivot_limit) }
    ensures fault { IfErr result (IsFault problem.now [] split_limit pivot_limit) }
{
    let task = task_of(alloc, problem, first_columns, pivot_limit)?;
    let board = board_of(alloc, problem, split_limit, pivot_limit)?;
    on_board(rt, alloc, board, &task, workers, gate)
}

// What the workers search.
fn task_of(
    alloc: Global,
    problem: &Instance,
    first_columns: usize,
    pivot_limit: u32,
) -> Result<Task, AllocError>
    ensures { IfOk result (λ task. (task.problem ≡ problem.now) × (task.cuts ≡ []) × (task.pivot_limit ≡ pivot_limit)) }
{
    let problem = problem.copy(alloc)?;
    Ok(Task {
        problem,
        cuts: DerivedRows::new(alloc),
        pivot_limit,
        first_columns,
    })
}

// The board on which they begin.
fn board_of(
    alloc: Global,
    problem: &Instance,
    split_limit: usize,
    pivot_limit: u32,
) -> Result<Board, AllocError>
    ensures start { IfOk result (λ b. b ≡ opening b) }
    ensures same { IfOk result (λ b. (b.problem ≡ problem.now) × (b.cuts ≡ []) × (b.split_limit ≡ split_limit) × (b.pivot_limit ≡ pivot_limit)) }
{
    let problem = problem.copy(alloc)?;
    Board::start(
        alloc,
        problem,
        DerivedRows::new(alloc),
        split_limit,
        pivot_limit,
    )
}

// The search that begins with this board.
fn on_board<R: Threads + Sync, G: Gate + Sync>(
    rt: &R,
    alloc: Global,
    board: Board,
    task: &Task,
    workers: u32,
    gate: &G,
) -> Result<Board, SearchFault>
    requires workers { 0 < workers }
    requires start { board ≡ opening board }
    requires task { IsTaskOf board task.now }
    ensures board { IfOk result (IsLeft board.problem board.split_limit board.pivot_limit) }
    ensures fault { IfErr result (IsFault board.problem board.cuts board.split_limit board.pivot_limit) }
{
    board.keeps_its_log();
    let (pool, pass) = Pool::start(alloc, SharedBoard::new(board), workers)?;
    let first = Worker { pass, fault: None };
    match together(rt, alloc, &pool, task, gate, first) {
        Some(last) => ended(alloc, pool, last),
        None => Err(SearchFault::NoMemory),
    }
}

// The workers at the same time; then one of them that has taken in all others, where there was memory to begin.
fn together<R: Threads + Sync, G: Gate + Sync>(
    rt: &R,
    alloc: Global,
    pool: &Pool<SharedBoard>,
    task: &Task,
    gate: &G,
    first: Worker,
) -> Option<Worker>
    requires task { IsTaskOf (first_in pool.now) task.now }
    requires ready { IsReady pool.now first }
    ensures ready { IfSome result (IsReady pool.now) }
    ensures numbers { IfSome result (λ w. (k : ℕ) → Has (numbers first) k → Has (numbers w) k) }
{
    match hired(alloc, pool, first) {
        Ok(crew) => ran(rt, alloc, pool, task, gate, crew),
        Err(_) => None,
    }
}

// The workers of a crew at the same time; then one of them that has taken in all others, where there is one.
fn ran<R: Threads + Sync, G: Gate + Sync>(
    rt: &R,
    alloc: Global,
    pool: &Pool<SharedBoard>,
    task: &Task,
    gate: &G,
    mut crew: Vec<Worker>,
) -> Option<Worker>
    requires task { IsTaskOf (first_in pool.now) task.now }
    requires ready { All (IsReady pool.now) crew.items }
    ensures ready { IfSome result (IsReady pool.now) }
    ensures numbers { IfSome result (λ w. (k : ℕ) → AnyHas crew.items k → Has (numbers w) k) }
{
    run(rt, alloc, pool, task, gate, &mut crew);
    last_of(pool, crew)
}

// The workers of a crew, at the same time.
fn run<R: Threads + Sync, G: Gate + Sync>(
    rt: &R,
    alloc: Global,
    pool: &Pool<SharedBoard>,
    task: &Task,
    gate: &G,
    crew: &mut Vec<Worker>,
)
    requires task { IsTaskOf (first_in pool.now) task.now }
    requires ready { All (IsReady pool.now) crew.old.items }
    ensures ready { All (IsReady pool.now) crew.new.items }
    ensures numbers { map numbers crew.new.items ≡ map numbers crew.old.items }
{
    let signals = Signals::new();
    work_all(rt, alloc, pool, task, gate, &signals, crew.as_mut_slice());
}

// A worker for each number that the first one has not used, and the first one.
fn hired(
    alloc: Global,
    pool: &Pool<SharedBoard>,
    mut first: Worker,
) -> Result<Vec<Worker>, AllocError>
    requires { IsReady pool.now first }
    ensures ready { IfOk result (λ crew. All (IsReady pool.now) crew.items) }
    ensures numbers { IfOk result (λ crew. (k : ℕ) → Has (numbers first) k → AnyHas crew.items k) }
{
    let count = first.pass.unused();
    let mut crew = Vec::with_capacity(alloc, count as usize + 1)?;
    for _ in 0..count {
        crew.push_reserved(hired_one(pool, &mut first));
    }
    crew.push_reserved(first);
    Ok(crew)
}

// One more worker.
fn hired_one(pool: &Pool<SharedBoard>, first: &mut Worker) -> Worker
    requires ready { IsReady pool.now first.old }
    requires unused { (view_of first.old.pass).from < (view_of first.old.pass).to }
    ensures first { IsReady pool.now first.new }
    ensures unused { ((view_of first.new.pass).from ≡ (view_of first.old.pass).from + 1) × ((view_of first.new.pass).to ≡ (view_of first.old.pass).to) }
    ensures ready { IsReady pool.now result }
    ensures numbers { (k : ℕ) → Has (numbers first.old) k → Has (numbers first.new) k ⊎ Has (numbers result) k }
{
    Worker {
        pass: pool.split(&mut first.pass, 1),
        fault: None,
    }
}

// One worker that took in all of a crew, where it is not empty.
fn last_of(pool: &Pool<SharedBoard>, mut crew: Vec<Worker>) -> Option<Worker>
    requires { All (IsReady pool.now) crew.items }
    ensures ready { IfSome result (IsReady pool.now) }
    ensures numbers { IfSome result (λ w. (k : ℕ) → AnyHas crew.items k → Has (numbers w) k) }
{
    let mut last = crew.pop()?;
    take_in_all(pool, &mut last, crew);
    Some(last)
}

// One worker takes in all others, and so holds all numbers.
fn take_in_all(pool: &Pool<SharedBoard>, worker: &mut Worker, mut others: Vec<Worker>)
    requires worker { IsReady pool.now worker.old }
    requires others { All (IsReady pool.now) others.items }
    ensures ready { IsReady pool.now worker.new }
    ensures numbers { (k : ℕ) → Has (numbers worker.old) k ⊎ AnyHas others.items k → Has (numbers worker.new) k }
{
    while let Some(other) = others.pop() {
        take_in(pool, worker, other);
    }
}

// The pass of the other is joined; its fault is kept where the worker has none.
fn take_in(pool: &Pool<SharedBoard>, worker: &mut Worker, other: Worker)
    requires worker { IsReady pool.now worker.old }
    requires other { IsReady pool.now other }
    ensures ready { IsReady pool.now worker.new }
    ensures numbers { (k : ℕ) → Has (numbers worker.old) k ⊎ Has (numbers other) k → Has (numbers worker.new) k }
{
    let Worker { pass, fault } = other;
    pool.join(&mut worker.pass, pass);
    if worker.fault.is_none() {
        worker.fault = fault;
    }
}

// The board at the end, or the fault that a worker met, with the board where a run is too long.
fn ended(alloc: Global, pool: Pool<SharedBoard>, last: Worker) -> Result<Board, SearchFault>
    requires ready { IsReady pool last }
    requires all { (k : ℕ) → k < (key_of pool).seats → Has (numbers last) k }
    requires cuts { (first_in pool).cuts ≡ [] }
    ensures board { IfOk result (IsLeft (first_in pool).problem (first_in pool).split_limit (first_in pool).pivot_limit) }
    ensures fault { IfErr result (IsFault (first_in pool).problem (first_in pool).cuts (first_in pool).split_limit (first_in pool).pivot_limit) }
{
    let Worker { pass, fault } = last;
    let board = pool.close(pass).into_board();
    match fault {
        Some(fault) => Err(stopped(alloc, board, fault.into_inner())),
        None => Ok(given_back(alloc, board)?),
    }
}

// The board on which leased leaves are to be worked on again.
fn given_back(alloc: Global, mut board: Board) -> Result<Board, AllocError>
    ensures { IfOk result (IsReclaim board) }
{
    board.reclaim(alloc)?;
    Ok(board)
}
