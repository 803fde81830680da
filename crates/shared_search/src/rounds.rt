// The rounds of one worker.
ghost use Rattle.std.specs.Prelude.{◌≡◌, IfSome};
ghost use Rattle.turn_pool.specs.Passes.{view_of};
ghost use Rattle.shared_search.specs.Holders.{first_in, IsTaskOf, IsFaultOf};
ghost use Rattle.shared_search.specs.Leaves.{IsGiven};
ghost use Rattle.shared_search.specs.Crews.{IsReady, numbers};

use crate::gate::Gate;
use crate::leaves::at_leaf;
use crate::signals::Signals;
use crate::task::Task;
use crate::turns::{TRIES, ask};
use crate::worker::{Step, Worker};
use board_pool::{Asked, LeasedLeaf, SharedBoard};
use branch_search::LeafFault;
use candidate::Proposer;
use sqlite_items::Boxed;
use std::alloc::Global;
use std::thread::yield_now;
use turn_pool::{Pool, PoolFault};

// So often a worker that has found no leaf lets others go before, until it asks again without news.
const PAUSE: u32 = 100_000;

/// Works on leaf after leaf. A worker ends where no leaf is to be worked on and no one works on another, where its leaf is to be split
/// and no split is granted, where the gate sends it away, after many tries in a row, and where all are to end: at a fault, and for
/// want of memory.
pub(crate) fn work<G: Gate>(
    alloc: Global,
    pool: &Pool<SharedBoard>,
    task: &Task,
    gate: &G,
    signals: &Signals,
    worker: &mut Worker,
)
    requires task { IsTaskOf (first_in pool.now) task.now }
    requires ready { IsReady pool.now worker.old }
    ensures ready { IsReady pool.now worker.new }
    ensures numbers { numbers worker.new ≡ numbers worker.old }
{
    let mut proposer = Proposer::new(alloc, task.pivot_limit, task.first_columns);
    rounds(alloc, pool, task, gate, signals, worker, &mut proposer);
}

// Round after round.
fn rounds<G: Gate>(
    alloc: Global,
    pool: &Pool<SharedBoard>,
    task: &Task,
    gate: &G,
    signals: &Signals,
    worker: &mut Worker,
    proposer: &mut Proposer,
)
    requires task { IsTaskOf (first_in pool.now) task.now }
    requires ready { IsReady pool.now worker.old }
    ensures ready { IsReady pool.now worker.new }
    ensures numbers { numbers worker.new ≡ numbers worker.old }
{
    let mut left = TRIES;
    for turn in 0..u64::MAX {
        gate.arrive(worker.pass.own(), turn);
        if signals.is_halted() {
            return;
        }
        match round(alloc, pool, task, gate, signals, turn, worker, proposer) {
            Step::Closed => left = TRIES,
            Step::Split => {
                signals.tell_news();
                left = TRIES;
            }
            Step::Waits => left = left.saturating_sub(1),
            Step::Ended => {
                signals.tell_news();
                left = 0;
            }
            Step::Halts => {
                signals.halt();
                left = 0;
            }
        }
        if left == 0 {
            return;
        }
    }
}

// One round: a leaf is asked for, and worked on.
fn round<G: Gate>(
    alloc: Global,
    pool: &Pool<SharedBoard>,
    task: &Task,
    gate: &G,
    signals: &Signals,
    turn: u64,
    worker: &mut Worker,
    proposer: &mut Proposer,
) -> Step
    requires task { IsTaskOf (first_in pool.now) task.now }
    requires ready { IsReady pool.now worker.old }
    ensures ready { IsReady pool.now worker.new }
    ensures numbers { numbers worker.new ≡ numbers worker.old }
{
    let heard = signals.news();
    match ask(alloc, pool, &mut worker.pass) {
        Ok(Asked::Leased(leaf)) => {
            if !gate.keep(worker.pass.own(), turn) {
                signals.leave_behind();
                return Step::Ended;
            }
            with_leaf(alloc, pool, task, worker, leaf, proposer)
        }
        Ok(Asked::Idle(leased)) => without_leaf(signals, heard, leased),
        Err(fault) => without_turn(fault),
    }
}

// No leaf is to be worked on, and so many are leased. The worker waits for news after those that it had heard, or ends where no
// one works on these leaves.
fn without_leaf(signals: &Signals, heard: u64, leased: usize) -> Step {
    if leased as u64 <= signals.left_behind() {
        return Step::Ended;
    }
    for _ in 0..PAUSE {
        if signals.news() != heard || signals.is_halted() {
            return Step::Waits;
        }
        yield_now();
    }
    Step::Waits
}

// No event was made.
fn without_turn(fault: PoolFault) -> Step {
    match fault {
        PoolFault::Busy(_) => {
            yield_now();
            Step::Waits
        }
        PoolFault::NoMemory => Step::Halts,
    }
}

// The worker has a leaf. A fault is kept.
fn with_leaf(
    alloc: Global,
    pool: &Pool<SharedBoard>,
    task: &Task,
    worker: &mut Worker,
    leaf: LeasedLeaf,
    proposer: &mut Proposer,
) -> Step
    requires task { IsTaskOf (first_in pool.now) task.now }
    requires ready { IsReady pool.now worker.old }
    requires given { IsGiven (view_of worker.old.pass) leaf }
    ensures ready { IsReady pool.now worker.new }
    ensures numbers { numbers worker.new ≡ numbers worker.old }
{
    match at_leaf(alloc, pool, task, &mut worker.pass, leaf, proposer) {
        Ok(step) => step,
        Err(fault) => {
            worker.fault = kept(alloc, fault);
            Step::Halts
        }
    }
}

// A fault that is to be told at the end. Want of memory is none: who goes on alone may find it.
fn kept(alloc: Global, fault: LeafFault) -> Option<Boxed<LeafFault>>
    ensures { IfSome result (λ kept. kept ≡ fault) }
{
    if is_want_of_memory(&fault) {
        return None;
    }
    Boxed::new(alloc, fault).ok()
}

fn is_want_of_memory(fault: &LeafFault) -> bool {
    match fault {
        LeafFault::NoMemory => true,
        _ => false,
    }
}
