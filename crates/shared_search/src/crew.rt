// Workers at the same time.
ghost use Rattle.std.specs.Prelude.{◌≡◌, All, map, length};
ghost use denote.Param.Send.{IsSync};
ghost use Rattle.shared_search.specs.Holders.{first_in, IsTaskOf};
ghost use Rattle.shared_search.specs.Crews.{IsReady, numbers};

use crate::gate::Gate;
use crate::rounds::work;
use crate::signals::Signals;
use crate::task::Task;
use crate::worker::Worker;
use board_pool::SharedBoard;
use std::alloc::Global;
use std::thread::{Threads, join_mut};
use turn_pool::Pool;

/// The workers of a list, at the same time: the list is halved again and again, down to one worker each.
#[cycle(halves)]
pub(crate) fn work_all<R: Threads + Sync, G: Gate + Sync>(
    rt: &R,
    alloc: Global,
    pool: &Pool<SharedBoard>,
    task: &Task,
    gate: &G,
    signals: &Signals,
    workers: &mut [Worker],
)
    requires task { IsTaskOf (first_in pool.now) task.now }
    requires ready { All (IsReady pool.now) workers.old }
    ensures ready { All (IsReady pool.now) workers.new }
    ensures numbers { map numbers workers.new ≡ map numbers workers.old }
{
    if workers.is_empty() {
        return;
    }
    if workers.len() == 1 {
        work(alloc, pool, task, gate, signals, &mut workers[0]);
        return;
    }
    let (front, back) = workers.split_at_mut(workers.len() / 2);
    join_mut(
        rt,
        &mut ||
            requires { IsSync R.row × IsSync G.row × IsTaskOf (first_in pool.now) task.now × All (IsReady pool.now) front.now }
            ensures { All (IsReady pool.entry.now) front.exit.now × (map numbers front.exit.now ≡ map numbers front.entry.now) }
        { work_all(rt, alloc, pool, task, gate, signals, front) },
        &mut ||
            requires { IsSync R.row × IsSync G.row × IsTaskOf (first_in pool.now) task.now × All (IsReady pool.now) back.now }
            ensures { All (IsReady pool.entry.now) back.exit.now × (map numbers back.exit.now ≡ map numbers back.entry.now) }
        { work_all(rt, alloc, pool, task, gate, signals, back) },
    );
}
