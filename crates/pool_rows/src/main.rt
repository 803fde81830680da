// Workers that share a board of tasks by a pool: one worker, two and four do the same tasks, and two work at the same time.
#![tactic(auto)]

mod board;
mod calls;
mod crew;
mod ends;
mod entry;
mod events;
mod gate;
mod meeting;
mod summary;
mod whole;
mod worker;

use gate::OpenGate;
use meeting::Meeting;
use std::alloc::Global;
use std::io;
use summary::Summary;
use whole::finish;

const TASKS: u64 = 1000;

fn main(rt: HostRuntime) -> io::Result<()> {
    let alloc: Global = rt.alloc();
    for workers in [1, 2, 4] {
        let board = finish(&rt, alloc, TASKS, workers, &OpenGate)?;
        println!(rt; "{}", Summary::of(board.log()))?;
    }
    let meeting = Meeting::new();
    let board = finish(&rt, alloc, TASKS, 2, &meeting)?;
    println!(rt; "{}", Summary::of(board.log()))?;
    println!(rt;
        "first met {} second met {}",
        meeting.first_met(),
        meeting.second_met()
    )?;
    Ok(())
}
