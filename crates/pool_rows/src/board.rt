// Boards of tasks.
ghost use Rattle.std.specs.Prelude.{◌≡◌, ◌+◌, ◌++◌, [], ◌∷◌, length, IfOk, OnOk, OnErr};
ghost use Rattle.pool_rows.specs.Tasks.{Board, touched, Replays, Asks, with_entry};
ghost use Rattle.pool_rows.specs.declared.entry.Entry.TheVariants.{Leased, Idle, Settled};

use crate::entry::{Entry, Lease};
use std::alloc::{AllocError, Global};
use std::marker::Model;
use turn_pool::Machine;

/// Tasks, each a number, which are leased in order; and the log of all events.
#[derive(Drop)]
pub struct TaskBoard {
    next: u64,
    tasks: u64,
    log: Vec<Entry>,
}

impl Model for TaskBoard {
    ghost use Rattle.std.specs.Prelude.{◌≤◌};
    ghost use Rattle.std.specs.Coded.{codes};
    ghost use Rattle.pool_rows.specs.Tasks.{Board as BoardOf};

    ghost Value = { BoardOf };

    ghost coded = { Prim.hlevel codes };

    ghost view = { λ b. record { next = b.next; tasks = b.tasks; log = b.log.items } };

    ghost invariant = { λ b. b.next ≤ b.tasks };
}

impl Machine for TaskBoard {
    type Entry = Entry;

    ghost log = { λ b. b.log };

    ghost touched = { touched };

    ghost replays = { Replays };

    ghost blank = { record { next = 0; tasks = 0; log = [] } };

    fn events(&self) -> usize {
        self.log.len()
    }
}

impl TaskBoard {
    /// Tasks from 0 on, none of them leased.
    pub fn new(alloc: Global, tasks: u64) -> TaskBoard
        ensures { result ≡ record { next = 0; tasks = tasks; log = [] } }
    {
        TaskBoard {
            next: 0,
            tasks,
            log: Vec::new(alloc),
        }
    }

    /// The log.
    pub fn log(&self) -> &[Entry]
        ensures { result.now ≡ self.now.log }
    {
        &self.log
    }

    /// Leases a task, or tells that none is left.
    pub fn ask(&mut self, seat: u32) -> Result<Option<Lease>, AllocError>
        ensures ok { IfOk result (λ r. Asks seat self.old r self.new) }
        ensures err { OnErr result (self.new ≡ self.old) }
    {
        self.log.reserve(1)?;
        if self.next == self.tasks {
            self.log.push_reserved(Entry::Idle(seat));
            return Ok(None);
        }
        let lease = Lease {
            place: self.log.len(),
            task: self.next,
        };
        self.log.push_reserved(Entry::Leased(seat, self.next));
        self.next += 1;
        Ok(Some(lease))
    }

    /// Settles a lease with an amount.
    pub fn settle(&mut self, seat: u32, lease: Lease, amount: u64) -> Result<(), AllocError>
        ensures ok { OnOk result (self.new ≡ with_entry self.old self.old.next (Settled seat lease.place amount)) }
        ensures err { OnErr result (self.new ≡ self.old) }
    {
        self.log.reserve(1)?;
        self.log
            .push_reserved(Entry::Settled(seat, lease.place, amount));
        Ok(())
    }
}
