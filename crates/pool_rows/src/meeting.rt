// A gate that holds each of two workers in its first turn until the other has come, or for many tries.

use crate::gate::Gate;
use std::sync::atomic::AtomicBool;
use std::sync::atomic::Ordering::SeqCst;

const TRIES: u32 = 100_000_000;

/// Who has come, and who saw the other come.
#[derive(Drop)]
pub struct Meeting {
    first: AtomicBool,
    second: AtomicBool,
    first_met: AtomicBool,
    second_met: AtomicBool,
}

impl Meeting {
    pub fn new() -> Meeting {
        Meeting {
            first: AtomicBool::new(false),
            second: AtomicBool::new(false),
            first_met: AtomicBool::new(false),
            second_met: AtomicBool::new(false),
        }
    }

    pub fn first_met(&self) -> bool {
        self.first_met.load(SeqCst)
    }

    pub fn second_met(&self) -> bool {
        self.second_met.load(SeqCst)
    }
}

// Waits until the other has come, and says whether it has.
fn waits(other: &AtomicBool) -> bool {
    for _ in 0..TRIES {
        if other.load(SeqCst) {
            return true;
        }
    }
    false
}

impl Gate for Meeting {
    fn arrive(&self, worker: u32, turn: u64) {
        if turn > 0 {
            return;
        }
        if worker == 0 {
            self.first.store(true, SeqCst);
            if waits(&self.second) {
                self.first_met.store(true, SeqCst);
            }
        } else {
            self.second.store(true, SeqCst);
            if waits(&self.first) {
                self.second_met.store(true, SeqCst);
            }
        }
    }
}
