// Gates that send workers away, and that hold one.
use shared_search::Gate;
use std::sync::atomic::AtomicBool;
use std::sync::atomic::Ordering::SeqCst;

// So often a worker that is held looks whether another was asked.
const TRIES: u32 = 100_000_000;

/// Each worker is sent away at its first leaf.
#[derive(Clone, Copy, Drop, Debug)]
pub struct NoneStays;

impl Gate for NoneStays {
    fn arrive(&self, _worker: u32, _turn: u64) {}

    fn keep(&self, _worker: u32, _turn: u64) -> bool {
        false
    }
}

/// A worker is held before its first turn, the one of number 0 or all others, until another has a leaf and is asked whether it
/// stays; or for many tries. All stay.
#[derive(Drop)]
pub struct OneHeld {
    is_first: bool,
    was_asked: AtomicBool,
    went_on: AtomicBool,
}

impl OneHeld {
    pub fn new(is_first: bool) -> OneHeld {
        OneHeld {
            is_first,
            was_asked: AtomicBool::new(false),
            went_on: AtomicBool::new(false),
        }
    }

    /// Who was held went on since another was asked.
    pub fn went_on(&self) -> bool {
        self.went_on.load(SeqCst)
    }

    fn holds(&self, worker: u32) -> bool {
        (worker == 0) == self.is_first
    }

    fn wait(&self) {
        for _ in 0..TRIES {
            if self.was_asked.load(SeqCst) {
                self.went_on.store(true, SeqCst);
                return;
            }
        }
    }
}

impl Gate for OneHeld {
    fn arrive(&self, worker: u32, turn: u64) {
        if turn == 0 && self.holds(worker) {
            self.wait();
        }
    }

    fn keep(&self, worker: u32, _turn: u64) -> bool {
        if !self.holds(worker) {
            self.was_asked.store(true, SeqCst);
        }
        true
    }
}
