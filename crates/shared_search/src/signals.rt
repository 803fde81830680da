// What workers tell one another beside the board. These are hints, of which no clause speaks.
use std::sync::atomic::Ordering::SeqCst;
use std::sync::atomic::{AtomicBool, AtomicU64};

/// Whether all workers are to end, how often a worker that waits had cause to ask again, and how many leaves were left behind.
#[derive(Drop)]
pub(crate) struct Signals {
    halted: AtomicBool,
    news: AtomicU64,
    left_behind: AtomicU64,
}

impl Signals {
    /// Nothing was told yet.
    pub(crate) fn new() -> Signals {
        Signals {
            halted: AtomicBool::new(false),
            news: AtomicU64::new(0),
            left_behind: AtomicU64::new(0),
        }
    }

    /// All workers are to end.
    pub(crate) fn halt(&self) {
        self.halted.store(true, SeqCst);
    }

    /// Whether all are to end.
    pub(crate) fn is_halted(&self) -> bool {
        self.halted.load(SeqCst)
    }

    /// Who waits for a leaf has cause to ask again: a leaf was split, or a worker has ended.
    pub(crate) fn tell_news(&self) {
        self.news.fetch_add(1, SeqCst);
    }

    /// How often there was such news.
    pub(crate) fn news(&self) -> u64 {
        self.news.load(SeqCst)
    }

    /// A worker is sent away, and its leaf stays leased.
    pub(crate) fn leave_behind(&self) {
        self.left_behind.fetch_add(1, SeqCst);
    }

    /// How many leaves stay leased, though no one works on them.
    pub(crate) fn left_behind(&self) -> u64 {
        self.left_behind.load(SeqCst)
    }
}
