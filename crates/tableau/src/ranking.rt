// A heap of slots by score.
use sparse_factors::{Stop, add};
use std::alloc::Global;

/// A slot, with its score and its rank among those of the same score when it was added.
#[derive(Clone, Copy)]
pub(crate) struct Ranked {
    pub(crate) score: i64,
    pub(crate) rank: usize,
    pub(crate) slot: usize,
}

impl Ranked {
    // The higher score comes first, of equal ones the lower rank.
    fn is_before(&self, other: &Ranked) -> bool {
        if self.score == other.score {
            self.rank < other.rank
        } else {
            self.score > other.score
        }
    }

    /// It comes before the best one so far, if there is one.
    pub(crate) fn is_before_all(&self, best: Option<Ranked>) -> bool {
        match best {
            None => true,
            Some(best) => self.is_before(&best),
        }
    }
}

/// Slots by their scores, the highest one first. A slot may be there several times.
#[derive(Drop)]
pub(crate) struct Ranking {
    heap: Vec<Ranked>,
}

impl Ranking {
    /// No slots.
    pub(crate) fn new(alloc: Global) -> Ranking {
        Ranking {
            heap: Vec::new(alloc),
        }
    }

    /// How many there are.
    pub(crate) fn count(&self) -> usize {
        self.heap.len()
    }

    /// Drops all.
    pub(crate) fn clear(&mut self) {
        self.heap.clear();
    }

    /// One more.
    pub(crate) fn add(&mut self, ranked: Ranked) -> Result<(), Stop> {
        let last = self.heap.len();
        add(&mut self.heap, ranked)?;
        rise(&mut self.heap, last);
        Ok(())
    }

    /// The first one.
    pub(crate) fn first(&self) -> Option<Ranked> {
        match self.heap.first() {
            None => None,
            Some(first) => Some(*first),
        }
    }

    /// Drops the first one.
    pub(crate) fn drop_first(&mut self) {
        if !self.heap.is_empty() {
            self.heap.swap_remove(0);
            sink(&mut self.heap);
        }
    }
}

// One goes up while it comes before the one above.
fn rise(heap: &mut [Ranked], place: usize) {
    let mut at = place;
    while at > 0 && at < heap.len() {
        let above = (at - 1) / 2;
        if !heap[at].is_before(&heap[above]) {
            return;
        }
        heap.swap(at, above);
        at = above;
    }
}

// The first one goes down while one below comes before it.
fn sink(heap: &mut [Ranked]) {
    let mut at = 0;
    while at < heap.len() {
        let next = below(heap, at);
        if next <= at || next >= heap.len() || !heap[next].is_before(&heap[at]) {
            return;
        }
        heap.swap(at, next);
        at = next;
    }
}

// The one below that comes first, or past the end.
fn below(heap: &[Ranked], at: usize) -> usize {
    let low = at.saturating_mul(2).saturating_add(1);
    let high = low.saturating_add(1);
    if low < heap.len() && high < heap.len() && heap[high].is_before(&heap[low]) {
        high
    } else {
        low
    }
}
