// Sparse lists of numbers, one after the other.
use crate::stop::Stop;
use crate::vectors::{add, at, count_up, filled, put};
use fraction::Frac;
use std::alloc::Global;

/// A number, and the place that it belongs to.
#[derive(Clone, Copy)]
pub struct Entry {
    pub at: usize,
    pub number: Frac,
}

/// The number that belongs to a place, or 0.
pub fn number_in(entries: &[Entry], place: usize) -> Frac {
    for entry in entries {
        if entry.at == place {
            return entry.number;
        }
    }
    Frac::zero()
}

/// The numbers of a list that are not 0, with their places.
pub fn entries_of(alloc: Global, list: &[Frac]) -> Result<Vec<Entry>, Stop> {
    let mut entries = Vec::new(alloc);
    for at in 0..list.len() {
        let number = list[at];
        if !number.is_zero() {
            add(&mut entries, Entry { at, number })?;
        }
    }
    Ok(entries)
}

/// Lists of entries, one after the other.
#[derive(Drop)]
pub struct Lists {
    ends: Vec<usize>,
    entries: Vec<Entry>,
}

impl Lists {
    /// No lists.
    pub fn new(alloc: Global) -> Lists {
        Lists {
            ends: Vec::new(alloc),
            entries: Vec::new(alloc),
        }
    }

    /// One more entry of the list that is open.
    pub fn put(&mut self, entry: Entry) -> Result<(), Stop> {
        add(&mut self.entries, entry)
    }

    /// Ends the list that is open.
    pub fn close(&mut self) -> Result<(), Stop> {
        let end = self.entries.len();
        add(&mut self.ends, end)
    }

    /// One more list.
    pub fn add_list(&mut self, entries: &[Entry]) -> Result<(), Stop> {
        for entry in entries {
            add(&mut self.entries, *entry)?;
        }
        self.close()
    }

    /// How many lists there are.
    pub fn count(&self) -> usize {
        self.ends.len()
    }

    /// How many entries there are in all lists.
    pub fn entry_count(&self) -> usize {
        self.entries.len()
    }

    /// The entries of a list.
    #[inline]
    pub fn list(&self, k: usize) -> &[Entry] {
        let start = if k == 0 { 0 } else { at(&self.ends, k - 1, 0) };
        let end = at(&self.ends, k, start);
        if start <= end && end <= self.entries.len() {
            &self.entries[start..end]
        } else {
            &[]
        }
    }

    /// The same entries listed by what they belong to; each entry of the list k then belongs to `names[k]`.
    pub fn turned(&self, alloc: Global, names: &[usize], count: usize) -> Result<Lists, Stop> {
        let mut ends = self.counts(alloc, count)?;
        let mut next = running_sums(alloc, &mut ends)?;
        let nothing = Entry {
            at: 0,
            number: Frac::zero(),
        };
        let mut entries = filled(alloc, self.entries.len(), nothing)?;
        for k in 0..self.ends.len() {
            spread(self.list(k), at(names, k, k), &mut next, &mut entries);
        }
        Ok(Lists { ends, entries })
    }

    // How many entries belong to each place.
    fn counts(&self, alloc: Global, count: usize) -> Result<Vec<usize>, Stop> {
        let mut counts = filled(alloc, count, 0)?;
        for entry in &self.entries {
            count_up(&mut counts, entry.at);
        }
        Ok(counts)
    }
}

// Makes ends of counts, and tells where each list begins.
fn running_sums(alloc: Global, counts: &mut [usize]) -> Result<Vec<usize>, Stop> {
    let mut starts = Vec::with_capacity(alloc, counts.len())?;
    let mut total: usize = 0;
    for k in 0..counts.len() {
        add(&mut starts, total)?;
        total = total.saturating_add(counts[k]);
        counts[k] = total;
    }
    Ok(starts)
}

// Puts each entry at the end of its list.
fn spread(list: &[Entry], name: usize, next: &mut [usize], entries: &mut [Entry]) {
    for entry in list {
        let place = at(next, entry.at, 0);
        let turned = Entry {
            at: name,
            number: entry.number,
        };
        put(entries, place, turned);
        count_up(next, entry.at);
    }
}
