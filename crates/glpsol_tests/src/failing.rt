// The call that fails in a run, and how far the run gets.
use crate::deeds::Deed;
use std::alloc::{AllocError, Global};

/// The call that fails: one on the output, or else on the files, behind so many that don't. A read or a write moves one byte, or
/// all that there is.
#[derive(Clone, Copy)]
pub(crate) struct Failing {
    pub(crate) is_on_output: bool,
    pub(crate) before: usize,
    pub(crate) is_by_bytes: bool,
}

impl Failing {
    /// The most that a read or a write moves.
    pub(crate) fn at_most(&self) -> usize {
        if self.is_by_bytes { 1 } else { 4096 }
    }

    /// The calls that fail, of those on the output or else of those on the files.
    pub(crate) fn numbers(
        &self,
        alloc: Global,
        is_on_output: bool,
    ) -> Result<Vec<u64>, AllocError> {
        let mut numbers = Vec::new(alloc);
        if self.is_on_output == is_on_output {
            numbers.push((self.before as u64).saturating_add(1))?;
        }
        Ok(numbers)
    }

    /// How many calls a deed takes there where one fails: on the output its writes; of a file that is read opening, its reads, the
    /// one at its end, and closing; of another one making, its writes, and closing.
    pub(crate) fn calls(&self, deed: &Deed<'_>) -> usize {
        if deed.kind == "lies" || deed.is_on_output() != self.is_on_output {
            return 0;
        }
        let length = deed.text.len();
        let moves = if self.is_by_bytes {
            length
        } else {
            length.min(1)
        };
        if self.is_on_output {
            return moves;
        }
        moves.saturating_add(if deed.is_read() { 3 } else { 2 })
    }

    // How much of its text a deed leaves that is broken off behind so many calls; nothing, where a file isn't made.
    fn part(&self, calls: usize) -> Option<usize> {
        if self.is_on_output {
            return Some(calls);
        }
        match calls.checked_sub(1) {
            Some(moves) => Some(moves.saturating_mul(self.at_most())),
            None => None,
        }
    }
}

/// How far a run has got: so many calls before the one that fails, behind a table's file that was not read, or at its end.
#[derive(Drop)]
pub(crate) enum Course {
    Before(usize),
    Asked,
    Ended,
}

impl Course {
    /// How far it has got behind a deed.
    pub(crate) fn behind(&self, deed: &Deed<'_>, failing: &Failing) -> Course {
        match self {
            Course::Before(left) => match left.checked_sub(failing.calls(deed)) {
                Some(left) => Course::Before(left),
                None if deed.kind == "asks" => Course::Asked,
                None => Course::Ended,
            },
            Course::Asked if deed.kind != "shows" => Course::Asked,
            _ => Course::Ended,
        }
    }

    /// How much of its text a deed leaves; nothing, where nothing is made.
    pub(crate) fn made(&self, deed: &Deed<'_>, failing: &Failing) -> Option<usize> {
        match self {
            Course::Before(left) if *left >= failing.calls(deed) => Some(deed.text.len()),
            Course::Before(left) => failing.part(*left),
            Course::Asked if deed.kind == "shows" => Some(deed.text.len()),
            _ => None,
        }
    }
}
