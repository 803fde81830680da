// Sinks in memory, which tell their bytes.
ghost use Rattle.std.specs.Prelude.{◌≡◌, [], Some};

use crate::failing::Failing;
use crate::{Sink, Trouble};
use std::alloc::Global;

/// A sink in memory that tells its bytes. No call on it fails, so that its count of faults is 0; memory can run out.
#[derive(Drop)]
pub struct SureSink {
    bytes: Vec<u8>,
    at_most: usize,
}

impl SureSink {
    /// Nothing taken. A write takes at most so many bytes; 0 counts as 1.
    pub fn new(alloc: Global, at_most: usize) -> Self
        ensures { result.bytes.items ≡ [] }
    {
        SureSink {
            bytes: Vec::new(alloc),
            at_most,
        }
    }

    /// All the bytes that it has taken.
    pub fn bytes(&self) -> &[u8]
        ensures { result.now ≡ self.now.bytes.items }
    {
        &self.bytes
    }
}

impl Sink for SureSink {
    ghost taken = { λ s. Some s.bytes.items };

    ghost faults = { λ _. 0 };

    fn write(&mut self, bytes: &[u8]) -> Result<usize, Trouble> {
        let count = bytes.len().min(self.at_most.max(1));
        match self.bytes.extend_from_slice(&bytes[..count]) {
            Ok(()) => Ok(count),
            Err(_) => Err(Trouble::NoMemory),
        }
    }
}

/// A sink in memory that tells its bytes. Each write has a number, from 1 on, and those that were named fail.
#[derive(Drop)]
pub struct MemSink {
    sure: SureSink,
    failing: Failing,
}

impl MemSink {
    /// Nothing taken. The writes of these numbers fail, from 1 on, and a write takes at most so many bytes; 0 counts as 1.
    pub fn new(alloc: Global, fails: Vec<u64>, at_most: usize) -> Self
        ensures { result.sure.bytes.items ≡ [] }
    {
        MemSink {
            sure: SureSink::new(alloc, at_most),
            failing: Failing::new(fails),
        }
    }

    /// All the bytes that it has taken.
    pub fn bytes(&self) -> &[u8]
        ensures { result.now ≡ self.now.sure.bytes.items }
    {
        self.sure.bytes()
    }
}

impl Sink for MemSink {
    ghost taken = { λ s. Some s.sure.bytes.items };

    ghost faults = { λ s. s.failing.faults };

    fn write(&mut self, bytes: &[u8]) -> Result<usize, Trouble> {
        if self.failing.next() {
            return Err(Trouble::Failed);
        }
        self.sure.write(bytes)
    }
}
