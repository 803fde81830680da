// Files in memory, which tell their bytes. Chosen calls fail.
ghost use Rattle.std.specs.Prelude.{◌≡◌, ◌<◌, ℕ, List, length, slice_get, Some, None, OnOk, OnErr};
ghost use Rattle.std.specs.Option.{option_map};
ghost use Rattle.outside.specs.Mem.{bytes_named, rest_of, counts_for};

use crate::failing::Failing;
use crate::{OpenTrouble, Store, SureStore, Trouble};
use std::alloc::{AllocError, Global};

/// Files in memory that tell their bytes. Each call on it has a number, from 1 on, and those that were named fail.
#[derive(Drop)]
pub struct MemStore {
    sure: SureStore,
    failing: Failing,
}

impl MemStore {
    /// No files. The calls of these numbers fail, from 1 on. A read gives, and a write takes, at most so many bytes; 0 counts as 1.
    pub fn new(alloc: Global, fails: Vec<u64>, at_most: usize) -> Self
        ensures { (name : List ℕ) → bytes_named result.sure.files.items name ≡ None }
    {
        MemStore {
            sure: SureStore::new(alloc, at_most),
            failing: Failing::new(fails),
        }
    }

    /// The bytes of the file of this name, or nothing where no file has it.
    pub fn bytes(&self, name: &str) -> Option<&[u8]>
        ensures { option_map (λ (b : _). b.now) result ≡ bytes_named self.now.sure.files.items name.now }
    {
        self.sure.bytes(name)
    }

    /// Adds a file, which replaces an older one of its name. An error says that memory ran out, and then nothing has changed.
    pub fn add(&mut self, name: &str, bytes: &[u8]) -> Result<(), AllocError>
        ensures added { OnOk result (bytes_named self.new.sure.files.items name.now ≡ Some bytes.now) }
        ensures others { (other : List ℕ) → (name.now ≡ other → ⊥) → bytes_named self.new.sure.files.items other ≡ bytes_named self.old.sure.files.items other }
        ensures kept { OnErr result (self.new.sure.files.items ≡ self.old.sure.files.items) }
    {
        self.sure.add(name, bytes)
    }
}

impl Store for MemStore {
    ghost told = { λ m name. Some (bytes_named m.sure.files.items name) };

    ghost in_hand = { λ m file. file < length m.sure.hands.items };

    ghost left = { λ m file. option_map rest_of (slice_get m.sure.hands.items file) };

    ghost counts = { λ m file name. counts_for m.sure.hands.items m.sure.files.items file name };

    ghost faults = { λ m. m.failing.faults };

    fn open_file(&mut self, name: &str) -> Result<u32, OpenTrouble> {
        if self.failing.next() {
            return Err(OpenTrouble::Failed);
        }
        self.sure.open_file(name)
    }

    fn read(&mut self, file: u32, into: &mut [u8]) -> Result<usize, Trouble> {
        if self.failing.next() {
            return Err(Trouble::Failed);
        }
        self.sure.read(file, into)
    }

    fn create(&mut self, name: &str) -> Result<u32, Trouble> {
        if self.failing.next() {
            return Err(Trouble::Failed);
        }
        self.sure.create(name)
    }

    fn write(&mut self, file: u32, bytes: &[u8]) -> Result<usize, Trouble> {
        if self.failing.next() {
            return Err(Trouble::Failed);
        }
        self.sure.write(file, bytes)
    }

    fn finish(&mut self, file: u32) -> Result<(), Trouble> {
        if self.failing.next() {
            return Err(Trouble::Failed);
        }
        self.sure.finish(file)
    }
}
