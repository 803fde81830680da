// Files in memory, which tell their bytes and never fail.
ghost use Rattle.std.specs.Prelude.{◌≡◌, ◌<◌, ◌≤◌, [], ◌++◌, ℕ, List, length, take, slice_get, Some, None, OnOk, OnErr, IfOk, Err, string_bytes};
ghost use Rattle.std.specs.Option.{option_map};
ghost use Rattle.outside.specs.Mem.{bytes_named, maker_named, rest_of, name_written, counts_for};

use crate::{OpenTrouble, Store, Trouble};
use std::alloc::{AllocError, Global};

// A file, and the number of the file in hand by which it was made, if by one.
#[derive(Drop)]
pub struct MemFile {
    name: String,
    bytes: Vec<u8>,
    maker: Option<u32>,
}

// A file in hand: what is read of it and how far, or the name under which it was made.
#[derive(Drop)]
pub struct Hand {
    bytes: Vec<u8>,
    at: usize,
    name: Option<String>,
}

/// Files in memory that tell their bytes. No call on them fails, so that their count of faults is 0; memory can run out.
#[derive(Drop)]
pub struct SureStore {
    alloc: Global,
    files: Vec<MemFile>,
    hands: Vec<Hand>,
    at_most: usize,
}

impl SureStore {
    /// No files. A read gives, and a write takes, at most so many bytes; 0 counts as 1.
    pub fn new(alloc: Global, at_most: usize) -> Self
        ensures { (name : List ℕ) → bytes_named result.files.items name ≡ None }
    {
        SureStore {
            alloc,
            files: Vec::new(alloc),
            hands: Vec::new(alloc),
            at_most,
        }
    }

    /// The bytes of the file of this name, or nothing where no file has it.
    pub fn bytes(&self, name: &str) -> Option<&[u8]>
        ensures { option_map (λ (b : _). b.now) result ≡ bytes_named self.now.files.items name.now }
    {
        bytes_of(&self.files, name)
    }

    /// Adds a file, which replaces an older one of its name. An error says that memory ran out, and then nothing has changed.
    pub fn add(&mut self, name: &str, bytes: &[u8]) -> Result<(), AllocError>
        ensures added { OnOk result (bytes_named self.new.files.items name.now ≡ Some bytes.now) }
        ensures others { (other : List ℕ) → (name.now ≡ other → ⊥) → bytes_named self.new.files.items other ≡ bytes_named self.old.files.items other }
        ensures kept { OnErr result (self.new.files.items ≡ self.old.files.items) }
    {
        let bytes = bytes.to_vec(self.alloc)?;
        put(self.alloc, &mut self.files, name, bytes, None)
    }
}

// One more file, before those of its name.
fn put(
    alloc: Global,
    files: &mut Vec<MemFile>,
    name: &str,
    bytes: Vec<u8>,
    maker: Option<u32>,
) -> Result<(), AllocError>
    ensures put { OnOk result (bytes_named files.new.items name.now ≡ Some bytes.items) }
    ensures maker { OnOk result (maker_named files.new.items name.now ≡ maker) }
    ensures others { (other : List ℕ) → (name.now ≡ other → ⊥) → bytes_named files.new.items other ≡ bytes_named files.old.items other }
    ensures makers { (other : List ℕ) → (name.now ≡ other → ⊥) → maker_named files.new.items other ≡ maker_named files.old.items other }
    ensures kept { OnErr result (files.new.items ≡ files.old.items) }
{
    let file = MemFile {
        name: name.to_string(alloc)?,
        bytes,
        maker,
    };
    files.insert(0, file)?;
    Ok(())
}

// One more file in hand.
fn hold(hands: &mut Vec<Hand>, hand: Hand) -> Result<u32, Trouble>
    ensures name { IfOk result (λ file. name_written hands.new.items file ≡ option_map string_bytes hand.name) }
    ensures held { IfOk result (λ file. file < length hands.new.items) }
    ensures new { IfOk result (λ file. file ≡ length hands.old.items) }
    ensures older { (other : ℕ) → other < length hands.old.items → slice_get hands.new.items other ≡ slice_get hands.old.items other }
    ensures names { (other : ℕ) → other < length hands.old.items → name_written hands.new.items other ≡ name_written hands.old.items other }
    ensures longer { length hands.old.items ≤ length hands.new.items }
    ensures only { OnErr result (result ≡ Err Trouble.NoMemory) }
{
    let Ok(file) = u32::try_from(hands.len()) else {
        return Err(Trouble::NoMemory);
    };
    match hands.push(hand) {
        Ok(()) => Ok(file),
        Err(_) => Err(Trouble::NoMemory),
    }
}

// The name under which a file in hand was made.
fn name_at(hands: &[Hand], file: usize) -> Option<&str>
    requires { file < length hands.now }
    ensures { option_map (λ n. n.now) result ≡ name_written hands.now file }
{
    hands[file].name.as_deref()
}

// More bytes behind those of a name.
fn put_behind(
    alloc: Global,
    files: &mut Vec<MemFile>,
    name: &str,
    bytes: &[u8],
    maker: u32,
) -> Result<(), AllocError>
    ensures written { (before : List ℕ) → bytes_named files.old.items name.now ≡ Some before → OnOk result (bytes_named files.new.items name.now ≡ Some (before ++ bytes.now)) }
    ensures maker { OnOk result (maker_named files.new.items name.now ≡ Some maker) }
    ensures others { (other : List ℕ) → (name.now ≡ other → ⊥) → bytes_named files.new.items other ≡ bytes_named files.old.items other }
    ensures makers { (other : List ℕ) → (name.now ≡ other → ⊥) → maker_named files.new.items other ≡ maker_named files.old.items other }
    ensures kept { OnErr result (files.new.items ≡ files.old.items) }
{
    let all = longer(alloc, files, name, bytes)?;
    put(alloc, files, name, all, Some(maker))
}

// The bytes of a name, with more behind them.
fn longer(alloc: Global, files: &[MemFile], name: &str, bytes: &[u8]) -> Result<Vec<u8>, AllocError>
    ensures { (before : List ℕ) → bytes_named files.now name.now ≡ Some before → IfOk result (λ all. all.items ≡ before ++ bytes.now) }
{
    let mut all = match bytes_of(files, name) {
        Some(before) => before.to_vec(alloc)?,
        None => Vec::new(alloc),
    };
    all.extend_from_slice(bytes)?;
    Ok(all)
}

fn bytes_of<'a>(files: &'a [MemFile], name: &str) -> Option<&'a [u8]>
    ensures { option_map (λ (b : _). b.now) result ≡ bytes_named files.now name.now }
{
    for file in files {
        if file.name.as_str() == name {
            return Some(&file.bytes);
        }
    }
    None
}

// Which file in hand made the file of a name.
fn maker_of(files: &[MemFile], name: &str) -> Option<u32>
    ensures { result ≡ maker_named files.now name.now }
{
    for file in files {
        if file.name.as_str() == name {
            return file.maker;
        }
    }
    None
}

impl Store for SureStore {
    ghost told = { λ m name. Some (bytes_named m.files.items name) };

    ghost in_hand = { λ m file. file < length m.hands.items };

    ghost left = { λ m file. option_map rest_of (slice_get m.hands.items file) };

    ghost counts = { λ m file name. counts_for m.hands.items m.files.items file name };

    ghost faults = { λ _. 0 };

    fn open_file(&mut self, name: &str) -> Result<u32, OpenTrouble> {
        let Some(bytes) = bytes_of(&self.files, name) else {
            return Err(OpenTrouble::Missing);
        };
        let Ok(file) = u32::try_from(self.hands.len()) else {
            return Err(OpenTrouble::NoMemory);
        };
        let Ok(bytes) = bytes.to_vec(self.alloc) else {
            return Err(OpenTrouble::NoMemory);
        };
        match self.hands.push(Hand {
            bytes,
            at: 0,
            name: None,
        }) {
            Ok(()) => Ok(file),
            Err(_) => Err(OpenTrouble::NoMemory),
        }
    }

    fn read(&mut self, file: u32, into: &mut [u8]) -> Result<usize, Trouble> {
        let most = self.at_most.max(1);
        let hand = &mut self.hands[file as usize];
        Ok(take_some(hand, most, into))
    }

    fn create(&mut self, name: &str) -> Result<u32, Trouble> {
        let hand = Hand {
            bytes: Vec::new(self.alloc),
            at: 0,
            name: Some(name.to_string(self.alloc)?),
        };
        let file = hold(&mut self.hands, hand)?;
        let empty = Vec::new(self.alloc);
        put(self.alloc, &mut self.files, name, empty, Some(file))?;
        Ok(file)
    }

    fn write(&mut self, file: u32, bytes: &[u8]) -> Result<usize, Trouble> {
        let count = bytes.len().min(self.at_most.max(1));
        if let Some(name) = name_at(&self.hands, file as usize) {
            if maker_of(&self.files, name) == Some(file) {
                put_behind(self.alloc, &mut self.files, name, &bytes[..count], file)?;
            }
        }
        Ok(count)
    }

    fn finish(&mut self, _file: u32) -> Result<(), Trouble> {
        Ok(())
    }
}

// Reads on in a file, at most so many bytes.
fn take_some(hand: &mut Hand, most: usize, into: &mut [u8]) -> usize
    requires { 0 < most }
    ensures bound { result ≤ length into.old }
    ensures bytes { rest_of hand.old ≡ take result into.new ++ rest_of hand.new }
    ensures end { result ≡ 0 → 0 < length into.old → rest_of hand.new ≡ [] }
    ensures name { hand.new.name ≡ hand.old.name }
{
    if hand.bytes.len() <= hand.at {
        return 0;
    }
    let rest = &hand.bytes[hand.at..];
    let count = rest.len().min(into.len()).min(most);
    into[..count].copy_from_slice(&rest[..count]);
    hand.at += count;
    count
}
