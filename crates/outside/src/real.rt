// The real outside: files of the system and standard output. They tell no bytes, and what they do is trusted.
ghost use Rattle.std.specs.Prelude.{◌≡◌, ◌<◌, ◌≤◌, ℕ, length, None, [], IfOk, IsErrOf};
ghost use Rattle.std.specs.Io.{WritesAtMost};
ghost use Rattle.outside.specs.Causes.{Rose};

use crate::{OpenTrouble, Sink, Store, Trouble};
use std::alloc::Global;
use std::fs;
use std::io::{self, Read, Write};
use std::rt::Files;

// What an error of the system means. All but want of memory is a fault.
fn trouble(error: &io::Error, faults: &mut u64) -> Trouble
    ensures later { faults.old ≤ faults.new }
    ensures failed { result ≡ Trouble.Failed → Rose faults.old faults.new }
{
    if error.kind() == io::ErrorKind::OutOfMemory {
        return Trouble::NoMemory;
    }
    fault(faults)
}

// Counts a fault.
fn fault(faults: &mut u64) -> Trouble
    ensures later { faults.old ≤ faults.new }
    ensures rose { Rose faults.old faults.new }
    ensures is { result ≡ Trouble.Failed }
{
    *faults = faults.saturating_add(1);
    Trouble::Failed
}

// How often a write that a signal interrupts is tried.
const MAX_TRIES: u32 = 1_000;

// Writes some bytes from the front. Where a signal interrupts it, it is tried again.
fn write_some<W: Write>(writer: &mut W, bytes: &[u8]) -> io::Result<usize>
    ensures { WritesAtMost result bytes.now }
{
    for _try in 0..MAX_TRIES {
        let result = writer.write(bytes);
        if !is_interrupted(&result) {
            return result;
        }
    }
    Err(io::Error::from(io::ErrorKind::Interrupted))
}

fn is_interrupted(written: &io::Result<usize>) -> bool {
    match written {
        Ok(_) => false,
        Err(error) => error.kind() == io::ErrorKind::Interrupted,
    }
}

// What a write of a piece comes to. To take nothing of a piece that isn't empty is a fault.
fn written(got: io::Result<usize>, bytes: &[u8], faults: &mut u64) -> Result<usize, Trouble>
    ensures bound { WritesAtMost got bytes.now → WritesAtMost result bytes.now }
    ensures some { IfOk result (λ count. count ≡ 0 → bytes.now ≡ []) }
    ensures later { faults.old ≤ faults.new }
    ensures failed { IsErrOf result Trouble.Failed → Rose faults.old faults.new }
{
    match got {
        Ok(0) if !bytes.is_empty() => Err(fault(faults)),
        Ok(count) => Ok(count),
        Err(error) => Err(trouble(&error, faults)),
    }
}

/// The files of the system. It tells no bytes, and counts a fault at each error but want of memory, and "not found" where
/// a file is opened.
#[derive(Drop)]
pub struct RealStore<'a, R: Files> {
    rt: &'a R,
    hands: Vec<Option<R::File>>,
    faults: u64,
}

impl<'a, R: Files> RealStore<'a, R> {
    /// The files that this runtime reaches, none in hand yet.
    pub fn new(rt: &'a R, alloc: Global) -> Self {
        RealStore {
            rt,
            hands: Vec::new(alloc),
            faults: 0,
        }
    }
}

impl<R: Files> Store for RealStore<'_, R> {
    ghost told = { λ s name. None };

    ghost in_hand = { λ s file. file < length s.hands.items };

    ghost left = { λ s file. None };

    ghost counts = { λ s file name. ⊥ };

    ghost faults = { λ s. s.faults };

    fn open_file(&mut self, name: &str) -> Result<u32, OpenTrouble> {
        let Ok(file) = u32::try_from(self.hands.len()) else {
            return Err(OpenTrouble::NoMemory);
        };
        match fs::open(self.rt, name) {
            Ok(opened) => match self.hands.push(Some(opened)) {
                Ok(()) => Ok(file),
                Err(_) => Err(OpenTrouble::NoMemory),
            },
            Err(error) => {
                if error.kind() == io::ErrorKind::NotFound {
                    return Err(OpenTrouble::Missing);
                }
                match trouble(&error, &mut self.faults) {
                    Trouble::Failed => Err(OpenTrouble::Failed),
                    Trouble::NoMemory => Err(OpenTrouble::NoMemory),
                }
            }
        }
    }

    fn read(&mut self, file: u32, into: &mut [u8]) -> Result<usize, Trouble> {
        let Some(opened) = &mut self.hands[file as usize] else {
            return Err(fault(&mut self.faults));
        };
        match opened.read(into) {
            Ok(count) => Ok(count),
            Err(error) => Err(trouble(&error, &mut self.faults)),
        }
    }

    fn create(&mut self, name: &str) -> Result<u32, Trouble> {
        let Ok(file) = u32::try_from(self.hands.len()) else {
            return Err(Trouble::NoMemory);
        };
        match fs::create(self.rt, name) {
            Ok(created) => match self.hands.push(Some(created)) {
                Ok(()) => Ok(file),
                Err(_) => Err(Trouble::NoMemory),
            },
            Err(error) => Err(trouble(&error, &mut self.faults)),
        }
    }

    fn write(&mut self, file: u32, bytes: &[u8]) -> Result<usize, Trouble> {
        let Some(opened) = &mut self.hands[file as usize] else {
            return Err(fault(&mut self.faults));
        };
        let result = write_some(opened, bytes);
        written(result, bytes, &mut self.faults)
    }

    // The file is closed where it is dropped.
    fn finish(&mut self, file: u32) -> Result<(), Trouble> {
        let Some(mut opened) = self.hands[file as usize].take() else {
            return Err(fault(&mut self.faults));
        };
        match opened.flush() {
            Ok(()) => Ok(()),
            Err(error) => Err(trouble(&error, &mut self.faults)),
        }
    }
}

/// Standard output. It tells no bytes, and counts a fault at each error but want of memory.
#[derive(Drop)]
pub struct RealSink<'a, P: Print> {
    rt: &'a P,
    faults: u64,
}

impl<'a, P: Print> RealSink<'a, P> {
    /// The standard output of this runtime.
    pub fn new(rt: &'a P) -> Self {
        RealSink { rt, faults: 0 }
    }

    /// Whether it takes anything at all: an empty write reaches the system, which refuses it where standard output is closed.
    pub fn is_open(&mut self) -> bool {
        self.write(b"").is_ok()
    }
}

impl<P: Print> Sink for RealSink<'_, P> {
    ghost taken = { λ s. None };

    ghost faults = { λ s. s.faults };

    fn write(&mut self, bytes: &[u8]) -> Result<usize, Trouble> {
        let result = write_some(&mut io::writer(self.rt), bytes);
        written(result, bytes, &mut self.faults)
    }
}
