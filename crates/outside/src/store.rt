// Files by name. What a store tells of them is optional; its count of faults is not.
ghost use Rattle.std.specs.Prelude.{◌≡◌, ◌↔◌, ◌<◌, ◌≤◌, ◌+◌, [], ◌++◌, take, List, ℕ, length, vec_len, IfOk, OnOk, OnErr, IsErrOf, Some, None};
ghost use Rattle.std.specs.declared.option.Option.{Option};
ghost use Rattle.std.specs.Io.{ReadsAtMost, WritesAtMost};
ghost use Rattle.std.specs.Io.KnownBytes.{ReadConsumes, Consumes, IsAtEnd};
ghost use Rattle.outside.specs.Causes.{Rose};
ghost use Rattle.outside.specs.Told.{Lacks, Has, IsKeptOrPrefix, part_taken};
ghost use Rattle.outside.specs.declared.store.Trouble.TheVariants.{NoMemory as TroubleNoMemory};
ghost use Rattle.outside.specs.declared.store.LoadFault.TheVariants.{NoMemory as LoadNoMemory};

use std::alloc::{AllocError, Global};
use thiserror::Error;

/// The most bytes of a file that is read.
pub const MAX_FILE: usize = 67_108_864;

/// Why a call on a store or a sink gave no answer.
#[derive(Clone, Copy, Debug, PartialEq, Eq, Error)]
pub enum Trouble {
    /// The outside failed. The object's count of faults rose in the call.
    #[error("the outside failed")]
    Failed,
    /// Memory ran out.
    #[error("out of memory")]
    NoMemory,
}

/// Why a file could not be opened.
#[derive(Clone, Copy, Debug, PartialEq, Eq, Error)]
pub enum OpenTrouble {
    /// No file has the name.
    #[error("no such file")]
    Missing,
    /// The outside failed. The store's count of faults rose in the call.
    #[error("the outside failed")]
    Failed,
    /// Memory ran out.
    #[error("out of memory")]
    NoMemory,
}

/// Why a file was not read whole.
#[derive(Clone, Copy, Debug, PartialEq, Eq, Error)]
pub enum LoadFault {
    /// No file has the name.
    #[error("no such file")]
    Missing,
    /// The outside failed when the file was opened.
    #[error("the file cannot be opened")]
    Open,
    /// The outside failed when the file was read or closed.
    #[error("the file cannot be read")]
    Read,
    /// The file has more than `MAX_FILE` bytes.
    #[error("the file is too long")]
    TooLong,
    /// Memory ran out.
    #[error("out of memory")]
    NoMemory,
}

impl From<AllocError> for Trouble {
    ghost from_gives = { λ _ e. e ≡ TroubleNoMemory };

    fn from(_: AllocError) -> Self {
        Trouble::NoMemory
    }
}

impl From<AllocError> for LoadFault {
    ghost from_gives = { λ _ e. e ≡ LoadNoMemory };

    fn from(_: AllocError) -> Self {
        LoadFault::NoMemory
    }
}

/// Files by name. A store may tell what it holds, as one in memory does, or nothing, as the real one does.
/// Its count of faults never falls, and no call answers `Failed` unless the count rose in that call.
pub trait Store {
    /// What is told of a name: nothing, that no file has it, or the bytes of its file.
    ghost told: { Self → List ℕ → Option (Option (List ℕ)) };

    /// The file of this number is in hand: it was opened or made, and not finished.
    ghost in_hand: { Self → ℕ → Type 0 };

    /// What is left to read of a file in hand, where it is told.
    ghost left: { Self → ℕ → Option (List ℕ) };

    /// What is written to this file in hand counts for this name.
    ghost counts: { Self → ℕ → List ℕ → Type 0 };

    /// How often the store has failed.
    ghost faults: { Self → ℕ };

    /// Opens the file of a name to be read from its start.
    /// Errors: `Missing` where no file has the name, which is no fault; `Failed`; `NoMemory`.
    fn open_file(&mut self, name: &str) -> Result<u32, OpenTrouble>
        ensures lacks { Lacks (told self.old name.now) → OnOk result ⊥ }
        ensures has { (bytes : List ℕ) → Has (told self.old name.now) bytes
            → (IsErrOf result OpenTrouble.Missing → ⊥) × IfOk result (λ file. left self.new file ≡ Some bytes) }
        ensures missing { IsErrOf result OpenTrouble.Missing → faults self.new ≡ faults self.old }
        ensures in_hand { IfOk result (λ file. in_hand self.new file) }
        ensures fresh { IfOk result (λ file. in_hand self.old file → ⊥) }
        ensures told { (other : List ℕ) → told self.new other ≡ told self.old other }
        ensures hands { (other : ℕ) → in_hand self.old other → in_hand self.new other }
        ensures lefts { (other : ℕ) → in_hand self.old other → left self.new other ≡ left self.old other }
        ensures claims { (other : ℕ) (claimed : List ℕ) → in_hand self.old other → counts self.new other claimed ↔ counts self.old other claimed }
        ensures later { faults self.old ≤ faults self.new }
        ensures failed { IsErrOf result OpenTrouble.Failed → Rose (faults self.old) (faults self.new) };

    /// Reads the next bytes of a file in hand, and says how many. 0 bytes read into some room are the end of the file.
    /// Errors: `Failed`, `NoMemory`; nothing is read then.
    fn read(&mut self, file: u32, into: &mut [u8]) -> Result<usize, Trouble>
        requires { in_hand self.old file }
        ensures bound { ReadsAtMost result into.new }
        ensures bytes { ReadConsumes (left self.old file) (left self.new file) result into.new }
        ensures in_hand { in_hand self.new file }
        ensures told { (other : List ℕ) → told self.new other ≡ told self.old other }
        ensures hands { (other : ℕ) → (other ≡ file → ⊥) → in_hand self.old other → in_hand self.new other }
        ensures lefts { (other : ℕ) → (other ≡ file → ⊥) → in_hand self.old other → left self.new other ≡ left self.old other }
        ensures claims { (other : ℕ) (claimed : List ℕ) → in_hand self.old other → counts self.new other claimed ↔ counts self.old other claimed }
        ensures later { faults self.old ≤ faults self.new }
        ensures failed { IsErrOf result Trouble.Failed → Rose (faults self.old) (faults self.new) };

    /// Makes an empty file of this name, which replaces an older one.
    /// What is written to an older one after that counts for this name no more.
    /// Errors: `Failed`, `NoMemory`; the name then has what it had.
    fn create(&mut self, name: &str) -> Result<u32, Trouble>
        ensures made { (before : Option (List ℕ)) → told self.old name.now ≡ Some before
            → IfOk result (λ file. Has (told self.new name.now) [] × counts self.new file name.now) }
        ensures alone { (other : List ℕ) → (other ≡ name.now → ⊥) → IfOk result (λ file. counts self.new file other → ⊥) }
        ensures others { (other : List ℕ) → (other ≡ name.now → ⊥) → told self.new other ≡ told self.old other }
        ensures kept { OnErr result (told self.new name.now ≡ told self.old name.now) }
        ensures older { (other : ℕ) → in_hand self.old other → OnOk result (counts self.new other name.now → ⊥) }
        ensures claims { (other : ℕ) (claimed : List ℕ) → in_hand self.old other → (claimed ≡ name.now → ⊥)
            → counts self.new other claimed ↔ counts self.old other claimed }
        ensures claims_kept { (other : ℕ) (claimed : List ℕ) → in_hand self.old other
            → OnErr result (counts self.new other claimed ↔ counts self.old other claimed) }
        ensures in_hand { IfOk result (λ file. in_hand self.new file) }
        ensures fresh { IfOk result (λ file. in_hand self.old file → ⊥) }
        ensures hands { (other : ℕ) → in_hand self.old other → in_hand self.new other }
        ensures lefts { (other : ℕ) → in_hand self.old other → left self.new other ≡ left self.old other }
        ensures later { faults self.old ≤ faults self.new }
        ensures failed { IsErrOf result Trouble.Failed → Rose (faults self.old) (faults self.new) };

    /// Writes some bytes from the front of a piece, and says how many. It is at least 1 of a piece that isn't empty.
    /// Errors: `Failed`, `NoMemory`; nothing is written then.
    fn write(&mut self, file: u32, bytes: &[u8]) -> Result<usize, Trouble>
        requires { in_hand self.old file }
        ensures bound { WritesAtMost result bytes.now }
        ensures some { IfOk result (λ count. count ≡ 0 → bytes.now ≡ []) }
        ensures written { (name : List ℕ) (before : List ℕ) → counts self.old file name → Has (told self.old name) before
            → Has (told self.new name) (before ++ part_taken result bytes.now) }
        ensures others { (name : List ℕ) → (counts self.old file name → ⊥) → told self.new name ≡ told self.old name }
        ensures counts { (name : List ℕ) → counts self.new file name ↔ counts self.old file name }
        ensures in_hand { in_hand self.new file }
        ensures hands { (other : ℕ) → (other ≡ file → ⊥) → in_hand self.old other → in_hand self.new other }
        ensures lefts { (other : ℕ) → (other ≡ file → ⊥) → in_hand self.old other → left self.new other ≡ left self.old other }
        ensures claims { (other : ℕ) (claimed : List ℕ) → in_hand self.old other → counts self.new other claimed ↔ counts self.old other claimed }
        ensures later { faults self.old ≤ faults self.new }
        ensures failed { IsErrOf result Trouble.Failed → Rose (faults self.old) (faults self.new) };

    /// Closes a file in hand.
    /// Errors: `Failed`, `NoMemory`.
    fn finish(&mut self, file: u32) -> Result<(), Trouble>
        requires { in_hand self.old file }
        ensures told { (other : List ℕ) → told self.new other ≡ told self.old other }
        ensures hands { (other : ℕ) → (other ≡ file → ⊥) → in_hand self.old other → in_hand self.new other }
        ensures lefts { (other : ℕ) → (other ≡ file → ⊥) → in_hand self.old other → left self.new other ≡ left self.old other }
        ensures claims { (other : ℕ) (claimed : List ℕ) → (other ≡ file → ⊥) → in_hand self.old other → counts self.new other claimed ↔ counts self.old other claimed }
        ensures later { faults self.old ≤ faults self.new }
        ensures failed { IsErrOf result Trouble.Failed → Rose (faults self.old) (faults self.new) };
}

// The file is closed in any case.
/// The whole file of a name, of at most `MAX_FILE` bytes.
/// Errors: `Missing` where no file has the name; `Open` and `Read` where the outside failed, closing included;
/// `TooLong` where the file has more bytes; `NoMemory`.
pub fn read_all<S: Store>(alloc: Global, store: &mut S, name: &str) -> Result<Vec<u8>, LoadFault>
    ensures bytes { (bytes : List ℕ) → Has (S.told store.old name.now) bytes → IfOk result (λ read. read.items ≡ bytes) }
    ensures length { IfOk result (λ read. length read.items ≤ MAX_FILE) }
    ensures lacks { Lacks (S.told store.old name.now) → OnOk result ⊥ }
    ensures missing { IsErrOf result LoadFault.Missing → (bytes : List ℕ) → Has (S.told store.old name.now) bytes → ⊥ }
    ensures no_fault { IsErrOf result LoadFault.Missing → S.faults store.new ≡ S.faults store.old }
    ensures open { IsErrOf result LoadFault.Open → Rose (S.faults store.old) (S.faults store.new) }
    ensures read { IsErrOf result LoadFault.Read → Rose (S.faults store.old) (S.faults store.new) }
    ensures too_long { IsErrOf result LoadFault.TooLong → (bytes : List ℕ) → Has (S.told store.old name.now) bytes → MAX_FILE < length bytes }
    ensures lacks_read { IsErrOf result LoadFault.Read → Lacks (S.told store.old name.now) → ⊥ }
    ensures lacks_too_long { IsErrOf result LoadFault.TooLong → Lacks (S.told store.old name.now) → ⊥ }
    ensures told { (other : List ℕ) → S.told store.new other ≡ S.told store.old other }
    ensures later { S.faults store.old ≤ S.faults store.new }
{
    let file = match store.open_file(name) {
        Ok(file) => file,
        Err(OpenTrouble::Missing) => return Err(LoadFault::Missing),
        Err(OpenTrouble::Failed) => return Err(LoadFault::Open),
        Err(OpenTrouble::NoMemory) => return Err(LoadFault::NoMemory),
    };
    let read = read_rest(alloc, store, file);
    let finished = store.finish(file);
    let bytes = read?;
    match finished {
        Ok(()) => Ok(bytes),
        Err(Trouble::Failed) => Err(LoadFault::Read),
        Err(Trouble::NoMemory) => Err(LoadFault::NoMemory),
    }
}

// The file is closed in any case.
/// Writes all the bytes to a file of this name, made anew.
/// Errors: `Failed`, `NoMemory`; the file then has a part of the bytes from the front, or is as it was.
pub fn write_file<S: Store>(store: &mut S, name: &str, bytes: &[u8]) -> Result<(), Trouble>
    ensures all { (before : Option (List ℕ)) → S.told store.old name.now ≡ Some before → OnOk result (Has (S.told store.new name.now) bytes.now) }
    ensures prefix { (before : Option (List ℕ)) → S.told store.old name.now ≡ Some before
        → IsKeptOrPrefix before (S.told store.new name.now) bytes.now }
    ensures others { (other : List ℕ) → (other ≡ name.now → ⊥) → S.told store.new other ≡ S.told store.old other }
    ensures later { S.faults store.old ≤ S.faults store.new }
    ensures failed { IsErrOf result Trouble.Failed → Rose (S.faults store.old) (S.faults store.new) }
{
    let file = store.create(name)?;
    let written = write_rest(store, file, bytes);
    let finished = store.finish(file);
    written?;
    finished
}

// Writes all the bytes behind what was written to a file in hand.
fn write_rest<S: Store>(store: &mut S, file: u32, bytes: &[u8]) -> Result<(), Trouble>
    requires { S.in_hand store.old file }
    ensures all { (name : List ℕ) (before : List ℕ) → S.counts store.old file name → Has (S.told store.old name) before
        → OnOk result (Has (S.told store.new name) (before ++ bytes.now)) }
    ensures prefix { (name : List ℕ) (before : List ℕ) → S.counts store.old file name → Has (S.told store.old name) before
        → (k : ℕ) × Has (S.told store.new name) (before ++ take k bytes.now) }
    ensures others { (name : List ℕ) → (S.counts store.old file name → ⊥) → S.told store.new name ≡ S.told store.old name }
    ensures in_hand { S.in_hand store.new file }
    ensures later { S.faults store.old ≤ S.faults store.new }
    ensures failed { IsErrOf result Trouble.Failed → Rose (S.faults store.old) (S.faults store.new) }
{
    let mut rest = bytes;
    while !rest.is_empty() {
        let count = store.write(file, rest)?;
        rest = &rest[count..];
    }
    Ok(())
}

// All that is left of a file in hand.
fn read_rest<S: Store>(alloc: Global, store: &mut S, file: u32) -> Result<Vec<u8>, LoadFault>
    requires { S.in_hand store.old file }
    ensures bytes { (bytes : List ℕ) → S.left store.old file ≡ Some bytes → IfOk result (λ read. read.items ≡ bytes) }
    ensures length { IfOk result (λ read. length read.items ≤ MAX_FILE) }
    ensures in_hand { S.in_hand store.new file }
    ensures missing { IsErrOf result LoadFault.Missing → ⊥ }
    ensures open { IsErrOf result LoadFault.Open → ⊥ }
    ensures read { IsErrOf result LoadFault.Read → Rose (S.faults store.old) (S.faults store.new) }
    ensures too_long { IsErrOf result LoadFault.TooLong → (bytes : List ℕ) → S.left store.old file ≡ Some bytes → MAX_FILE < length bytes }
    ensures told { (other : List ℕ) → S.told store.new other ≡ S.told store.old other }
    ensures later { S.faults store.old ≤ S.faults store.new }
{
    let mut bytes = Vec::new(alloc);
    while bytes.len() <= MAX_FILE {
        if read_piece(store, file, &mut bytes)? == 0 {
            return Ok(bytes);
        }
    }
    Err(LoadFault::TooLong)
}

// The next piece, at the end of what was read. None at the end of the file alone.
fn read_piece<S: Store>(store: &mut S, file: u32, bytes: &mut Vec<u8>) -> Result<usize, LoadFault>
    requires { S.in_hand store.old file }
    ensures piece { OnOk result ((piece : List ℕ) × Consumes (S.left store.old file) (S.left store.new file) piece
        × (bytes.new.items ≡ bytes.old.items ++ piece)) }
    ensures count { IfOk result (λ count. vec_len bytes.new ≡ vec_len bytes.old + count) }
    ensures end { IfOk result (λ count. count ≡ 0 → IsAtEnd (S.left store.new file)) }
    ensures in_hand { S.in_hand store.new file }
    ensures only { (IsErrOf result LoadFault.Missing → ⊥) × (IsErrOf result LoadFault.Open → ⊥) × (IsErrOf result LoadFault.TooLong → ⊥) }
    ensures read { IsErrOf result LoadFault.Read → Rose (S.faults store.old) (S.faults store.new) }
    ensures told { (other : List ℕ) → S.told store.new other ≡ S.told store.old other }
    ensures later { S.faults store.old ≤ S.faults store.new }
{
    let mut piece = [0; 4096];
    match store.read(file, &mut piece) {
        Ok(count) => {
            bytes.extend_from_slice(&piece[..count])?;
            Ok(count)
        }
        Err(Trouble::Failed) => Err(LoadFault::Read),
        Err(Trouble::NoMemory) => Err(LoadFault::NoMemory),
    }
}
