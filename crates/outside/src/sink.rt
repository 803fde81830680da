// A sink takes bytes in pieces. What it tells of them is optional; its count of faults is not.
ghost use Rattle.std.specs.Prelude.{◌≡◌, ◌≤◌, [], List, ℕ, IfOk, OnOk, IsErrOf};
ghost use Rattle.std.specs.declared.option.Option.{Option};
ghost use Rattle.std.specs.Io.{WritesAtMost};
ghost use Rattle.std.specs.Io.KnownBytes.{WriteAppends, Appends};
ghost use Rattle.outside.specs.Causes.{Rose};
ghost use Rattle.outside.specs.Told.{AppendsPrefix};

use crate::Trouble;

/// Takes bytes in pieces. A sink may tell what it took, as one in memory does, or nothing, as the real one does.
/// Its count of faults never falls, and no write answers `Failed` unless the count rose in that write.
pub trait Sink {
    /// The bytes that it has taken, where it tells them.
    ghost taken: { Self → Option (List ℕ) };

    /// How often it has failed.
    ghost faults: { Self → ℕ };

    /// Takes some bytes from the front of a piece, and says how many. It is at least 1 of a piece that isn't empty.
    /// Errors: `Failed`, `NoMemory`; nothing is taken then.
    fn write(&mut self, bytes: &[u8]) -> Result<usize, Trouble>
        ensures bound { WritesAtMost result bytes.now }
        ensures taken { WriteAppends (taken self.old) (taken self.new) result bytes.now }
        ensures some { IfOk result (λ count. count ≡ 0 → bytes.now ≡ []) }
        ensures later { faults self.old ≤ faults self.new }
        ensures failed { IsErrOf result Trouble.Failed → Rose (faults self.old) (faults self.new) };
}

/// Writes all the bytes.
/// Errors: `Failed`, `NoMemory`; the sink has then taken a part of them from the front.
pub fn write_all<O: Sink>(sink: &mut O, bytes: &[u8]) -> Result<(), Trouble>
    ensures all { OnOk result (Appends (O.taken sink.old) (O.taken sink.new) bytes.now) }
    ensures prefix { AppendsPrefix (O.taken sink.old) (O.taken sink.new) bytes.now }
    ensures later { O.faults sink.old ≤ O.faults sink.new }
    ensures failed { IsErrOf result Trouble.Failed → Rose (O.faults sink.old) (O.faults sink.new) }
{
    let mut rest = bytes;
    while !rest.is_empty() {
        let count = sink.write(rest)?;
        rest = &rest[count..];
    }
    Ok(())
}
