// Whole texts.
ghost use Rattle.std.specs.Prelude.{◌≡◌, Ok, Err, IfOk};
ghost use Rattle.model_text.specs.declared.fault.FileFault.{FileFault as FileFaultOf};
ghost use Rattle.model_text.specs.Lines.{lines_of};
ghost use Rattle.model_text.specs.Profile.{IsWithinInstance};
ghost use Rattle.model_text.specs.Follows.{Follows, Reads};
ghost use Rattle.mps_reader.specs.Follows.{fault_at};
ghost use Rattle.mps_reader.specs.FreeMps.{declared, declared_from, declared_within};

use crate::line::read_line;
use instance::Instance;
use model_text::{FaultKind, FileFault, Profile, ReadError, first_line, reader_profile};
use mps_draft::{Draft, finish};
use std::alloc::Global;

/// The problem that a free MPS text declares, or its first fault. `Fault` comes exactly where the definition of the
/// format has that fault first; `NoMemory` may come anywhere.
pub fn read_mps(alloc: Global, text: &[u8]) -> Result<Instance, ReadError<FileFault>>
    ensures problem { IfOk result (λ problem. declared text.now ≡ Ok problem) }
    ensures fault { (fault : FileFaultOf) → result ≡ Err (ReadError.Fault fault) → declared text.now ≡ Err fault }
{
    read_within(alloc, &reader_profile(), text)
}

/// The same within a profile's limits.
pub fn read_within(
    alloc: Global,
    profile: &Profile,
    text: &[u8],
) -> Result<Instance, ReadError<FileFault>>
    requires { IsWithinInstance profile.now }
    ensures { Reads result (declared_within profile.now text.now) }
{
    let mut draft = Draft::new(alloc);
    match read_lines(alloc, profile, &mut draft, text) {
        Ok(()) => {}
        Err(error) => return Err(error),
    }
    match finish(alloc, draft) {
        Ok(problem) => Ok(problem),
        Err(_) => Err(ReadError::NoMemory),
    }
}

// Adds what the lines of a text declare.
fn read_lines<'a>(
    alloc: Global,
    profile: &Profile,
    draft: &mut Draft<'a>,
    text: &'a [u8],
) -> Result<(), ReadError<FileFault>>
    requires { IsWithinInstance profile.now }
    ensures { Follows result draft.new (declared_from profile.now 1 draft.old (lines_of text.now)) }
{
    let mut line = 1;
    let mut rest = text;
    while let Some((first, behind)) = first_line(rest) {
        match read_line(alloc, profile, draft, first) {
            Ok(()) => {}
            Err(error) => return Err(at_line(line, error)),
        }
        line += 1;
        rest = behind;
    }
    if draft.section().is_ended() {
        Ok(())
    } else {
        Err(at_line(line, ReadError::Fault(FaultKind::NoEnd)))
    }
}

fn at_line(line: usize, error: ReadError<FaultKind>) -> ReadError<FileFault>
    ensures { result ≡ fault_at line error }
{
    match error {
        ReadError::Fault(kind) => ReadError::Fault(FileFault { line, kind }),
        ReadError::NoMemory => ReadError::NoMemory,
    }
}
