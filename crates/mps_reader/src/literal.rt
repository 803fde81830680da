// Number fields.
ghost use Rattle.std.specs.Prelude.{◌≡◌};
ghost use Rattle.fraction.specs.Literal.{read_of};
ghost use Rattle.mps_reader.specs.Follows.{number_or_fault};
ghost use Rattle.mps_reader.specs.Steps.{number_of};

use fraction::{Frac, ReadFault};
use model_text::{FaultKind, ReadError};

// The number of a field, or the kind of its fault.
pub(crate) fn number_of(field: &str) -> Result<Frac, FaultKind>
    ensures { result ≡ number_of field.now }
{
    match Frac::read(field) {
        Ok(value) => Ok(value),
        Err(ReadFault::NotANumber) => Err(FaultKind::BadNumber),
        Err(ReadFault::TooWide) => Err(FaultKind::TooWide),
    }
}

// The number of a field.
pub(crate) fn read_number(field: &str) -> Result<Frac, ReadError<FaultKind>>
    ensures { result ≡ number_or_fault (read_of field.now) }
{
    match Frac::read(field) {
        Ok(value) => Ok(value),
        Err(ReadFault::NotANumber) => Err(ReadError::Fault(FaultKind::BadNumber)),
        Err(ReadFault::TooWide) => Err(ReadError::Fault(FaultKind::TooWide)),
    }
}
