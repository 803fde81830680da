// Why a text is no table.
use std::alloc::{AllocError, AllocFailed};

/// What is wrong with the text of a table.
#[derive(Clone, Copy, Debug, PartialEq, Eq)]
pub enum TableFault {
    /// The header does not name a field that is asked for.
    NoField,
    /// A record, or the header, that is not UTF-8, or a record of another length than the header.
    BadRecord,
    /// A record with the key of an earlier one.
    TwiceKey,
}

/// The text has a fault, or memory is wanting.
#[derive(Clone, Copy, Debug, PartialEq, Eq)]
pub enum TableError {
    Fault(TableFault),
    NoMemory,
}

impl From<AllocError> for TableError {
    ghost use Rattle.std.specs.Prelude.{◌≡◌};
    ghost use Rattle.csv_tables.specs.declared.fault.TableError.TheVariants.{NoMemory};

    ghost from_gives = { λ _ error. error ≡ NoMemory };

    fn from(_: AllocError) -> TableError {
        TableError::NoMemory
    }
}

impl<T: Drop> From<AllocFailed<T>> for TableError {
    ghost use Rattle.std.specs.Prelude.{◌≡◌};
    ghost use Rattle.csv_tables.specs.declared.fault.TableError.TheVariants.{NoMemory};

    ghost from_gives = { λ _ error. error ≡ NoMemory };

    fn from(_: AllocFailed<T>) -> TableError {
        TableError::NoMemory
    }
}
