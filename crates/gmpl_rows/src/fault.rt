// Why a row is not taken.
use std::alloc::{AllocError, AllocFailed};

/// Why a row is not taken.
#[derive(Clone, Copy, Debug, PartialEq, Eq, Drop)]
pub enum DraftFault {
    /// A row, a column or an entry would pass a limit of an instance.
    TooMany,
    NoMemory,
}

impl From<AllocError> for DraftFault {
    ghost use Rattle.std.specs.Prelude.{◌≡◌};
    ghost use Rattle.gmpl_rows.specs.declared.fault.DraftFault.TheVariants as faults;

    ghost from_gives = { λ _ fault. fault ≡ faults.NoMemory };

    fn from(_: AllocError) -> DraftFault {
        DraftFault::NoMemory
    }
}

impl<T: Drop> From<AllocFailed<T>> for DraftFault {
    ghost use Rattle.std.specs.Prelude.{◌≡◌};
    ghost use Rattle.gmpl_rows.specs.declared.fault.DraftFault.TheVariants as faults;

    ghost from_gives = { λ _ fault. fault ≡ faults.NoMemory };

    fn from(_: AllocFailed<T>) -> DraftFault {
        DraftFault::NoMemory
    }
}
