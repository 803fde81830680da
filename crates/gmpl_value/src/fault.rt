// Why a set can't be made.
use crate::tuple::Tuple;
use fraction::NoFit;
use std::alloc::{AllocError, AllocFailed};

/// Why a set can't be made.
#[derive(Clone, Copy, Drop)]
pub enum SetFault {
    /// The set would have more than 5,000,000 elements.
    TooMany,
    /// A number on the way doesn't fit.
    NoFit(NoFit),
    NoMemory,
}

impl From<AllocError> for SetFault {
    ghost use Rattle.std.specs.Prelude.{◌≡◌};
    ghost use Rattle.gmpl_value.specs.declared.fault.SetFault.TheVariants as faults;

    ghost from_gives = { λ _ fault. fault ≡ faults.NoMemory };

    fn from(_: AllocError) -> SetFault {
        SetFault::NoMemory
    }
}

impl<T: Drop> From<AllocFailed<T>> for SetFault {
    ghost use Rattle.std.specs.Prelude.{◌≡◌};
    ghost use Rattle.gmpl_value.specs.declared.fault.SetFault.TheVariants as faults;

    ghost from_gives = { λ _ fault. fault ≡ faults.NoMemory };

    fn from(_: AllocFailed<T>) -> SetFault {
        SetFault::NoMemory
    }
}

impl From<NoFit> for SetFault {
    ghost use Rattle.std.specs.Prelude.{◌≡◌};
    ghost use Rattle.gmpl_value.specs.declared.fault.SetFault.TheVariants as faults;

    ghost from_gives = { λ n fault. fault ≡ faults.NoFit n };

    fn from(no_fit: NoFit) -> SetFault {
        SetFault::NoFit(no_fit)
    }
}

impl From<(Tuple, SetFault)> for SetFault {
    ghost use Rattle.std.specs.Prelude.{◌≡◌};

    ghost from_gives = { λ refused fault. fault ≡ refused.1 };

    fn from(refused: (Tuple, SetFault)) -> SetFault {
        refused.1
    }
}
