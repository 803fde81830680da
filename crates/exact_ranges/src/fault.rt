// Why ranges are not found.
ghost use Rattle.std.specs.Prelude.{◌≡◌};
ghost use Rattle.exact_ranges.specs.declared.fault.RangeFault.TheVariants.{NoMemory};

use crate::{End, Side, Sought};
use branch_search::VerdictFault;
use fraction::NoFit;
use std::alloc::AllocError;

/// Why ranges are not found.
#[derive(Drop)]
pub enum RangeFault {
    /// There is no verdict of the auxiliary problem of this end.
    Search(Sought, VerdictFault),
    /// The auxiliary problem of this end has more columns, rows or entries than an instance takes.
    TooLarge(Sought),
    /// The sum of a row's weights that use this bound does not fit.
    Weight(usize, Side, NoFit),
    /// The sum of this bound and the least or greatest distance that it moves does not fit.
    MovedBound(usize, Side, End, NoFit),
    /// The memory is not there.
    NoMemory,
}

impl From<AllocError> for RangeFault {
    ghost from_gives = { λ _ fault. fault ≡ NoMemory };

    fn from(_error: AllocError) -> RangeFault {
        RangeFault::NoMemory
    }
}
