// Why no subset is found.
ghost use Rattle.std.specs.Prelude.{◌≡◌};
ghost use Rattle.infeasible_subset.specs.declared.fault.SubsetFault.TheVariants.{NoMemory};

use crate::Members;
use fraction::NoFit;
use search_node::Bases;
use std::alloc::AllocError;

/// The bounds that the problem keeps, and an operation there that does not fit.
#[derive(Drop)]
pub struct StuckAt {
    pub members: Members,
    pub fault: NoFit,
}

/// The bounds that the problem keeps, and the bases of the first steps of Bland's run there.
#[derive(Drop)]
pub struct TooLong {
    pub members: Members,
    pub bases: Bases,
}

/// Why no subset is found.
#[derive(Drop)]
pub enum SubsetFault {
    /// An operation of the work on the problem with these bounds alone does not fit.
    NoFit(StuckAt),
    /// Bland's run on the problem with these bounds alone is longer than the limit of steps.
    PivotLimit(TooLong),
    /// The memory is not there.
    NoMemory,
}

impl From<AllocError> for SubsetFault {
    ghost from_gives = { λ _ fault. fault ≡ NoMemory };

    fn from(_error: AllocError) -> SubsetFault {
        SubsetFault::NoMemory
    }
}
