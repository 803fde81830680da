// Why a search ends without an answer.
use std::alloc::AllocError;

/// Why a search ends without an answer.
#[derive(Clone, Copy, Debug, PartialEq, Eq)]
pub enum Stop {
    /// A number does not fit, or something is not as it should be.
    NoFit,
    /// The steps are used up.
    Steps,
    /// The memory is not there.
    NoMemory,
}

impl From<AllocError> for Stop {
    fn from(_error: AllocError) -> Stop {
        Stop::NoMemory
    }
}
