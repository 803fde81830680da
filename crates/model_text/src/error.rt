// Why a text isn't read.
ghost use Rattle.std.specs.Prelude.{◌≡◌};
ghost use Rattle.model_text.specs.declared.error.ReadError.TheVariants.{NoMemory};

use std::alloc::AllocError;

/// Why a text, or a part of one, isn't read. `F` says where and what the fault is.
#[derive(Clone, Copy, Debug, PartialEq, Eq)]
pub enum ReadError<F> {
    /// It has this fault, and none before it.
    Fault(F),
    /// The memory isn't there.
    NoMemory,
}

impl<F> From<AllocError> for ReadError<F> {
    ghost from_gives = { λ _ e. e ≡ NoMemory };

    fn from(_error: AllocError) -> ReadError<F> {
        ReadError::NoMemory
    }
}
