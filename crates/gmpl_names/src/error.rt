// Why a part has no names resolved.
use gmpl_syntax::SyntaxFaultKind;
use std::alloc::{AllocError, AllocFailed};

/// What is wrong with a part (`Undeclared`, `Declared` or `Unsupported`), or want of memory.
#[derive(Clone, Copy, Debug, PartialEq, Eq)]
pub enum NamesError {
    Fault(SyntaxFaultKind),
    NoMemory,
}

impl From<AllocError> for NamesError {
    ghost use Rattle.std.specs.Prelude.{◌≡◌};
    ghost use Rattle.gmpl_names.specs.declared.error.NamesError.TheVariants.{NoMemory};

    ghost from_gives = { λ _ e. e ≡ NoMemory };

    fn from(_: AllocError) -> NamesError {
        NamesError::NoMemory
    }
}

impl<T: Drop> From<AllocFailed<T>> for NamesError {
    ghost use Rattle.std.specs.Prelude.{◌≡◌};
    ghost use Rattle.gmpl_names.specs.declared.error.NamesError.TheVariants.{NoMemory};

    ghost from_gives = { λ _ e. e ≡ NoMemory };

    fn from(_: AllocFailed<T>) -> NamesError {
        NamesError::NoMemory
    }
}
