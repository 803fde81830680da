// Why a rule gives no value.

use gmpl_syntax::SyntaxFaultKind;
use std::alloc::AllocError;

/// The tokens have a fault, or memory is wanting.
#[derive(Clone, Copy, Debug, PartialEq, Eq)]
pub enum ParseError {
    Fault(SyntaxFaultKind),
    NoMemory,
}

impl From<AllocError> for ParseError {
    ghost use Rattle.std.specs.Prelude.{◌≡◌};
    ghost use Rattle.gmpl_input.specs.declared.error.ParseError.TheVariants.{NoMemory};

    ghost from_gives = { λ _ error. error ≡ NoMemory };

    fn from(_: AllocError) -> ParseError {
        ParseError::NoMemory
    }
}
