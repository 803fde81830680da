// The first fault of a data section.

use std::alloc::AllocError;

/// What is wrong with a block.
#[derive(Clone, Copy, Debug, PartialEq, Eq)]
pub enum DataFaultKind {
    /// A byte that begins no token.
    BadByte,
    /// A string that does not end on its line.
    UnendedString,
    /// A comment that does not end.
    UnendedComment,
    /// A number that doesn't fit.
    TooWide,
    /// Tokens that no block allows.
    BadForm,
    /// A name that is no set's or parameter's.
    Unknown,
    /// An object that has its value by an expression of the model.
    HasExpression,
    /// A slice, a table or a list of subscripts that does not go with the dimension.
    WrongDimension,
    /// A member that is given a value again, a set an element again, or a parameter a default again.
    Twice,
    /// The text ends inside a block.
    Unended,
}

/// The first fault: the number of its block, counted from 1 over all texts, the line of the block's first token, from 1, and
/// what is wrong.
#[derive(Clone, Copy, Debug, PartialEq, Eq)]
pub struct DataFault {
    pub block: usize,
    pub line: usize,
    pub kind: DataFaultKind,
}

/// A block has a fault, or memory is wanting.
#[derive(Clone, Copy, Debug, PartialEq, Eq)]
pub enum DataError {
    Fault(DataFaultKind),
    NoMemory,
}

impl From<AllocError> for DataError {
    ghost use Rattle.std.specs.Prelude.{◌≡◌};
    ghost use Rattle.gmpl_blocks.specs.declared.fault.DataError.TheVariants.{NoMemory};

    ghost from_gives = { λ _ error. error ≡ NoMemory };

    fn from(_: AllocError) -> DataError {
        DataError::NoMemory
    }
}
