// A model, and why there is none.
use gmpl_kinds::Object;
use gmpl_resolved::{Numbered, NumberedStep};
use gmpl_syntax::SyntaxFault;
use sqlite_items::Items;
use std::alloc::AllocError;

/// A model, with its names resolved.
#[derive(Drop)]
pub struct Model {
    /// The statements that declare in order, each behind the steps before it.
    pub statements: Items<Numbered>,
    /// The steps behind the last of them.
    pub steps: Items<NumberedStep>,
    /// The objects that they declare, one each.
    pub objects: Items<Object>,
    /// Where a data section stands behind the model: the place of the semicolon before it.
    pub data_at: Option<usize>,
}

/// The first fault of a model, or want of memory.
#[derive(Clone, Copy, Debug, PartialEq, Eq)]
pub enum ParseError {
    Fault(SyntaxFault),
    NoMemory,
}

impl From<AllocError> for ParseError {
    ghost use Rattle.std.specs.Prelude.{◌≡◌};
    ghost use Rattle.gmpl_parse.specs.declared.model.ParseError.TheVariants.{NoMemory};

    ghost from_gives = { λ _ e. e ≡ NoMemory };

    fn from(_: AllocError) -> ParseError {
        ParseError::NoMemory
    }
}
