//! The formats of `printf` statements, and what they make of their arguments.
#![tactic(auto)]

mod conversion;
mod pieces;
mod printing;
mod reading;
mod texts;

pub use conversion::{Conversion, Piece, Style};
pub use pieces::read_pieces;
pub use printing::printed;
pub use texts::conversion_text;
