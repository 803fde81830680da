//! What the expressions of a MathProg model mean, and what its members come to: definitions, and the types that they speak of.
#![tactic(auto)]

mod asked;
mod bounds;
mod kept;
mod value;
mod walk;
mod written;

pub use asked::Asked;
pub use bounds::Bounds;
pub use kept::Kept;
pub use value::KeptValue;
pub use walk::{Element, EntryValue, Walk};
pub use written::asked_by;
