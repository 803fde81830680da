//! What data sections give to the objects of a model, or their first fault, in time that grows with the texts.
#![tactic(auto)]

mod objects;
mod statements;
mod tabbing;
mod tables;
mod texts;

pub use objects::{DataObject, DataSort};
pub use texts::{DataSource, LoadError, load};
