//! The reader of partial certificates: the partial certificate that a text is the text of, or the text's first fault.
#![tactic(auto)]

mod kinds;
mod laws;
mod reading;

pub use certificate_lines::{CertError, CertFault, FaultKind};
pub use kinds::names_undecided;
pub use laws::{partial_texts_are_read_back, texts_name_their_kind};
pub use reading::read_partial;
