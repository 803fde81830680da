//! The reader of certificates: the certificate that a text is the text of, or the text's first fault.
#![tactic(auto)]

mod laws;
mod reading;

pub use certificate_lines::{CertError, CertFault, FaultKind};
pub use laws::texts_are_read_back;
pub use reading::{counted_rows, node, open_places, point_line, read, size_line, word_line};
