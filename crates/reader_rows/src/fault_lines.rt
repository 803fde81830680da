// A fault of a text as it is printed.
use model_text::{FaultKind, FileFault};
use std::alloc::{AllocError, Global};

/// The word of the kind, and the line that is printed, of a number that is too wide in this line of a text.
pub(crate) fn fault_line(alloc: Global, line: &str) -> Result<String, AllocError> {
    let fault = FileFault {
        line: line.parse::<usize>().unwrap_or(0),
        kind: FaultKind::TooWide,
    };
    let word = fault.kind.as_str();
    format!(in alloc; "{word}; file fault: line {}: {}", fault.line, fault.kind)
}
