// Partial certificates that are read, written and checked.
use crate::certificates::{check_words, fault_words, same_words};
use crate::texts::bytes_of;
use instance::Instance;
use partial_certificate::{PartialCertificate, check_partial, text};
use partial_reader::{CertError, names_undecided, read_partial};
use std::alloc::{AllocError, Global};

/// The first fault of a text that begins so, or `the same` where it is the text of the partial certificate that is read.
pub(crate) fn partly_read_back(
    alloc: Global,
    beginning: &str,
    asked: &str,
) -> Result<String, AllocError> {
    let mut bytes = bytes_of(alloc, beginning)?;
    bytes.extend_from_slice(&bytes_of(alloc, asked)?)?;
    told(alloc, &bytes, None)
}

/// What the check of a partial certificate for a problem answers, or the first fault of its text.
pub(crate) fn partly_checked(
    alloc: Global,
    problem: &Instance,
    asked: &str,
) -> Result<String, AllocError> {
    let bytes = bytes_of(alloc, asked)?;
    told(alloc, &bytes, Some(problem))
}

/// Whether a text is to be read as a partial certificate.
pub(crate) fn kind_named(alloc: Global, asked: &str) -> Result<String, AllocError> {
    let bytes = bytes_of(alloc, asked)?;
    let kind = if names_undecided(&bytes) {
        "partial"
    } else {
        "other"
    };
    kind.to_string(alloc)
}

// The first fault of a text, or what becomes of its partial certificate.
fn told(alloc: Global, bytes: &[u8], problem: Option<&Instance>) -> Result<String, AllocError> {
    match read_partial(alloc, bytes) {
        Ok(certificate) => {
            let told = partial_told(alloc, &certificate, bytes, problem);
            std::mem::drop(certificate);
            told
        }
        Err(CertError::Fault(fault)) => fault_words(alloc, fault),
        Err(CertError::NoMemory) => Err(AllocError),
    }
}

// It is checked where there is a problem, and else written again.
fn partial_told(
    alloc: Global,
    certificate: &PartialCertificate,
    bytes: &[u8],
    problem: Option<&Instance>,
) -> Result<String, AllocError> {
    match problem {
        Some(problem) => check_words(alloc, check_partial(alloc, problem, certificate)),
        None => {
            let text = text(alloc, certificate)?;
            same_words(alloc, &text, bytes)
        }
    }
}
