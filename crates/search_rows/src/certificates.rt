// Certificates that are read, written and checked.
use crate::texts::{bytes_of, cut, in_marks};
use cert_check::{CheckFault, Checked, check};
use certificate::{Certificate, text};
use certificate_reader::{CertError, CertFault, FaultKind, read};
use instance::Instance;
use std::alloc::{AllocError, Global};

/// The first fault of a text that begins so, or `the same` where it is the text of the certificate that is read.
pub(crate) fn read_back(alloc: Global, beginning: &str, asked: &str) -> Result<String, AllocError> {
    let mut bytes = bytes_of(alloc, beginning)?;
    bytes.extend_from_slice(&bytes_of(alloc, asked)?)?;
    told(alloc, &bytes, None)
}

/// The same of a text that goes on with another one so many times.
pub(crate) fn deep(alloc: Global, beginning: &str, asked: &str) -> Result<String, AllocError> {
    let (times, text) = cut(asked);
    let mut bytes = bytes_of(alloc, beginning)?;
    let more = bytes_of(alloc, text)?;
    for _ in 0..times.parse::<u32>().unwrap_or(0) {
        bytes.extend_from_slice(&more)?;
    }
    told(alloc, &bytes, None)
}

/// What the check of a certificate for a problem answers, or the first fault of its text.
pub(crate) fn checked(
    alloc: Global,
    problem: &Instance,
    asked: &str,
) -> Result<String, AllocError> {
    let bytes = bytes_of(alloc, asked)?;
    told(alloc, &bytes, Some(problem))
}

// The first fault of a text, or what becomes of its certificate.
fn told(alloc: Global, bytes: &[u8], problem: Option<&Instance>) -> Result<String, AllocError> {
    match read(alloc, bytes) {
        Ok(certificate) => {
            let told = certificate_told(alloc, &certificate, bytes, problem);
            std::mem::drop(certificate);
            told
        }
        Err(CertError::Fault(fault)) => fault_words(alloc, fault),
        Err(CertError::NoMemory) => Err(AllocError),
    }
}

/// The line and the kind of a text's first fault.
pub(crate) fn fault_words(alloc: Global, fault: CertFault) -> Result<String, AllocError> {
    let line = fault.line;
    let kind = match fault.kind {
        FaultKind::BadLine => "BadLine",
        FaultKind::TooWide => "TooWide",
        FaultKind::Unended => "Unended",
        FaultKind::Extra => "Extra",
    };
    format!(in alloc; "{line} {kind}")
}

// It is checked where there is a problem, and else written again.
fn certificate_told(
    alloc: Global,
    certificate: &Certificate,
    bytes: &[u8],
    problem: Option<&Instance>,
) -> Result<String, AllocError> {
    match problem {
        Some(problem) => check_words(alloc, check(alloc, problem, certificate)),
        None => {
            let text = text(alloc, certificate)?;
            same_words(alloc, &text, bytes)
        }
    }
}

/// A text as a row has it, or `the same` where it is the one that was read.
pub(crate) fn same_words(alloc: Global, text: &[u8], read: &[u8]) -> Result<String, AllocError> {
    if text == read {
        "the same".to_string(alloc)
    } else {
        in_marks(alloc, text)
    }
}

/// What a check answers.
pub(crate) fn check_words(
    alloc: Global,
    checked: Result<Checked, CheckFault>,
) -> Result<String, AllocError> {
    match checked {
        Ok(Checked::Accepted) => "Accepted".to_string(alloc),
        Ok(Checked::Refused(part)) => format!(in alloc; "Refused:{part:?}"),
        Err(fault) => format!(in alloc; "NoFit:{:?}", fault.part),
    }
}
