// Why a text gives no certificate.
ghost use Rattle.std.specs.Prelude.{◌≡◌};
ghost use Rattle.certificate_lines.specs.declared.fault.LineError.TheVariants.{NoMemory as no_line_memory, Fault as line_fault};
ghost use Rattle.certificate_lines.specs.declared.fault.CertError.TheVariants.{NoMemory as no_memory};

use std::alloc::{AllocError, AllocFailed};

/// The kinds of a certificate's faults.
#[derive(Clone, Copy, Debug, PartialEq, Eq)]
pub enum FaultKind {
    /// A line is not of the form that its place needs, or no line feed ends it.
    BadLine,
    /// A number that doesn't fit.
    TooWide,
    /// The text ends where a line is due.
    Unended,
    /// Text after the last line.
    Extra,
}

/// The first fault of a text: its line, counted from 1, and its kind. In one line the leftmost fault decides.
#[derive(Clone, Copy, Debug, PartialEq, Eq)]
pub struct CertFault {
    pub line: u64,
    pub kind: FaultKind,
}

/// Why a text gives no certificate.
#[derive(Clone, Copy, Debug, PartialEq, Eq)]
pub enum CertError {
    /// It isn't the text of one.
    Fault(CertFault),
    /// The memory for it is not there.
    NoMemory,
}

impl From<AllocError> for CertError {
    ghost from_gives = { λ _ e. e ≡ no_memory };

    fn from(_error: AllocError) -> CertError {
        CertError::NoMemory
    }
}

impl<T: Drop> From<AllocFailed<T>> for CertError {
    ghost from_gives = { λ _ e. e ≡ no_memory };

    fn from(_error: AllocFailed<T>) -> CertError {
        CertError::NoMemory
    }
}

/// Why a line is not read.
#[derive(Clone, Copy)]
pub enum LineError {
    Fault(FaultKind),
    NoMemory,
}

impl From<AllocError> for LineError {
    ghost from_gives = { λ _ e. e ≡ no_line_memory };

    fn from(_error: AllocError) -> LineError {
        LineError::NoMemory
    }
}

impl<T: Drop> From<AllocFailed<T>> for LineError {
    ghost from_gives = { λ _ e. e ≡ no_line_memory };

    fn from(_error: AllocFailed<T>) -> LineError {
        LineError::NoMemory
    }
}

impl From<FaultKind> for LineError {
    ghost from_gives = { λ kind e. e ≡ line_fault kind };

    fn from(kind: FaultKind) -> LineError {
        LineError::Fault(kind)
    }
}
