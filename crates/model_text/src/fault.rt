// The first fault of a file.
ghost use Rattle.std.specs.Prelude.{◌≡◌};
ghost use Rattle.model_text.specs.KindText.{kind_text};

use std::fmt;

/// The kinds of a file's faults.
#[derive(Clone, Copy, Debug, PartialEq, Eq)]
pub enum FaultKind {
    /// A header of no section, or of a section out of order.
    BadSection,
    /// A line of another form than its section's, or not UTF-8, or a marker out of turn.
    BadLine,
    /// A number that isn't written as one.
    BadNumber,
    /// A number, or a sum that the file asks for, that doesn't fit.
    TooWide,
    /// A name that isn't declared.
    Unknown,
    /// What may be given once, given again.
    Twice,
    /// A row, column or entry past the limit of its kind.
    TooMany,
    /// The text ends before its end is declared.
    NoEnd,
}

impl FaultKind {
    /// The word that names the kind, as it is printed.
    pub fn as_str(self) -> &'static str
        ensures { result.now ≡ kind_text self }
    {
        match self {
            FaultKind::BadSection => "BadSection",
            FaultKind::BadLine => "BadLine",
            FaultKind::BadNumber => "BadNumber",
            FaultKind::TooWide => "TooWide",
            FaultKind::Unknown => "Unknown",
            FaultKind::Twice => "Twice",
            FaultKind::TooMany => "TooMany",
            FaultKind::NoEnd => "NoEnd",
        }
    }
}

impl fmt::Display for FaultKind {
    fn fmt<W: fmt::Write>(&self, f: &mut fmt::Formatter<W>) -> fmt::Result {
        f.write_str(self.as_str())
    }
}

/// The first fault of a file: its line, counted from 1, and its kind.
#[derive(Clone, Copy, Debug, PartialEq, Eq)]
pub struct FileFault {
    pub line: usize,
    pub kind: FaultKind,
}
