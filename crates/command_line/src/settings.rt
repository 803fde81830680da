// What a command asks for.
ghost use Rattle.std.specs.Prelude.{◌≡◌};
ghost use Rattle.command_line.specs.declared.settings.WordsFault.TheVariants.{NoMemory as WordsNoMemory};

use crate::DataFiles;
use instance::{Direction, Name};
use made_problem::Size;
use std::alloc::AllocError;
use thiserror::Error;

/// What a command asks for.
#[derive(Drop)]
pub struct Settings {
    /// The language of the model's text.
    pub language: Language,
    /// The model's file; a made problem has none.
    pub model: Option<Name>,
    /// The data files of a MathProg model; none of the other languages has any.
    pub data_files: DataFiles,
    /// The file to which the texts of `display` and `printf` go, of a MathProg model alone; without one they are printed.
    pub display: Option<Name>,
    /// The direction of the objective, where it takes the place of the model's own.
    pub direction: Option<Direction>,
    /// Integer columns are taken as continuous ones.
    pub relaxed: bool,
    /// The most splits of a search, up to 1,000,000.
    pub split_limit: u32,
    /// The most steps of the simplex method at a node, up to 1,000,000; 0 is no limit.
    pub pivot_limit: u32,
    /// How many workers search, from 1 to 64.
    pub workers: u32,
    /// What is to be done with the model.
    pub task: Task,
}

/// A language in which a model is written, or that it is made.
#[derive(Clone, Copy, Debug, PartialEq, Eq)]
pub enum Language {
    /// GNU MathProg.
    MathProg,
    /// Free MPS.
    FreeMps,
    /// CPLEX LP.
    CplexLp,
    /// There is no text: the problem is made, of so many columns.
    Made(Size),
}

/// What is to be done with a model.
#[derive(Drop)]
pub enum Task {
    /// It is solved.
    Solve(Outputs),
    /// It is read, and its size reported.
    Translate,
    /// The certificate in a file is checked against it.
    CheckCertificate {
        /// The certificate's file.
        certificate: Name,
        /// The file to which the certificate is written in version 2, where it is accepted.
        migrated: Option<Name>,
    },
}

/// What is asked for where a model is solved, beside the report that is printed.
#[derive(Drop)]
pub struct Outputs {
    /// The file of the report, which is printed too.
    pub report: Option<Name>,
    /// The file of the raw solution.
    pub solution: Option<Name>,
    /// The file of the certificate.
    pub certificate: Option<Name>,
    /// Where no point is feasible, the report goes on with an irreducible infeasible subset.
    pub subset: bool,
    /// The search may split on the whole forms of rows, and does so first.
    pub row_splits: bool,
    /// The search may use Gomory's cuts of its root.
    pub cuts: bool,
    /// The file of the exact ranges of costs and bounds, at a best point.
    pub ranges: Option<Name>,
    /// The report is a summary, without names and points.
    pub summary: bool,
}

/// Why words gave no settings.
#[derive(Clone, Copy, Debug, PartialEq, Eq, Error)]
pub enum WordsFault {
    /// The words are no command.
    #[error("the words are no command")]
    Usage,
    /// Memory ran out.
    #[error("out of memory")]
    NoMemory,
}

impl From<AllocError> for WordsFault {
    ghost from_gives = { λ _ e. e ≡ WordsNoMemory };

    fn from(_: AllocError) -> Self {
        WordsFault::NoMemory
    }
}
