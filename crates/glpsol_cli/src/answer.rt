// How a run ends.
ghost use Rattle.std.specs.Prelude.{◌≡◌};
ghost use Rattle.glpsol_cli.specs.Code.{range_fault_code, search_fault_code};

use branch_search::{VerdictFault, Wanted};
use cert_check::Part;
use certificate::Certificate;
use certificate_reader::CertFault;
use exact_ranges::{RangeFault, Ranges};
use fraction::NoFit;
use gmpl_blocks::DataFault;
use gmpl_generate::ModelFault;
use gmpl_syntax::SyntaxFault;
use infeasible_subset::{Members, Subset};
use instance::Name;
use model_text::FileFault;
use partial_certificate::PartialCertificate;
use search_node::{Bases, Node};
use sqlite_items::Boxed;
use tree_pool::Board;

/// Where a run writes.
#[derive(Drop)]
pub enum Target {
    /// Its output.
    Out,
    /// The file of this name.
    File(Name),
}

/// What is wrong with the text of a model.
#[derive(Clone, Copy, Drop)]
pub enum TextFault {
    /// A MathProg text is no model: its first bad statement.
    Syntax(SyntaxFault),
    /// A block of data of a MathProg model is bad.
    Data(DataFault),
    /// A statement of a MathProg model can't be executed.
    Model(ModelFault),
    /// A line of a free MPS or CPLEX LP text.
    File(FileFault),
}

/// Where an operation's result does not fit.
#[derive(Drop)]
pub enum OverflowSite {
    /// In the work at this node of the tree of splits, in the search for what is wanted.
    AtNode { wanted: Wanted, node: Node },
    /// In the check of this part of a certificate.
    InPart(Part),
    /// In the search for an infeasible subset, where the problem keeps these bounds alone.
    InSubset(Members),
}

/// A limit that a search came to.
#[derive(Drop)]
pub enum Limit {
    /// At a node the simplex method went through these bases, as many steps as are allowed, and has not ended; this is the board on
    /// which the search stopped there, and what it leaves.
    Pivots(Wanted, Bases, Boxed<Board>, Leftover),
    /// As many splits are made as are allowed on this board, and nodes are left that would have to be split; this is what it leaves.
    Splits(Wanted, Boxed<Board>, Leftover),
    /// In the search for an infeasible subset, where the problem keeps these bounds alone, the simplex method went through these
    /// bases, as many steps as are allowed, and has not ended.
    SubsetPivots(Members, Bases),
}

/// What a search that came to a limit leaves for another to go on from: what it has shown of the problem, in the file that the task
/// names for a certificate.
#[derive(Drop)]
pub enum Leftover {
    /// The task names no file.
    Unasked,
    /// The file is not made: memory is wanting.
    Unmade,
    /// The file has this partial certificate.
    Saved(Boxed<PartialCertificate>),
    /// The file was to have this partial certificate, and has a part of its text, or is as it was.
    Unsaved(Boxed<PartialCertificate>),
}

/// How far a run has come.
#[derive(Drop)]
pub enum Reached {
    /// Nothing is executed yet: the words, the files and the model's text come first.
    Nothing,
    /// The texts are executed as far as the files of their tables were read: up to a problem, to their first fault, or to a table.
    Executed,
    /// The size of the problem is found, which was asked for.
    Size,
    /// A search came to a limit, and this is what it has shown of the problem, which was to be left in a file.
    Shown(Boxed<PartialCertificate>),
    /// This is the certificate that was to be checked, and it proves its verdict.
    Acceptance(Boxed<Certificate>),
    /// This certificate proves its verdict, and the checker accepts it.
    Verdict(Boxed<Certificate>),
    /// The certificate proves by the weights of this irreducible infeasible subset that no point is feasible, and the checker accepts it.
    Subset(Boxed<Certificate>, Boxed<Subset>),
    /// The certificate proves that its point is best, and the checker accepts it; no statement behind `solve` has a fault there, and
    /// these are the exact ranges, which are asked for.
    Ranges(Boxed<Certificate>, Boxed<Ranges>),
}

/// What a run comes to, with the values that show it.
#[derive(Drop)]
pub enum Answer {
    /// The certificate's point is best, no statement behind `solve` has a fault there, and all was written. No ranges were asked for.
    Optimal(Boxed<Certificate>),
    /// The certificate's point is best, no statement behind `solve` has a fault there, these are the exact ranges, which were asked
    /// for, and all was written.
    Ranged(Boxed<Certificate>, Boxed<Ranges>),
    /// No point is feasible, as the certificate shows, and all was written. No subset was asked for.
    Infeasible(Boxed<Certificate>),
    /// No point is feasible, as the certificate shows by the weights of this irreducible infeasible subset, which was asked for, and
    /// all was written.
    Irreducible(Boxed<Certificate>, Boxed<Subset>),
    /// The certificate's ray improves its point without end, and all was written.
    Unbounded(Boxed<Certificate>),
    /// The problem was read, and its size written.
    Translated,
    /// This is the certificate that was to be checked, it proves its verdict, and all was written.
    Accepted(Boxed<Certificate>),
    /// The words are no command.
    Usage,
    /// There is no file of this name, which is to be read after this was reached: of the command's files nothing, of a table's the
    /// execution up to the table.
    Missing {
        name: Name,
        reached: Reached,
    },
    /// The file of this name can't be opened.
    OpenFault {
        name: Name,
        reached: Reached,
    },
    /// The file of this name can't be read.
    ReadFault {
        name: Name,
        reached: Reached,
    },
    /// The target can't be written, after this was reached.
    WriteFault {
        target: Target,
        reached: Reached,
    },
    /// The file of this name is longer than 67,108,864 bytes.
    TooLong {
        name: Name,
        reached: Reached,
    },
    /// The model's text has this fault, and none before it.
    BadText(TextFault),
    /// The certificate's point is best, and was reported; there a statement behind `solve` has this fault, and none before it.
    FaultBehindSolve {
        fault: ModelFault,
        certificate: Boxed<Certificate>,
    },
    /// The certificate's point is best, and was reported, and the statements behind `solve` were executed; for this fault the exact
    /// ranges, which were asked for, are not found.
    Unranged {
        fault: RangeFault,
        certificate: Boxed<Certificate>,
    },
    /// The text of the certificate that was to be checked has this fault, and none before it.
    BadCertificate(CertFault),
    /// An infeasible subset, or exact ranges, are asked for of a problem with integer columns.
    NotLinear,
    /// The result of this operation does not fit.
    Overflow {
        at: OverflowSite,
        fault: NoFit,
    },
    /// The search came to this limit. A file that can't be written for what it leaves changes nothing of the answer.
    Undecided(Limit),
    /// This part of the certificate that was to be checked is the first that does not hold.
    Refused(Part),
    /// The memory is not there, after this was reached.
    NoMemory {
        reached: Reached,
    },
}

// The status where ranges are not found.
fn range_fault_code(fault: &RangeFault) -> u8
    ensures { result ≡ range_fault_code fault.now }
{
    match fault {
        RangeFault::Search(_, fault) => search_fault_code(fault),
        RangeFault::TooLarge(_) => 2,
        RangeFault::Weight(..) | RangeFault::MovedBound(..) => 3,
        RangeFault::NoMemory => 5,
    }
}

fn search_fault_code(fault: &VerdictFault) -> u8
    ensures { result ≡ search_fault_code fault.now }
{
    match fault {
        VerdictFault::NoFit(..) => 3,
        VerdictFault::PivotLimit(..) | VerdictFault::SplitLimit(..) => 4,
        VerdictFault::NoMemory => 5,
    }
}

impl Answer {
    ghost use Rattle.glpsol_cli.specs.Code.{code_of};

    /// The status of the process.
    pub fn code(&self) -> u8
        ensures { result ≡ code_of self.now }
    {
        match self {
            Answer::Optimal(_)
            | Answer::Ranged(..)
            | Answer::Infeasible(_)
            | Answer::Irreducible(..)
            | Answer::Unbounded(_)
            | Answer::Translated
            | Answer::Accepted(_) => 0,
            Answer::Usage
            | Answer::Missing { .. }
            | Answer::OpenFault { .. }
            | Answer::ReadFault { .. }
            | Answer::WriteFault { .. } => 1,
            Answer::TooLong { .. }
            | Answer::BadText(_)
            | Answer::FaultBehindSolve { .. }
            | Answer::BadCertificate(_)
            | Answer::NotLinear => 2,
            Answer::Unranged { fault, .. } => range_fault_code(fault),
            Answer::Overflow { .. } => 3,
            Answer::Undecided(_) => 4,
            Answer::NoMemory { .. } => 5,
            Answer::Refused(_) => 6,
        }
    }

    /// The same, where the answer is let go: a caller that owns no answer has no proof of what it is made of.
    pub fn into_code(self) -> u8
        ensures { result ≡ code_of self }
    {
        self.code()
    }
}
