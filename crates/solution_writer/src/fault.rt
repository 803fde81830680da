// The lines of faults.
ghost use Rattle.std.specs.Prelude.{◌≡◌, IfOk, string_bytes};
ghost use Rattle.solution_writer.specs.FaultLine.{named_line, place_line, file_line, overflow_line, fault_line, certificate_kind_text, certificate_line, part_text, refused_line, syntax_line, data_line, model_line};

use crate::kind_texts::{data_kind_text, model_kind_text, operation_text, syntax_kind_text};
use cert_check::Part;
use certificate_lines::{CertFault, FaultKind};
use fraction::NoFit;
use gmpl_blocks::DataFault;
use gmpl_generate::ModelFault;
use gmpl_syntax::SyntaxFault;
use instance::Name;
use model_text::FileFault;
use std::alloc::{AllocError, Global};

/// What the line of a fault shows.
#[derive(Clone, Copy)]
pub enum Fault<'a> {
    /// The words are no command.
    Usage,
    /// There is no file of this name.
    Missing(&'a Name),
    /// The file of this name can't be opened.
    OpenFault(&'a Name),
    /// The file of this name can't be read.
    ReadFault(&'a Name),
    /// The file of this name can't be written.
    WriteFault(&'a Name),
    /// The file of this name is longer than 67,108,864 bytes.
    TooLong(&'a Name),
    /// The MathProg text of the model has this fault.
    Syntax(SyntaxFault),
    /// A block of data of the MathProg model has this fault.
    Data(DataFault),
    /// A statement of the MathProg model has this fault.
    Model(ModelFault),
    /// The text of the model, in free MPS or CPLEX LP, has this fault.
    File(FileFault),
    /// The text of the certificate has this fault.
    Certificate(CertFault),
    /// An infeasible subset is asked for of a problem with integer columns.
    NotLinear,
    /// The result of this operation does not fit.
    Overflow(NoFit),
    /// The search has not ended within its limit of splits.
    UndecidedNodes,
    /// The simplex method has not ended within its limit of steps.
    UndecidedPivots,
    /// This part of the certificate does not hold.
    Refused(Part),
    /// The memory is not there.
    NoMemory,
}

/// The line of a fault.
pub fn fault_line(alloc: Global, fault: &Fault<'_>) -> Result<String, AllocError>
    ensures { IfOk result (λ text. string_bytes text ≡ fault_line fault.now) }
{
    match fault {
        Fault::Usage => "usage: glpsol (--math|--freemps|--lp) FILE [options]\n".to_string(alloc),
        Fault::Missing(name) => named_line(alloc, "missing", name),
        Fault::OpenFault(name) => named_line(alloc, "open fault", name),
        Fault::ReadFault(name) => named_line(alloc, "read fault", name),
        Fault::WriteFault(name) => named_line(alloc, "write fault", name),
        Fault::TooLong(name) => named_line(alloc, "too long", name),
        Fault::Syntax(fault) => syntax_line(alloc, *fault),
        Fault::Data(fault) => data_line(alloc, *fault),
        Fault::Model(fault) => model_line(alloc, *fault),
        Fault::File(fault) => file_line(alloc, *fault),
        Fault::Certificate(fault) => certificate_line(alloc, *fault),
        Fault::NotLinear => "not linear\n".to_string(alloc),
        Fault::Overflow(fault) => overflow_line(alloc, *fault),
        Fault::UndecidedNodes => "UNDECIDED nodes\n".to_string(alloc),
        Fault::UndecidedPivots => "UNDECIDED pivots\n".to_string(alloc),
        Fault::Refused(part) => refused_line(alloc, *part),
        Fault::NoMemory => "no memory\n".to_string(alloc),
    }
}

fn named_line(alloc: Global, what: &str, name: &Name) -> Result<String, AllocError>
    ensures { IfOk result (λ text. string_bytes text ≡ named_line what.now name.now) }
{
    let name = name.as_str();
    format!(in alloc; "{what}: {name}\n")
}

fn syntax_line(alloc: Global, fault: SyntaxFault) -> Result<String, AllocError>
    ensures { IfOk result (λ text. string_bytes text ≡ syntax_line fault) }
{
    let kind = syntax_kind_text(fault.kind);
    place_line(
        alloc,
        "syntax fault: statement",
        fault.statement,
        fault.line,
        kind,
    )
}

fn data_line(alloc: Global, fault: DataFault) -> Result<String, AllocError>
    ensures { IfOk result (λ text. string_bytes text ≡ data_line fault) }
{
    let kind = data_kind_text(fault.kind);
    place_line(alloc, "data fault: block", fault.block, fault.line, kind)
}

fn model_line(alloc: Global, fault: ModelFault) -> Result<String, AllocError>
    ensures { IfOk result (λ text. string_bytes text ≡ model_line fault) }
{
    let kind = model_kind_text(alloc, fault.kind)?;
    place_line(
        alloc,
        "model fault: statement",
        fault.statement,
        fault.line,
        &kind,
    )
}

// The place of a fault of a MathProg text: a statement or a block, with its number and line.
fn place_line(
    alloc: Global,
    what: &str,
    number: usize,
    line: usize,
    kind: &str,
) -> Result<String, AllocError>
    ensures { IfOk result (λ text. string_bytes text ≡ place_line what.now number line kind.now) }
{
    format!(in alloc; "{what} {number}, line {line}: {kind}\n")
}

fn file_line(alloc: Global, fault: FileFault) -> Result<String, AllocError>
    ensures { IfOk result (λ text. string_bytes text ≡ file_line fault) }
{
    let FileFault { line, kind } = fault;
    let kind = kind.as_str();
    format!(in alloc; "file fault: line {line}: {kind}\n")
}

fn certificate_line(alloc: Global, fault: CertFault) -> Result<String, AllocError>
    ensures { IfOk result (λ text. string_bytes text ≡ certificate_line fault) }
{
    let CertFault { line, kind } = fault;
    let kind = certificate_kind_text(kind);
    format!(in alloc; "certificate fault: line {line}: {kind}\n")
}

fn certificate_kind_text(kind: FaultKind) -> &'static str
    ensures { result.now ≡ certificate_kind_text kind }
{
    match kind {
        FaultKind::BadLine => "BadLine",
        FaultKind::TooWide => "TooWide",
        FaultKind::Unended => "Unended",
        FaultKind::Extra => "Extra",
    }
}

fn refused_line(alloc: Global, part: Part) -> Result<String, AllocError>
    ensures { IfOk result (λ text. string_bytes text ≡ refused_line part) }
{
    let part = part_text(alloc, part)?;
    format!(in alloc; "refused: {part}\n")
}

fn part_text(alloc: Global, part: Part) -> Result<String, AllocError>
    ensures { IfOk result (λ text. string_bytes text ≡ part_text part) }
{
    match part {
        Part::Size => "size".to_string(alloc),
        Part::Point => "point".to_string(alloc),
        Part::Value => "value".to_string(alloc),
        Part::Ray => "ray".to_string(alloc),
        Part::DerivedRow(row) => format!(in alloc; "derived {row}"),
        Part::Node(node) => format!(in alloc; "node {node}"),
    }
}

fn overflow_line(alloc: Global, fault: NoFit) -> Result<String, AllocError>
    ensures { IfOk result (λ text. string_bytes text ≡ overflow_line fault) }
{
    let operation = operation_text(alloc, fault)?;
    format!(in alloc; "overflow: {operation}\n")
}
