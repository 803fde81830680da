// The words of the kinds of faults that a MathProg model may have.
ghost use Rattle.std.specs.Prelude.{◌≡◌, IfOk, string_bytes};
ghost use Rattle.solution_writer.specs.KindTexts.{operator_text, operation_text, syntax_kind_text, data_kind_text, evaluation_text, table_text, model_kind_text};

use csv_tables::TableFault;
use fraction::{NoFit, Op};
use gmpl_blocks::DataFaultKind;
use gmpl_generate::ModelFaultKind;
use gmpl_syntax::SyntaxFaultKind;
use gmpl_value::EvalFault;
use std::alloc::{AllocError, Global};

/// The word of a kind of faults that a text may have.
pub(crate) fn syntax_kind_text(kind: SyntaxFaultKind) -> &'static str
    ensures { result.now ≡ syntax_kind_text kind }
{
    match kind {
        SyntaxFaultKind::BadByte => "BadByte",
        SyntaxFaultKind::UnendedString => "UnendedString",
        SyntaxFaultKind::UnendedComment => "UnendedComment",
        SyntaxFaultKind::TooWide => "TooWide",
        SyntaxFaultKind::NotAStatement => "NotAStatement",
        SyntaxFaultKind::Unended => "Unended",
        SyntaxFaultKind::TooDeep => "TooDeep",
        SyntaxFaultKind::Undeclared => "Undeclared",
        SyntaxFaultKind::Declared => "Declared",
        SyntaxFaultKind::Unsupported => "Unsupported",
        SyntaxFaultKind::WrongKind => "WrongKind",
        SyntaxFaultKind::WrongDimension => "WrongDimension",
    }
}

/// The word of a kind of faults that a block of data may have.
pub(crate) fn data_kind_text(kind: DataFaultKind) -> &'static str
    ensures { result.now ≡ data_kind_text kind }
{
    match kind {
        DataFaultKind::BadByte => "BadByte",
        DataFaultKind::UnendedString => "UnendedString",
        DataFaultKind::UnendedComment => "UnendedComment",
        DataFaultKind::TooWide => "TooWide",
        DataFaultKind::BadForm => "BadForm",
        DataFaultKind::Unknown => "Unknown",
        DataFaultKind::HasExpression => "HasExpression",
        DataFaultKind::WrongDimension => "WrongDimension",
        DataFaultKind::Twice => "Twice",
        DataFaultKind::Unended => "Unended",
    }
}

/// The word of a kind of faults that the execution of a model may have.
pub(crate) fn model_kind_text(alloc: Global, kind: ModelFaultKind) -> Result<String, AllocError>
    ensures { IfOk result (λ text. string_bytes text ≡ model_kind_text kind) }
{
    match kind {
        ModelFaultKind::Evaluation(fault) => evaluation_text(alloc, fault),
        ModelFaultKind::CheckFailed => "CheckFailed".to_string(alloc),
        ModelFaultKind::Table(fault) => table_text(fault).to_string(alloc),
    }
}

// What is wrong with a table that is read.
fn table_text(fault: TableFault) -> &'static str
    ensures { result.now ≡ table_text fault }
{
    match fault {
        TableFault::NoField => "NoField",
        TableFault::BadRecord => "BadRecord",
        TableFault::TwiceKey => "TwiceKey",
    }
}

// Why something has no value; behind NoFit the operation.
fn evaluation_text(alloc: Global, kind: EvalFault) -> Result<String, AllocError>
    ensures { IfOk result (λ text. string_bytes text ≡ evaluation_text kind) }
{
    match kind {
        EvalFault::NoValue => "NoValue".to_string(alloc),
        EvalFault::OutOfDomain => "OutOfDomain".to_string(alloc),
        EvalFault::Restriction => "Restriction".to_string(alloc),
        EvalFault::DivZero => "DivZero".to_string(alloc),
        EvalFault::NotWhole => "NotWhole".to_string(alloc),
        EvalFault::NotANumber => "NotANumber".to_string(alloc),
        EvalFault::Nonlinear => "Nonlinear".to_string(alloc),
        EvalFault::BadFormat => "BadFormat".to_string(alloc),
        EvalFault::Depth => "Depth".to_string(alloc),
        EvalFault::TooMany => "TooMany".to_string(alloc),
        EvalFault::NoDual => "NoDual".to_string(alloc),
        EvalFault::NoFit(fault) => {
            let operation = operation_text(alloc, fault)?;
            format!(in alloc; "NoFit {operation}")
        }
        EvalFault::NoMemory => "NoMemory".to_string(alloc),
    }
}

/// `A OP B`.
pub(crate) fn operation_text(alloc: Global, fault: NoFit) -> Result<String, AllocError>
    ensures { IfOk result (λ text. string_bytes text ≡ operation_text fault) }
{
    let a = fault.a.text(alloc)?;
    let op = operator_text(fault.op);
    let b = fault.b.text(alloc)?;
    format!(in alloc; "{a} {op} {b}")
}

fn operator_text(op: Op) -> &'static str
    ensures { result.now ≡ operator_text op }
{
    match op {
        Op::Add => "+",
        Op::Sub => "-",
        Op::Mul => "*",
        Op::Div => "/",
    }
}
