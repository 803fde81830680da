// The texts are executed up to `solve`: what they print, and the problem that they declare, as the words ask for it.
ghost use Rattle.std.specs.Prelude.{◌≡◌, ◌<◌, ◌++◌, ◌∷◌, [], ℕ, List, Some, length, map, string_bytes, IfOk};
ghost use Rattle.command_line.specs.declared.settings.Language.TheVariants.{MathProg, FreeMps, CplexLp, Made};
ghost use Rattle.gmpl_generate.specs.Running.{File};
ghost use Rattle.gmpl_reader.specs.MathProg.{IsPending, making};
ghost use Rattle.glpsol_cli.specs.Meaning.{asked_of, directed, file_pieces, relaxed, text_fault_of};
ghost use Rattle.glpsol_cli.specs.Stages.{IsExecution, IsExecutionOf, IsOfReading, IsOfReadingEnd};

use crate::TextFault;
use crate::display::{displayed, file_pieces};
use crate::publish::Piece;
use crate::stop::Unread;
use command_line::{Language, Settings};
use cplex_lp_reader::read_lp;
use gmpl_reader::{MathProgFault, Pending, Reading, ReadingEnd, Rest, read_math_prog, read_on};
use instance::{Direction, Instance};
use made_problem::{Size, made_problem};
use model_text::ReadError;
use mps_reader::read_mps;
use sqlite_items::Boxed;
use std::alloc::{AllocError, Global};

// What the execution of texts comes to.
#[derive(Drop)]
pub struct Executed {
    // the files of tables that are made from where it stood before, which are to be written
    pub files: Vec<Piece>,
    // behind them what is printed from the first statement on
    pub shown: Vec<Piece>,
    pub halt: Halt,
}

// Where it halts.
#[derive(Drop)]
pub enum Halt {
    End(ExecutionEnd),
    // at a table whose file is to be read
    Table(Waiting),
    // at a table whose file is not read
    Unread(Unread),
}

// What the execution needs to go on behind a table.
#[derive(Drop)]
pub struct Waiting {
    // what was printed before
    pub printed: String,
    pub pending: Boxed<Pending>,
}

#[derive(Drop)]
pub enum ExecutionEnd {
    // the problem that the settings ask about, with what the statements behind `solve` need
    Problem(Instance, Option<Later>),
    // the first fault
    Fault(TextFault),
}

// What the statements behind `solve` need.
#[derive(Drop)]
pub struct Later {
    // what was printed before
    pub printed: String,
    pub rest: Boxed<Rest>,
}

/// Executes the texts up to `solve` or to the first table that is to be read, the model's first and then those of the data files. The
/// problem at the end has the direction and the integrality that the settings ask for.
pub fn execute(
    alloc: Global,
    settings: &Settings,
    texts: &[Vec<u8>],
) -> Result<Executed, AllocError>
    requires { length settings.now.data_files < length texts.now }
    ensures { IfOk result (IsExecution settings.now (map (λ text. text.items) texts.now)) }
{
    let Some((text, others)) = texts.split_first() else {
        unreachable!()
    };
    let data_texts = &others[..settings.data_files.as_slice().len()];
    execute_model(alloc, settings, text, data_texts)
}

/// The execution goes on behind a table with the text of its file.
pub fn execute_on(
    alloc: Global,
    settings: &Settings,
    waiting: Waiting,
    table_text: &[u8],
) -> Result<Executed, AllocError>
    ensures { IfOk result (λ e. (text : List ℕ) (data_texts tables : List (List ℕ)) (files : List File) → settings.now.language ≡ MathProg
        → making text data_texts tables ≡ Some (record { printed = string_bytes waiting.printed; files = files })
        → IsPending text data_texts tables waiting.pending → IsExecutionOf (file_pieces files) settings.now text data_texts (tables ++ table_text.now ∷ []) e) }
{
    let Waiting { printed, pending } = waiting;
    let reading = read_on(alloc, pending.into_inner(), printed, table_text)?;
    of_reading(alloc, settings, reading)
}

// A model's text with those of its data is executed.
fn execute_model(
    alloc: Global,
    settings: &Settings,
    text: &[u8],
    data_texts: &[Vec<u8>],
) -> Result<Executed, AllocError>
    ensures { IfOk result (IsExecutionOf [] settings.now text.now (map (λ text. text.items) data_texts.now) []) }
{
    match settings.language {
        Language::MathProg => math_prog(alloc, settings, text, data_texts),
        Language::FreeMps => free_mps(alloc, settings, text),
        Language::CplexLp => cplex_lp(alloc, settings, text),
        Language::Made(size) => made(alloc, settings, size),
    }
}

// ---- the languages

fn math_prog(
    alloc: Global,
    settings: &Settings,
    text: &[u8],
    data_texts: &[Vec<u8>],
) -> Result<Executed, AllocError>
    requires { settings.now.language ≡ MathProg }
    ensures { IfOk result (IsExecutionOf [] settings.now text.now (map (λ text. text.items) data_texts.now) []) }
{
    match read_math_prog(alloc, text, data_texts) {
        Ok(reading) => of_reading(alloc, settings, reading),
        Err(ReadError::Fault(fault)) => Ok(at_fault(alloc, math_prog_fault(fault))),
        Err(ReadError::NoMemory) => Err(AllocError),
    }
}

// What was read of a MathProg text.
fn of_reading(alloc: Global, settings: &Settings, reading: Reading) -> Result<Executed, AllocError>
    ensures { IfOk result (IsOfReading settings.now reading) }
{
    let Reading {
        printed,
        files,
        end,
    } = reading;
    let files = file_pieces(alloc, files)?;
    let shown = displayed(alloc, &settings.display, printed.as_bytes())?;
    let halt = halt_of(alloc, settings, printed, end)?;
    Ok(Executed { files, shown, halt })
}

// Where it halts.
fn halt_of(
    alloc: Global,
    settings: &Settings,
    printed: String,
    end: ReadingEnd,
) -> Result<Halt, AllocError>
    ensures { IfOk result (IsOfReadingEnd settings.now (string_bytes printed) end) }
{
    match end {
        ReadingEnd::Problem(problem, rest) => {
            let later = Later { printed, rest };
            let problem = asked(alloc, settings, problem)?;
            Ok(Halt::End(ExecutionEnd::Problem(problem, Some(later))))
        }
        ReadingEnd::Table(pending) => Ok(Halt::Table(Waiting { printed, pending })),
        ReadingEnd::Fault(fault) => Ok(Halt::End(ExecutionEnd::Fault(TextFault::Model(fault)))),
    }
}

fn math_prog_fault(fault: MathProgFault) -> TextFault
    ensures { result ≡ text_fault_of fault }
{
    match fault {
        MathProgFault::Syntax(fault) => TextFault::Syntax(fault),
        MathProgFault::Data(fault) => TextFault::Data(fault),
        MathProgFault::Model(fault) => TextFault::Model(fault),
    }
}

fn free_mps(alloc: Global, settings: &Settings, text: &[u8]) -> Result<Executed, AllocError>
    requires { settings.now.language ≡ FreeMps }
    ensures { IfOk result (λ e. (data_texts : List (List ℕ)) → IsExecutionOf [] settings.now text.now data_texts [] e) }
{
    match read_mps(alloc, text) {
        Ok(problem) => at_problem(alloc, settings, problem),
        Err(ReadError::Fault(fault)) => Ok(at_fault(alloc, TextFault::File(fault))),
        Err(ReadError::NoMemory) => Err(AllocError),
    }
}

fn cplex_lp(alloc: Global, settings: &Settings, text: &[u8]) -> Result<Executed, AllocError>
    requires { settings.now.language ≡ CplexLp }
    ensures { IfOk result (λ e. (data_texts : List (List ℕ)) → IsExecutionOf [] settings.now text.now data_texts [] e) }
{
    match read_lp(alloc, text) {
        Ok(problem) => at_problem(alloc, settings, problem),
        Err(ReadError::Fault(fault)) => Ok(at_fault(alloc, TextFault::File(fault))),
        Err(ReadError::NoMemory) => Err(AllocError),
    }
}

// There is no text, and the problem is made.
fn made(alloc: Global, settings: &Settings, size: Size) -> Result<Executed, AllocError>
    requires { settings.now.language ≡ Made size }
    ensures { IfOk result (λ e. (text : List ℕ) (data_texts : List (List ℕ)) → IsExecutionOf [] settings.now text data_texts [] e) }
{
    let problem = made_problem(alloc, size)?;
    at_problem(alloc, settings, problem)
}

// ---- the ends

// The execution of a text that prints nothing and makes no file ends at a problem.
fn at_problem(alloc: Global, settings: &Settings, problem: Instance) -> Result<Executed, AllocError>
    ensures { IfOk result (λ e. (e.files.items ≡ []) × (e.shown.items ≡ []) × (e.halt ≡ Halt.End (ExecutionEnd.Problem (asked_of settings.now problem) None))) }
{
    let problem = asked(alloc, settings, problem)?;
    Ok(Executed {
        files: Vec::new(alloc),
        shown: Vec::new(alloc),
        halt: Halt::End(ExecutionEnd::Problem(problem, None)),
    })
}

// It ends at a fault.
fn at_fault(alloc: Global, fault: TextFault) -> Executed
    ensures files { result.files.items ≡ [] }
    ensures shown { result.shown.items ≡ [] }
    ensures halt { result.halt ≡ Halt.End (ExecutionEnd.Fault fault) }
{
    Executed {
        files: Vec::new(alloc),
        shown: Vec::new(alloc),
        halt: Halt::End(ExecutionEnd::Fault(fault)),
    }
}

// The problem that the settings ask about.
fn asked(alloc: Global, settings: &Settings, problem: Instance) -> Result<Instance, AllocError>
    ensures { IfOk result (λ p. p ≡ asked_of settings.now problem) }
{
    let problem = in_direction(problem, settings.direction);
    with_integrality(alloc, problem, settings.relaxed)
}

fn in_direction(problem: Instance, direction: Option<Direction>) -> Instance
    ensures { result ≡ directed direction problem }
{
    match direction {
        None => problem,
        Some(direction) => problem.with_direction(direction),
    }
}

// The problem, or its linear relaxation.
fn with_integrality(
    alloc: Global,
    problem: Instance,
    is_relaxed: bool,
) -> Result<Instance, AllocError>
    ensures { IfOk result (λ p. p ≡ relaxed is_relaxed problem) }
{
    if is_relaxed {
        problem.without_integrality(alloc)
    } else {
        Ok(problem)
    }
}
