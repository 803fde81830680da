// From a text to a problem, and to what is printed and made.
ghost use Rattle.std.specs.Prelude.{◌≡◌, ◌++◌, ◌∷◌, [], List, length, map, string_bytes, ℕ, IfOk, IfErr, Ok, Err, Some};
ghost use Rattle.milp.specs.Problem.{Problem};
ghost use Rattle.gmpl_load.specs.Tables.{Tables};
ghost use Rattle.gmpl_reader.specs.Data as spec_data;
ghost use Rattle.gmpl_reader.specs.MathProg as spec;
ghost use Rattle.gmpl_reader.specs.MathProg.{Declares, IsNoModel, IsNotLoaded, IsPending, HasFewerLeft, IsReading, IsRest, IsUnreadable, afterwards, ending, loaded, making, tables_left};
ghost use Rattle.gmpl_rows.specs.Premises.{AreObjects};
ghost use Rattle.gmpl_generate.specs.Problem.{Executing, all_declared, execution, IsExecuted};
ghost use Rattle.gmpl_generate.specs.Running.{File};
ghost use Rattle.gmpl_generate.specs.Solved.{RowsFit, made_after};

use crate::data::given;
use crate::fault::MathProgFault;
use gmpl_data::{DataTables, LoadedModel};
use gmpl_generate::{
    Afterwards, End, Executed, Generated, ModelFault, Pause, TableFile, generate, resume,
};
use gmpl_lexer::read_tokens;
use gmpl_parse::{Model, ParseError, parse};
use gmpl_rows::ColumnMember;
use gmpl_solution::{Duals, Member};
use instance::{Instance, Point};
use model_text::ReadError;
use sqlite_items::Boxed;
use std::alloc::{AllocError, Global};

/// What the execution of a text comes to, up to where it stops.
#[derive(Drop)]
pub struct Reading {
    /// What its statements print, from the first on.
    pub printed: String,
    /// The files that its statements make, in order; behind a table that was read those that are made from there on.
    pub files: Vec<TableFile>,
    pub end: ReadingEnd,
}

/// The problem that a text declares, with what the statements behind `solve` need; the table whose file is to be read; or the first
/// statement that cannot be executed.
#[derive(Drop)]
pub enum ReadingEnd {
    Problem(Instance, Boxed<Rest>),
    Table(Boxed<Pending>),
    Fault(ModelFault),
}

/// What the statements behind `solve` need: the model with its data, and the members that the columns and rows of the problem come
/// from.
#[derive(Drop)]
pub struct Rest {
    pub model: Boxed<LoadedModel>,
    pub columns: Vec<ColumnMember>,
    pub rows: Vec<Member>,
}

/// An execution that is to go on behind a table, whose file has the name of the pause.
#[derive(Drop)]
pub struct Pending {
    pub model: Boxed<LoadedModel>,
    pub pause: Pause,
}

/// What a MathProg text comes to with these texts of data files, in their order: what its execution prints and makes up to `solve`
/// or to the first table that is to be read, and the problem that it declares, or the first statement that cannot be executed. Where
/// there are no files, the data section of the text counts, and else it is passed over.
/// `Fault` comes exactly where the definition of the language has that fault of the text's tokens and statements, or else of the
/// data; `NoMemory` may come anywhere.
pub fn read_math_prog(
    alloc: Global,
    text: &[u8],
    data_texts: &[Vec<u8>],
) -> Result<Reading, ReadError<MathProgFault>>
    ensures reading { IfOk result (IsReading [] text.now (map (λ file. file.items) data_texts.now) []) }
    ensures fault { IfErr result (IsUnreadable text.now (map (λ file. file.items) data_texts.now)) }
{
    match loaded_model(alloc, text, data_texts) {
        Ok(model) => Ok(executed(alloc, model)?),
        Err(error) => Err(error),
    }
}

/// What the text comes to with the text of one more table's file, at which its execution paused, having printed this. Where it
/// pauses again, fewer tables are left to be read.
/// Errors: want of memory.
pub fn read_on(
    alloc: Global,
    pending: Pending,
    printed: String,
    table_text: &[u8],
) -> Result<Reading, AllocError>
    ensures reading { IfOk result (λ r. (text : List ℕ) (data_texts tables : List (List ℕ)) (before : List File)
        → making text data_texts tables ≡ Some (record { printed = string_bytes printed; files = before })
        → IsPending text data_texts tables pending → IsReading before text data_texts (tables ++ table_text.now ∷ []) r) }
    ensures left { IfOk result (λ r. HasFewerLeft (tables_left pending) r.end) }
{
    let Pending { model, pause } = pending;
    let executed = resume(alloc, model, pause, printed, table_text)?;
    let reading = reading_of(alloc, executed)?;
    Ok(reading)
}

// The model that a text is.
fn model_in(alloc: Global, text: &[u8]) -> Result<Model, ReadError<MathProgFault>>
    ensures model { IfOk result (λ model. spec.model_in text.now ≡ Ok model) }
    ensures objects { IfOk result (λ model. (tables : Tables) → AreObjects (all_declared (loaded model tables))) }
    ensures fault { IfErr result (IsNoModel (spec.model_in text.now)) }
{
    let tokens = read_tokens(alloc, text)?;
    match parse(alloc, tokens) {
        Ok(model) => Ok(model),
        Err(ParseError::Fault(fault)) => Err(ReadError::Fault(MathProgFault::Syntax(fault))),
        Err(ParseError::NoMemory) => Err(ReadError::NoMemory),
    }
}

// A model to whose objects data give this.
fn loaded(model: Model, tables: DataTables) -> LoadedModel
    ensures { result ≡ loaded model tables.objects }
{
    LoadedModel {
        statements: model.statements,
        steps: model.steps,
        tables,
        solution: None,
    }
}

// A model with its data, which are those of the files or of the section behind it.
fn with_data(
    alloc: Global,
    text: &[u8],
    data_texts: &[Vec<u8>],
    model: Model,
) -> Result<LoadedModel, ReadError<MathProgFault>>
    requires { (tables : Tables) → AreObjects (all_declared (loaded model tables)) }
    ensures model { IfOk result (λ made. spec.of_data model (spec_data.given text.now (map (λ file. file.items) data_texts.now) model) ≡ Ok made) }
    ensures objects { IfOk result (λ made. AreObjects (all_declared made)) }
    ensures fault { IfErr result (IsNotLoaded (spec.of_data model (spec_data.given text.now (map (λ file. file.items) data_texts.now) model))) }
{
    match given(alloc, text, data_texts, &model) {
        Ok(tables) => Ok(loaded(model, tables)),
        Err(error) => {
            std::mem::drop(model);
            Err(error)
        }
    }
}

// The model of a text with its data.
#[tactic(auto, unfolding(crate::specs::MathProg::loaded_model))]
fn loaded_model(
    alloc: Global,
    text: &[u8],
    data_texts: &[Vec<u8>],
) -> Result<LoadedModel, ReadError<MathProgFault>>
    ensures model { IfOk result (λ made. spec.loaded_model text.now (map (λ file. file.items) data_texts.now) ≡ Ok made) }
    ensures objects { IfOk result (λ made. AreObjects (all_declared made)) }
    ensures fault { IfErr result (IsNotLoaded (spec.loaded_model text.now (map (λ file. file.items) data_texts.now))) }
{
    match model_in(alloc, text) {
        Ok(model) => with_data(alloc, text, data_texts, model),
        Err(error) => Err(error),
    }
}

// What the execution of a model comes to.
fn executed(alloc: Global, model: LoadedModel) -> Result<Reading, AllocError>
    requires { AreObjects (all_declared model) }
    ensures { IfOk result (spec.IsReadingOf (execution model)) }
{
    let model = Boxed::new(alloc, model)?;
    let executed = generate(alloc, model)?;
    let reading = reading_of(alloc, executed)?;
    Ok(reading)
}

fn reading_of(alloc: Global, executed: Executed) -> Result<Reading, AllocError>
    ensures { IfOk result (λ reading. (run : Executing) → IsExecuted run executed → spec.IsReadingOf run reading) }
{
    let Executed {
        printed,
        files,
        end,
    } = executed;
    let end = reading_end(alloc, end)?;
    Ok(Reading {
        printed,
        files,
        end,
    })
}

fn reading_end(alloc: Global, end: End) -> Result<ReadingEnd, AllocError>
    ensures { IfOk result (spec.IsSameEnd end) }
{
    match end {
        End::Problem(model, made) => {
            let Generated {
                problem,
                columns,
                rows,
            } = made.into_inner();
            let rest = Rest {
                model,
                columns,
                rows,
            };
            let rest = Boxed::new(alloc, rest)?;
            Ok(ReadingEnd::Problem(problem, rest))
        }
        End::Table(model, pause) => {
            let pending = Boxed::new(alloc, Pending { model, pause })?;
            Ok(ReadingEnd::Table(pending))
        }
        End::Fault(fault) => Ok(ReadingEnd::Fault(fault)),
    }
}

/// What the statements behind `solve` print and make at a point of the problem that a text declares, with these dual values, and the
/// first that cannot be executed.
/// Errors: want of memory.
pub fn after_solve(
    alloc: Global,
    rest: Rest,
    problem: &Instance,
    point: &Point,
    duals: &Duals,
) -> Result<Afterwards, AllocError>
    requires size { length point.now ≡ length problem.now.columns }
    requires rows { RowsFit point.now problem.now.rows }
    ensures { IfOk result (λ a. (text : List ℕ) (files tables : List (List ℕ)) (p : Problem) → ending text files tables ≡ Declares p → IsRest text files tables rest → p.rows ≡ problem.now.rows → afterwards text files tables point.now duals.now ≡ Some (made_after a, a.fault)) }
{
    let Rest {
        model,
        columns,
        rows,
    } = rest;
    gmpl_generate::after_solve(alloc, model, &columns, &rows, problem, point, duals)
}
