// The problem of a model.
ghost use Rattle.std.specs.Prelude.{◌≡◌, Ok, IfOk, string_bytes};
ghost use Rattle.gmpl_generate.specs.Problem as spec;
ghost use Rattle.gmpl_generate.specs.InputTables.{tables_left};
ghost use Rattle.gmpl_generate.specs.Problem.{all_declared, Execution, HasFewerLeft, IsEnd, IsExecuted, IsMade};
ghost use Rattle.gmpl_generate.specs.Running.{Made, Ran, Runs, files_of, made_of};
ghost use Rattle.gmpl_rows.specs.Premises.{AreObjects};

use crate::declared::all_declared;
use crate::fault::{Halt, ModelFault, ModelFaultKind, fault_at};
use crate::input_tables::{Untaken, with_table};
use crate::progress::{Progress, TableFile};
use crate::turns::{Pause, Stopped, executed_from, resumed_from};
use gmpl_data::LoadedModel;
use gmpl_expr::Context;
use gmpl_rows::{ColumnMember, Draft, column_members, finish, row_members};
use gmpl_solution::Member;
use gmpl_value::EvalFault;
use instance::Instance;
use sqlite_items::Boxed;
use std::alloc::{AllocError, Global};

/// What the execution of a model comes to, up to where it stops.
#[derive(Drop)]
pub struct Executed {
    /// What its statements print, from the first on.
    pub printed: String,
    /// The files that its statements make, in order; behind a table that was read those that are made from there on.
    pub files: Vec<TableFile>,
    pub end: End,
}

/// How an execution ends.
#[derive(Drop)]
pub enum End {
    /// At `solve` or behind the last statement: the model with what tables gave, and its problem.
    Problem(Boxed<LoadedModel>, Boxed<Generated>),
    /// At a table whose file is to be read.
    Table(Boxed<LoadedModel>, Pause),
    /// At the first fault.
    Fault(ModelFault),
}

/// A problem, with the members that its columns and rows come from, in their order.
#[derive(Drop)]
pub struct Generated {
    pub problem: Instance,
    pub columns: Vec<ColumnMember>,
    pub rows: Vec<Member>,
}

fn all_executed(
    alloc: Global,
    model: &LoadedModel,
    so_far: &mut Progress,
) -> Result<Stopped, Halt<EvalFault>>
    requires { AreObjects (all_declared model.now) }
    ensures { Runs (spec.all_executed model.now (made_of so_far.old)) result (made_of so_far.new) }
{
    let objects = all_declared(alloc, model)?;
    let draft = Draft::new(alloc, objects)?;
    let mut context = Context::new(alloc, model);
    executed_from(alloc, model, &mut context, 0, draft, so_far)
}

// Behind the table at which it pauses.
fn from_pause(
    alloc: Global,
    model: &LoadedModel,
    pause: Pause,
    so_far: &mut Progress,
) -> Result<Stopped, Halt<EvalFault>>
    ensures { Runs (spec.from_pause pause model.now (made_of so_far.old)) result (made_of so_far.new) }
{
    let Pause {
        place,
        step,
        draft,
        ..
    } = pause;
    let mut context = Context::new(alloc, model);
    resumed_from(alloc, model, &mut context, place, step, draft, so_far)
}

// ---- the end

// The problem of these rows.
fn made(alloc: Global, draft: &Draft) -> Result<Generated, AllocError>
    ensures { IfOk result (λ made. IsMade draft.now made) }
{
    let columns = column_members(alloc, draft)?;
    let rows = row_members(alloc, draft)?;
    Ok(Generated {
        problem: finish(alloc, draft)?,
        columns,
        rows,
    })
}

fn end_of(alloc: Global, model: Boxed<LoadedModel>, stopped: Stopped) -> Result<End, AllocError>
    ensures { IfOk result (IsEnd (Ok (record { model = model; stopped = stopped }))) }
{
    match stopped {
        Stopped::AtEnd(draft) => {
            let made = made(alloc, &draft)?;
            Ok(End::Problem(model, Boxed::new(alloc, made)?))
        }
        Stopped::AtTable(pause) => Ok(End::Table(model, pause)),
    }
}

// What is made, and the end.
fn with_end(so_far: Progress, end: End) -> Executed
    ensures made { made_of so_far ≡ record { printed = string_bytes result.printed; files = files_of result.files.items } }
    ensures end { result.end ≡ end }
{
    let Progress { printed, files } = so_far;
    Executed {
        printed,
        files,
        end,
    }
}

fn at_fault(so_far: Progress, fault: ModelFault) -> Executed
    ensures { IsExecuted (Err (fault, made_of so_far)) result }
{
    with_end(so_far, End::Fault(fault))
}

// What an execution comes to that stops so, and has made this.
fn outcome_of(
    alloc: Global,
    model: Boxed<LoadedModel>,
    stopped: Result<Stopped, Halt<EvalFault>>,
    so_far: Progress,
) -> Result<Executed, AllocError>
    ensures { IfOk result (λ e. (ran : Ran Made ModelFault Stopped) → Runs ran stopped (made_of so_far) → IsExecuted (spec.of_model model ran) e) }
{
    match stopped {
        Ok(stopped) => {
            let end = end_of(alloc, model, stopped)?;
            Ok(with_end(so_far, end))
        }
        Err(Halt::Fault(number, line, fault)) => Ok(at_fault(
            so_far,
            fault_at(number, line, ModelFaultKind::Evaluation(fault)),
        )),
        Err(Halt::CheckFailed(number, line)) => Ok(at_fault(
            so_far,
            fault_at(number, line, ModelFaultKind::CheckFailed),
        )),
        Err(Halt::NoMemory) => Err(AllocError),
    }
}

/// What the execution of a model with its data comes to, in the order of its text, up to `solve`, to its end, or to the first table
/// that is to be read: what it prints and writes, and the problem, or the first fault. The problem has the rows that constraints and
/// objectives make, the columns of the variables that have a coefficient other than 0 in some row, and the first row of an objective
/// as the objective.
/// Objects have names, of which no two are the same.
/// Errors: want of memory.
#[tactic(auto, unfolding(crate::specs::Problem::execution))]
pub fn generate(alloc: Global, model: Boxed<LoadedModel>) -> Result<Executed, AllocError>
    requires { AreObjects (all_declared model) }
    ensures { IfOk result (IsExecuted (spec.execution model)) }
{
    let mut so_far = Progress::new(alloc);
    let stopped = all_executed(alloc, model.get(), &mut so_far);
    outcome_of(alloc, model, stopped, so_far)
}

// From a table on at which an execution paused.
#[tactic(auto, unfolding(crate::specs::Problem::resumed))]
fn behind_table(
    alloc: Global,
    model: Boxed<LoadedModel>,
    pause: Pause,
    printed: String,
    text: &[u8],
) -> Result<Executed, AllocError>
    ensures { IfOk result (IsExecuted (spec.resumed model pause (string_bytes printed) text.now)) }
{
    let files = Vec::new(alloc);
    let mut so_far = Progress { printed, files };
    match with_table(alloc, model, &pause, text) {
        Ok(model) => {
            let stopped = from_pause(alloc, model.get(), pause, &mut so_far);
            outcome_of(alloc, model, stopped, so_far)
        }
        Err(Untaken::Fault(fault)) => Ok(at_fault(so_far, fault)),
        Err(Untaken::NoMemory) => Err(AllocError),
    }
}

/// The same from a table on at which an execution paused: with what the text of its file gives, where this was printed before. The
/// fault of a text is that of the table's statement. Where it pauses again, fewer tables are left to be read.
/// Errors: want of memory.
pub fn resume(
    alloc: Global,
    model: Boxed<LoadedModel>,
    pause: Pause,
    printed: String,
    text: &[u8],
) -> Result<Executed, AllocError>
    ensures executed { IfOk result (IsExecuted (spec.resumed model pause (string_bytes printed) text.now)) }
    ensures left { IfOk result (λ executed. HasFewerLeft (tables_left model pause) executed.end) }
{
    behind_table(alloc, model, pause, printed, text)
}
