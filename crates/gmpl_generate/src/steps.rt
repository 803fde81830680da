// Steps: what is done where statements stand that declare nothing.
ghost use Rattle.std.specs.Prelude.{◌≡◌, ◌+◌, [], drop};
ghost use Rattle.gmpl_value.specs.Outcome.{Gives};
ghost use Rattle.gmpl_generate.specs.Running.{Runs, Makes, made_of};
ghost use Rattle.gmpl_generate.specs.Faults.{of_statement};
ghost use Rattle.gmpl_generate.specs.Steps as spec;

use crate::actions::action;
use crate::fault::{Halt, Stop};
use crate::output_tables::file_name;
use crate::progress::Progress;
use gmpl_data::LoadedModel;
use gmpl_expr::Context;
use gmpl_resolved::{Action, NumberedStep, Step, TableInput};
use gmpl_text::Text;
use gmpl_value::{EvalFault, Tuple};
use std::alloc::Global;

fn performed(
    alloc: Global,
    model: &LoadedModel,
    context: &mut Context<'_>,
    step: &NumberedStep,
    done: &Action,
    so_far: &mut Progress,
) -> Result<(), Halt<EvalFault>>
    requires of { context.old ≡ model.now }
    ensures of { context.new ≡ model.now }
    ensures value { Runs (spec.performed model.now step.now done.now (made_of so_far.old)) result (made_of so_far.new) }
{
    match action(alloc, model, context, done, &Tuple::new(alloc), so_far) {
        Ok(()) => Ok(()),
        Err(Stop::Fault(fault)) => Err(Halt::Fault(step.number, step.line, fault)),
        Err(Stop::CheckFailed) => Err(Halt::CheckFailed(step.number, step.line)),
        Err(Stop::NoMemory) => Err(Halt::NoMemory),
    }
}

// ---- up to `solve`, or to a table that is to be read

/// Where steps end.
#[derive(Drop)]
pub enum Reached {
    /// Behind the last of them.
    End,
    Solve,
    /// At the step at this place, which reads a table from the file of this name.
    Table(usize, Text),
}

// A table that is to be read.
fn table_reached(
    alloc: Global,
    model: &LoadedModel,
    context: &mut Context<'_>,
    place: usize,
    table: &TableInput,
) -> Result<Reached, EvalFault>
    requires of { context.old ≡ model.now }
    ensures of { context.new ≡ model.now }
    ensures value { Gives result (spec.table_reached model.now place table.now) }
{
    let name = file_name(alloc, model, context, &table.file, &Tuple::new(alloc))?;
    Ok(Reached::Table(place, name))
}

// The same, where a fault is the statement's.
fn table_before(
    alloc: Global,
    model: &LoadedModel,
    context: &mut Context<'_>,
    place: usize,
    step: &NumberedStep,
    table: &TableInput,
) -> Result<Reached, Halt<EvalFault>>
    requires of { context.old ≡ model.now }
    ensures of { context.new ≡ model.now }
    ensures value { Makes (of_statement step.now.number step.now.line (spec.table_reached model.now place table.now)) result }
{
    match table_reached(alloc, model, context, place, table) {
        Ok(reached) => Ok(reached),
        Err(EvalFault::NoMemory) => Err(Halt::NoMemory),
        Err(fault) => Err(Halt::Fault(step.number, step.line, fault)),
    }
}

// Where the step at a place ends.
fn step_before(
    alloc: Global,
    model: &LoadedModel,
    context: &mut Context<'_>,
    place: usize,
    step: &NumberedStep,
    so_far: &mut Progress,
) -> Result<Reached, Halt<EvalFault>>
    requires of { context.old ≡ model.now }
    ensures of { context.new ≡ model.now }
    ensures value { Runs (spec.step_before model.now place step.now (made_of so_far.old)) result (made_of so_far.new) }
{
    match &step.step {
        Step::Action(done) => {
            performed(alloc, model, context, step, done, so_far)?;
            Ok(Reached::End)
        }
        Step::TableInput(table) => table_before(alloc, model, context, place, step, table),
        Step::Solve => Ok(Reached::Solve),
    }
}

/// The steps in order from the one at a place on, up to `solve` or to a table that is to be read.
pub(crate) fn steps_before(
    alloc: Global,
    model: &LoadedModel,
    context: &mut Context<'_>,
    steps: &[NumberedStep],
    from: usize,
    so_far: &mut Progress,
) -> Result<Reached, Halt<EvalFault>>
    requires of { context.old ≡ model.now }
    ensures of { context.new ≡ model.now }
    ensures value { Runs (spec.steps_before model.now from (drop from steps.now) (made_of so_far.old)) result (made_of so_far.new) }
{
    for place in from..steps.len() {
        match step_before(alloc, model, context, place, &steps[place], so_far)? {
            Reached::End => {}
            reached => return Ok(reached),
        }
    }
    Ok(Reached::End)
}

/// The same behind the step at a place. Behind the last step there is none.
#[tactic(auto, using(crate::proofs::Behind::none_behind))]
pub(crate) fn steps_behind(
    alloc: Global,
    model: &LoadedModel,
    context: &mut Context<'_>,
    steps: &[NumberedStep],
    at: usize,
    so_far: &mut Progress,
) -> Result<Reached, Halt<EvalFault>>
    requires of { context.old ≡ model.now }
    ensures of { context.new ≡ model.now }
    ensures value { Runs (spec.steps_before model.now (at + 1) (drop (at + 1) steps.now) (made_of so_far.old)) result (made_of so_far.new) }
{
    if at >= steps.len() {
        return Ok(Reached::End);
    }
    steps_before(alloc, model, context, steps, at + 1, so_far)
}

// ---- behind `solve`

fn is_solve(step: &Step) -> bool
    ensures { result ≡ spec.is_solve step.now }
{
    match step {
        Step::Solve => true,
        Step::Action(_) | Step::TableInput(_) => false,
    }
}

fn step_behind(
    alloc: Global,
    model: &LoadedModel,
    context: &mut Context<'_>,
    step: &NumberedStep,
    so_far: &mut Progress,
) -> Result<bool, Halt<EvalFault>>
    requires of { context.old ≡ model.now }
    ensures of { context.new ≡ model.now }
    ensures value { Runs (spec.step_behind model.now step.now (made_of so_far.old)) result (made_of so_far.new) }
{
    match &step.step {
        Step::Action(done) => {
            performed(alloc, model, context, step, done, so_far)?;
            Ok(true)
        }
        Step::TableInput(_) | Step::Solve => Ok(true),
    }
}

// Whether the next step stands behind `solve`.
fn step_after(
    alloc: Global,
    model: &LoadedModel,
    context: &mut Context<'_>,
    step: &NumberedStep,
    solved: bool,
    so_far: &mut Progress,
) -> Result<bool, Halt<EvalFault>>
    requires of { context.old ≡ model.now }
    ensures of { context.new ≡ model.now }
    ensures value { Runs (spec.step_after model.now solved step.now (made_of so_far.old)) result (made_of so_far.new) }
{
    if solved {
        step_behind(alloc, model, context, step, so_far)
    } else {
        Ok(is_solve(&step.step))
    }
}

/// Of these steps those that stand behind `solve`: whether it stands before what follows.
pub(crate) fn steps_after(
    alloc: Global,
    model: &LoadedModel,
    context: &mut Context<'_>,
    steps: &[NumberedStep],
    solved: bool,
    so_far: &mut Progress,
) -> Result<bool, Halt<EvalFault>>
    requires of { context.old ≡ model.now }
    ensures of { context.new ≡ model.now }
    ensures value { Runs (spec.steps_after model.now solved steps.now (made_of so_far.old)) result (made_of so_far.new) }
{
    let mut solved = solved;
    for step in steps {
        solved = step_after(alloc, model, context, step, solved, so_far)?;
    }
    Ok(solved)
}
