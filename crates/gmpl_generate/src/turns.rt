// The statements in order.
ghost use Rattle.std.specs.Prelude.{◌≡◌, ◌+◌, drop};
ghost use Rattle.gmpl_generate.specs.Execution as spec;
ghost use Rattle.gmpl_generate.specs.Running.{Made, Runs, Makes, made_of};

use crate::execution::executed;
use crate::fault::Halt;
use crate::progress::Progress;
use crate::steps::{Reached, steps_before, steps_behind};
use gmpl_data::LoadedModel;
use gmpl_expr::Context;
use gmpl_resolved::Numbered;
use gmpl_rows::Draft;
use gmpl_text::Text;
use gmpl_value::EvalFault;
use std::alloc::Global;

/// Where an execution pauses: at a step that reads a table.
#[derive(Drop)]
pub struct Pause {
    /// Of the statement behind the step among those that declare; behind the last of them their number.
    pub place: usize,
    /// Of the step among those before that statement.
    pub step: usize,
    /// Of the file that is to be read.
    pub name: Text,
    /// The rows so far.
    pub draft: Draft,
}

/// Where an execution stops without a fault.
#[derive(Drop)]
pub enum Stopped {
    /// At `solve`, or behind the last statement, with these rows.
    AtEnd(Draft),
    AtTable(Pause),
}

/// Where it stands behind a statement with its steps.
#[derive(Drop)]
pub enum Going {
    On(Draft),
    Stopped(Stopped),
}

fn paused(place: usize, draft: Draft, step: usize, name: Text) -> Pause
    ensures { result ≡ spec.paused place draft step name }
{
    Pause {
        place,
        step,
        name,
        draft,
    }
}

// The rows so far with those of the statement at a place.
fn statement_executed(
    alloc: Global,
    model: &LoadedModel,
    context: &mut Context<'_>,
    place: usize,
    numbered: &Numbered,
    draft: Draft,
) -> Result<Draft, Halt<EvalFault>>
    requires of { context.old ≡ model.now }
    ensures of { context.new ≡ model.now }
    ensures value { Makes (spec.statement_executed model.now place numbered.now draft) result }
{
    match executed(alloc, model, context, place, &numbered.statement, draft) {
        Ok(draft) => Ok(draft),
        Err(EvalFault::NoMemory) => Err(Halt::NoMemory),
        Err(fault) => Err(Halt::Fault(numbered.number, numbered.line, fault)),
    }
}

// The statement at a place, where the steps before it end so.
fn turn_by(
    alloc: Global,
    model: &LoadedModel,
    context: &mut Context<'_>,
    place: usize,
    numbered: &Numbered,
    draft: Draft,
    reached: Reached,
) -> Result<Going, Halt<EvalFault>>
    requires of { context.old ≡ model.now }
    ensures of { context.new ≡ model.now }
    ensures value { (made : Made) → Runs (spec.turn_by model.now place numbered.now draft reached made) result made }
{
    match reached {
        Reached::End => {
            let draft = statement_executed(alloc, model, context, place, numbered, draft)?;
            Ok(Going::On(draft))
        }
        Reached::Solve => Ok(Going::Stopped(Stopped::AtEnd(draft))),
        Reached::Table(step, name) => {
            let pause = paused(place, draft, step, name);
            Ok(Going::Stopped(Stopped::AtTable(pause)))
        }
    }
}

// The steps before the statement at a place, then the statement.
fn turn(
    alloc: Global,
    model: &LoadedModel,
    context: &mut Context<'_>,
    place: usize,
    numbered: &Numbered,
    draft: Draft,
    so_far: &mut Progress,
) -> Result<Going, Halt<EvalFault>>
    requires of { context.old ≡ model.now }
    ensures of { context.new ≡ model.now }
    ensures value { Runs (spec.turn model.now place 0 numbered.now draft (made_of so_far.old)) result (made_of so_far.new) }
{
    let steps = numbered.steps.as_slice();
    let reached = steps_before(alloc, model, context, steps, 0, so_far)?;
    turn_by(alloc, model, context, place, numbered, draft, reached)
}

// The same behind one of these steps.
fn turn_behind(
    alloc: Global,
    model: &LoadedModel,
    context: &mut Context<'_>,
    place: usize,
    step: usize,
    numbered: &Numbered,
    draft: Draft,
    so_far: &mut Progress,
) -> Result<Going, Halt<EvalFault>>
    requires of { context.old ≡ model.now }
    ensures of { context.new ≡ model.now }
    ensures value { Runs (spec.turn model.now place (step + 1) numbered.now draft (made_of so_far.old)) result (made_of so_far.new) }
{
    let steps = numbered.steps.as_slice();
    let reached = steps_behind(alloc, model, context, steps, step, so_far)?;
    turn_by(alloc, model, context, place, numbered, draft, reached)
}

fn ending(place: usize, draft: Draft, reached: Reached) -> Stopped
    ensures { result ≡ spec.ending place draft reached }
{
    match reached {
        Reached::End | Reached::Solve => Stopped::AtEnd(draft),
        Reached::Table(step, name) => Stopped::AtTable(paused(place, draft, step, name)),
    }
}

// The steps behind the last statement.
fn last_steps(
    alloc: Global,
    model: &LoadedModel,
    context: &mut Context<'_>,
    place: usize,
    draft: Draft,
    so_far: &mut Progress,
) -> Result<Stopped, Halt<EvalFault>>
    requires of { context.old ≡ model.now }
    ensures of { context.new ≡ model.now }
    ensures value { Runs (spec.last_steps model.now place 0 model.now.steps draft (made_of so_far.old)) result (made_of so_far.new) }
{
    let steps = model.steps.as_slice();
    let reached = steps_before(alloc, model, context, steps, 0, so_far)?;
    Ok(ending(place, draft, reached))
}

// The same behind one of them.
fn last_steps_behind(
    alloc: Global,
    model: &LoadedModel,
    context: &mut Context<'_>,
    place: usize,
    step: usize,
    draft: Draft,
    so_far: &mut Progress,
) -> Result<Stopped, Halt<EvalFault>>
    requires of { context.old ≡ model.now }
    ensures of { context.new ≡ model.now }
    ensures value { Runs (spec.last_steps model.now place (step + 1) model.now.steps draft (made_of so_far.old)) result (made_of so_far.new) }
{
    let steps = model.steps.as_slice();
    let reached = steps_behind(alloc, model, context, steps, step, so_far)?;
    Ok(ending(place, draft, reached))
}

/// Statement by statement from a place on, then the last steps, up to where the execution stops, or to the first fault.
pub(crate) fn executed_from(
    alloc: Global,
    model: &LoadedModel,
    context: &mut Context<'_>,
    from: usize,
    draft: Draft,
    so_far: &mut Progress,
) -> Result<Stopped, Halt<EvalFault>>
    requires of { context.old ≡ model.now }
    ensures of { context.new ≡ model.now }
    ensures value { Runs (spec.executed_from model.now from (drop from model.now.statements) model.now.steps draft (made_of so_far.old)) result (made_of so_far.new) }
{
    let statements = model.statements.as_slice();
    let mut draft = draft;
    let mut place = from;
    while place < statements.len() {
        let numbered = &statements[place];
        match turn(alloc, model, context, place, numbered, draft, so_far)? {
            Going::Stopped(stopped) => return Ok(stopped),
            Going::On(more) => draft = more,
        }
        place += 1;
    }
    last_steps(alloc, model, context, place, draft, so_far)
}

/// The same behind a step before the statement at a place.
pub(crate) fn resumed_from(
    alloc: Global,
    model: &LoadedModel,
    context: &mut Context<'_>,
    place: usize,
    step: usize,
    draft: Draft,
    so_far: &mut Progress,
) -> Result<Stopped, Halt<EvalFault>>
    requires of { context.old ≡ model.now }
    ensures of { context.new ≡ model.now }
    ensures value { Runs (spec.resumed_from model.now place (step + 1) (drop place model.now.statements) model.now.steps draft (made_of so_far.old)) result (made_of so_far.new) }
{
    let statements = model.statements.as_slice();
    if place >= statements.len() {
        return last_steps_behind(alloc, model, context, place, step, draft, so_far);
    }
    let numbered = &statements[place];
    match turn_behind(alloc, model, context, place, step, numbered, draft, so_far)? {
        Going::Stopped(stopped) => Ok(stopped),
        Going::On(draft) => executed_from(alloc, model, context, place + 1, draft, so_far),
    }
}
