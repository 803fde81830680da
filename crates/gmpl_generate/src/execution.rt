// What a statement makes.
ghost use Rattle.std.specs.Prelude.{◌≡◌, [], Ok};
ghost use Rattle.gmpl_value.specs.Outcome.{Gives};
ghost use Rattle.gmpl_generate.specs.Execution as spec;
ghost use Rattle.gmpl_meaning.specs.Expressions.{unless};
ghost use Rattle.gmpl_meaning.specs.Members.{elements_of};

use crate::evaluation::elements_of;
use crate::rows::{constraint_row, objective_row};
use gmpl_data::LoadedModel;
use gmpl_expr::Context;
use gmpl_meaning::Walk;
use gmpl_resolved::{Constraint, Objective, Statement};
use gmpl_rows::Draft;
use gmpl_value::EvalFault;
use std::alloc::Global;

// Behind the last element.
fn unless(fault: Option<EvalFault>, draft: Draft) -> Result<Draft, EvalFault>
    ensures { Gives result (unless fault (Ok draft)) }
{
    match fault {
        None => Ok(draft),
        Some(fault) => Err(fault),
    }
}

fn constraint_rows(
    alloc: Global,
    model: &LoadedModel,
    context: &mut Context<'_>,
    place: usize,
    constraint: &Constraint,
    walk: &Walk,
    draft: Draft,
) -> Result<Draft, EvalFault>
    requires of { context.old ≡ model.now }
    ensures of { context.new ≡ model.now }
    ensures value { Gives result (spec.constraint_rows model.now place constraint.now walk.now draft) }
{
    let mut draft = draft;
    for element in walk.elements.as_slice() {
        draft = constraint_row(alloc, model, context, place, constraint, element, draft)?;
    }
    unless(walk.fault, draft)
}

fn objective_rows(
    alloc: Global,
    model: &LoadedModel,
    context: &mut Context<'_>,
    place: usize,
    objective: &Objective,
    walk: &Walk,
    draft: Draft,
) -> Result<Draft, EvalFault>
    requires of { context.old ≡ model.now }
    ensures of { context.new ≡ model.now }
    ensures value { Gives result (spec.objective_rows model.now place objective.now walk.now draft) }
{
    let mut draft = draft;
    for element in walk.elements.as_slice() {
        draft = objective_row(alloc, model, context, place, objective, element, draft)?;
    }
    unless(walk.fault, draft)
}

fn constraint_executed(
    alloc: Global,
    model: &LoadedModel,
    context: &mut Context<'_>,
    place: usize,
    constraint: &Constraint,
    draft: Draft,
) -> Result<Draft, EvalFault>
    requires of { context.old ≡ model.now }
    ensures of { context.new ≡ model.now }
    ensures value { Gives result (spec.constraint_rows model.now place constraint.now (elements_of model.now constraint.now.head.domain []) draft) }
{
    let walk = elements_of(alloc, model, context, &constraint.head.domain)?;
    constraint_rows(alloc, model, context, place, constraint, &walk, draft)
}

fn objective_executed(
    alloc: Global,
    model: &LoadedModel,
    context: &mut Context<'_>,
    place: usize,
    objective: &Objective,
    draft: Draft,
) -> Result<Draft, EvalFault>
    requires of { context.old ≡ model.now }
    ensures of { context.new ≡ model.now }
    ensures value { Gives result (spec.objective_rows model.now place objective.now (elements_of model.now objective.now.head.domain []) draft) }
{
    let walk = elements_of(alloc, model, context, &objective.head.domain)?;
    objective_rows(alloc, model, context, place, objective, &walk, draft)
}

/// The rows so far with those of the statement at a place.
pub(crate) fn executed(
    alloc: Global,
    model: &LoadedModel,
    context: &mut Context<'_>,
    place: usize,
    statement: &Statement,
    draft: Draft,
) -> Result<Draft, EvalFault>
    requires of { context.old ≡ model.now }
    ensures of { context.new ≡ model.now }
    ensures value { Gives result (spec.executed model.now place statement.now draft) }
{
    match statement {
        Statement::Constraint(constraint) => {
            constraint_executed(alloc, model, context, place, constraint.get(), draft)
        }
        Statement::Objective(objective) => {
            objective_executed(alloc, model, context, place, objective.get(), draft)
        }
        _ => Ok(draft),
    }
}
