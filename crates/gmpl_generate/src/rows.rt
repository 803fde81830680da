// The row of a constraint or an objective at an element of its domain.
ghost use Rattle.std.specs.Prelude.{◌≡◌, [], IfOk};
ghost use Rattle.gmpl_value.specs.Outcome.{Gives, GivesAs};
ghost use Rattle.gmpl_generate.specs.Rows as spec;
ghost use Rattle.gmpl_rows.specs.Draft.{with_row};

use crate::evaluation::form_of;
use crate::sides::{RowForm, constraint_form, no_bounds};
use crate::terms::terms_of;
use gmpl_data::LoadedModel;
use gmpl_expr::Context;
use gmpl_functions::Form;
use gmpl_meaning::{Bounds, Element};
use gmpl_resolved::{Constraint, Objective};
use gmpl_rows::{Draft, DraftFault, RowHead, Term};
use gmpl_syntax::Direction;
use gmpl_value::{EvalFault, Tuple};
use milp::Direction as Aim;
use std::alloc::{AllocError, Global};

fn row_head(
    alloc: Global,
    place: usize,
    subscripts: &Tuple,
    bounds: Bounds,
) -> Result<RowHead, AllocError>
    ensures { IfOk result (λ head. head ≡ spec.row_head place subscripts.now bounds) }
{
    Ok(RowHead {
        statement: place,
        subscripts: subscripts.copied(alloc)?,
        lower: bounds.lower,
        upper: bounds.upper,
    })
}

// A row that would pass a limit is `TooMany`.
fn with_row(
    alloc: Global,
    draft: Draft,
    head: RowHead,
    terms: Vec<Term>,
) -> Result<Draft, EvalFault>
    ensures { Gives result (spec.outcome_of (with_row head terms.items draft)) }
{
    match draft.row(alloc, head, terms) {
        Ok(draft) => Ok(draft),
        Err(DraftFault::TooMany) => Err(EvalFault::TooMany),
        Err(DraftFault::NoMemory) => Err(EvalFault::NoMemory),
    }
}

// The terms of a form, which is let go.
fn terms_in(
    alloc: Global,
    model: &LoadedModel,
    context: &mut Context<'_>,
    form: Form,
) -> Result<Vec<Term>, EvalFault>
    requires of { context.old ≡ model.now }
    ensures of { context.new ≡ model.now }
    ensures value { GivesAs (λ terms. terms.items) result (spec.terms_of model.now [] form.terms) }
{
    terms_of(alloc, model, context, &form)
}

fn with_form(
    alloc: Global,
    model: &LoadedModel,
    context: &mut Context<'_>,
    place: usize,
    subscripts: &Tuple,
    draft: Draft,
    row: RowForm,
) -> Result<Draft, EvalFault>
    requires of { context.old ≡ model.now }
    ensures of { context.new ≡ model.now }
    ensures value { Gives result (spec.with_form model.now place subscripts.now draft row) }
{
    let RowForm { form, bounds } = row;
    let terms = terms_in(alloc, model, context, form)?;
    let head = row_head(alloc, place, subscripts, bounds)?;
    with_row(alloc, draft, head, terms)
}

/// The rows so far with that of a constraint.
pub(crate) fn constraint_row(
    alloc: Global,
    model: &LoadedModel,
    context: &mut Context<'_>,
    place: usize,
    constraint: &Constraint,
    element: &Element,
    draft: Draft,
) -> Result<Draft, EvalFault>
    requires of { context.old ≡ model.now }
    ensures of { context.new ≡ model.now }
    ensures value { Gives result (spec.constraint_row model.now place constraint.now element.now draft) }
{
    let row = constraint_form(alloc, model, context, &element.indices, constraint)?;
    with_form(alloc, model, context, place, &element.tuple, draft, row)
}

// ---- objectives

fn aim(direction: Direction) -> Aim
    ensures { result ≡ spec.aim direction }
{
    match direction {
        Direction::Minimize => Aim::Min,
        Direction::Maximize => Aim::Max,
    }
}

fn with_objective_form(
    alloc: Global,
    model: &LoadedModel,
    context: &mut Context<'_>,
    place: usize,
    direction: Direction,
    subscripts: &Tuple,
    draft: Draft,
    form: Form,
) -> Result<Draft, EvalFault>
    requires of { context.old ≡ model.now }
    ensures of { context.new ≡ model.now }
    ensures value { Gives result (spec.with_objective_form model.now place direction subscripts.now draft form) }
{
    let constant = form.constant();
    let row = RowForm {
        form,
        bounds: no_bounds(),
    };
    let draft = with_form(alloc, model, context, place, subscripts, draft, row)?;
    Ok(draft.objective(aim(direction), constant))
}

/// The rows so far with that of an objective, a free one. The first such row of a model is its objective.
pub(crate) fn objective_row(
    alloc: Global,
    model: &LoadedModel,
    context: &mut Context<'_>,
    place: usize,
    objective: &Objective,
    element: &Element,
    draft: Draft,
) -> Result<Draft, EvalFault>
    requires of { context.old ≡ model.now }
    ensures of { context.new ≡ model.now }
    ensures value { Gives result (spec.objective_row model.now place objective.now element.now draft) }
{
    let form = form_of(alloc, model, context, &element.indices, &objective.form)?;
    let subscripts = &element.tuple;
    with_objective_form(
        alloc,
        model,
        context,
        place,
        objective.direction,
        subscripts,
        draft,
        form,
    )
}
