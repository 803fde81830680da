// The sides of a constraint at an element of its domain.
ghost use Rattle.std.specs.Prelude.{◌≡◌};
ghost use Rattle.gmpl_value.specs.Outcome.{Gives};
ghost use Rattle.gmpl_generate.specs.Rows as spec;
ghost use Rattle.gmpl_meaning.specs.Members.{no_bounds};

use crate::evaluation::{form_of, number_of};
use fraction::Frac;
use gmpl_data::LoadedModel;
use gmpl_expr::{Context, with_bound};
use gmpl_functions::{Form, Sign};
use gmpl_meaning::Bounds;
use gmpl_resolved::{Constraint, Expr};
use gmpl_syntax::Relation;
use gmpl_value::{EvalFault, Tuple};
use std::alloc::Global;

/// The form of a row, with its constant, and the row's bounds.
#[derive(Drop)]
pub(crate) struct RowForm {
    pub(crate) form: Form,
    pub(crate) bounds: Bounds,
}

// ---- bounds

/// The bounds of what is free.
pub(crate) fn no_bounds() -> Bounds
    ensures { result ≡ no_bounds }
{
    Bounds {
        lower: None,
        upper: None,
    }
}

// How a form stands to what stands to the left of it.
fn turned(relation: Relation) -> Relation
    ensures { result ≡ spec.turned relation }
{
    match relation {
        Relation::AtMost => Relation::AtLeast,
        Relation::AtLeast => Relation::AtMost,
        other => other,
    }
}

// The bounds of a form between two numbers.
fn between(relation: Relation, first: Frac, last: Frac) -> Bounds
    ensures { result ≡ spec.between relation first last }
{
    with_bound(
        with_bound(no_bounds(), turned(relation), first),
        relation,
        last,
    )
}

// ---- a form whose constant is moved to its bounds

fn constant_moved(relation: Relation, form: Form) -> RowForm
    ensures { result ≡ spec.constant_moved relation form }
{
    let bound = form.constant().neg();
    RowForm {
        form,
        bounds: with_bound(no_bounds(), relation, bound),
    }
}

fn less_constant(number: Frac, form: &Form) -> Result<Frac, EvalFault>
    ensures { Gives result (spec.less_constant number form.now) }
{
    Ok(number.sub(form.constant())?)
}

fn constant_moved_twice(
    relation: Relation,
    first: Frac,
    form: Form,
    last: Frac,
) -> Result<RowForm, EvalFault>
    ensures { Gives result (spec.constant_moved_twice relation first form last) }
{
    let first = less_constant(first, &form)?;
    let last = less_constant(last, &form)?;
    Ok(RowForm {
        form,
        bounds: between(relation, first, last),
    })
}

// ---- the sides

// Left minus right.
fn two_sides(
    alloc: Global,
    model: &LoadedModel,
    context: &mut Context<'_>,
    bindings: &Tuple,
    relation: Relation,
    left: &Expr,
    right: &Expr,
) -> Result<RowForm, EvalFault>
    requires of { context.old ≡ model.now }
    ensures of { context.new ≡ model.now }
    ensures value { Gives result (spec.two_sides model.now bindings.now relation left.now right.now) }
{
    let left = form_of(alloc, model, context, bindings, left)?;
    let right = form_of(alloc, model, context, bindings, right)?;
    let form = left.combined(alloc, Sign::Minus, &right)?;
    Ok(constant_moved(relation, form))
}

// A form between two numbers.
fn three_sides(
    alloc: Global,
    model: &LoadedModel,
    context: &mut Context<'_>,
    bindings: &Tuple,
    relation: Relation,
    first: &Expr,
    middle: &Expr,
    last: &Expr,
) -> Result<RowForm, EvalFault>
    requires of { context.old ≡ model.now }
    ensures of { context.new ≡ model.now }
    ensures value { Gives result (spec.three_sides model.now bindings.now relation first.now middle.now last.now) }
{
    let first = number_of(alloc, model, context, bindings, first)?;
    let form = form_of(alloc, model, context, bindings, middle)?;
    let last = number_of(alloc, model, context, bindings, last)?;
    constant_moved_twice(relation, first, form, last)
}

/// The form and the bounds of a constraint's row, where the indices of its domain have these values.
pub(crate) fn constraint_form(
    alloc: Global,
    model: &LoadedModel,
    context: &mut Context<'_>,
    bindings: &Tuple,
    constraint: &Constraint,
) -> Result<RowForm, EvalFault>
    requires of { context.old ≡ model.now }
    ensures of { context.new ≡ model.now }
    ensures value { Gives result (spec.constraint_form model.now bindings.now constraint.now) }
{
    let relation = constraint.relation;
    let left = &constraint.left;
    let right = &constraint.right;
    match &constraint.last {
        None => two_sides(alloc, model, context, bindings, relation, left, right),
        Some(last) => three_sides(alloc, model, context, bindings, relation, left, right, last),
    }
}
