// The terms of a row, with the bounds of their members.
ghost use Rattle.std.specs.Prelude.{◌≡◌, [], slice_get};
ghost use Rattle.gmpl_value.specs.Outcome.{Follows, Gives, GivesAs};
ghost use Rattle.gmpl_generate.specs.Rows as spec;

use crate::evaluation::bounds_of;
use fraction::Frac;
use gmpl_data::LoadedModel;
use gmpl_expr::Context;
use gmpl_functions::{Form, Variable};
use gmpl_meaning::Bounds;
use gmpl_rows::{Bounds as TermBounds, Term};
use gmpl_value::EvalFault;
use std::alloc::Global;

fn term_bounds(bounds: Bounds) -> TermBounds
    ensures { result ≡ spec.term_bounds bounds }
{
    TermBounds {
        lower: bounds.lower,
        upper: bounds.upper,
    }
}

fn term_of(
    alloc: Global,
    model: &LoadedModel,
    context: &mut Context<'_>,
    variable: &Variable,
    coefficient: Frac,
) -> Result<Term, EvalFault>
    requires of { context.old ≡ model.now }
    ensures of { context.new ≡ model.now }
    ensures value { Gives result (spec.term_of model.now (variable.now, coefficient)) }
{
    let bounds = bounds_of(alloc, model, context, variable)?;
    Ok(Term {
        variable: variable.copied(alloc)?,
        bounds: term_bounds(bounds),
        coefficient,
    })
}

// The term of a form at a place, behind those found.
fn push_term(
    alloc: Global,
    model: &LoadedModel,
    context: &mut Context<'_>,
    found: &mut Vec<Term>,
    form: &Form,
    place: usize,
) -> Result<(), EvalFault>
    requires of { context.old ≡ model.now }
    ensures of { context.new ≡ model.now }
    ensures value { Follows result found.new.items (spec.term_at model.now found.old.items (slice_get form.now.terms place)) }
{
    match form.term(place) {
        None => Ok(()),
        Some((variable, coefficient)) => {
            found.push(term_of(alloc, model, context, variable, *coefficient)?)?;
            Ok(())
        }
    }
}

/// The terms of a form in order.
pub(crate) fn terms_of(
    alloc: Global,
    model: &LoadedModel,
    context: &mut Context<'_>,
    form: &Form,
) -> Result<Vec<Term>, EvalFault>
    requires of { context.old ≡ model.now }
    ensures of { context.new ≡ model.now }
    ensures value { GivesAs (λ terms. terms.items) result (spec.terms_of model.now [] form.now.terms) }
{
    let mut found = Vec::new(alloc);
    for place in 0..form.len() {
        push_term(alloc, model, context, &mut found, form, place)?;
    }
    Ok(found)
}
