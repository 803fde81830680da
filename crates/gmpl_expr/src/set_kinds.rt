// Which expressions are sets.
ghost use Rattle.std.specs.Prelude.{◌≡◌};
ghost use Rattle.gmpl_meaning.specs.Expressions as spec;
ghost use Rattle.gmpl_expr.specs.At as at;
ghost use Rattle.gmpl_resolved.specs.declared.expression.Meaning.TheVariants as names;

use gmpl_data::LoadedModel;
use gmpl_resolved::{Entry, Expr, Indexing, Meaning, Statement};
use gmpl_syntax::{Iteration, Operator};

fn declares_set(model: &LoadedModel, place: usize) -> bool
    ensures { result ≡ spec.names_set model.now.statements (names.Object place) }
{
    match model.statement(place) {
        None => false,
        Some(found) => match &found.statement {
            Statement::Set(_) => true,
            _ => false,
        },
    }
}

fn names_set(model: &LoadedModel, name: Meaning) -> bool
    ensures { result ≡ spec.names_set model.now.statements name }
{
    match name {
        Meaning::Index(_) => false,
        Meaning::Object(place) => declares_set(model, place),
    }
}

fn makes_set(operator: Operator) -> bool
    ensures { result ≡ spec.makes_set operator }
{
    match operator {
        Operator::Union | Operator::Diff | Operator::Symdiff | Operator::Inter | Operator::Cross =>
            { true }
        _ => false,
    }
}

fn iterates_to_set(iteration: Iteration) -> bool
    ensures { result ≡ spec.iterates_to_set iteration }
{
    match iteration {
        Iteration::Setof => true,
        _ => false,
    }
}

/// Whether an expression is a set.
pub(crate) fn is_set(model: &LoadedModel, height: u32, whole: &Expr) -> bool
    ensures { result ≡ (at.expr model.now height whole.now).is_set }
{
    match whole {
        Expr::Named(name, _, _) => names_set(model, *name),
        Expr::Group(parts) => match parts.as_slice() {
            [] => false,
            [only] => is_set(model, height, only),
            [_, _, ..] => false,
        },
        Expr::Braces(_) | Expr::Range(_, _, _) => true,
        Expr::Iterated(iteration, _, _) => iterates_to_set(*iteration),
        Expr::If(_, first, _) => is_set(model, height, first.get()),
        Expr::Chain(first, links) => match links.as_slice() {
            [] => is_set(model, height, first.get()),
            [link, ..] => makes_set(link.operator),
        },
        _ => false,
    }
}

fn is_indexed(model: &LoadedModel, height: u32, entries: &[Entry]) -> bool
    ensures { result ≡ spec.is_indexed (at.entries model.now height entries.now) }
{
    for entry in entries {
        if entry.index.is_some() {
            return true;
        }
    }
    false
}

fn begins_with_set(model: &LoadedModel, height: u32, entries: &[Entry]) -> bool
    ensures { result ≡ spec.begins_with_set (at.entries model.now height entries.now) }
{
    match entries {
        [] => false,
        [first, ..] => is_set(model, height, &first.set),
    }
}

/// Whether braces hold an indexing expression, and not elements.
pub(crate) fn is_indexing(model: &LoadedModel, height: u32, whole: &Indexing) -> bool
    ensures { result ≡ spec.is_indexing (at.indexing model.now height whole.now) }
{
    whole.condition.is_some()
        || is_indexed(model, height, whole.entries.as_slice())
        || begins_with_set(model, height, whole.entries.as_slice())
}
