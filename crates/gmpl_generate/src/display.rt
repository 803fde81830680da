// What is shown.
ghost use Rattle.std.specs.Prelude.{◌≡◌, ◌++◌, [], codes, string_bytes, IfOk, Ok, OnOk, length};
ghost use Rattle.gmpl_value.specs.Outcome.{GivesAs, then_do};
ghost use Rattle.gmpl_member_names.specs.Names.{member_name};
ghost use Rattle.gmpl_generate.specs.Shown as texts;
ghost use Rattle.gmpl_generate.specs.Running.{Follows};
ghost use Rattle.gmpl_generate.specs.Display as spec;

use crate::evaluation::{member_value_of, over_domain, value_of};
use crate::fault::Stop;
use crate::printing::put;
use crate::scopes::{Scopes, behind};
use crate::shown::shown;
use gmpl_data::LoadedModel;
use gmpl_expr::Context;
use gmpl_meaning::{Element, Walk};
use gmpl_member_names::member_name;
use gmpl_operations::Value;
use gmpl_resolved::{Expr, Head, Meaning, Numbered, Statement};
use gmpl_syntax::Suffix;
use gmpl_text::Text;
use gmpl_value::{EvalFault, Tuple};
use std::alloc::{AllocError, Global};

// A line with a name and a value.
fn line(alloc: Global, name: &str, value: &str) -> Result<String, AllocError>
    ensures { IfOk result (λ text. string_bytes text ≡ spec.line name.now value.now) }
{
    format!(in alloc; "{name} = {value}\n")
}

// ---- expressions

fn value_line(alloc: Global, value: &Value) -> Result<String, EvalFault>
    ensures { GivesAs string_bytes result (then_do (λ text. Ok (spec.line (codes "display") text)) (texts.shown value.now)) }
{
    let text = shown(alloc, value)?;
    Ok(line(alloc, "display", &text)?)
}

fn expression_line(
    alloc: Global,
    model: &LoadedModel,
    context: &mut Context<'_>,
    whole: &Expr,
    bindings: &Tuple,
) -> Result<String, EvalFault>
    requires of { context.old ≡ model.now }
    ensures of { context.new ≡ model.now }
    ensures value { GivesAs string_bytes result (spec.expression_line model.now whole.now bindings.now) }
{
    let value = value_of(alloc, model, context, bindings, whole)?;
    value_line(alloc, &value)
}

// ---- members of objects

fn named_line(
    alloc: Global,
    name: &Text,
    subscripts: &Tuple,
    value: &Value,
) -> Result<String, EvalFault>
    ensures { GivesAs string_bytes result (then_do (λ text. Ok (spec.line (member_name name.now subscripts.now) text)) (texts.shown value.now)) }
{
    let text = shown(alloc, value)?;
    let name = member_name(alloc, name.as_str(), subscripts)?;
    Ok(line(alloc, &name, &text)?)
}

fn member_line(
    alloc: Global,
    model: &LoadedModel,
    context: &mut Context<'_>,
    place: usize,
    name: &Text,
    subscripts: &Tuple,
) -> Result<String, EvalFault>
    requires of { context.old ≡ model.now }
    ensures of { context.new ≡ model.now }
    ensures value { GivesAs string_bytes result (spec.member_line model.now place name.now subscripts.now) }
{
    let value = member_value_of(alloc, model, context, place, subscripts)?;
    named_line(alloc, name, subscripts, &value)
}

fn show_member(
    alloc: Global,
    model: &LoadedModel,
    context: &mut Context<'_>,
    place: usize,
    name: &Text,
    element: &Element,
    so_far: &mut String,
) -> Result<(), Stop<EvalFault>>
    requires of { context.old ≡ model.now }
    ensures of { context.new ≡ model.now }
    ensures value { Follows (spec.show_member model.now place name.now element.now (string_bytes so_far.old)) result (string_bytes so_far.new) }
{
    let text = member_line(alloc, model, context, place, name, &element.tuple);
    put(so_far, text)
}

fn show_members(
    alloc: Global,
    model: &LoadedModel,
    context: &mut Context<'_>,
    place: usize,
    name: &Text,
    walk: &Walk,
    so_far: &mut String,
) -> Result<(), Stop<EvalFault>>
    requires of { context.old ≡ model.now }
    ensures of { context.new ≡ model.now }
    ensures value { Follows (spec.show_members model.now place name.now walk.now.elements walk.now.fault (string_bytes so_far.old)) result (string_bytes so_far.new) }
{
    for element in walk.elements.as_slice() {
        show_member(alloc, model, context, place, name, element, so_far)?;
    }
    behind(walk.fault)
}

fn head_of(statement: &Statement) -> &Head
    ensures { result.now ≡ spec.head_of statement.now }
{
    match statement {
        Statement::Set(declaration) => &declaration.head,
        Statement::Param(declaration) => &declaration.head,
        Statement::Var(declaration) => &declaration.head,
        Statement::Constraint(constraint) => &constraint.get().head,
        Statement::Objective(objective) => &objective.get().head,
    }
}

fn show_head(
    alloc: Global,
    model: &LoadedModel,
    context: &mut Context<'_>,
    place: usize,
    head: &Head,
    so_far: &mut String,
) -> Result<(), Stop<EvalFault>>
    requires of { context.old ≡ model.now }
    ensures of { context.new ≡ model.now }
    ensures value { Follows (spec.show_head model.now place head.now (string_bytes so_far.old)) result (string_bytes so_far.new) }
{
    let walk = over_domain(alloc, model, context, &head.domain, &Tuple::new(alloc))?;
    show_members(alloc, model, context, place, &head.name, &walk, so_far)
}

// The members of an object.
fn show_object(
    alloc: Global,
    model: &LoadedModel,
    context: &mut Context<'_>,
    place: usize,
    so_far: &mut String,
) -> Result<(), Stop<EvalFault>>
    requires of { context.old ≡ model.now }
    ensures of { context.new ≡ model.now }
    ensures value { Follows (spec.show_object model.now place (string_bytes so_far.old)) result (string_bytes so_far.new) }
{
    match model.statement(place) {
        None => behind(Some(EvalFault::NoValue)),
        Some(numbered) => {
            let head = head_of(&numbered.statement);
            show_head(alloc, model, context, place, head, so_far)
        }
    }
}

// ---- items

fn alone(meaning: Meaning, subscripts: &[Expr], suffix: Option<Suffix>) -> Option<usize>
    ensures { result ≡ spec.alone meaning subscripts.now suffix }
{
    match (meaning, subscripts, suffix) {
        (Meaning::Object(place), [], None) => Some(place),
        _ => None,
    }
}

// The object whose name stands alone.
fn object_alone(item: &Expr) -> Option<usize>
    ensures { result ≡ spec.object_alone item.now }
{
    match item {
        Expr::Named(meaning, subscripts, suffix) => alone(*meaning, subscripts.as_slice(), *suffix),
        _ => None,
    }
}

fn show_item(
    alloc: Global,
    model: &LoadedModel,
    context: &mut Context<'_>,
    item: &Expr,
    bindings: &Tuple,
    so_far: &mut String,
) -> Result<(), Stop<EvalFault>>
    requires of { context.old ≡ model.now }
    ensures of { context.new ≡ model.now }
    ensures value { Follows (spec.show_item model.now bindings.now item.now (string_bytes so_far.old)) result (string_bytes so_far.new) }
{
    match object_alone(item) {
        Some(place) => show_object(alloc, model, context, place, so_far),
        None => {
            let text = expression_line(alloc, model, context, item, bindings);
            put(so_far, text)
        }
    }
}

fn show_items(
    alloc: Global,
    model: &LoadedModel,
    context: &mut Context<'_>,
    items: &[Expr],
    bindings: &Tuple,
    so_far: &mut String,
) -> Result<(), Stop<EvalFault>>
    requires of { context.old ≡ model.now }
    ensures of { context.new ≡ model.now }
    ensures value { Follows (spec.show_items model.now bindings.now items.now (string_bytes so_far.old)) result (string_bytes so_far.new) }
{
    for item in items {
        show_item(alloc, model, context, item, bindings, so_far)?;
    }
    Ok(())
}

/// The items of a `display`, shown at each element.
pub(crate) fn show_each(
    alloc: Global,
    model: &LoadedModel,
    context: &mut Context<'_>,
    items: &[Expr],
    scopes: &Scopes,
    so_far: &mut String,
) -> Result<(), Stop<EvalFault>>
    requires of { context.old ≡ model.now }
    ensures of { context.new ≡ model.now }
    ensures value { Follows (spec.show_each model.now items.now scopes.now (string_bytes so_far.old)) result (string_bytes so_far.new) }
{
    for bindings in scopes.all.as_slice() {
        show_items(alloc, model, context, items, bindings, so_far)?;
    }
    behind(scopes.fault)
}
