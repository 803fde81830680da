// The names of expressions, resolved.
ghost use Rattle.std.specs.Prelude.{◌≡◌, [], Some};
ghost use Rattle.gmpl_names.specs.Expressions as spec;
ghost use Rattle.gmpl_names.specs.Expressions.{Follows, FollowsIndex};

use crate::error::NamesError;
use crate::list::room_for;
use crate::meanings::{lone, named, supports_function};
use crate::names::Names;
use gmpl_resolved as resolved;
use gmpl_syntax::{
    Component, Entry, Expr, Function, Indexing, Iteration, Link, Relation, SyntaxFaultKind,
};
use sqlite_items::{Boxed, Items};
use std::alloc::Global;

/// The expression with its names resolved, where these objects are declared and these indices in scope; the indices in scope
/// are as before. Or the first fault, behind which `scope` has no meaning.
#[cycle(names)]
pub fn resolve_expr(
    alloc: Global,
    objects: &Names,
    scope: &mut Names,
    whole: &Expr,
) -> Result<resolved::Expr, NamesError>
    ensures { Follows (spec.expr objects.now whole.now scope.old) result scope.new }
{
    match whole {
        Expr::Number(number) => Ok(resolved::Expr::Number(*number)),
        Expr::Text(text) => Ok(resolved::Expr::Text(text.copied(alloc)?)),
        Expr::Named(name, subscripts, suffix) => {
            let subscripts = resolve_exprs(alloc, objects, scope, subscripts.as_slice())?;
            named(objects, scope, name, subscripts, *suffix)
        }
        Expr::Call(function, arguments) => {
            let arguments = resolve_exprs(alloc, objects, scope, arguments.as_slice())?;
            if supports_function(*function) {
                Ok(resolved::Expr::Call(*function, arguments))
            } else {
                Err(NamesError::Fault(SyntaxFaultKind::Unsupported))
            }
        }
        Expr::Group(parts) => Ok(resolved::Expr::Group(resolve_exprs(
            alloc,
            objects,
            scope,
            parts.as_slice(),
        )?)),
        Expr::Braces(indexing) => {
            let before = scope.len();
            let indexing = resolve_indexing(alloc, objects, scope, indexing)?;
            scope.truncate(before);
            Ok(resolved::Expr::Braces(indexing))
        }
        Expr::Iterated(iteration, indexing, body) => {
            let before = scope.len();
            let indexing = resolve_indexing(alloc, objects, scope, indexing)?;
            let body = resolve_boxed(alloc, objects, scope, body)?;
            scope.truncate(before);
            Ok(resolved::Expr::Iterated(*iteration, indexing, body))
        }
        Expr::If(condition, first, other) => {
            let condition = resolve_boxed(alloc, objects, scope, condition)?;
            let first = resolve_boxed(alloc, objects, scope, first)?;
            let other = resolve_optional(alloc, objects, scope, other)?;
            Ok(resolved::Expr::If(condition, first, other))
        }
        Expr::Signed(sign, part) => Ok(resolved::Expr::Signed(
            *sign,
            resolve_boxed(alloc, objects, scope, part)?,
        )),
        Expr::Power(base, exponent) => {
            let base = resolve_boxed(alloc, objects, scope, base)?;
            let exponent = resolve_boxed(alloc, objects, scope, exponent)?;
            Ok(resolved::Expr::Power(base, exponent))
        }
        Expr::Chain(first, links) => {
            let first = resolve_boxed(alloc, objects, scope, first)?;
            let links = resolve_links(alloc, objects, scope, links.as_slice())?;
            Ok(resolved::Expr::Chain(first, links))
        }
        Expr::Range(first, last, step) => {
            let first = resolve_boxed(alloc, objects, scope, first)?;
            let last = resolve_boxed(alloc, objects, scope, last)?;
            let step = resolve_optional(alloc, objects, scope, step)?;
            Ok(resolved::Expr::Range(first, last, step))
        }
        Expr::Compared(relation, left, right) => {
            let left = resolve_boxed(alloc, objects, scope, left)?;
            let right = resolve_boxed(alloc, objects, scope, right)?;
            Ok(resolved::Expr::Compared(*relation, left, right))
        }
        Expr::Not(part) => Ok(resolved::Expr::Not(resolve_boxed(alloc, objects, scope, part)?)),
    }
}

#[cycle(names)]
fn resolve_boxed(
    alloc: Global,
    objects: &Names,
    scope: &mut Names,
    whole: &Boxed<Expr>,
) -> Result<Boxed<resolved::Expr>, NamesError>
    ensures { Follows (spec.expr objects.now whole.now scope.old) result scope.new }
{
    let made = resolve_expr(alloc, objects, scope, whole.get())?;
    Ok(Boxed::new(alloc, made)?)
}

#[cycle(names)]
fn resolve_optional(
    alloc: Global,
    objects: &Names,
    scope: &mut Names,
    whole: &Option<Boxed<Expr>>,
) -> Result<Option<Boxed<resolved::Expr>>, NamesError>
    ensures { Follows (spec.optional_expr objects.now whole.now scope.old) result scope.new }
{
    match whole {
        None => Ok(None),
        Some(whole) => {
            let made = resolve_expr(alloc, objects, scope, whole.get())?;
            Ok(Some(Boxed::new(alloc, made)?))
        }
    }
}

/// The expressions from left to right.
#[cycle(names)]
pub fn resolve_exprs(
    alloc: Global,
    objects: &Names,
    scope: &mut Names,
    all: &[Expr],
) -> Result<Items<resolved::Expr>, NamesError>
    ensures { Follows (spec.exprs objects.now all.now scope.old) result scope.new }
{
    let mut made = room_for(alloc, all.len())?;
    for one in all {
        made.push(resolve_expr(alloc, objects, scope, one)?)?;
    }
    Ok(made)
}

#[cycle(names)]
fn resolve_links(
    alloc: Global,
    objects: &Names,
    scope: &mut Names,
    all: &[Link],
) -> Result<Items<resolved::Link>, NamesError>
    ensures { Follows (spec.links objects.now all.now scope.old) result scope.new }
{
    let mut made = room_for(alloc, all.len())?;
    for one in all {
        let operand = resolve_expr(alloc, objects, scope, &one.operand)?;
        made.push(resolved::Link {
            operator: one.operator,
            operand,
        })?;
    }
    Ok(made)
}

// ---- indexing expressions

/// The indexing expression with its names resolved; behind the indices in scope stand its own.
#[cycle(names)]
pub fn resolve_indexing(
    alloc: Global,
    objects: &Names,
    scope: &mut Names,
    whole: &Indexing,
) -> Result<resolved::Indexing, NamesError>
    ensures { Follows (spec.indexing objects.now whole.now scope.old) result scope.new }
{
    let entries = resolve_entries(alloc, objects, scope, whole.entries.as_slice())?;
    let condition = resolve_optional(alloc, objects, scope, &whole.condition)?;
    Ok(resolved::Indexing { entries, condition })
}

#[cycle(names)]
fn resolve_entries(
    alloc: Global,
    objects: &Names,
    scope: &mut Names,
    all: &[Entry],
) -> Result<Items<resolved::Entry>, NamesError>
    ensures { Follows (spec.entries objects.now all.now scope.old) result scope.new }
{
    let mut made = room_for(alloc, all.len())?;
    for one in all {
        made.push(resolve_entry(alloc, objects, scope, one)?)?;
    }
    Ok(made)
}

#[cycle(names)]
fn resolve_entry(
    alloc: Global,
    objects: &Names,
    scope: &mut Names,
    whole: &Entry,
) -> Result<resolved::Entry, NamesError>
    ensures { Follows (spec.entry objects.now whole.now scope.old) result scope.new }
{
    match &whole.index {
        None => Ok(resolved::Entry {
            index: None,
            set: resolve_expr(alloc, objects, scope, &whole.set)?,
        }),
        Some(index) => {
            let mut found = Names::new(alloc);
            let index = resolve_components(alloc, objects, scope, &mut found, index.as_slice())?;
            let set = resolve_expr(alloc, objects, scope, &whole.set)?;
            let set = Boxed::new(alloc, set)?;
            scope.append(found)?;
            Ok(resolved::Entry {
                index: Some(index),
                set: set.into_inner(),
            })
        }
    }
}

#[cycle(names)]
fn resolve_components(
    alloc: Global,
    objects: &Names,
    scope: &mut Names,
    found: &mut Names,
    all: &[Component],
) -> Result<Items<resolved::Component>, NamesError>
    ensures { FollowsIndex (spec.components objects.now all.now found.old scope.old) result found.new scope.new }
{
    let mut made = room_for(alloc, all.len())?;
    for one in all {
        made.push(resolve_component(alloc, objects, scope, found, one)?)?;
    }
    Ok(made)
}

#[cycle(names)]
fn resolve_component(
    alloc: Global,
    objects: &Names,
    scope: &mut Names,
    found: &mut Names,
    whole: &Component,
) -> Result<resolved::Component, NamesError>
    ensures { FollowsIndex (spec.component objects.now whole.now found.old scope.old) result found.new scope.new }
{
    match whole {
        Component::Name(name) => lone(alloc, objects, scope, found, name),
        Component::Value(value) => Ok(resolved::Component::Value(resolve_expr(
            alloc, objects, scope, value,
        )?)),
    }
}
