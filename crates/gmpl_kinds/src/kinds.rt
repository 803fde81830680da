// The kinds of expressions, part by part.
ghost use Rattle.std.specs.Prelude.{◌≡◌};
ghost use Rattle.gmpl_kinds.specs.Kinds as spec;

use crate::demands::{gathered_shape, part_of};
use crate::judged::{
    added, both_scalars, compared, conditional, counted, gathered_with, indexed_entry, iterated,
    linked, logic, plain_entry, range, scalar, set, set_of_dimension, tuple, under,
};
use crate::objects::named;
use crate::shape::{Gathered, Object, Shape, Site};
use gmpl_resolved::{Component, Entry, Expr, Indexing, Link};
use gmpl_syntax::{Function, SyntaxFaultKind};

/// What an expression is where these objects are declared, or its first fault (`WrongKind` or `WrongDimension`).
#[cycle(kinds)]
pub fn shape_of(objects: &[Object], site: Site, whole: &Expr) -> Result<Shape, SyntaxFaultKind>
    ensures { result ≡ spec.shape_of objects.now site whole.now }
{
    match whole {
        Expr::Number(_) | Expr::Text(_) => Ok(Shape::Scalar),
        Expr::Named(meaning, subscripts, suffix) => {
            all_scalars(objects, site, subscripts.as_slice())?;
            named(objects, site, *meaning, subscripts.len(), suffix.is_some())
        }
        Expr::Call(function, arguments) => match function {
            Function::Card => all_sets(objects, site, arguments.as_slice()),
            _ => all_scalars(objects, site, arguments.as_slice()),
        },
        Expr::Group(parts) => group(objects, site, parts.as_slice()),
        Expr::Braces(indexing) => braces(objects, site, indexing),
        Expr::Iterated(iteration, indexing, body) => {
            let dimension = indexing_dimension(objects, site, indexing);
            let body = shape_of(objects, site, body.get());
            iterated(*iteration, dimension, body)
        }
        Expr::If(condition, first, other) => {
            let condition = shape_of(objects, site, condition.get());
            let first = shape_of(objects, site, first.get());
            match other {
                None => conditional(condition, first, None),
                Some(other) => {
                    let other = shape_of(objects, site, other.get());
                    conditional(condition, first, Some(other))
                }
            }
        }
        Expr::Signed(_, part) => scalar(shape_of(objects, site, part.get())),
        Expr::Power(base, exponent) => {
            let base = shape_of(objects, site, base.get());
            let exponent = shape_of(objects, site, exponent.get());
            both_scalars(base, exponent)
        }
        Expr::Chain(first, links) => {
            let before = shape_of(objects, site, first.get())?;
            match links.as_slice() {
                [] => Ok(before),
                [link, ..] => {
                    let before = part_of(link.operator, before)?;
                    all_links(objects, site, before, links.as_slice())
                }
            }
        }
        Expr::Range(first, last, step) => {
            let first = shape_of(objects, site, first.get());
            let last = shape_of(objects, site, last.get());
            match step {
                None => range(first, last, None),
                Some(step) => {
                    let step = shape_of(objects, site, step.get());
                    range(first, last, Some(step))
                }
            }
        }
        Expr::Compared(relation, left, right) => {
            let left = shape_of(objects, site, left.get());
            let right = shape_of(objects, site, right.get());
            compared(*relation, left, right)
        }
        Expr::Not(part) => logic(shape_of(objects, site, part.get())),
    }
}

/// `Scalar` where all of these are numbers or symbols, else the first fault.
#[cycle(kinds)]
pub fn all_scalars(objects: &[Object], site: Site, all: &[Expr]) -> Result<Shape, SyntaxFaultKind>
    ensures { result ≡ spec.all_scalars (spec.shapes_of objects.now site all.now) }
{
    for one in all {
        scalar(shape_of(objects, site, one))?;
    }
    Ok(Shape::Scalar)
}

#[cycle(kinds)]
fn all_sets(objects: &[Object], site: Site, all: &[Expr]) -> Result<Shape, SyntaxFaultKind>
    ensures { result ≡ spec.all_sets (spec.shapes_of objects.now site all.now) }
{
    for one in all {
        set(shape_of(objects, site, one))?;
    }
    Ok(Shape::Scalar)
}

#[cycle(kinds)]
fn group(objects: &[Object], site: Site, parts: &[Expr]) -> Result<Shape, SyntaxFaultKind>
    ensures { result ≡ spec.group (spec.shapes_of objects.now site parts.now) }
{
    match parts {
        [] => Ok(Shape::Scalar),
        [only] => shape_of(objects, site, only),
        [_, _, ..] => tuple(tuple_parts(objects, site, 0, parts)),
    }
}

// How many parts a tuple has; the first that is one too many has a fault.
#[cycle(kinds)]
fn tuple_parts(
    objects: &[Object],
    site: Site,
    before: usize,
    parts: &[Expr],
) -> Result<usize, SyntaxFaultKind>
    ensures { result ≡ spec.tuple_parts before (spec.shapes_of objects.now site parts.now) }
{
    let mut count = before;
    for one in parts {
        count = counted(count, shape_of(objects, site, one))?;
    }
    Ok(count)
}

#[cycle(kinds)]
fn all_links(
    objects: &[Object],
    site: Site,
    first: Shape,
    links: &[Link],
) -> Result<Shape, SyntaxFaultKind>
    ensures { result ≡ spec.links_from first (spec.all_link_parts objects.now site links.now) }
{
    let mut shape = first;
    for link in links {
        let operand = shape_of(objects, site, &link.operand);
        shape = linked(shape, link.operator, operand)?;
    }
    Ok(shape)
}

// ---- indexing expressions

/// The dimension of an indexing expression: how many components a tuple of its indices has.
#[cycle(kinds)]
pub fn indexing_dimension(
    objects: &[Object],
    site: Site,
    whole: &Indexing,
) -> Result<usize, SyntaxFaultKind>
    ensures { result ≡ spec.indexing_dimension (spec.indexing_parts objects.now site whole.now) }
{
    let dimension = dimensions_from(objects, site, 0, whole.entries.as_slice());
    match &whole.condition {
        None => under(dimension, None),
        Some(condition) => {
            let condition = shape_of(objects, site, condition.get());
            under(dimension, Some(condition))
        }
    }
}

#[cycle(kinds)]
fn dimensions_from(
    objects: &[Object],
    site: Site,
    before: usize,
    entries: &[Entry],
) -> Result<usize, SyntaxFaultKind>
    ensures { result ≡ spec.dimensions_from before (spec.all_entry_parts objects.now site entries.now) }
{
    let mut dimension = before;
    for one in entries {
        dimension = added(dimension, entry_dimension(objects, site, one))?;
    }
    Ok(dimension)
}

#[cycle(kinds)]
fn entry_dimension(objects: &[Object], site: Site, whole: &Entry) -> Result<usize, SyntaxFaultKind>
    ensures { result ≡ spec.entry_dimension (spec.entry_parts objects.now site whole.now) }
{
    match &whole.index {
        None => plain_entry(shape_of(objects, site, &whole.set)),
        Some(index) => {
            let parts = all_parts(objects, site, index.as_slice());
            let elements = shape_of(objects, site, &whole.set);
            indexed_entry(parts, index.len(), elements)
        }
    }
}

#[cycle(kinds)]
fn all_parts(objects: &[Object], site: Site, all: &[Component]) -> Result<Shape, SyntaxFaultKind>
    ensures { result ≡ spec.all_parts (spec.component_parts objects.now site all.now) }
{
    for one in all {
        component(objects, site, one)?;
    }
    Ok(Shape::Scalar)
}

#[cycle(kinds)]
fn component(objects: &[Object], site: Site, whole: &Component) -> Result<Shape, SyntaxFaultKind>
    ensures { result ≡ spec.part (spec.component_part objects.now site whole.now) }
{
    match whole {
        Component::New => Ok(Shape::Scalar),
        Component::Value(value) => scalar(shape_of(objects, site, value)),
    }
}

// ---- braces

fn is_indexed(objects: &[Object], site: Site, entries: &[Entry]) -> bool
    ensures { result ≡ spec.is_indexed (spec.all_entry_parts objects.now site entries.now) }
{
    for one in entries {
        if one.index.is_some() {
            return true;
        }
    }
    false
}

#[cycle(kinds)]
fn braces(objects: &[Object], site: Site, whole: &Indexing) -> Result<Shape, SyntaxFaultKind>
    ensures { result ≡ spec.braces (spec.indexing_parts objects.now site whole.now) }
{
    if whole.condition.is_some() || is_indexed(objects, site, whole.entries.as_slice()) {
        set_of_dimension(indexing_dimension(objects, site, whole))
    } else {
        plain_braces(objects, site, whole.entries.as_slice())
    }
}

#[cycle(kinds)]
fn plain_braces(objects: &[Object], site: Site, entries: &[Entry]) -> Result<Shape, SyntaxFaultKind>
    ensures { result ≡ spec.plain_braces (spec.all_entry_parts objects.now site entries.now) }
{
    let mut all = Gathered::Nothing;
    for one in entries {
        all = gathered_with(all, shape_of(objects, site, &one.set))?;
    }
    Ok(gathered_shape(all))
}
