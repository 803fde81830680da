// The names of the parts of statements, resolved.
ghost use Rattle.std.specs.Prelude.{◌≡◌};
ghost use Rattle.gmpl_names.specs.Expressions.{Follows};
ghost use Rattle.gmpl_names.specs.Expressions as names;
ghost use Rattle.gmpl_names.specs.Statements as spec;

use crate::{Names, NamesError, resolve_expr, resolve_indexing, room_for};
use gmpl_resolved as resolved;
use gmpl_syntax::{Attribute, Constraint, Declaration, Expr, Head, Indexing, Objective};
use sqlite_items::{Boxed, Items};
use std::alloc::Global;

// A resolved part is held in a `Boxed` while others are resolved, since a function that owns a tree by value is dear to prove.

pub(crate) fn boxed_indexing(
    alloc: Global,
    objects: &Names,
    scope: &mut Names,
    whole: &Indexing,
) -> Result<Boxed<resolved::Indexing>, NamesError>
    ensures { Follows (names.indexing objects.now whole.now scope.old) result scope.new }
{
    let made = resolve_indexing(alloc, objects, scope, whole)?;
    Ok(Boxed::new(alloc, made)?)
}

pub(crate) fn optional_indexing(
    alloc: Global,
    objects: &Names,
    scope: &mut Names,
    whole: &Option<Indexing>,
) -> Result<Option<Boxed<resolved::Indexing>>, NamesError>
    ensures { Follows (spec.optional_indexing objects.now whole.now scope.old) result scope.new }
{
    match whole {
        None => Ok(None),
        Some(whole) => Ok(Some(boxed_indexing(alloc, objects, scope, whole)?)),
    }
}

pub(crate) fn boxed_expr(
    alloc: Global,
    objects: &Names,
    scope: &mut Names,
    whole: &Expr,
) -> Result<Boxed<resolved::Expr>, NamesError>
    ensures { Follows (names.expr objects.now whole.now scope.old) result scope.new }
{
    let made = resolve_expr(alloc, objects, scope, whole)?;
    Ok(Boxed::new(alloc, made)?)
}

pub(crate) fn optional_side(
    alloc: Global,
    objects: &Names,
    scope: &mut Names,
    whole: &Option<Expr>,
) -> Result<Option<Boxed<resolved::Expr>>, NamesError>
    ensures { Follows (spec.optional_side objects.now whole.now scope.old) result scope.new }
{
    match whole {
        None => Ok(None),
        Some(whole) => Ok(Some(boxed_expr(alloc, objects, scope, whole)?)),
    }
}

/// The part itself, where there is one.
pub(crate) fn unboxed<T: Drop>(part: Option<Boxed<T>>) -> Option<T>
    ensures { result ≡ part }
{
    match part {
        None => None,
        Some(part) => Some(part.into_inner()),
    }
}

fn head(
    alloc: Global,
    objects: &Names,
    scope: &mut Names,
    whole: &Head,
) -> Result<Boxed<resolved::Head>, NamesError>
    ensures { Follows (spec.head objects.now whole.now scope.old) result scope.new }
{
    let name = whole.name.copied(alloc)?;
    let domain = optional_indexing(alloc, objects, scope, &whole.domain)?;
    let made = resolved::Head {
        name,
        domain: unboxed(domain),
    };
    Ok(Boxed::new(alloc, made)?)
}

fn attribute(
    alloc: Global,
    objects: &Names,
    scope: &mut Names,
    whole: &Attribute,
) -> Result<resolved::Attribute, NamesError>
    ensures { Follows (spec.attribute objects.now whole.now scope.old) result scope.new }
{
    match whole {
        Attribute::Dimension(dimension) => Ok(resolved::Attribute::Dimension(*dimension)),
        Attribute::Restriction(relation, value) => Ok(resolved::Attribute::Restriction(
            *relation,
            resolve_expr(alloc, objects, scope, value)?,
        )),
        Attribute::Assigned(value) => Ok(resolved::Attribute::Assigned(resolve_expr(
            alloc, objects, scope, value,
        )?)),
        Attribute::Default(value) => Ok(resolved::Attribute::Default(resolve_expr(
            alloc, objects, scope, value,
        )?)),
        Attribute::Integer => Ok(resolved::Attribute::Integer),
        Attribute::Binary => Ok(resolved::Attribute::Binary),
        Attribute::Symbolic => Ok(resolved::Attribute::Symbolic),
    }
}

fn attributes(
    alloc: Global,
    objects: &Names,
    scope: &mut Names,
    all: &[Attribute],
) -> Result<Items<resolved::Attribute>, NamesError>
    ensures { Follows (spec.attributes objects.now all.now scope.old) result scope.new }
{
    let mut made = room_for(alloc, all.len())?;
    for one in all {
        made.push(attribute(alloc, objects, scope, one)?)?;
    }
    Ok(made)
}

/// The declaration of a set, a parameter or a variable.
pub(crate) fn declaration(
    alloc: Global,
    objects: &Names,
    scope: &mut Names,
    whole: &Declaration,
) -> Result<resolved::Declaration, NamesError>
    ensures { Follows (spec.declaration objects.now whole.now scope.old) result scope.new }
{
    let head = head(alloc, objects, scope, &whole.head)?;
    let attributes = attributes(alloc, objects, scope, whole.attributes.as_slice())?;
    Ok(resolved::Declaration {
        head: head.into_inner(),
        attributes,
    })
}

pub(crate) fn constraint(
    alloc: Global,
    objects: &Names,
    scope: &mut Names,
    whole: &Constraint,
) -> Result<Boxed<resolved::Constraint>, NamesError>
    ensures { Follows (spec.constraint objects.now whole.now scope.old) result scope.new }
{
    let head = head(alloc, objects, scope, &whole.head)?;
    let left = boxed_expr(alloc, objects, scope, &whole.left)?;
    let right = boxed_expr(alloc, objects, scope, &whole.right)?;
    let last = optional_side(alloc, objects, scope, &whole.last)?;
    let made = resolved::Constraint {
        head: head.into_inner(),
        left: left.into_inner(),
        relation: whole.relation,
        right: right.into_inner(),
        last: unboxed(last),
    };
    Ok(Boxed::new(alloc, made)?)
}

pub(crate) fn objective(
    alloc: Global,
    objects: &Names,
    scope: &mut Names,
    whole: &Objective,
) -> Result<Boxed<resolved::Objective>, NamesError>
    ensures { Follows (spec.objective objects.now whole.now scope.old) result scope.new }
{
    let head = head(alloc, objects, scope, &whole.head)?;
    let form = boxed_expr(alloc, objects, scope, &whole.form)?;
    let made = resolved::Objective {
        direction: whole.direction,
        head: head.into_inner(),
        form: form.into_inner(),
    };
    Ok(Boxed::new(alloc, made)?)
}
