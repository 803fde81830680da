// What a name means.
ghost use Rattle.std.specs.Prelude.{◌≡◌, None, Some, OnOk, IfOk};
ghost use Rattle.gmpl_names.specs.Meanings as spec;
ghost use Rattle.gmpl_names.specs.Supported as supported;
ghost use Rattle.gmpl_names.specs.Expressions.{Follows, FollowsFound, Gives, beside};

use crate::error::NamesError;
use crate::names::Names;
use gmpl_resolved::{Component, Expr, Meaning};
use gmpl_syntax::{Function, Suffix, SyntaxFaultKind};
use gmpl_text::Text;
use sqlite_items::Items;
use std::alloc::{AllocError, Global};

fn meaning(objects: &Names, scope: &Names, name: &str) -> Option<Meaning>
    ensures { result ≡ spec.meaning objects.now scope.now name.now }
{
    match scope.place(name) {
        Some(place) => Some(Meaning::Index(place)),
        None => match objects.place(name) {
            Some(place) => Some(Meaning::Object(place)),
            None => None,
        },
    }
}

/// What a name means that is no component of an index.
pub fn resolve_name(objects: &Names, scope: &Names, name: &str) -> Result<Meaning, NamesError>
    ensures { Gives (spec.used objects.now scope.now name.now) result }
{
    match meaning(objects, scope, name) {
        None => Err(NamesError::Fault(SyntaxFaultKind::Undeclared)),
        Some(meaning) => Ok(meaning),
    }
}

pub(crate) fn supports_function(function: Function) -> bool
    ensures { result ≡ supported.supports_function function }
{
    match function {
        Function::LeftOut => false,
        _ => true,
    }
}

fn supports_suffix(suffix: Option<Suffix>) -> bool
    ensures { result ≡ supported.supports_suffix suffix }
{
    match suffix {
        Some(Suffix::LeftOut) => false,
        _ => true,
    }
}

/// A name with its subscripts and its suffix.
pub(crate) fn named(
    objects: &Names,
    scope: &Names,
    name: &Text,
    subscripts: Items<Expr>,
    suffix: Option<Suffix>,
) -> Result<Expr, NamesError>
    ensures { Follows (beside (spec.named_by (spec.used objects.now scope.now name.now) subscripts suffix) scope.now) result scope.now }
{
    let meaning = resolve_name(objects, scope, name.as_str())?;
    if supports_suffix(suffix) {
        Ok(Expr::Named(meaning, subscripts, suffix))
    } else {
        Err(NamesError::Fault(SyntaxFaultKind::Unsupported))
    }
}

fn new_index(alloc: Global, found: &mut Names, name: &str) -> Result<Component, NamesError>
    ensures { FollowsFound (spec.new_index name.now found.old) result found.new }
{
    if found.insert(name.to_string(alloc)?)? {
        Ok(Component::New)
    } else {
        Err(NamesError::Fault(SyntaxFaultKind::Declared))
    }
}

/// A name alone as a component of an index, behind the new indices of its entry.
pub(crate) fn lone(
    alloc: Global,
    objects: &Names,
    scope: &Names,
    found: &mut Names,
    name: &Text,
) -> Result<Component, NamesError>
    ensures { FollowsFound (spec.lone objects.now scope.now name.now found.old) result found.new }
{
    match meaning(objects, scope, name.as_str()) {
        None => new_index(alloc, found, name.as_str()),
        Some(meaning) => Ok(Component::Value(Expr::Named(meaning, Items::new(alloc), None))),
    }
}
