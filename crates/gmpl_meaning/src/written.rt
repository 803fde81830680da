// The sets that stand in declarations.
ghost use Rattle.std.specs.Prelude.{◌≡◌, IfSome, Some, true};
ghost use Rattle.std.specs.Option.{option_copied};
ghost use Rattle.gmpl_data.specs.Given.{statement_at};
ghost use Rattle.gmpl_meaning.specs.Expressions.{meaning};
ghost use Rattle.gmpl_meaning.specs.Members.{member};
ghost use Rattle.gmpl_meaning.specs.Right.{anew};
ghost use Rattle.gmpl_meaning.specs.Written as spec;
ghost use Rattle.gmpl_meaning.specs.declared.asked.Asked.TheVariants as of;

use crate::asked::Asked;
use gmpl_data::LoadedModel;
use gmpl_resolved::{Attribute, Entry, Expr, Indexing, Statement};
use gmpl_same::same_expr;
use gmpl_value::Tuple;
use std::alloc::Global;

fn domain_entries(domain: &Option<Indexing>) -> &[Entry]
    ensures { result.now ≡ spec.domain_entries domain.now }
{
    match domain {
        None => &[],
        Some(domain) => domain.entries.as_slice(),
    }
}

fn entries_of(statement: &Statement) -> &[Entry]
    ensures { result.now ≡ spec.entries_of statement.now }
{
    match statement {
        Statement::Set(set) => domain_entries(&set.head.domain),
        Statement::Param(param) => domain_entries(&param.head.domain),
        Statement::Var(variable) => domain_entries(&variable.head.domain),
        _ => &[],
    }
}

fn attributes_of(statement: &Statement) -> &[Attribute]
    ensures { result.now ≡ spec.attributes_of statement.now }
{
    match statement {
        Statement::Set(set) => set.attributes.as_slice(),
        Statement::Param(param) => param.attributes.as_slice(),
        Statement::Var(variable) => variable.attributes.as_slice(),
        _ => &[],
    }
}

fn set_of_entry(entry: Option<&Entry>) -> Option<&Expr>
    ensures { option_copied result ≡ spec.set_of_entry (option_copied entry.entry) }
{
    match entry {
        None => None,
        Some(entry) => Some(&entry.set),
    }
}

fn restricted_to(attribute: Option<&Attribute>) -> Option<&Expr>
    ensures { option_copied result ≡ spec.restricted_to (option_copied attribute.entry) }
{
    match attribute {
        None => None,
        Some(attribute) => match attribute {
            Attribute::Restriction(_, whole) => Some(whole),
            _ => None,
        },
    }
}

fn entry_set(model: &LoadedModel, place: usize, number: usize) -> Option<&Expr>
    ensures { option_copied result ≡ spec.entry_set (statement_at model.now place) number }
{
    match model.statement(place) {
        None => None,
        Some(found) => set_of_entry(entries_of(&found.statement).get(number)),
    }
}

fn restriction(model: &LoadedModel, place: usize, number: usize) -> Option<&Expr>
    ensures { option_copied result ≡ spec.restriction (statement_at model.now place) number }
{
    match model.statement(place) {
        None => None,
        Some(found) => restricted_to(attributes_of(&found.statement).get(number)),
    }
}

fn is_same(own: Option<&Expr>, whole: &Expr) -> bool
    ensures { result ≡ true → option_copied own.entry ≡ Some whole.now }
{
    match own {
        None => false,
        Some(own) => same_expr(whole, own),
    }
}

// Which entry of the domain of the object at this place has this set.
fn entry_with(model: &LoadedModel, place: usize, whole: &Expr) -> Option<usize>
    ensures { IfSome result (λ number. spec.entry_set (statement_at model.now place) number ≡ Some whole.now) }
{
    for number in 0..entry_count(model, place) {
        if is_same(entry_set(model, place, number), whole) {
            return Some(number);
        }
    }
    None
}

fn entry_count(model: &LoadedModel, place: usize) -> usize {
    match model.statement(place) {
        None => 0,
        Some(found) => entries_of(&found.statement).len(),
    }
}

// Which attribute of the object at this place restricts values to this.
fn restriction_to(model: &LoadedModel, place: usize, whole: &Expr) -> Option<usize>
    ensures { IfSome result (λ number. spec.restriction (statement_at model.now place) number ≡ Some whole.now) }
{
    for number in 0..attribute_count(model, place) {
        if is_same(restriction(model, place, number), whole) {
            return Some(number);
        }
    }
    None
}

fn attribute_count(model: &LoadedModel, place: usize) -> usize {
    match model.statement(place) {
        None => 0,
        Some(found) => attributes_of(&found.statement).len(),
    }
}

fn entry_in_scope(
    alloc: Global,
    place: usize,
    number: usize,
    height: u32,
    bindings: &Tuple,
) -> Option<Asked>
    ensures { IfSome result (λ asked. asked ≡ of.Entry place number height bindings.now) }
{
    Some(Asked::Entry(place, number, height, bindings.copied(alloc).ok()?))
}

// A member's value is tested once, so a restriction is worth keeping only where it is the same for all members.
fn restriction_in_scope(
    alloc: Global,
    place: usize,
    number: usize,
    height: u32,
    bindings: &Tuple,
) -> Option<Asked>
    ensures { IfSome result (λ asked. asked ≡ of.Restriction place number height bindings.now) }
{
    if bindings.symbols().is_empty() {
        Some(Asked::Restriction(place, number, height, bindings.copied(alloc).ok()?))
    } else {
        None
    }
}

fn asked_at(
    alloc: Global,
    model: &LoadedModel,
    height: u32,
    place: usize,
    whole: &Expr,
    bindings: &Tuple,
) -> Option<Asked>
    ensures { IfSome result (λ asked. anew model.now asked ≡ (meaning model.now.statements (member model.now height) whole.now).value bindings.now) }
{
    match entry_with(model, place, whole) {
        Some(number) => entry_in_scope(alloc, place, number, height, bindings),
        None => match restriction_to(model, place, whole) {
            Some(number) => restriction_in_scope(alloc, place, number, height, bindings),
            None => None,
        },
    }
}

/// What is asked for by an expression that stands in a declaration, as the set of an entry of the domain or as what values are
/// restricted to, where the indices in scope have these values.
pub fn asked_by(
    alloc: Global,
    model: &LoadedModel,
    height: u32,
    whole: &Expr,
    bindings: &Tuple,
) -> Option<Asked>
    ensures { IfSome result (λ asked. anew model.now asked ≡ (meaning model.now.statements (member model.now height) whole.now).value bindings.now) }
{
    for place in 0..model.statements.len() {
        let found = asked_at(alloc, model, height, place, whole, bindings);
        if found.is_some() {
            return found;
        }
    }
    None
}
