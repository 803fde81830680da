// Elements of indexing expressions, and subscripts within an entry's set.
ghost use Rattle.std.specs.Prelude.{◌≡◌, Bool, OnOk, IfOk, take, drop, Ok, Err, if◌then◌else◌};
ghost use Rattle.gmpl_value.specs.declared.eval_fault.EvalFault.TheVariants as faults;
ghost use Rattle.gmpl_value.specs.Outcome.{Follows, Gives, GivesAs, Outcome, then_do};
ghost use Rattle.gmpl_meaning.specs.declared.walk.EntryValue.{EntryValue};
ghost use Rattle.gmpl_expr.specs.Stops as stops;
ghost use Rattle.gmpl_expr.specs.Shared.{entered};
ghost use Rattle.gmpl_expr.specs.OneByOne as one_by_one;
ghost use Rattle.gmpl_meaning.specs.Walks as walks;
ghost use Rattle.gmpl_meaning.specs.Domains as domains;
ghost use Rattle.gmpl_operations.specs.Patterns.{matched};

use crate::entered::Entered;
use gmpl_meaning::{Element, Walk};
use gmpl_operations::matched;
use gmpl_value::{EvalFault, Symbol, Tuple};
use sqlite_items::Items;
use std::alloc::{AllocError, Global};

/// A walk that ends at a fault.
pub(crate) fn stopped(found: Items<Element>, fault: EvalFault) -> Result<Walk, EvalFault>
    ensures { result ≡ stops.stopped found fault }
{
    match fault {
        EvalFault::NoMemory => Err(EvalFault::NoMemory),
        fault => Ok(Walk {
            elements: found,
            fault: Some(fault),
        }),
    }
}

/// The one element before the first entry.
pub(crate) fn start(alloc: Global) -> Result<Walk, AllocError>
    ensures { IfOk result (λ made. made ≡ walks.start) }
{
    let mut elements = Items::new(alloc);
    elements.push(Element {
        indices: Tuple::new(alloc),
        tuple: Tuple::new(alloc),
    })?;
    Ok(Walk {
        elements,
        fault: None,
    })
}

/// An element, where its condition holds.
pub(crate) fn keep_where(
    alloc: Global,
    found: &mut Items<Element>,
    element: &Element,
    holds: bool,
) -> Result<(), AllocError>
    ensures { OnOk result (found.new ≡ walks.kept_by found.old element.now holds) }
{
    if holds {
        found.push(copied(alloc, element)?)?;
    }
    Ok(())
}

// The same element again.
fn copied(alloc: Global, element: &Element) -> Result<Element, AllocError>
    ensures { IfOk result (λ made. made ≡ element.now) }
{
    Ok(Element {
        indices: element.indices.copied(alloc)?,
        tuple: element.tuple.copied(alloc)?,
    })
}

fn add_match(
    alloc: Global,
    found: &mut Items<Element>,
    element: &Element,
    tuple: &Tuple,
    new: Option<Tuple>,
) -> Result<(), AllocError>
    ensures { OnOk result (found.new ≡ walks.with_match found.old element.now tuple.now new) }
{
    match new {
        None => Ok(()),
        Some(new) => {
            let indices = element.indices.joined(alloc, &new)?;
            let tuple = element.tuple.joined(alloc, tuple)?;
            found.push(Element { indices, tuple })?;
            Ok(())
        }
    }
}

/// An element with each tuple that matches an entry's pattern.
pub(crate) fn add_entered(
    alloc: Global,
    found: &mut Items<Element>,
    element: &Element,
    value: Entered,
) -> Result<(), AllocError>
    ensures { OnOk result (found.new ≡ walks.with_matches found.old element.now value.pattern value.set.value) }
{
    add_matches(alloc, found, element, &value)
}

fn add_matches(
    alloc: Global,
    found: &mut Items<Element>,
    element: &Element,
    value: &Entered,
) -> Result<(), AllocError>
    ensures { OnOk result (found.new ≡ walks.with_matches found.old element.now value.now.pattern value.now.set.value) }
{
    for tuple in value.set.as_ref().elements() {
        let new = matched(alloc, &value.pattern, tuple)?;
        add_match(alloc, found, element, tuple, new)?;
    }
    Ok(())
}

/// The indices in scope where a tuple matches an entry's pattern.
pub(crate) fn inner_of(
    alloc: Global,
    bindings: &Tuple,
    pattern: &Option<Items<Option<Symbol>>>,
    tuple: &Tuple,
) -> Result<Option<Tuple>, AllocError>
    ensures { IfOk result (λ made. made ≡ one_by_one.inner bindings.now (matched pattern.now tuple.now)) }
{
    match matched(alloc, pattern, tuple)? {
        None => Ok(None),
        Some(new) => Ok(Some(bindings.joined(alloc, &new)?)),
    }
}

// ---- subscripts

fn width(value: &Entered) -> usize
    ensures { result ≡ domains.width value.now.pattern value.now.set.value }
{
    match &value.pattern {
        Some(parts) => parts.len(),
        None => match value.set.as_ref().elements() {
            [] => 1,
            [first, ..] => first.len(),
        },
    }
}

fn tuple_of(alloc: Global, symbols: &[Symbol]) -> Result<Tuple, AllocError>
    ensures { IfOk result (λ made. made ≡ symbols.now) }
{
    let mut made = Tuple::with_capacity(alloc, symbols.len())?;
    for symbol in symbols {
        made.push(symbol.copied(alloc)?)?;
    }
    Ok(made)
}

fn first_symbols(symbols: &[Symbol], count: usize) -> &[Symbol]
    ensures { result.now ≡ take count symbols.now }
{
    if count < symbols.len() {
        &symbols[..count]
    } else {
        symbols
    }
}

fn other_symbols(symbols: &[Symbol], count: usize) -> &[Symbol]
    ensures { result.now ≡ drop count symbols.now }
{
    if count < symbols.len() {
        &symbols[count..]
    } else {
        &[]
    }
}

fn indices_of(
    alloc: Global,
    value: &Entered,
    subscripts: &Tuple,
) -> Result<Option<Tuple>, AllocError>
    ensures { IfOk result (λ made. made ≡ domains.indices_of value.now.pattern value.now.set.value subscripts.now) }
{
    if value.set.as_ref().contains(subscripts) {
        matched(alloc, &value.pattern, subscripts)
    } else {
        Ok(None)
    }
}

/// The indices in scope behind an entry, and the subscripts that are left, in the place of those before it; `OutOfDomain` where
/// those that it takes don't lie in its set or don't match.
pub(crate) fn enter(
    alloc: Global,
    bindings: &mut Tuple,
    rest: &mut Tuple,
    value: Result<Entered, EvalFault>,
) -> Result<(), EvalFault>
    ensures { (answer : Outcome EntryValue) → GivesAs entered value answer → Follows result (bindings.new, rest.new) (then_do (domains.within_value bindings.old rest.old) answer) }
{
    match value {
        Ok(value) => enter_value(alloc, bindings, rest, &value),
        Err(fault) => Err(fault),
    }
}

fn enter_value(
    alloc: Global,
    bindings: &mut Tuple,
    rest: &mut Tuple,
    value: &Entered,
) -> Result<(), EvalFault>
    ensures { Follows result (bindings.new, rest.new) (domains.within_value bindings.old rest.old (entered value.now)) }
{
    let behind = within_value(alloc, bindings, rest, value)?;
    *bindings = behind.0;
    *rest = behind.1;
    Ok(())
}

/// The indices in scope, where the domain's condition holds.
pub(crate) fn within_where(
    bindings: Tuple,
    holds: Result<bool, EvalFault>,
) -> Result<Tuple, EvalFault>
    ensures { (answer : Outcome Bool) → Gives holds answer → Gives result (then_do (λ t. if t then Ok bindings else Err faults.OutOfDomain) answer) }
{
    match holds {
        Ok(true) => Ok(bindings),
        Ok(false) => Err(EvalFault::OutOfDomain),
        Err(fault) => Err(fault),
    }
}

fn within_value(
    alloc: Global,
    bindings: &Tuple,
    subscripts: &Tuple,
    value: &Entered,
) -> Result<(Tuple, Tuple), EvalFault>
    ensures { Gives result (domains.within_value bindings.now subscripts.now (entered value.now)) }
{
    let count = width(value);
    let own = tuple_of(alloc, first_symbols(subscripts.symbols(), count))?;
    match indices_of(alloc, value, &own)? {
        None => Err(EvalFault::OutOfDomain),
        Some(new) => {
            let inner = bindings.joined(alloc, &new)?;
            let rest = tuple_of(alloc, other_symbols(subscripts.symbols(), count))?;
            Ok((inner, rest))
        }
    }
}
