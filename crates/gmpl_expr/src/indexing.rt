// What indexing expressions go over, and whether subscripts lie in a domain.
ghost use Rattle.std.specs.Prelude.{◌≡◌, [], Ok};
ghost use Rattle.gmpl_value.specs.Outcome.{Gives, GivesAs};
ghost use Rattle.gmpl_expr.specs.At as at;
ghost use Rattle.gmpl_meaning.specs.Walks as walks;
ghost use Rattle.gmpl_meaning.specs.Domains as domains;
ghost use Rattle.gmpl_meaning.specs.Members.{member};
ghost use Rattle.gmpl_expr.specs.Shared.{entered};
ghost use Rattle.gmpl_meaning.specs.Right.{AreRight};

use crate::entered::{Entered, with_index, without_index};
use crate::evaluate::eval;
use crate::handed::{component_of, push_component};
use crate::places::{add_entered, enter, keep_where, start, stopped, within_where};
use crate::room::TEST;
use crate::sets::shared_set;
use crate::values::holds;
use gmpl_data::LoadedModel;
use gmpl_meaning::{Kept, Walk};
use gmpl_resolved::{Component, Entry, Expr, Indexing};
use gmpl_value::{EvalFault, Symbol, Tuple};
use sqlite_items::Items;
use std::alloc::Global;

// ---- elements in order

/// What an indexing expression goes over.
#[cycle(evaluation)]
pub(crate) fn walked(
    alloc: Global,
    model: &LoadedModel,
    kept: &mut Kept,
    height: u32,
    room: u32,
    indexing: &Indexing,
    bindings: &Tuple,
) -> Result<Walk, EvalFault>
    requires right { AreRight model.now kept.old }
    ensures right { AreRight model.now kept.new }
    ensures value { Gives result (Ok (walks.walked (at.indexing model.now height indexing.now) bindings.now)) }
{
    let entries = indexing.entries.as_slice();
    match &indexing.condition {
        None => over_entries(alloc, model, kept, height, room, entries, bindings),
        Some(condition) => {
            let condition = condition.get();
            let walk = over_entries(alloc, model, kept, height, room, entries, bindings)?;
            filtered(alloc, model, kept, height, room, condition, &walk, bindings)
        }
    }
}

#[cycle(evaluation)]
fn over_entries(
    alloc: Global,
    model: &LoadedModel,
    kept: &mut Kept,
    height: u32,
    room: u32,
    entries: &[Entry],
    bindings: &Tuple,
) -> Result<Walk, EvalFault>
    requires right { AreRight model.now kept.old }
    ensures right { AreRight model.now kept.new }
    ensures value { Gives result (Ok (walks.over_entries (at.entries model.now height entries.now) bindings.now walks.start)) }
{
    let mut walk = start(alloc)?;
    for entry in entries {
        walk = extended(alloc, model, kept, height, room, entry, &walk, bindings)?;
    }
    Ok(walk)
}

#[cycle(evaluation)]
fn extended(
    alloc: Global,
    model: &LoadedModel,
    kept: &mut Kept,
    height: u32,
    room: u32,
    entry: &Entry,
    walk: &Walk,
    bindings: &Tuple,
) -> Result<Walk, EvalFault>
    requires right { AreRight model.now kept.old }
    ensures right { AreRight model.now kept.new }
    ensures value { Gives result (Ok (walks.extended (at.entry model.now height entry.now) bindings.now [] walk.now.elements walk.now.fault)) }
{
    let mut found = Items::new(alloc);
    for element in walk.elements.as_slice() {
        let inner = bindings.joined(alloc, &element.indices)?;
        match entry_value(alloc, model, kept, height, room, entry, &inner) {
            Ok(value) => add_entered(alloc, &mut found, element, value)?,
            Err(fault) => return stopped(found, fault),
        }
    }
    Ok(Walk {
        elements: found,
        fault: walk.fault,
    })
}

#[cycle(evaluation)]
fn filtered(
    alloc: Global,
    model: &LoadedModel,
    kept: &mut Kept,
    height: u32,
    room: u32,
    condition: &Expr,
    walk: &Walk,
    bindings: &Tuple,
) -> Result<Walk, EvalFault>
    requires right { AreRight model.now kept.old }
    ensures right { AreRight model.now kept.new }
    ensures value { Gives result (Ok (walks.filtered (at.expr model.now height condition.now) bindings.now [] walk.now.elements walk.now.fault)) }
{
    let mut found = Items::new(alloc);
    for element in walk.elements.as_slice() {
        let inner = bindings.joined(alloc, &element.indices)?;
        match holds(alloc, model, kept, height, room, condition, &inner) {
            Ok(truth) => keep_where(alloc, &mut found, element, truth)?,
            Err(fault) => return stopped(found, fault),
        }
    }
    Ok(Walk {
        elements: found,
        fault: walk.fault,
    })
}

#[cycle(evaluation)]
pub(crate) fn entry_value(
    alloc: Global,
    model: &LoadedModel,
    kept: &mut Kept,
    height: u32,
    room: u32,
    entry: &Entry,
    bindings: &Tuple,
) -> Result<Entered, EvalFault>
    requires right { AreRight model.now kept.old }
    ensures right { AreRight model.now kept.new }
    ensures value { GivesAs entered result (walks.entry_value (at.entry model.now height entry.now) bindings.now) }
{
    match &entry.index {
        None => {
            let set = shared_set(alloc, model, kept, height, room, &entry.set, bindings);
            without_index(set)
        }
        Some(index) => {
            let index = index.as_slice();
            let pattern = component_values(alloc, model, kept, height, room, index, bindings)?;
            let set = shared_set(alloc, model, kept, height, room, &entry.set, bindings);
            with_index(pattern, set)
        }
    }
}

#[cycle(evaluation)]
fn component_values(
    alloc: Global,
    model: &LoadedModel,
    kept: &mut Kept,
    height: u32,
    room: u32,
    all: &[Component],
    bindings: &Tuple,
) -> Result<Items<Option<Symbol>>, EvalFault>
    requires right { AreRight model.now kept.old }
    ensures right { AreRight model.now kept.new }
    ensures value { Gives result (walks.component_values [] (at.components model.now height all.now) bindings.now) }
{
    let mut found = Items::new(alloc);
    for one in all {
        let component = component_value(alloc, model, kept, height, room, one, bindings);
        push_component(&mut found, component)?;
    }
    Ok(found)
}

#[cycle(evaluation)]
fn component_value(
    alloc: Global,
    model: &LoadedModel,
    kept: &mut Kept,
    height: u32,
    room: u32,
    component: &Component,
    bindings: &Tuple,
) -> Result<Option<Symbol>, EvalFault>
    requires right { AreRight model.now kept.old }
    ensures right { AreRight model.now kept.new }
    ensures value { Gives result (walks.component_value (at.component model.now height component.now) bindings.now) }
{
    match component {
        Component::New => Ok(None),
        Component::Value(whole) => {
            component_of(eval(alloc, model, kept, height, room, whole, bindings))
        }
    }
}

// ---- subscripts

#[cycle(evaluation)]
pub(crate) fn within_domain(
    alloc: Global,
    model: &LoadedModel,
    kept: &mut Kept,
    height: u32,
    room: u32,
    domain: &Option<Indexing>,
    subscripts: &Tuple,
) -> Result<Tuple, EvalFault>
    requires right { AreRight model.now kept.old }
    ensures right { AreRight model.now kept.new }
    ensures value { Gives result (domains.within_domain model.now.statements (member model.now height) domain.now subscripts.now) }
{
    match domain {
        None => Ok(Tuple::new(alloc)),
        Some(domain) => {
            let room = room.saturating_sub(TEST);
            within_indexing(alloc, model, kept, height, room, domain, subscripts)
        }
    }
}

#[cycle(evaluation)]
fn within_indexing(
    alloc: Global,
    model: &LoadedModel,
    kept: &mut Kept,
    height: u32,
    room: u32,
    domain: &Indexing,
    subscripts: &Tuple,
) -> Result<Tuple, EvalFault>
    requires right { AreRight model.now kept.old }
    ensures right { AreRight model.now kept.new }
    ensures value { Gives result (domains.within_indexing (at.indexing model.now height domain.now) subscripts.now) }
{
    let entries = domain.entries.as_slice();
    match &domain.condition {
        None => within_entries(alloc, model, kept, height, room, entries, subscripts),
        Some(condition) => {
            let condition = condition.get();
            let bindings = within_entries(alloc, model, kept, height, room, entries, subscripts)?;
            let truth = holds(alloc, model, kept, height, room, condition, &bindings);
            within_where(bindings, truth)
        }
    }
}

#[cycle(evaluation)]
fn within_entries(
    alloc: Global,
    model: &LoadedModel,
    kept: &mut Kept,
    height: u32,
    room: u32,
    entries: &[Entry],
    subscripts: &Tuple,
) -> Result<Tuple, EvalFault>
    requires right { AreRight model.now kept.old }
    ensures right { AreRight model.now kept.new }
    ensures value { Gives result (domains.within_entries (at.entries model.now height entries.now) [] subscripts.now) }
{
    let mut bindings = Tuple::new(alloc);
    let mut rest = subscripts.copied(alloc)?;
    for entry in entries {
        let value = entry_value(alloc, model, kept, height, room, entry, &bindings);
        enter(alloc, &mut bindings, &mut rest, value)?;
    }
    Ok(bindings)
}
