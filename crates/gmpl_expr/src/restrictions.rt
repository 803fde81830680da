// Whether the values of parameters and sets meet what is asked of them.
ghost use Rattle.std.specs.Prelude.{◌≡◌};
ghost use Rattle.gmpl_value.specs.Outcome.{Gives};
ghost use Rattle.gmpl_expr.specs.AllHold.{all_hold};
ghost use Rattle.gmpl_meaning.specs.Restrictions as restrictions;
ghost use Rattle.gmpl_meaning.specs.Members.{member};
ghost use Rattle.gmpl_meaning.specs.Right.{AreRight};

use crate::attributes::{all_allow, is_in, where_true};
use crate::evaluate::eval;
use crate::room::TEST;
use crate::sets::shared_set;
use crate::tested::{lies_in, lies_within, meets, symbol_tested};
use gmpl_data::LoadedModel;
use gmpl_meaning::Kept;
use gmpl_operations::Value;
use gmpl_resolved::Attribute;
use gmpl_value::{EvalFault, SetValue, Symbol, Tuple};
use std::alloc::Global;

// ---- parameters

#[cycle(evaluation)]
pub(crate) fn restricted(
    alloc: Global,
    model: &LoadedModel,
    kept: &mut Kept,
    height: u32,
    room: u32,
    bindings: &Tuple,
    symbolic: bool,
    attributes: &[Attribute],
    symbol: Symbol,
) -> Result<Value, EvalFault>
    requires right { AreRight model.now kept.old }
    ensures right { AreRight model.now kept.new }
    ensures value { Gives result (restrictions.restricted model.now.statements (member model.now height) bindings.now symbolic attributes.now symbol) }
{
    let tested = all_hold(
        alloc, model, kept, height, room, bindings, symbolic, attributes, &symbol,
    );
    symbol_tested(symbol, tested)
}

#[cycle(evaluation)]
fn all_hold(
    alloc: Global,
    model: &LoadedModel,
    kept: &mut Kept,
    height: u32,
    room: u32,
    bindings: &Tuple,
    symbolic: bool,
    attributes: &[Attribute],
    symbol: &Symbol,
) -> Result<(), EvalFault>
    requires right { AreRight model.now kept.old }
    ensures right { AreRight model.now kept.new }
    ensures value { Gives result (all_hold model.now.statements (member model.now height) bindings.now symbolic attributes.now symbol.now) }
{
    where_true(all_allow(attributes, symbol))?;
    let room = room.saturating_sub(TEST);
    relations_hold(
        alloc, model, kept, height, room, bindings, symbolic, attributes, symbol,
    )?;
    memberships_hold(
        alloc, model, kept, height, room, bindings, attributes, symbol,
    )
}

#[cycle(evaluation)]
fn relations_hold(
    alloc: Global,
    model: &LoadedModel,
    kept: &mut Kept,
    height: u32,
    room: u32,
    bindings: &Tuple,
    symbolic: bool,
    attributes: &[Attribute],
    symbol: &Symbol,
) -> Result<(), EvalFault>
    requires right { AreRight model.now kept.old }
    ensures right { AreRight model.now kept.new }
    ensures value { Gives result (restrictions.relations_hold model.now.statements (member model.now height) bindings.now symbolic attributes.now symbol.now) }
{
    for attribute in attributes {
        relation_holds(
            alloc, model, kept, height, room, bindings, symbolic, attribute, symbol,
        )?;
    }
    Ok(())
}

#[cycle(evaluation)]
fn relation_holds(
    alloc: Global,
    model: &LoadedModel,
    kept: &mut Kept,
    height: u32,
    room: u32,
    bindings: &Tuple,
    symbolic: bool,
    attribute: &Attribute,
    symbol: &Symbol,
) -> Result<(), EvalFault>
    requires right { AreRight model.now kept.old }
    ensures right { AreRight model.now kept.new }
    ensures value { Gives result (restrictions.relation_holds model.now.statements (member model.now height) bindings.now symbolic attribute.now symbol.now) }
{
    match attribute {
        Attribute::Restriction(relation, whole) => {
            if is_in(*relation) {
                Ok(())
            } else {
                let value = eval(alloc, model, kept, height, room, whole, bindings);
                meets(symbolic, *relation, symbol, value)
            }
        }
        _ => Ok(()),
    }
}

#[cycle(evaluation)]
fn memberships_hold(
    alloc: Global,
    model: &LoadedModel,
    kept: &mut Kept,
    height: u32,
    room: u32,
    bindings: &Tuple,
    attributes: &[Attribute],
    symbol: &Symbol,
) -> Result<(), EvalFault>
    requires right { AreRight model.now kept.old }
    ensures right { AreRight model.now kept.new }
    ensures value { Gives result (restrictions.memberships_hold model.now.statements (member model.now height) bindings.now attributes.now symbol.now) }
{
    for attribute in attributes {
        membership_holds(
            alloc, model, kept, height, room, bindings, attribute, symbol,
        )?;
    }
    Ok(())
}

#[cycle(evaluation)]
fn membership_holds(
    alloc: Global,
    model: &LoadedModel,
    kept: &mut Kept,
    height: u32,
    room: u32,
    bindings: &Tuple,
    attribute: &Attribute,
    symbol: &Symbol,
) -> Result<(), EvalFault>
    requires right { AreRight model.now kept.old }
    ensures right { AreRight model.now kept.new }
    ensures value { Gives result (restrictions.membership_holds model.now.statements (member model.now height) bindings.now attribute.now symbol.now) }
{
    match attribute {
        Attribute::Restriction(relation, whole) => {
            if is_in(*relation) {
                let set = shared_set(alloc, model, kept, height, room, whole, bindings);
                lies_in(alloc, symbol, set)
            } else {
                Ok(())
            }
        }
        _ => Ok(()),
    }
}

// ---- sets

#[cycle(evaluation)]
pub(crate) fn inclusions_hold(
    alloc: Global,
    model: &LoadedModel,
    kept: &mut Kept,
    height: u32,
    room: u32,
    bindings: &Tuple,
    attributes: &[Attribute],
    set: &SetValue,
) -> Result<(), EvalFault>
    requires right { AreRight model.now kept.old }
    ensures right { AreRight model.now kept.new }
    ensures value { Gives result (restrictions.inclusions_hold model.now.statements (member model.now height) bindings.now attributes.now set.now) }
{
    for attribute in attributes {
        inclusion_holds(alloc, model, kept, height, room, bindings, attribute, set)?;
    }
    Ok(())
}

#[cycle(evaluation)]
fn inclusion_holds(
    alloc: Global,
    model: &LoadedModel,
    kept: &mut Kept,
    height: u32,
    room: u32,
    bindings: &Tuple,
    attribute: &Attribute,
    set: &SetValue,
) -> Result<(), EvalFault>
    requires right { AreRight model.now kept.old }
    ensures right { AreRight model.now kept.new }
    ensures value { Gives result (restrictions.inclusion_holds model.now.statements (member model.now height) bindings.now attribute.now set.now) }
{
    match attribute {
        Attribute::Restriction(_, whole) => {
            let outer = shared_set(alloc, model, kept, height, room, whole, bindings);
            lies_within(set, outer)
        }
        _ => Ok(()),
    }
}
