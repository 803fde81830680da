// What members come to: demands, and the members of parameters and sets.
ghost use Rattle.std.specs.Prelude.{◌≡◌, None};
ghost use Rattle.gmpl_value.specs.Outcome.{Gives, GivesAs, then_do};
ghost use Rattle.gmpl_meaning.specs.Restrictions as restrictions;
ghost use Rattle.gmpl_meaning.specs.Members as members;
ghost use Rattle.gmpl_data.specs.Given as given;
ghost use Rattle.gmpl_meaning.specs.Members.{member};
ghost use Rattle.gmpl_meaning.specs.Right.{AreRight, value_seen};

use crate::attributes::{assigned, default_of, is_symbolic};
use crate::evaluate::eval;
use crate::handed::kept_of;
use crate::indexing::within_domain;
use crate::kept_sets::remembered_member;
use crate::parts::{kept_value, symbol_value};
use crate::restrictions::{inclusions_hold, restricted};
use crate::room::TEST;
use crate::solved::row_member;
use crate::tested::{elements_in, held_of, set_tested};
use crate::variables::variable_member;
use gmpl_data::LoadedModel;
use gmpl_meaning::{Kept, KeptValue};
use gmpl_operations::Value;
use gmpl_resolved::{Attribute, Declaration, Statement};
use gmpl_syntax::Suffix;
use gmpl_value::{EvalFault, SetValue, Symbol, Tuple};
use sqlite_items::Boxed;
use std::alloc::Global;

// ---- demands

/// A member, or the number of its that a suffix asks for.
#[cycle(evaluation)]
pub(crate) fn demanded(
    alloc: Global,
    model: &LoadedModel,
    kept: &mut Kept,
    height: u32,
    room: u32,
    place: usize,
    asked: Option<Suffix>,
    subscripts: &Tuple,
) -> Result<KeptValue, EvalFault>
    requires right { AreRight model.now kept.old }
    ensures right { AreRight model.now kept.new }
    ensures value { GivesAs value_seen result (member model.now height place asked subscripts.now) }
{
    match asked {
        None => without_suffix(alloc, model, kept, height, room, place, subscripts),
        Some(_) => {
            let value = anew(alloc, model, kept, height, room, place, asked, subscripts);
            kept_of(alloc, value)
        }
    }
}

// What is kept of a member, or else its value anew.
#[cycle(evaluation)]
fn without_suffix(
    alloc: Global,
    model: &LoadedModel,
    kept: &mut Kept,
    height: u32,
    room: u32,
    place: usize,
    subscripts: &Tuple,
) -> Result<KeptValue, EvalFault>
    requires right { AreRight model.now kept.old }
    ensures right { AreRight model.now kept.new }
    ensures value { GivesAs value_seen result (member model.now height place None subscripts.now) }
{
    match kept.member(alloc, place, height, subscripts) {
        Some(value) => Ok(value),
        None => {
            let value = anew(alloc, model, kept, height, room, place, None, subscripts);
            remembered_member(alloc, model, kept, height, place, subscripts, value)
        }
    }
}

#[cycle(evaluation)]
fn anew(
    alloc: Global,
    model: &LoadedModel,
    kept: &mut Kept,
    height: u32,
    room: u32,
    place: usize,
    asked: Option<Suffix>,
    subscripts: &Tuple,
) -> Result<Value, EvalFault>
    requires right { AreRight model.now kept.old }
    ensures right { AreRight model.now kept.new }
    ensures value { Gives result (member model.now height place asked subscripts.now) }
{
    if height == 0 {
        return Err(EvalFault::Depth);
    }
    declared(
        alloc,
        model,
        kept,
        height - 1,
        room,
        place,
        asked,
        subscripts,
    )
}

#[cycle(evaluation)]
fn declared(
    alloc: Global,
    model: &LoadedModel,
    kept: &mut Kept,
    height: u32,
    room: u32,
    place: usize,
    asked: Option<Suffix>,
    subscripts: &Tuple,
) -> Result<Value, EvalFault>
    requires right { AreRight model.now kept.old }
    ensures right { AreRight model.now kept.new }
    ensures value { Gives result (members.declared model.now (member model.now height) place (given.statement_at model.now place) asked subscripts.now) }
{
    match model.statement(place) {
        None => Err(EvalFault::NoValue),
        Some(found) => {
            member_of(
                alloc,
                model,
                kept,
                height,
                room,
                place,
                &found.statement,
                asked,
                subscripts,
            )
        }
    }
}

#[cycle(evaluation)]
fn member_of(
    alloc: Global,
    model: &LoadedModel,
    kept: &mut Kept,
    height: u32,
    room: u32,
    place: usize,
    statement: &Statement,
    asked: Option<Suffix>,
    subscripts: &Tuple,
) -> Result<Value, EvalFault>
    requires right { AreRight model.now kept.old }
    ensures right { AreRight model.now kept.new }
    ensures value { Gives result (members.member_of model.now (member model.now height) place statement.now asked subscripts.now) }
{
    match statement {
        Statement::Set(set) => set_member(alloc, model, kept, height, room, place, set, subscripts),
        Statement::Param(param) => param_member(
            alloc, model, kept, height, room, place, param, subscripts,
        ),
        Statement::Var(variable) => {
            variable_member(
                alloc, model, kept, height, room, place, variable, asked, subscripts,
            )
        }
        Statement::Constraint(_) | Statement::Objective(_) => {
            row_member(alloc, &model.solution, place, asked, subscripts)
        }
    }
}

// ---- where a value comes from

#[cycle(evaluation)]
fn source(
    alloc: Global,
    model: &LoadedModel,
    kept: &mut Kept,
    height: u32,
    room: u32,
    bindings: &Tuple,
    place: usize,
    subscripts: &Tuple,
    attributes: &[Attribute],
) -> Result<Value, EvalFault>
    requires right { AreRight model.now kept.old }
    ensures right { AreRight model.now kept.new }
    ensures value { Gives result (members.source model.now (member model.now height) bindings.now place subscripts.now attributes.now) }
{
    match model.value(place, subscripts) {
        Some(given) => kept_value(alloc, given),
        None => stated(
            alloc, model, kept, height, room, bindings, place, attributes,
        ),
    }
}

#[cycle(evaluation)]
fn stated(
    alloc: Global,
    model: &LoadedModel,
    kept: &mut Kept,
    height: u32,
    room: u32,
    bindings: &Tuple,
    place: usize,
    attributes: &[Attribute],
) -> Result<Value, EvalFault>
    requires right { AreRight model.now kept.old }
    ensures right { AreRight model.now kept.new }
    ensures value { Gives result (members.by_statement model.now (member model.now height) bindings.now place (restrictions.assigned attributes.now) attributes.now) }
{
    match assigned(attributes) {
        Some(whole) => eval(alloc, model, kept, height, room, whole, bindings),
        None => by_default(
            alloc, model, kept, height, room, bindings, place, attributes,
        ),
    }
}

#[cycle(evaluation)]
fn by_default(
    alloc: Global,
    model: &LoadedModel,
    kept: &mut Kept,
    height: u32,
    room: u32,
    bindings: &Tuple,
    place: usize,
    attributes: &[Attribute],
) -> Result<Value, EvalFault>
    requires right { AreRight model.now kept.old }
    ensures right { AreRight model.now kept.new }
    ensures value { Gives result (members.by_data_default model.now (member model.now height) bindings.now (given.default_given model.now place) attributes.now) }
{
    match model.default(place) {
        Some(symbol) => symbol_value(alloc, symbol),
        None => match default_of(attributes) {
            Some(whole) => eval(alloc, model, kept, height, room, whole, bindings),
            None => Err(EvalFault::NoValue),
        },
    }
}

// What a parameter holds of it.
#[cycle(evaluation)]
fn symbol_held(
    alloc: Global,
    model: &LoadedModel,
    kept: &mut Kept,
    height: u32,
    room: u32,
    bindings: &Tuple,
    place: usize,
    subscripts: &Tuple,
    symbolic: bool,
    attributes: &[Attribute],
) -> Result<Symbol, EvalFault>
    requires right { AreRight model.now kept.old }
    ensures right { AreRight model.now kept.new }
    ensures value { Gives result (then_do (restrictions.held symbolic) (members.source model.now (member model.now height) bindings.now place subscripts.now attributes.now)) }
{
    let value = source(
        alloc, model, kept, height, room, bindings, place, subscripts, attributes,
    );
    held_of(symbolic, value)
}

// What a set has of it.
#[cycle(evaluation)]
fn set_held(
    alloc: Global,
    model: &LoadedModel,
    kept: &mut Kept,
    height: u32,
    room: u32,
    bindings: &Tuple,
    place: usize,
    subscripts: &Tuple,
    attributes: &[Attribute],
) -> Result<Boxed<SetValue>, EvalFault>
    requires right { AreRight model.now kept.old }
    ensures right { AreRight model.now kept.new }
    ensures value { Gives result (members.set_source model.now (member model.now height) bindings.now place subscripts.now attributes.now) }
{
    if model.is_overfull(place, subscripts) {
        return Err(EvalFault::TooMany);
    }
    let value = source(
        alloc, model, kept, height, room, bindings, place, subscripts, attributes,
    );
    elements_in(value)
}

// ---- parameters and sets

#[cycle(evaluation)]
fn param_member(
    alloc: Global,
    model: &LoadedModel,
    kept: &mut Kept,
    height: u32,
    room: u32,
    place: usize,
    param: &Declaration,
    subscripts: &Tuple,
) -> Result<Value, EvalFault>
    requires right { AreRight model.now kept.old }
    ensures right { AreRight model.now kept.new }
    ensures value { Gives result (members.param_member model.now (member model.now height) place param.now subscripts.now) }
{
    let attributes = param.attributes.as_slice();
    let bindings = within_domain(
        alloc,
        model,
        kept,
        height,
        room,
        &param.head.domain,
        subscripts,
    )?;
    let symbolic = is_symbolic(attributes);
    let symbol = symbol_held(
        alloc, model, kept, height, room, &bindings, place, subscripts, symbolic, attributes,
    )?;
    restricted(
        alloc, model, kept, height, room, &bindings, symbolic, attributes, symbol,
    )
}

#[cycle(evaluation)]
fn set_member(
    alloc: Global,
    model: &LoadedModel,
    kept: &mut Kept,
    height: u32,
    room: u32,
    place: usize,
    declaration: &Declaration,
    subscripts: &Tuple,
) -> Result<Value, EvalFault>
    requires right { AreRight model.now kept.old }
    ensures right { AreRight model.now kept.new }
    ensures value { Gives result (members.set_member model.now (member model.now height) place declaration.now subscripts.now) }
{
    let attributes = declaration.attributes.as_slice();
    let domain = &declaration.head.domain;
    let bindings = within_domain(alloc, model, kept, height, room, domain, subscripts)?;
    let set = set_held(
        alloc, model, kept, height, room, &bindings, place, subscripts, attributes,
    )?;
    let room = room.saturating_sub(TEST);
    let tested = inclusions_hold(
        alloc,
        model,
        kept,
        height,
        room,
        &bindings,
        attributes,
        set.get(),
    );
    set_tested(set, tested)
}
