// Lists of values, functions, comparisons and braces.
ghost use Rattle.std.specs.Prelude.{◌≡◌, []};
ghost use Rattle.gmpl_value.specs.Outcome.{Gives, then_do};
ghost use Rattle.gmpl_operations.specs.Values.{tuple_in};
ghost use Rattle.gmpl_expr.specs.At as at;
ghost use Rattle.gmpl_meaning.specs.Expressions as spec;
ghost use Rattle.gmpl_meaning.specs.Walks as walks;
ghost use Rattle.gmpl_meaning.specs.Right.{AreRight};
ghost use Rattle.gmpl_expr.specs.Membership as membership;
ghost use Rattle.gmpl_syntax.specs.declared.expression.Relation.TheVariants as relations;

use crate::evaluate::eval;
use crate::handed::{
    card_of, element_of, function_of, left_of, membership_of, negation_of, number_of,
    power_of_both, push_number, push_symbol, range_of, relation_of, sliced_of, symbol_of,
    text_length_of, truth_of,
};
use crate::indexing::walked;
use crate::listing::{add, set_gone_over, set_value};
use crate::parts::{negated_value, truth_value};
use crate::room::room_behind;
use crate::set_kinds::is_indexing;
use crate::sets::shared_set;
use fraction::Frac;
use gmpl_data::LoadedModel;
use gmpl_meaning::Kept;
use gmpl_operations::Value;
use gmpl_resolved::{Entry, Expr, Indexing};
use gmpl_syntax::{Function, Relation};
use gmpl_value::{EvalFault, SetValue, Tuple};
use sqlite_items::{Boxed, Items};
use std::alloc::Global;

// ---- lists and single values

#[cycle(evaluation)]
pub(crate) fn symbols(
    alloc: Global,
    model: &LoadedModel,
    kept: &mut Kept,
    height: u32,
    room: u32,
    all: &[Expr],
    bindings: &Tuple,
) -> Result<Tuple, EvalFault>
    requires right { AreRight model.now kept.old }
    ensures right { AreRight model.now kept.new }
    ensures value { Gives result (spec.symbols [] (at.exprs model.now height all.now) bindings.now) }
{
    let mut found = Tuple::with_capacity(alloc, all.len())?;
    for one in all {
        let value = eval(alloc, model, kept, height, room, one, bindings);
        push_symbol(&mut found, value)?;
    }
    Ok(found)
}

#[cycle(evaluation)]
fn numbers(
    alloc: Global,
    model: &LoadedModel,
    kept: &mut Kept,
    height: u32,
    room: u32,
    all: &[Expr],
    bindings: &Tuple,
) -> Result<Items<Frac>, EvalFault>
    requires right { AreRight model.now kept.old }
    ensures right { AreRight model.now kept.new }
    ensures value { Gives result (spec.numbers [] (at.exprs model.now height all.now) bindings.now) }
{
    let mut found = Items::new(alloc);
    for one in all {
        let value = eval(alloc, model, kept, height, room, one, bindings);
        push_number(&mut found, value)?;
    }
    Ok(found)
}

#[cycle(evaluation)]
pub(crate) fn number(
    alloc: Global,
    model: &LoadedModel,
    kept: &mut Kept,
    height: u32,
    room: u32,
    whole: &Expr,
    bindings: &Tuple,
) -> Result<Frac, EvalFault>
    requires right { AreRight model.now kept.old }
    ensures right { AreRight model.now kept.new }
    ensures value { Gives result (spec.number_at (at.expr model.now height whole.now) bindings.now) }
{
    number_of(eval(alloc, model, kept, height, room, whole, bindings))
}

#[cycle(evaluation)]
pub(crate) fn holds(
    alloc: Global,
    model: &LoadedModel,
    kept: &mut Kept,
    height: u32,
    room: u32,
    condition: &Expr,
    bindings: &Tuple,
) -> Result<bool, EvalFault>
    requires right { AreRight model.now kept.old }
    ensures right { AreRight model.now kept.new }
    ensures value { Gives result (walks.holds (at.expr model.now height condition.now) bindings.now) }
{
    truth_of(eval(alloc, model, kept, height, room, condition, bindings))
}

#[cycle(evaluation)]
fn element(
    alloc: Global,
    model: &LoadedModel,
    kept: &mut Kept,
    height: u32,
    room: u32,
    whole: &Expr,
    bindings: &Tuple,
) -> Result<Tuple, EvalFault>
    requires right { AreRight model.now kept.old }
    ensures right { AreRight model.now kept.new }
    ensures value { Gives result (then_do tuple_in ((at.expr model.now height whole.now).value bindings.now)) }
{
    let value = eval(alloc, model, kept, height, room, whole, bindings);
    element_of(alloc, value)
}

// ---- functions

#[cycle(evaluation)]
pub(crate) fn called(
    alloc: Global,
    model: &LoadedModel,
    kept: &mut Kept,
    height: u32,
    room: u32,
    function: Function,
    arguments: &[Expr],
    bindings: &Tuple,
) -> Result<Value, EvalFault>
    requires right { AreRight model.now kept.old }
    ensures right { AreRight model.now kept.new }
    ensures value { Gives result (spec.called function (at.exprs model.now height arguments.now) bindings.now) }
{
    match function {
        Function::Card => size(alloc, model, kept, height, room, arguments, bindings),
        Function::Length => text_length(alloc, model, kept, height, room, arguments, bindings),
        Function::Substr => substring(alloc, model, kept, height, room, arguments, bindings),
        _ => {
            let numbers = numbers(alloc, model, kept, height, room, arguments, bindings)?;
            function_of(function, numbers)
        }
    }
}

#[cycle(evaluation)]
fn size(
    alloc: Global,
    model: &LoadedModel,
    kept: &mut Kept,
    height: u32,
    room: u32,
    arguments: &[Expr],
    bindings: &Tuple,
) -> Result<Value, EvalFault>
    requires right { AreRight model.now kept.old }
    ensures right { AreRight model.now kept.new }
    ensures value { Gives result (spec.size (at.exprs model.now height arguments.now) bindings.now) }
{
    match arguments {
        [] => Err(EvalFault::NotANumber),
        [set, ..] => card_of(shared_set(alloc, model, kept, height, room, set, bindings)),
    }
}

#[cycle(evaluation)]
fn text_length(
    alloc: Global,
    model: &LoadedModel,
    kept: &mut Kept,
    height: u32,
    room: u32,
    arguments: &[Expr],
    bindings: &Tuple,
) -> Result<Value, EvalFault>
    requires right { AreRight model.now kept.old }
    ensures right { AreRight model.now kept.new }
    ensures value { Gives result (spec.text_length (at.exprs model.now height arguments.now) bindings.now) }
{
    match arguments {
        [] => Err(EvalFault::NotANumber),
        [text, ..] => {
            let text = eval(alloc, model, kept, height, room, text, bindings);
            text_length_of(alloc, text)
        }
    }
}

#[cycle(evaluation)]
fn substring(
    alloc: Global,
    model: &LoadedModel,
    kept: &mut Kept,
    height: u32,
    room: u32,
    arguments: &[Expr],
    bindings: &Tuple,
) -> Result<Value, EvalFault>
    requires right { AreRight model.now kept.old }
    ensures right { AreRight model.now kept.new }
    ensures value { Gives result (spec.substring (at.exprs model.now height arguments.now) bindings.now) }
{
    match arguments {
        [] => Err(EvalFault::NotANumber),
        [text, others @ ..] => {
            let text = symbol_of(eval(alloc, model, kept, height, room, text, bindings));
            let room = room_behind(&text, room);
            let numbers = numbers(alloc, model, kept, height, room, others, bindings);
            sliced_of(alloc, text, numbers)
        }
    }
}

// ---- ranges and comparisons

#[cycle(evaluation)]
pub(crate) fn range(
    alloc: Global,
    model: &LoadedModel,
    kept: &mut Kept,
    height: u32,
    room: u32,
    first: &Expr,
    last: &Expr,
    step: &Option<Boxed<Expr>>,
    bindings: &Tuple,
) -> Result<Value, EvalFault>
    requires right { AreRight model.now kept.old }
    ensures right { AreRight model.now kept.new }
    ensures value { Gives result (spec.range (at.expr model.now height first.now) (at.expr model.now height last.now) (at.optional model.now height step.now) bindings.now) }
{
    let from = number(alloc, model, kept, height, room, first, bindings);
    let room = room_behind(&from, room);
    let to = number(alloc, model, kept, height, room, last, bindings);
    let room = room_behind(&to, room);
    let by = step_of(alloc, model, kept, height, room, step, bindings);
    range_of(alloc, from, to, by)
}

/// The step of a range: 1, where none is written.
#[cycle(evaluation)]
pub(crate) fn step_of(
    alloc: Global,
    model: &LoadedModel,
    kept: &mut Kept,
    height: u32,
    room: u32,
    step: &Option<Boxed<Expr>>,
    bindings: &Tuple,
) -> Result<Frac, EvalFault>
    requires right { AreRight model.now kept.old }
    ensures right { AreRight model.now kept.new }
    ensures value { Gives result (spec.step_of (at.optional model.now height step.now) bindings.now) }
{
    match step {
        None => Ok(Frac::one()),
        Some(step) => number(alloc, model, kept, height, room, step.get(), bindings),
    }
}

#[cycle(evaluation)]
pub(crate) fn power(
    alloc: Global,
    model: &LoadedModel,
    kept: &mut Kept,
    height: u32,
    room: u32,
    base: &Expr,
    exponent: &Expr,
    bindings: &Tuple,
) -> Result<Value, EvalFault>
    requires right { AreRight model.now kept.old }
    ensures right { AreRight model.now kept.new }
    ensures value { Gives result (spec.power (at.expr model.now height base.now) (at.expr model.now height exponent.now) bindings.now) }
{
    let base = number(alloc, model, kept, height, room, base, bindings);
    let room = room_behind(&base, room);
    let exponent = number(alloc, model, kept, height, room, exponent, bindings);
    power_of_both(base, exponent)
}

#[cycle(evaluation)]
pub(crate) fn compared(
    alloc: Global,
    model: &LoadedModel,
    kept: &mut Kept,
    height: u32,
    room: u32,
    relation: Relation,
    left: &Expr,
    right: &Expr,
    bindings: &Tuple,
) -> Result<Value, EvalFault>
    requires right { AreRight model.now kept.old }
    ensures right { AreRight model.now kept.new }
    ensures value { Gives result (spec.compared relation (at.expr model.now height left.now) (at.expr model.now height right.now) bindings.now) }
{
    match relation {
        Relation::In => within_set(alloc, model, kept, height, room, left, right, bindings),
        Relation::NotIn => outside_set(alloc, model, kept, height, room, left, right, bindings),
        _ => compared_values(
            alloc, model, kept, height, room, relation, left, right, bindings,
        ),
    }
}

#[cycle(evaluation)]
fn within_set(
    alloc: Global,
    model: &LoadedModel,
    kept: &mut Kept,
    height: u32,
    room: u32,
    left: &Expr,
    right: &Expr,
    bindings: &Tuple,
) -> Result<Value, EvalFault>
    requires right { AreRight model.now kept.old }
    ensures right { AreRight model.now kept.new }
    ensures value { Gives result (spec.compared relations.In (at.expr model.now height left.now) (at.expr model.now height right.now) bindings.now) }
{
    let found = is_element(alloc, model, kept, height, room, left, right, bindings);
    truth_value(found)
}

#[cycle(evaluation)]
fn outside_set(
    alloc: Global,
    model: &LoadedModel,
    kept: &mut Kept,
    height: u32,
    room: u32,
    left: &Expr,
    right: &Expr,
    bindings: &Tuple,
) -> Result<Value, EvalFault>
    requires right { AreRight model.now kept.old }
    ensures right { AreRight model.now kept.new }
    ensures value { Gives result (spec.compared relations.NotIn (at.expr model.now height left.now) (at.expr model.now height right.now) bindings.now) }
{
    let found = is_element(alloc, model, kept, height, room, left, right, bindings);
    negated_value(found)
}

#[cycle(evaluation)]
fn is_element(
    alloc: Global,
    model: &LoadedModel,
    kept: &mut Kept,
    height: u32,
    room: u32,
    left: &Expr,
    right: &Expr,
    bindings: &Tuple,
) -> Result<bool, EvalFault>
    requires right { AreRight model.now kept.old }
    ensures right { AreRight model.now kept.new }
    ensures value { Gives result (membership.is_element (at.expr model.now height left.now) (at.expr model.now height right.now) bindings.now) }
{
    let element = element(alloc, model, kept, height, room, left, bindings);
    let room = room_behind(&element, room);
    let set = shared_set(alloc, model, kept, height, room, right, bindings);
    membership_of(element, set)
}

#[cycle(evaluation)]
fn compared_values(
    alloc: Global,
    model: &LoadedModel,
    kept: &mut Kept,
    height: u32,
    room: u32,
    relation: Relation,
    left: &Expr,
    right: &Expr,
    bindings: &Tuple,
) -> Result<Value, EvalFault>
    requires right { AreRight model.now kept.old }
    ensures right { AreRight model.now kept.new }
    ensures value { Gives result (spec.compared relation (at.expr model.now height left.now) (at.expr model.now height right.now) bindings.now) }
{
    let value = eval(alloc, model, kept, height, room, left, bindings);
    let left = left_of(alloc, relation, value);
    let room = room_behind(&left, room);
    let right = eval(alloc, model, kept, height, room, right, bindings);
    relation_of(alloc, relation, left, right)
}

#[cycle(evaluation)]
pub(crate) fn negation(
    alloc: Global,
    model: &LoadedModel,
    kept: &mut Kept,
    height: u32,
    room: u32,
    part: &Expr,
    bindings: &Tuple,
) -> Result<Value, EvalFault>
    requires right { AreRight model.now kept.old }
    ensures right { AreRight model.now kept.new }
    ensures value { Gives result (spec.negation (at.expr model.now height part.now) bindings.now) }
{
    negation_of(holds(alloc, model, kept, height, room, part, bindings))
}

// ---- braces

#[cycle(evaluation)]
pub(crate) fn braces(
    alloc: Global,
    model: &LoadedModel,
    kept: &mut Kept,
    height: u32,
    room: u32,
    indexing: &Indexing,
    bindings: &Tuple,
) -> Result<Value, EvalFault>
    requires right { AreRight model.now kept.old }
    ensures right { AreRight model.now kept.new }
    ensures value { Gives result (spec.braces (at.indexing model.now height indexing.now) bindings.now) }
{
    if is_indexing(model, height, indexing) {
        let walk = walked(alloc, model, kept, height, room, indexing, bindings);
        set_gone_over(alloc, walk)
    } else {
        listed(
            alloc,
            model,
            kept,
            height,
            room,
            indexing.entries.as_slice(),
            bindings,
        )
    }
}

#[cycle(evaluation)]
fn listed(
    alloc: Global,
    model: &LoadedModel,
    kept: &mut Kept,
    height: u32,
    room: u32,
    entries: &[Entry],
    bindings: &Tuple,
) -> Result<Value, EvalFault>
    requires right { AreRight model.now kept.old }
    ensures right { AreRight model.now kept.new }
    ensures value { Gives result (spec.listed [] (at.entries model.now height entries.now) bindings.now) }
{
    let mut found = SetValue::new(alloc);
    for entry in entries {
        let element = element(alloc, model, kept, height, room, &entry.set, bindings)?;
        add(&mut found, element)?;
    }
    set_value(alloc, found)
}
