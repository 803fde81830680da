// The evaluation of expressions, by their kinds.
//
// Expressions, indexing expressions and members evaluate one another: this module and `values`, `iterations`, `indexing`, `members`,
// `restrictions` and `variables` are one cycle of calls. What needs no evaluation stands in other modules.
//
// `height` is how many members may still stand in the chain of demands, and `room` how much of the stack is left for what stands
// within one another, as src/room.rt reckons it; where there is no room, memory is wanting. `eval` owns no value, so that its frame
// is small.
ghost use Rattle.std.specs.Prelude.{◌≡◌};
ghost use Rattle.gmpl_value.specs.Outcome.{Follows, Gives, then_do};
ghost use Rattle.gmpl_operations.specs.Functions.{signed};
ghost use Rattle.gmpl_expr.specs.At as at;
ghost use Rattle.gmpl_meaning.specs.Expressions as spec;
ghost use Rattle.gmpl_meaning.specs.Members.{member};
ghost use Rattle.gmpl_meaning.specs.Right.{AreRight};
ghost use Rattle.gmpl_resolved.specs.declared.expression.Meaning.TheVariants as meanings;

use crate::handed::{group_of, signed_of, value_of};
use crate::in_place::{apply_part, take};
use crate::iterations::iterated;
use crate::members::demanded;
use crate::parts::{bound_to, nothing, text_value};
use crate::room::room_of;
use crate::set_kinds::is_set;
use crate::values::{braces, called, compared, holds, negation, power, range, symbols};
use gmpl_data::LoadedModel;
use gmpl_meaning::Kept;
use gmpl_operations::{Value, decides};
use gmpl_resolved::{Expr, Link, Meaning};
use gmpl_syntax::{Sign, Suffix};
use gmpl_value::{EvalFault, Tuple};
use sqlite_items::Boxed;
use std::alloc::Global;

/// What an expression comes to, where the indices in scope have these values.
#[cycle(evaluation)]
pub(crate) fn eval(
    alloc: Global,
    model: &LoadedModel,
    kept: &mut Kept,
    height: u32,
    room: u32,
    whole: &Expr,
    bindings: &Tuple,
) -> Result<Value, EvalFault>
    requires right { AreRight model.now kept.old }
    ensures right { AreRight model.now kept.new }
    ensures value { Gives result ((at.expr model.now height whole.now).value bindings.now) }
{
    let taken = room_of(whole);
    if room < taken {
        return Err(EvalFault::NoMemory);
    }
    let room = room - taken;
    match whole {
        Expr::Number(number) => Ok(Value::number(*number)),
        Expr::Text(text) => text_value(alloc, text),
        Expr::Named(name, subscripts, suffix) => {
            let subscripts = subscripts.as_slice();
            named(
                alloc, model, kept, height, room, *name, subscripts, *suffix, bindings,
            )
        }
        Expr::Call(function, arguments) => {
            called(
                alloc,
                model,
                kept,
                height,
                room,
                *function,
                arguments.as_slice(),
                bindings,
            )
        }
        Expr::Group(parts) => group(alloc, model, kept, height, room, parts.as_slice(), bindings),
        Expr::Braces(indexing) => braces(alloc, model, kept, height, room, indexing, bindings),
        Expr::Iterated(iteration, indexing, body) => {
            iterated(
                alloc,
                model,
                kept,
                height,
                room,
                *iteration,
                indexing,
                body.get(),
                bindings,
            )
        }
        Expr::If(condition, first, other) => {
            let condition = condition.get();
            conditional(
                alloc,
                model,
                kept,
                height,
                room,
                condition,
                first.get(),
                other,
                bindings,
            )
        }
        Expr::Signed(sign, part) => {
            with_sign(
                alloc,
                model,
                kept,
                height,
                room,
                *sign,
                part.get(),
                bindings,
            )
        }
        Expr::Power(base, exponent) => {
            power(
                alloc,
                model,
                kept,
                height,
                room,
                base.get(),
                exponent.get(),
                bindings,
            )
        }
        Expr::Chain(first, links) => {
            chain(
                alloc,
                model,
                kept,
                height,
                room,
                first.get(),
                links.as_slice(),
                bindings,
            )
        }
        Expr::Range(first, last, step) => {
            range(
                alloc,
                model,
                kept,
                height,
                room,
                first.get(),
                last.get(),
                step,
                bindings,
            )
        }
        Expr::Compared(relation, left, right) => {
            compared(
                alloc,
                model,
                kept,
                height,
                room,
                *relation,
                left.get(),
                right.get(),
                bindings,
            )
        }
        Expr::Not(part) => negation(alloc, model, kept, height, room, part.get(), bindings),
    }
}

#[cycle(evaluation)]
fn named(
    alloc: Global,
    model: &LoadedModel,
    kept: &mut Kept,
    height: u32,
    room: u32,
    name: Meaning,
    subscripts: &[Expr],
    suffix: Option<Suffix>,
    bindings: &Tuple,
) -> Result<Value, EvalFault>
    requires right { AreRight model.now kept.old }
    ensures right { AreRight model.now kept.new }
    ensures value { Gives result (spec.named (member model.now height) name (at.exprs model.now height subscripts.now) suffix bindings.now) }
{
    match name {
        Meaning::Index(place) => bound_to(alloc, bindings, place),
        Meaning::Object(place) => object(
            alloc, model, kept, height, room, place, subscripts, suffix, bindings,
        ),
    }
}

#[cycle(evaluation)]
fn object(
    alloc: Global,
    model: &LoadedModel,
    kept: &mut Kept,
    height: u32,
    room: u32,
    place: usize,
    subscripts: &[Expr],
    suffix: Option<Suffix>,
    bindings: &Tuple,
) -> Result<Value, EvalFault>
    requires right { AreRight model.now kept.old }
    ensures right { AreRight model.now kept.new }
    ensures value { Gives result (spec.named (member model.now height) (meanings.Object place) (at.exprs model.now height subscripts.now) suffix bindings.now) }
{
    let subscripts = symbols(alloc, model, kept, height, room, subscripts, bindings)?;
    let value = demanded(alloc, model, kept, height, room, place, suffix, &subscripts);
    value_of(alloc, value)
}

#[cycle(evaluation)]
fn group(
    alloc: Global,
    model: &LoadedModel,
    kept: &mut Kept,
    height: u32,
    room: u32,
    parts: &[Expr],
    bindings: &Tuple,
) -> Result<Value, EvalFault>
    requires right { AreRight model.now kept.old }
    ensures right { AreRight model.now kept.new }
    ensures value { Gives result (spec.group (at.exprs model.now height parts.now) bindings.now) }
{
    match parts {
        [] => Ok(Value::Group(Tuple::new(alloc))),
        [only] => eval(alloc, model, kept, height, room, only, bindings),
        [_, _, ..] => group_of(symbols(alloc, model, kept, height, room, parts, bindings)),
    }
}

#[cycle(evaluation)]
fn with_sign(
    alloc: Global,
    model: &LoadedModel,
    kept: &mut Kept,
    height: u32,
    room: u32,
    sign: Sign,
    part: &Expr,
    bindings: &Tuple,
) -> Result<Value, EvalFault>
    requires right { AreRight model.now kept.old }
    ensures right { AreRight model.now kept.new }
    ensures value { Gives result (then_do (signed sign) ((at.expr model.now height part.now).value bindings.now)) }
{
    signed_of(sign, eval(alloc, model, kept, height, room, part, bindings))
}

// ---- choices and chains

#[cycle(evaluation)]
fn conditional(
    alloc: Global,
    model: &LoadedModel,
    kept: &mut Kept,
    height: u32,
    room: u32,
    condition: &Expr,
    first: &Expr,
    other: &Option<Boxed<Expr>>,
    bindings: &Tuple,
) -> Result<Value, EvalFault>
    requires right { AreRight model.now kept.old }
    ensures right { AreRight model.now kept.new }
    ensures value { Gives result (spec.conditional (at.expr model.now height condition.now) (at.expr model.now height first.now) (at.optional model.now height other.now) bindings.now) }
{
    if holds(alloc, model, kept, height, room, condition, bindings)? {
        eval(alloc, model, kept, height, room, first, bindings)
    } else {
        match other {
            None => nothing(alloc, is_set(model, height, first)),
            Some(other) => eval(alloc, model, kept, height, room, other.get(), bindings),
        }
    }
}

#[cycle(evaluation)]
fn chain(
    alloc: Global,
    model: &LoadedModel,
    kept: &mut Kept,
    height: u32,
    room: u32,
    first: &Expr,
    links: &[Link],
    bindings: &Tuple,
) -> Result<Value, EvalFault>
    requires right { AreRight model.now kept.old }
    ensures right { AreRight model.now kept.new }
    ensures value { Gives result (spec.chain (at.expr model.now height first.now) (at.links model.now height links.now) bindings.now) }
{
    let mut value = eval(alloc, model, kept, height, room, first, bindings)?;
    for link in links {
        linked(alloc, model, kept, height, room, link, bindings, &mut value)?;
    }
    Ok(value)
}

// One link more: the value takes the place of the left operand.
#[cycle(evaluation)]
fn linked(
    alloc: Global,
    model: &LoadedModel,
    kept: &mut Kept,
    height: u32,
    room: u32,
    link: &Link,
    bindings: &Tuple,
    left: &mut Value,
) -> Result<(), EvalFault>
    requires right { AreRight model.now kept.old }
    ensures right { AreRight model.now kept.new }
    ensures value { Follows result left.new (spec.linked (at.link model.now height link.now) bindings.now left.old) }
{
    take(link.operator, left)?;
    if decides(link.operator, left) {
        return Ok(());
    }
    let right = eval(alloc, model, kept, height, room, &link.operand, bindings);
    apply_part(alloc, link.operator, left, right)
}
