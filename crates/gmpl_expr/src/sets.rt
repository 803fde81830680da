// Sets that are looked at: those that are kept are shared, and none is copied.
ghost use Rattle.std.specs.Prelude.{◌≡◌, Ok};
ghost use Rattle.gmpl_value.specs.Outcome.{Gives, GivesAs, then_do};
ghost use Rattle.gmpl_expr.specs.At as at;
ghost use Rattle.gmpl_meaning.specs.Expressions as spec;
ghost use Rattle.gmpl_meaning.specs.Walks as walks;
ghost use Rattle.gmpl_meaning.specs.Members.{member};
ghost use Rattle.gmpl_operations.specs.Values.{set_in};
ghost use Rattle.gmpl_meaning.specs.Right.{AreRight};

use crate::evaluate::eval;
use crate::handed::set_of;
use crate::kept_sets::{found_set, remembered_set};
use crate::members::demanded;
use crate::parts::{index_set, kept_range_of};
use crate::room::{DEMAND, room_behind};
use crate::values::{number, step_of, symbols};
use gmpl_data::LoadedModel;
use gmpl_meaning::Kept;
use gmpl_resolved::{Expr, Meaning};
use gmpl_syntax::Suffix;
use gmpl_value::{EvalFault, SetValue, Tuple};
use sqlite_items::Boxed;
use std::alloc::Global;
use std::rc::Rc;

/// The set that an expression comes to.
#[cycle(evaluation)]
pub(crate) fn shared_set(
    alloc: Global,
    model: &LoadedModel,
    kept: &mut Kept,
    height: u32,
    room: u32,
    whole: &Expr,
    bindings: &Tuple,
) -> Result<Rc<SetValue>, EvalFault>
    requires right { AreRight model.now kept.old }
    ensures right { AreRight model.now kept.new }
    ensures value { GivesAs (λ set. set.value) result (walks.entry_set (at.expr model.now height whole.now) bindings.now) }
{
    match whole {
        Expr::Named(name, subscripts, suffix) => {
            let subscripts = subscripts.as_slice();
            shared_member(
                alloc, model, kept, height, room, *name, subscripts, *suffix, bindings,
            )
        }
        Expr::Range(first, last, step) => {
            shared_range(
                alloc,
                model,
                kept,
                height,
                room,
                first.get(),
                last.get(),
                step,
                bindings,
            )
        }
        _ => own_set(alloc, model, kept, height, room, whole, bindings),
    }
}

// Kept, where no index is in scope.
#[cycle(evaluation)]
fn own_set(
    alloc: Global,
    model: &LoadedModel,
    kept: &mut Kept,
    height: u32,
    room: u32,
    whole: &Expr,
    bindings: &Tuple,
) -> Result<Rc<SetValue>, EvalFault>
    requires right { AreRight model.now kept.old }
    ensures right { AreRight model.now kept.new }
    ensures value { GivesAs (λ set. set.value) result (walks.entry_set (at.expr model.now height whole.now) bindings.now) }
{
    match found_set(alloc, model, kept, height, whole, bindings) {
        Some(set) => Ok(set),
        None => {
            let value = eval(alloc, model, kept, height, room, whole, bindings);
            remembered_set(alloc, model, kept, height, whole, bindings, value)
        }
    }
}

#[cycle(evaluation)]
fn shared_member(
    alloc: Global,
    model: &LoadedModel,
    kept: &mut Kept,
    height: u32,
    room: u32,
    name: Meaning,
    subscripts: &[Expr],
    suffix: Option<Suffix>,
    bindings: &Tuple,
) -> Result<Rc<SetValue>, EvalFault>
    requires right { AreRight model.now kept.old }
    ensures right { AreRight model.now kept.new }
    ensures value { GivesAs (λ set. set.value) result (then_do set_in (spec.named (member model.now height) name (at.exprs model.now height subscripts.now) suffix bindings.now)) }
{
    if room < DEMAND {
        return Err(EvalFault::NoMemory);
    }
    match name {
        Meaning::Index(place) => index_set(alloc, bindings, place),
        Meaning::Object(place) => {
            let room = room - DEMAND;
            let subscripts = symbols(alloc, model, kept, height, room, subscripts, bindings)?;
            let value = demanded(alloc, model, kept, height, room, place, suffix, &subscripts);
            set_of(alloc, value)
        }
    }
}

#[cycle(evaluation)]
fn shared_range(
    alloc: Global,
    model: &LoadedModel,
    kept: &mut Kept,
    height: u32,
    room: u32,
    first: &Expr,
    last: &Expr,
    step: &Option<Boxed<Expr>>,
    bindings: &Tuple,
) -> Result<Rc<SetValue>, EvalFault>
    requires right { AreRight model.now kept.old }
    ensures right { AreRight model.now kept.new }
    ensures value { GivesAs (λ set. set.value) result (then_do set_in (spec.range (at.expr model.now height first.now) (at.expr model.now height last.now) (at.optional model.now height step.now) bindings.now)) }
{
    let from = number(alloc, model, kept, height, room, first, bindings);
    let room = room_behind(&from, room);
    let to = number(alloc, model, kept, height, room, last, bindings);
    let room = room_behind(&to, room);
    let by = step_of(alloc, model, kept, height, room, step, bindings);
    kept_range_of(alloc, model, kept, from, to, by)
}
