// Members that are kept, and sets that are: these stand in a declaration.
ghost use Rattle.std.specs.Prelude.{◌≡◌, IfSome, None, Ok};
ghost use Rattle.gmpl_value.specs.Outcome.{Gives, GivesAs};
ghost use Rattle.gmpl_expr.specs.At as at;
ghost use Rattle.gmpl_meaning.specs.Walks as walks;
ghost use Rattle.gmpl_meaning.specs.Members.{member};
ghost use Rattle.gmpl_meaning.specs.Right.{AreRight, anew, value_seen};
ghost use Rattle.gmpl_operations.specs.declared.value.Value.TheVariants as values;

use crate::set_kinds::is_indexing;
use gmpl_data::LoadedModel;
use gmpl_meaning::{Asked, Kept, KeptValue, asked_by};
use gmpl_operations::Value;
use gmpl_resolved::Expr;
use gmpl_value::{EvalFault, SetValue, Tuple};
use std::alloc::Global;
use std::rc::Rc;

// A few elements in braces are made sooner than they are found.
fn takes_time(model: &LoadedModel, height: u32, whole: &Expr) -> bool {
    match whole {
        Expr::Braces(indexing) => is_indexing(model, height, indexing),
        _ => true,
    }
}

fn asked_for(
    alloc: Global,
    model: &LoadedModel,
    height: u32,
    whole: &Expr,
    bindings: &Tuple,
) -> Option<Asked>
    ensures { IfSome result (λ asked. anew model.now asked ≡ (at.expr model.now height whole.now).value bindings.now) }
{
    if takes_time(model, height, whole) {
        asked_by(alloc, model, height, whole, bindings)
    } else {
        None
    }
}

fn set_of(value: KeptValue) -> Option<Rc<SetValue>>
    ensures { IfSome result (λ set. value_seen value ≡ values.Elements set.value) }
{
    match value {
        KeptValue::Elements(set) => Some(set),
        _ => None,
    }
}

/// The set that is kept of an expression.
pub(crate) fn found_set(
    alloc: Global,
    model: &LoadedModel,
    kept: &Kept,
    height: u32,
    whole: &Expr,
    bindings: &Tuple,
) -> Option<Rc<SetValue>>
    requires right { AreRight model.now kept.now }
    ensures { IfSome result (λ set. walks.entry_set (at.expr model.now height whole.now) bindings.now ≡ Ok set.value) }
{
    match asked_for(alloc, model, height, whole, bindings) {
        None => None,
        Some(asked) => match kept.found(alloc, &asked) {
            None => None,
            Some(value) => set_of(value),
        },
    }
}

/// The set that an expression comes to, which is kept.
pub(crate) fn remembered_set(
    alloc: Global,
    model: &LoadedModel,
    kept: &mut Kept,
    height: u32,
    whole: &Expr,
    bindings: &Tuple,
    value: Result<Value, EvalFault>,
) -> Result<Rc<SetValue>, EvalFault>
    requires right { AreRight model.now kept.old }
    requires value { Gives value ((at.expr model.now height whole.now).value bindings.now) }
    ensures right { AreRight model.now kept.new }
    ensures value { GivesAs (λ set. set.value) result (walks.entry_set (at.expr model.now height whole.now) bindings.now) }
{
    match value {
        Ok(value) => remember_set(alloc, model, kept, height, whole, bindings, value),
        Err(fault) => Err(fault),
    }
}

fn remember_set(
    alloc: Global,
    model: &LoadedModel,
    kept: &mut Kept,
    height: u32,
    whole: &Expr,
    bindings: &Tuple,
    value: Value,
) -> Result<Rc<SetValue>, EvalFault>
    requires right { AreRight model.now kept.old }
    requires value { (at.expr model.now height whole.now).value bindings.now ≡ Ok value }
    ensures right { AreRight model.now kept.new }
    ensures value { GivesAs (λ set. set.value) result (walks.entry_set (at.expr model.now height whole.now) bindings.now) }
{
    match asked_for(alloc, model, height, whole, bindings) {
        None => Ok(Rc::new(alloc, value.into_set()?.into_inner())?),
        Some(asked) => kept.remember(alloc, asked, value)?.into_set(alloc),
    }
}

// ---- members

/// The value of a member, which is kept.
pub(crate) fn remembered_member(
    alloc: Global,
    model: &LoadedModel,
    kept: &mut Kept,
    height: u32,
    place: usize,
    subscripts: &Tuple,
    value: Result<Value, EvalFault>,
) -> Result<KeptValue, EvalFault>
    requires right { AreRight model.now kept.old }
    requires value { Gives value (member model.now height place None subscripts.now) }
    ensures right { AreRight model.now kept.new }
    ensures value { GivesAs value_seen result (member model.now height place None subscripts.now) }
{
    match value {
        Ok(value) => remember_member(alloc, model, kept, height, place, subscripts, value),
        Err(fault) => Err(fault),
    }
}

fn remember_member(
    alloc: Global,
    model: &LoadedModel,
    kept: &mut Kept,
    height: u32,
    place: usize,
    subscripts: &Tuple,
    value: Value,
) -> Result<KeptValue, EvalFault>
    requires right { AreRight model.now kept.old }
    requires value { member model.now height place None subscripts.now ≡ Ok value }
    ensures right { AreRight model.now kept.new }
    ensures value { GivesAs value_seen result (member model.now height place None subscripts.now) }
{
    Ok(kept.remember_member(alloc, place, height, subscripts, value)?)
}
