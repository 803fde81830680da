// Sets of elements.
ghost use Rattle.std.specs.Prelude.{◌≡◌, [], Ok};
ghost use Rattle.gmpl_value.specs.Outcome.{Gives, Follows, GivesAs};
ghost use Rattle.gmpl_meaning.specs.Expressions as spec;
ghost use Rattle.gmpl_operations.specs.Values.{set_in};
ghost use Rattle.gmpl_value.specs.Outcome.{Outcome, then_do};
ghost use Rattle.gmpl_operations.specs.declared.value.Value.TheVariants as values;
ghost use Rattle.gmpl_meaning.specs.declared.walk.Walk.{Walk as AnyWalk};

use gmpl_meaning::{Element, Walk};
use gmpl_operations::Value;
use gmpl_value::{EvalFault, SetValue, Tuple};
use std::alloc::Global;

/// A set with one more element.
pub(crate) fn add(found: &mut SetValue, tuple: Tuple) -> Result<(), EvalFault>
    ensures { Follows result found.new (then_do set_in (spec.added found.old tuple)) }
{
    match found.insert(tuple) {
        Ok(_) => Ok(()),
        Err(refused) => Err(EvalFault::from(refused.1)),
    }
}

/// A set, as a value.
pub(crate) fn set_value(alloc: Global, set: SetValue) -> Result<Value, EvalFault>
    ensures { Gives result (Ok (values.Elements set)) }
{
    Ok(Value::elements(alloc, set)?)
}

/// The set of what is gone over, handed as it was evaluated.
pub(crate) fn set_gone_over(
    alloc: Global,
    walk: Result<Walk, EvalFault>,
) -> Result<Value, EvalFault>
    ensures { (answer : Outcome AnyWalk) → Gives walk answer → Gives result (then_do spec.set_over answer) }
{
    match walk {
        Ok(walk) => set_over(alloc, &walk),
        Err(fault) => Err(fault),
    }
}

/// The set of the elements that are gone over, or the first fault.
fn set_over(alloc: Global, walk: &Walk) -> Result<Value, EvalFault>
    ensures { Gives result (spec.set_over walk.now) }
{
    let mut found = SetValue::new(alloc);
    for element in walk.elements.as_slice() {
        add(&mut found, element.tuple.copied(alloc)?)?;
    }
    match walk.fault {
        None => Ok(Value::elements(alloc, found)?),
        Some(fault) => Err(fault),
    }
}
