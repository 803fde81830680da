// Whether values meet what is asked of them, where these or what they are held against are handed as they were evaluated.
ghost use Rattle.std.specs.Prelude.{◌≡◌, Ok, ◌∷◌, []};
ghost use Rattle.gmpl_value.specs.Sets.{Elements as Set, is_member, is_within};
ghost use Rattle.gmpl_value.specs.Outcome.{Gives, GivesAs, Outcome, then_do};
ghost use Rattle.gmpl_operations.specs.Relations.{compared};
ghost use Rattle.gmpl_operations.specs.Values.{set_in};
ghost use Rattle.gmpl_operations.specs.declared.value.Value.{Value as AnyValue};
ghost use Rattle.gmpl_operations.specs.declared.value.Value.TheVariants as values;
ghost use Rattle.gmpl_meaning.specs.Restrictions as spec;

use crate::attributes::{held, where_true};
use gmpl_operations::{Value, compared};
use gmpl_syntax::Relation;
use gmpl_value::{EvalFault, SetValue, Symbol, Tuple};
use sqlite_items::Boxed;
use std::alloc::Global;
use std::rc::Rc;

/// What a parameter holds: a number, and a symbol where it is symbolic.
pub(crate) fn held_of(symbolic: bool, part: Result<Value, EvalFault>) -> Result<Symbol, EvalFault>
    ensures { (answer : Outcome AnyValue) → Gives part answer → Gives result (then_do (spec.held symbolic) answer) }
{
    match part {
        Ok(value) => held(symbolic, value),
        Err(fault) => Err(fault),
    }
}

/// In a place of a set.
pub(crate) fn elements_in(part: Result<Value, EvalFault>) -> Result<Boxed<SetValue>, EvalFault>
    ensures { (answer : Outcome AnyValue) → Gives part answer → Gives result (then_do set_in answer) }
{
    match part {
        Ok(value) => value.into_set(),
        Err(fault) => Err(fault),
    }
}

/// A symbol, where what was asked of it is met.
pub(crate) fn symbol_tested(
    symbol: Symbol,
    tested: Result<(), EvalFault>,
) -> Result<Value, EvalFault>
    ensures { (answer : Outcome (Unit {0})) → Gives tested answer → Gives result (then_do (λ _. Ok (values.Scalar symbol)) answer) }
{
    match tested {
        Ok(()) => Ok(Value::Scalar(symbol)),
        Err(fault) => Err(fault),
    }
}

/// A set, where what was asked of it is met.
pub(crate) fn set_tested(
    set: Boxed<SetValue>,
    tested: Result<(), EvalFault>,
) -> Result<Value, EvalFault>
    ensures { (answer : Outcome (Unit {0})) → Gives tested answer → Gives result (then_do (λ _. Ok (values.Elements set)) answer) }
{
    match tested {
        Ok(()) => Ok(Value::Elements(set)),
        Err(fault) => Err(fault),
    }
}

/// Whether a symbol stands in a relation to a value of the same kind.
pub(crate) fn meets(
    symbolic: bool,
    relation: Relation,
    symbol: &Symbol,
    other: Result<Value, EvalFault>,
) -> Result<(), EvalFault>
    ensures { (answer : Outcome AnyValue) → Gives other answer → Gives result (then_do (λ t. spec.where_true (compared relation symbol.now t)) (then_do (spec.held symbolic) answer)) }
{
    match other {
        Ok(other) => where_true(compared(relation, symbol, &held(symbolic, other)?)),
        Err(fault) => Err(fault),
    }
}

/// Whether a set has a symbol.
pub(crate) fn lies_in(
    alloc: Global,
    symbol: &Symbol,
    set: Result<Rc<SetValue>, EvalFault>,
) -> Result<(), EvalFault>
    ensures { (answer : Outcome Set) → GivesAs (λ set. set.value) set answer → Gives result (then_do (λ s. spec.where_true (is_member s (symbol.now ∷ []))) answer) }
{
    match set {
        Ok(set) => {
            let tuple = Tuple::single(alloc, symbol.copied(alloc)?)?;
            where_true(set.as_ref().contains(&tuple))
        }
        Err(fault) => Err(fault),
    }
}

/// Whether a set lies within another.
pub(crate) fn lies_within(
    set: &SetValue,
    outer: Result<Rc<SetValue>, EvalFault>,
) -> Result<(), EvalFault>
    ensures { (answer : Outcome Set) → GivesAs (λ set. set.value) outer answer → Gives result (then_do (λ o. spec.where_true (is_within set.now o)) answer) }
{
    match outer {
        Ok(outer) => where_true(set.is_within(outer.as_ref())),
        Err(fault) => Err(fault),
    }
}
