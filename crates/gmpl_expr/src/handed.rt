// What is made of parts that are handed as they were evaluated: the first fault of a part is the whole's. Nothing is evaluated here,
// so that what evaluates owns no value where it may end.
ghost use Rattle.std.specs.Prelude.{◌≡◌, Bool, List, None, Ok, Err, Option, Some, ◌∷◌, ◌++◌, [], if◌then◌else◌, true, false};
ghost use Rattle.rational.specs.Rational.{Rational, one_ℚ};
ghost use Rattle.gmpl_value.specs.declared.symbol.Symbol.{Symbol as AnySymbol};
ghost use Rattle.gmpl_value.specs.Sets.{Elements as Set, is_member};
ghost use Rattle.gmpl_value.specs.Outcome.{Follows, Gives, GivesAs, Outcome, then_do};
ghost use Rattle.gmpl_functions.specs.Powers.{power_of};
ghost use Rattle.gmpl_functions.specs.Strings.{length_of};
ghost use Rattle.gmpl_operations.specs.Functions as functions;
ghost use Rattle.gmpl_operations.specs.Relations as relations;
ghost use Rattle.gmpl_operations.specs.Values.{as_number, as_truth, number_in, of_number, set_in, symbol_in, truth_in, tuple_in};
ghost use Rattle.gmpl_operations.specs.declared.value.Value.{Value as AnyValue};
ghost use Rattle.gmpl_operations.specs.declared.value.Value.TheVariants as values;
ghost use Rattle.gmpl_meaning.specs.Expressions as spec;
ghost use Rattle.gmpl_meaning.specs.Right.{value_seen};

use crate::parts::{ranged, size_of};
use fraction::Frac;
use gmpl_functions::{length, power};
use gmpl_meaning::KeptValue;
use gmpl_operations::{Value, called_with_numbers, left_side, related, signed, sliced};
use gmpl_syntax::{Function, Relation, Sign};
use gmpl_value::{EvalFault, SetValue, Symbol, Tuple};
use sqlite_items::Items;
use std::alloc::Global;
use std::rc::Rc;

// ---- single values

/// In a numeric place.
pub(crate) fn number_of(part: Result<Value, EvalFault>) -> Result<Frac, EvalFault>
    ensures { (answer : Outcome AnyValue) → Gives part answer → Gives result (then_do number_in answer) }
{
    match part {
        Ok(value) => value.as_number(),
        Err(fault) => Err(fault),
    }
}

/// In a logical place.
pub(crate) fn truth_of(part: Result<Value, EvalFault>) -> Result<bool, EvalFault>
    ensures { (answer : Outcome AnyValue) → Gives part answer → Gives result (then_do truth_in answer) }
{
    match part {
        Ok(value) => value.as_truth(),
        Err(fault) => Err(fault),
    }
}

/// In a place of a symbol.
pub(crate) fn symbol_of(part: Result<Value, EvalFault>) -> Result<Symbol, EvalFault>
    ensures { (answer : Outcome AnyValue) → Gives part answer → Gives result (then_do symbol_in answer) }
{
    match part {
        Ok(value) => value.into_symbol(),
        Err(fault) => Err(fault),
    }
}

/// In a place of an index's component.
pub(crate) fn component_of(part: Result<Value, EvalFault>) -> Result<Option<Symbol>, EvalFault>
    ensures { (answer : Outcome AnyValue) → Gives part answer → Gives result (then_do (λ s. Ok (Some s)) (then_do symbol_in answer)) }
{
    match part {
        Ok(value) => Ok(Some(value.into_symbol()?)),
        Err(fault) => Err(fault),
    }
}

/// In a place of a set's element.
pub(crate) fn element_of(alloc: Global, part: Result<Value, EvalFault>) -> Result<Tuple, EvalFault>
    ensures { (answer : Outcome AnyValue) → Gives part answer → Gives result (then_do tuple_in answer) }
{
    match part {
        Ok(value) => value.into_tuple(alloc),
        Err(fault) => Err(fault),
    }
}

/// What a sign makes of it.
pub(crate) fn signed_of(sign: Sign, part: Result<Value, EvalFault>) -> Result<Value, EvalFault>
    ensures { (answer : Outcome AnyValue) → Gives part answer → Gives result (then_do (functions.signed sign) answer) }
{
    match part {
        Ok(value) => signed(sign, value),
        Err(fault) => Err(fault),
    }
}

/// What does not hold.
pub(crate) fn negation_of(truth: Result<bool, EvalFault>) -> Result<Value, EvalFault>
    ensures { (answer : Outcome Bool) → Gives truth answer → Gives result (then_do (λ t. Ok (values.Truth (if t then false else true))) answer) }
{
    match truth {
        Ok(truth) => Ok(Value::Truth(!truth)),
        Err(fault) => Err(fault),
    }
}

// ---- members

/// The value of a member, with a set of its own.
pub(crate) fn value_of(
    alloc: Global,
    member: Result<KeptValue, EvalFault>,
) -> Result<Value, EvalFault>
    ensures { (answer : Outcome AnyValue) → GivesAs value_seen member answer → Gives result answer }
{
    match member {
        Ok(value) => Ok(value.into_value(alloc)?),
        Err(fault) => Err(fault),
    }
}

/// A member in a place of a set.
pub(crate) fn set_of(
    alloc: Global,
    member: Result<KeptValue, EvalFault>,
) -> Result<Rc<SetValue>, EvalFault>
    ensures { (answer : Outcome AnyValue) → GivesAs value_seen member answer → GivesAs (λ set. set.value) result (then_do set_in answer) }
{
    match member {
        Ok(value) => value.into_set(alloc),
        Err(fault) => Err(fault),
    }
}

/// A value, with its set to share.
pub(crate) fn kept_of(alloc: Global, part: Result<Value, EvalFault>) -> Result<KeptValue, EvalFault>
    ensures { (answer : Outcome AnyValue) → Gives part answer → GivesAs value_seen result answer }
{
    match part {
        Ok(value) => Ok(KeptValue::of(alloc, value)?),
        Err(fault) => Err(fault),
    }
}

// ---- lists

/// A tuple of several parts.
pub(crate) fn group_of(symbols: Result<Tuple, EvalFault>) -> Result<Value, EvalFault>
    ensures { (answer : Outcome (List AnySymbol)) → Gives symbols answer → Gives result (then_do (λ t. Ok (values.Group t)) answer) }
{
    match symbols {
        Ok(symbols) => Ok(Value::Group(symbols)),
        Err(fault) => Err(fault),
    }
}

/// One more symbol.
pub(crate) fn push_symbol(
    found: &mut Tuple,
    part: Result<Value, EvalFault>,
) -> Result<(), EvalFault>
    ensures { (answer : Outcome AnyValue) → Gives part answer → Follows result found.new (then_do (λ s. Ok (found.old ++ s ∷ [])) (then_do symbol_in answer)) }
{
    match part {
        Ok(value) => Ok(found.push(value.into_symbol()?)?),
        Err(fault) => Err(fault),
    }
}

/// One more number.
pub(crate) fn push_number(
    found: &mut Items<Frac>,
    part: Result<Value, EvalFault>,
) -> Result<(), EvalFault>
    ensures { (answer : Outcome AnyValue) → Gives part answer → Follows result found.new (then_do (λ q. Ok (found.old ++ q ∷ [])) (then_do number_in answer)) }
{
    match part {
        Ok(value) => Ok(found.push(value.as_number()?)?),
        Err(fault) => Err(fault),
    }
}

/// One more component of an index.
pub(crate) fn push_component(
    found: &mut Items<Option<Symbol>>,
    part: Result<Option<Symbol>, EvalFault>,
) -> Result<(), EvalFault>
    ensures { (answer : Outcome (Option AnySymbol)) → Gives part answer → Follows result found.new (then_do (λ s. Ok (found.old ++ s ∷ [])) answer) }
{
    match part {
        Ok(component) => Ok(found.push(component)?),
        Err(fault) => Err(fault),
    }
}

// ---- functions

/// What a function makes of numbers.
pub(crate) fn function_of(function: Function, numbers: Items<Frac>) -> Result<Value, EvalFault>
    ensures { Gives result (as_number (functions.of_numbers function numbers)) }
{
    Ok(Value::number(called_with_numbers(function, numbers.as_slice())?))
}

/// How many elements a set has.
pub(crate) fn card_of(set: Result<Rc<SetValue>, EvalFault>) -> Result<Value, EvalFault>
    ensures { (answer : Outcome Set) → GivesAs (λ set. set.value) set answer → Gives result (then_do spec.counted answer) }
{
    match set {
        Ok(set) => Ok(size_of(set.as_ref())),
        Err(fault) => Err(fault),
    }
}

/// How many characters a symbol has.
pub(crate) fn text_length_of(
    alloc: Global,
    part: Result<Value, EvalFault>,
) -> Result<Value, EvalFault>
    ensures { (answer : Outcome AnyValue) → Gives part answer → Gives result (then_do (λ s. Ok (of_number (length_of s))) (then_do symbol_in answer)) }
{
    match part {
        Ok(value) => Ok(Value::number(length(alloc, value.symbol()?)?)),
        Err(fault) => Err(fault),
    }
}

/// A part of a symbol.
pub(crate) fn sliced_of(
    alloc: Global,
    text: Result<Symbol, EvalFault>,
    numbers: Result<Items<Frac>, EvalFault>,
) -> Result<Value, EvalFault>
    ensures { (first : Outcome AnySymbol) (others : Outcome (List Rational)) → Gives text first → Gives numbers others → Gives result (then_do (λ s. then_do (λ ns. then_do (λ t. Ok (values.Scalar t)) (functions.sliced s ns)) others) first) }
{
    let text = text?;
    let numbers = numbers?;
    Ok(Value::Scalar(sliced(alloc, &text, numbers.as_slice())?))
}

// ---- operands

/// A number to the power of another.
pub(crate) fn power_of_both(
    base: Result<Frac, EvalFault>,
    exponent: Result<Frac, EvalFault>,
) -> Result<Value, EvalFault>
    ensures { (first : Outcome Rational) (second : Outcome Rational) → Gives base first → Gives exponent second → Gives result (then_do (λ x. then_do (λ n. as_number (power_of x n)) second) first) }
{
    let base = base?;
    let exponent = exponent?;
    Ok(Value::number(power(base, exponent)?))
}

/// The set from a number to another by a step.
pub(crate) fn range_of(
    alloc: Global,
    from: Result<Frac, EvalFault>,
    to: Result<Frac, EvalFault>,
    by: Result<Frac, EvalFault>,
) -> Result<Value, EvalFault>
    ensures { (first : Outcome Rational) (last : Outcome Rational) (step : Outcome Rational) → Gives from first → Gives to last → Gives by step → Gives result (then_do (λ f. then_do (λ t. then_do (λ b. spec.range_by f t b) step) last) first) }
{
    let from = from?;
    let to = to?;
    let by = by?;
    ranged(alloc, from, to, by)
}

/// The left side of a relation.
pub(crate) fn left_of(
    alloc: Global,
    relation: Relation,
    part: Result<Value, EvalFault>,
) -> Result<Value, EvalFault>
    ensures { (answer : Outcome AnyValue) → Gives part answer → Gives result (then_do (relations.left_side relation) answer) }
{
    match part {
        Ok(value) => left_side(alloc, relation, value),
        Err(fault) => Err(fault),
    }
}

/// Whether a relation holds between its left side, as it is taken, and its right one.
pub(crate) fn relation_of(
    alloc: Global,
    relation: Relation,
    left: Result<Value, EvalFault>,
    right: Result<Value, EvalFault>,
) -> Result<Value, EvalFault>
    ensures { (first : Outcome AnyValue) (second : Outcome AnyValue) → Gives left first → Gives right second → Gives result (then_do (λ l. then_do (λ r. as_truth (relations.related relation l r)) second) first) }
{
    let left = left?;
    let right = right?;
    Ok(Value::Truth(related(alloc, relation, left, right)?))
}

/// Whether a set has an element.
pub(crate) fn membership_of(
    element: Result<Tuple, EvalFault>,
    set: Result<Rc<SetValue>, EvalFault>,
) -> Result<bool, EvalFault>
    ensures { (first : Outcome (List AnySymbol)) (second : Outcome Set) → Gives element first → GivesAs (λ set. set.value) set second → Gives result (then_do (λ t. then_do (λ s. Ok (is_member s t)) second) first) }
{
    let element = element?;
    let set = set?;
    Ok(set.as_ref().contains(&element))
}
