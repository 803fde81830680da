// Steps of the evaluation that evaluate nothing themselves.
ghost use Rattle.std.specs.Prelude.{◌≡◌, slice_get};
ghost use Rattle.gmpl_value.specs.Outcome.{Follows, Gives, GivesAs, Outcome, then_do};
ghost use Rattle.rational.specs.Rational.{Rational};
ghost use Rattle.gmpl_operations.specs.Iterations as operations;
ghost use Rattle.gmpl_expr.specs.OneByOne as one_by_one;
ghost use Rattle.gmpl_operations.specs.Relations.{negated};
ghost use Rattle.gmpl_operations.specs.Values.{as_truth, set_in};
ghost use Rattle.gmpl_operations.specs.declared.value.Value.TheVariants as values;
ghost use Rattle.gmpl_value.specs.declared.symbol.Symbol.TheVariants as symbols;
ghost use Rattle.gmpl_meaning.specs.Expressions as spec;
ghost use Rattle.gmpl_meaning.specs.Members as members;
ghost use Rattle.std.specs.Prelude.{Bool, Ok};
ghost use Rattle.gmpl_meaning.specs.Right.{AreRight};

use fraction::Frac;
use gmpl_data::LoadedModel;
use gmpl_functions::card;
use gmpl_meaning::{Asked, Kept};
use gmpl_members::Value as Given;
use gmpl_operations::{Value, ended};
use gmpl_syntax::Iteration;
use gmpl_text::Text;
use gmpl_value::{EvalFault, SetValue, Symbol, Tuple, range};
use std::alloc::Global;
use std::rc::Rc;

/// The value of the index at this place.
pub(crate) fn bound_to(alloc: Global, bindings: &Tuple, place: usize) -> Result<Value, EvalFault>
    ensures { Gives result (spec.bound_to (slice_get bindings.now place)) }
{
    match bindings.symbols().get(place) {
        Some(symbol) => symbol_value(alloc, symbol),
        None => Err(EvalFault::NoValue),
    }
}

/// The value of a text.
pub(crate) fn text_value(alloc: Global, text: &Text) -> Result<Value, EvalFault>
    ensures { Gives result (Ok (values.Scalar (symbols.Word text.now))) }
{
    Ok(Value::Scalar(Symbol::Word(text.copied(alloc)?)))
}

/// The set from a number to another by a step; `DivZero` where the step is 0.
pub(crate) fn ranged(alloc: Global, from: Frac, to: Frac, by: Frac) -> Result<Value, EvalFault>
    ensures { Gives result (spec.range_by from to by) }
{
    if by.is_zero() {
        return Err(EvalFault::DivZero);
    }
    Ok(Value::elements(alloc, range(alloc, from, to, by)?)?)
}

/// The same set, which is kept, where its parts are handed as they were evaluated.
pub(crate) fn kept_range_of(
    alloc: Global,
    model: &LoadedModel,
    kept: &mut Kept,
    from: Result<Frac, EvalFault>,
    to: Result<Frac, EvalFault>,
    by: Result<Frac, EvalFault>,
) -> Result<Rc<SetValue>, EvalFault>
    requires right { AreRight model.now kept.old }
    ensures right { AreRight model.now kept.new }
    ensures value { (first : Outcome Rational) (last : Outcome Rational) (step : Outcome Rational) → Gives from first → Gives to last → Gives by step → GivesAs (λ set. set.value) result (then_do set_in (then_do (λ f. then_do (λ t. then_do (λ b. spec.range_by f t b) step) last) first)) }
{
    let from = from?;
    let to = to?;
    let by = by?;
    kept_range(alloc, model, kept, from, to, by)
}

// The same set, kept.
fn kept_range(
    alloc: Global,
    model: &LoadedModel,
    kept: &mut Kept,
    from: Frac,
    to: Frac,
    by: Frac,
) -> Result<Rc<SetValue>, EvalFault>
    requires right { AreRight model.now kept.old }
    ensures right { AreRight model.now kept.new }
    ensures value { GivesAs (λ set. set.value) result (then_do set_in (spec.range_by from to by)) }
{
    let asked = Asked::Range(from, to, by);
    match kept.found(alloc, &asked) {
        Some(set) => set.into_set(alloc),
        None => {
            let set = ranged(alloc, from, to, by)?;
            kept.remember(alloc, asked, set)?.into_set(alloc)
        }
    }
}

/// The value of an index in a place of a set.
pub(crate) fn index_set(
    alloc: Global,
    bindings: &Tuple,
    place: usize,
) -> Result<Rc<SetValue>, EvalFault>
    ensures { GivesAs (λ set. set.value) result (then_do set_in (spec.bound_to (slice_get bindings.now place))) }
{
    let set = bound_to(alloc, bindings, place)?.into_set()?;
    Ok(Rc::new(alloc, set.into_inner())?)
}

/// How many elements a set has.
pub(crate) fn size_of(set: &SetValue) -> Value
    ensures { Ok result ≡ spec.counted set.now }
{
    Value::number(card(set))
}

/// Whether something holds, as a value.
pub(crate) fn truth_value(found: Result<bool, EvalFault>) -> Result<Value, EvalFault>
    ensures { (answer : Outcome Bool) → Gives found answer → Gives result (as_truth answer) }
{
    match found {
        Ok(truth) => Ok(Value::Truth(truth)),
        Err(fault) => Err(fault),
    }
}

/// Whether something does not hold, as a value.
pub(crate) fn negated_value(found: Result<bool, EvalFault>) -> Result<Value, EvalFault>
    ensures { (answer : Outcome Bool) → Gives found answer → Gives result (as_truth (negated answer)) }
{
    match found {
        Ok(truth) => Ok(Value::Truth(!truth)),
        Err(fault) => Err(fault),
    }
}

/// What an `if` without `else` is where its condition does not hold.
pub(crate) fn nothing(alloc: Global, is_set: bool) -> Result<Value, EvalFault>
    ensures { Gives result (Ok (spec.nothing is_set)) }
{
    if is_set {
        Ok(Value::elements(alloc, SetValue::new(alloc))?)
    } else {
        Ok(Value::number(Frac::zero()))
    }
}

/// What an iteration comes to.
pub(crate) fn finished(
    alloc: Global,
    iteration: Iteration,
    total: Option<Value>,
    done: Result<(), EvalFault>,
) -> Result<Value, EvalFault>
    ensures { (answer : one_by_one.SoFar) → Follows done total answer → Gives result (then_do (operations.ended iteration) answer) }
{
    match done {
        Ok(()) => ended(alloc, iteration, total),
        Err(fault) => Err(fault),
    }
}

/// A kept value again.
pub(crate) fn kept_value(alloc: Global, kept: &Given) -> Result<Value, EvalFault>
    ensures { Gives result (Ok (members.as_value kept.now)) }
{
    match kept {
        Given::Scalar(symbol) => Ok(Value::Scalar(symbol.copied(alloc)?)),
        Given::Elements(set) => Ok(Value::elements(alloc, set.copied(alloc)?)?),
    }
}

/// A symbol again, as a value.
pub(crate) fn symbol_value(alloc: Global, symbol: &Symbol) -> Result<Value, EvalFault>
    ensures { Gives result (Ok (values.Scalar symbol.now)) }
{
    Ok(Value::Scalar(symbol.copied(alloc)?))
}
