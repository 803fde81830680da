// What goes over the elements of an indexing expression.
ghost use Rattle.std.specs.Prelude.{◌≡◌, [], IfOk};
ghost use Rattle.gmpl_value.specs.Outcome.{Gives};
ghost use Rattle.gmpl_value.specs.Sets.{with_element};
ghost use Rattle.gmpl_operations.specs.Iterations as spec;
ghost use Rattle.gmpl_operations.specs.Values.{as_elements};
ghost use Rattle.gmpl_operations.specs.declared.value.Value.TheVariants as values;

use crate::operators::{applied, decides, taken};
use crate::value::Value;
use fraction::Frac;
use gmpl_functions::{greater, lesser};
use gmpl_syntax::{Iteration, Operator};
use gmpl_value::{EvalFault, SetValue, Tuple};
use std::alloc::{AllocError, Global};

// A set with one more element.
fn with_element(alloc: Global, set: SetValue, tuple: Tuple) -> Result<Value, EvalFault>
    ensures { Gives result (as_elements (with_element set tuple)) }
{
    let mut set = set;
    match set.insert(tuple) {
        Ok(_) => Ok(Value::elements(alloc, set)?),
        Err(refused) => Err(EvalFault::from(refused.1)),
    }
}

fn with_tuple(alloc: Global, total: Value, value: Value) -> Result<Value, EvalFault>
    ensures { Gives result (spec.with_tuple total value) }
{
    let tuple = value.into_tuple(alloc)?;
    let set = total.into_set()?;
    with_element(alloc, set.into_inner(), tuple)
}

fn greater_value(total: Value, value: Value) -> Result<Value, EvalFault>
    ensures { Gives result (spec.greater_value total value) }
{
    greater_of(&total, &value)
}

fn greater_of(total: &Value, value: &Value) -> Result<Value, EvalFault>
    ensures { Gives result (spec.greater_value total.now value.now) }
{
    let total = total.as_number()?;
    let number = value.as_number()?;
    Ok(Value::number(greater(total, number)))
}

fn lesser_value(total: Value, value: Value) -> Result<Value, EvalFault>
    ensures { Gives result (spec.lesser_value total value) }
{
    lesser_of(&total, &value)
}

fn lesser_of(total: &Value, value: &Value) -> Result<Value, EvalFault>
    ensures { Gives result (spec.lesser_value total.now value.now) }
{
    let total = total.as_number()?;
    let number = value.as_number()?;
    Ok(Value::number(lesser(total, number)))
}

// A factor of `prod` is a number: a variable may not stand there.
fn factor(value: &Value) -> Result<Value, EvalFault>
    ensures { result ≡ spec.factor value.now }
{
    Ok(Value::number(value.as_number()?))
}

fn taken_factor(value: Value) -> Result<Value, EvalFault>
    ensures { result ≡ spec.factor value }
{
    factor(&value)
}

fn multiplied(alloc: Global, total: Value, value: Value) -> Result<Value, EvalFault>
    ensures { Gives result (spec.multiplied total value) }
{
    let factor = taken_factor(value)?;
    applied(alloc, Operator::Times, total, factor)
}

fn first(alloc: Global, iteration: Iteration, value: Value) -> Result<Value, EvalFault>
    ensures { Gives result (spec.first iteration value) }
{
    match iteration {
        Iteration::Sum => taken(Operator::Plus, value),
        Iteration::Prod => taken_factor(value),
        Iteration::Min | Iteration::Max => taken(Operator::Less, value),
        Iteration::Setof => with_tuple(alloc, nothing(alloc)?, value),
        Iteration::Forall => taken(Operator::And, value),
        Iteration::Exists => taken(Operator::Or, value),
    }
}

fn next(alloc: Global, iteration: Iteration, total: Value, value: Value) -> Result<Value, EvalFault>
    ensures { Gives result (spec.next iteration total value) }
{
    match iteration {
        Iteration::Sum => applied(alloc, Operator::Plus, total, value),
        Iteration::Prod => multiplied(alloc, total, value),
        Iteration::Min => lesser_value(total, value),
        Iteration::Max => greater_value(total, value),
        Iteration::Setof => with_tuple(alloc, total, value),
        Iteration::Forall => applied(alloc, Operator::And, total, value),
        Iteration::Exists => applied(alloc, Operator::Or, total, value),
    }
}

/// The value so far, where there is one, with one more value.
pub fn joined(
    alloc: Global,
    iteration: Iteration,
    total: Option<Value>,
    value: Value,
) -> Result<Option<Value>, EvalFault>
    ensures { Gives result (spec.joined iteration total value) }
{
    match total {
        None => Ok(Some(first(alloc, iteration, value)?)),
        Some(total) => Ok(Some(next(alloc, iteration, total, value)?)),
    }
}

/// Whether what is left can't change the value so far: `forall` behind what is false, `exists` behind what is true.
pub fn is_decided(iteration: Iteration, total: &Option<Value>) -> bool
    ensures { result ≡ spec.is_decided iteration total.now }
{
    match total {
        None => false,
        Some(total) => match iteration {
            Iteration::Forall => decides(Operator::And, total),
            Iteration::Exists => decides(Operator::Or, total),
            _ => false,
        },
    }
}

fn nothing(alloc: Global) -> Result<Value, AllocError>
    ensures { IfOk result (λ made. made ≡ values.Elements []) }
{
    Value::elements(alloc, SetValue::new(alloc))
}

fn empty(alloc: Global, iteration: Iteration) -> Result<Value, EvalFault>
    ensures { Gives result (spec.empty iteration) }
{
    match iteration {
        Iteration::Sum => Ok(Value::number(Frac::zero())),
        Iteration::Prod => Ok(Value::number(Frac::one())),
        Iteration::Min | Iteration::Max => Err(EvalFault::NoValue),
        Iteration::Setof => Ok(nothing(alloc)?),
        Iteration::Forall => Ok(Value::Truth(true)),
        Iteration::Exists => Ok(Value::Truth(false)),
    }
}

/// The value behind the last element; over nothing `sum` is 0, `prod` 1, and `min` and `max` have no value.
pub fn ended(alloc: Global, iteration: Iteration, total: Option<Value>) -> Result<Value, EvalFault>
    ensures { Gives result (spec.ended iteration total) }
{
    match total {
        None => empty(alloc, iteration),
        Some(total) => Ok(total),
    }
}
