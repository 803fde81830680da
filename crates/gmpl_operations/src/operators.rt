// Operators between two parts of a chain.
ghost use Rattle.std.specs.Prelude.{◌≡◌};
ghost use Rattle.gmpl_value.specs.Outcome.{Gives, GivesAs, then_do};
ghost use Rattle.gmpl_operations.specs.Operators as spec;
ghost use Rattle.gmpl_operations.specs.Values.{amount_in, as_value, set_in, truth_in, as_truth, symbol_in, number_in, as_number};
ghost use Rattle.gmpl_operations.specs.declared.value.Value.TheVariants as values;
ghost use Rattle.std.specs.Prelude.{Ok};

use crate::value::Value;
use fraction::Frac;
use gmpl_functions::{Amount, Sign, div, join, less, modulo};
use gmpl_syntax::Operator;
use gmpl_value::{EvalFault, SetValue, cross, diff, inter, symdiff, union};
use std::alloc::Global;

/// The left operand, as its operator takes it.
pub fn taken(operator: Operator, left: Value) -> Result<Value, EvalFault>
    ensures { result ≡ spec.taken operator left }
{
    match operator {
        Operator::Or | Operator::And => taken_truth(left),
        Operator::Union | Operator::Diff | Operator::Symdiff | Operator::Inter | Operator::Cross =>
            { taken_set(left) }
        Operator::Join => taken_symbol(left),
        Operator::Plus | Operator::Minus | Operator::Times | Operator::Over => taken_amount(left),
        Operator::Less | Operator::Div | Operator::Mod => taken_number(left),
    }
}

fn taken_truth(left: Value) -> Result<Value, EvalFault>
    ensures { result ≡ as_truth (truth_in left) }
{
    Ok(Value::Truth(left.as_truth()?))
}

fn taken_set(left: Value) -> Result<Value, EvalFault>
    ensures { result ≡ then_do (λ s. Ok (values.Elements s)) (set_in left) }
{
    Ok(Value::Elements(left.into_set()?))
}

fn taken_symbol(left: Value) -> Result<Value, EvalFault>
    ensures { result ≡ then_do (λ s. Ok (values.Scalar s)) (symbol_in left) }
{
    Ok(Value::Scalar(left.into_symbol()?))
}

fn taken_amount(left: Value) -> Result<Value, EvalFault>
    ensures { result ≡ as_value (amount_in left) }
{
    Ok(Value::amount(left.into_amount()?))
}

fn taken_number(left: Value) -> Result<Value, EvalFault>
    ensures { result ≡ as_number (number_in left) }
{
    Ok(Value::number(left.as_number()?))
}

/// Whether the left operand decides, so that the right one is not evaluated.
pub fn decides(operator: Operator, left: &Value) -> bool
    ensures { result ≡ spec.decides operator left.now }
{
    match left {
        Value::Truth(truth) => truth_decides(operator, *truth),
        _ => false,
    }
}

fn truth_decides(operator: Operator, left: bool) -> bool
    ensures { result ≡ spec.decides operator (values.Truth left) }
{
    match operator {
        Operator::Or => left,
        Operator::And => !left,
        _ => false,
    }
}

/// What an operator makes of two values, where the left one doesn't decide.
pub fn applied(
    alloc: Global,
    operator: Operator,
    left: Value,
    right: Value,
) -> Result<Value, EvalFault>
    ensures { Gives result (spec.applied operator left right) }
{
    match operator {
        Operator::Or | Operator::And => taken(operator, right),
        Operator::Union | Operator::Diff | Operator::Symdiff | Operator::Inter | Operator::Cross =>
            { sets_joined(alloc, operator, left, right) }
        Operator::Join => texts_joined(alloc, left, right),
        Operator::Plus | Operator::Minus | Operator::Times | Operator::Over => {
            amounts_joined(alloc, operator, left, right)
        }
        Operator::Less | Operator::Div | Operator::Mod => numbers_joined(operator, left, right),
    }
}

// Here and below the operands are let go by the outer of two functions, which has no other exit.
fn sets_joined(
    alloc: Global,
    operator: Operator,
    left: Value,
    right: Value,
) -> Result<Value, EvalFault>
    ensures { Gives result (spec.sets operator left right) }
{
    in_sets(alloc, operator, &left, &right)
}

fn in_sets(
    alloc: Global,
    operator: Operator,
    left: &Value,
    right: &Value,
) -> Result<Value, EvalFault>
    ensures { Gives result (spec.sets operator left.now right.now) }
{
    let left = left.set()?;
    let right = right.set()?;
    let set = on_sets(alloc, operator, left, right)?;
    Ok(Value::elements(alloc, set)?)
}

fn on_sets(
    alloc: Global,
    operator: Operator,
    left: &SetValue,
    right: &SetValue,
) -> Result<SetValue, EvalFault>
    ensures { GivesAs (λ set. values.Elements set) result (spec.on_sets operator left.now right.now) }
{
    match operator {
        Operator::Union => Ok(union(alloc, left, right)?),
        Operator::Diff => Ok(diff(alloc, left, right)?),
        Operator::Symdiff => Ok(symdiff(alloc, left, right)?),
        Operator::Inter => Ok(inter(alloc, left, right)?),
        Operator::Cross => Ok(cross(alloc, left, right)?),
        _ => Err(EvalFault::NotANumber),
    }
}

fn amounts_joined(
    alloc: Global,
    operator: Operator,
    left: Value,
    right: Value,
) -> Result<Value, EvalFault>
    ensures { Gives result (spec.amounts operator left right) }
{
    let left = left.into_amount()?;
    let right = right.into_amount()?;
    on_amounts(alloc, operator, left, right)
}

fn on_amounts(
    alloc: Global,
    operator: Operator,
    left: Amount,
    right: Amount,
) -> Result<Value, EvalFault>
    ensures { Gives result (spec.on_amounts operator left right) }
{
    match operator {
        Operator::Plus => Ok(Value::amount(left.combined(alloc, Sign::Plus, right)?)),
        Operator::Minus => Ok(Value::amount(left.combined(alloc, Sign::Minus, right)?)),
        Operator::Times => Ok(Value::amount(left.times(right)?)),
        Operator::Over => Ok(Value::amount(left.over(right)?)),
        _ => Err(EvalFault::NotANumber),
    }
}

fn numbers_joined(operator: Operator, left: Value, right: Value) -> Result<Value, EvalFault>
    ensures { Gives result (spec.numbers operator left right) }
{
    in_numbers(operator, &left, &right)
}

fn in_numbers(operator: Operator, left: &Value, right: &Value) -> Result<Value, EvalFault>
    ensures { Gives result (spec.numbers operator left.now right.now) }
{
    let left = left.as_number()?;
    let right = right.as_number()?;
    on_numbers(operator, left, right)
}

fn on_numbers(operator: Operator, left: Frac, right: Frac) -> Result<Value, EvalFault>
    ensures { Gives result (spec.on_numbers operator left right) }
{
    match operator {
        Operator::Less => Ok(Value::number(less(left, right)?)),
        Operator::Div => Ok(Value::number(div(left, right)?)),
        Operator::Mod => Ok(Value::number(modulo(left, right)?)),
        _ => Err(EvalFault::NotANumber),
    }
}

fn texts_joined(alloc: Global, left: Value, right: Value) -> Result<Value, EvalFault>
    ensures { Gives result (spec.texts left right) }
{
    in_texts(alloc, &left, &right)
}

fn in_texts(alloc: Global, left: &Value, right: &Value) -> Result<Value, EvalFault>
    ensures { Gives result (spec.texts left.now right.now) }
{
    let left = left.symbol()?;
    let right = right.symbol()?;
    Ok(Value::Scalar(join(alloc, left, right)?))
}
