// Operators whose value takes the place of the left operand: numbers and forms are not moved.
ghost use Rattle.std.specs.Prelude.{◌≡◌, true, Ok, IfSome};
ghost use Rattle.rational.specs.Rational.{Rational};
ghost use Rattle.gmpl_value.specs.Outcome.{Follows, Gives, Outcome, fitting, then_do};
ghost use Rattle.gmpl_functions.specs.Numbers.{number_of};
ghost use Rattle.gmpl_functions.specs.Amounts.{sum_of, product_of, as_number as number_amount};
ghost use Rattle.gmpl_functions.specs.declared.terms.Sign.TheVariants as signs;
ghost use Rattle.gmpl_functions.specs.declared.amount.Amount.TheVariants as amounts;
ghost use Rattle.gmpl_syntax.specs.declared.expression.Operator.TheVariants as operators;
ghost use Rattle.gmpl_syntax.specs.declared.expression.Iteration.TheVariants as over;
ghost use Rattle.gmpl_operations.specs.Operators as spec;
ghost use Rattle.gmpl_operations.specs.Iterations as iterations;
ghost use Rattle.gmpl_operations.specs.Values.{amount_in, as_value, as_number, number_in, of_number};
ghost use Rattle.gmpl_operations.specs.declared.value.Value.{Value as AnyValue};
ghost use Rattle.gmpl_operations.specs.declared.value.Value.TheVariants as values;

use fraction::{Frac, NoFit};
use gmpl_functions::{
    Amount, Form, Scaling, Sign, div, less, modulo, quotient, word_difference, word_product,
    word_remainder, word_sum,
};
use gmpl_operations::{Value, applied, joined, taken};
use gmpl_syntax::{Iteration, Operator};
use gmpl_value::{EvalFault, Symbol};
use std::alloc::Global;
use std::mem::replace;

// ---- the left operand, as its operator takes it

/// The left operand, as its operator takes it, in its place.
pub(crate) fn take(operator: Operator, left: &mut Value) -> Result<(), EvalFault>
    ensures { Follows result left.new (spec.taken operator left.old) }
{
    if stays(operator, left) {
        return Ok(());
    }
    take_anew(operator, left)
}

// The operator takes the operand as it is. Of others than numbers and forms that is not told.
fn stays(operator: Operator, left: &Value) -> bool
    ensures { result ≡ true → spec.taken operator left.now ≡ Ok left.now }
{
    match operator {
        Operator::Plus | Operator::Minus | Operator::Times | Operator::Over => is_amount(left),
        Operator::Less | Operator::Div | Operator::Mod => is_number(left),
        _ => false,
    }
}

fn is_amount(value: &Value) -> bool
    ensures { result ≡ true → as_value (amount_in value.now) ≡ Ok value.now }
{
    match value {
        Value::Scalar(symbol) => is_plain(symbol),
        Value::Linear(_) => true,
        _ => false,
    }
}

fn is_number(value: &Value) -> bool
    ensures { result ≡ true → as_number (number_in value.now) ≡ Ok value.now }
{
    match value {
        Value::Scalar(symbol) => is_plain(symbol),
        _ => false,
    }
}

// It is a number, and no string that may be read as one.
fn is_plain(symbol: &Symbol) -> bool
    ensures { result ≡ true → as_number (number_of symbol.now) ≡ Ok (values.Scalar symbol.now) }
{
    match symbol {
        Symbol::Number(_) => true,
        Symbol::Word(_) => false,
    }
}

fn take_anew(operator: Operator, left: &mut Value) -> Result<(), EvalFault>
    ensures { Follows result left.new (spec.taken operator left.old) }
{
    let value = replace(left, Value::Truth(false));
    *left = taken(operator, value)?;
    Ok(())
}

// ---- both operands

/// What an operator makes of two values, where the left one doesn't decide, in the place of the left one.
pub(crate) fn apply(
    alloc: Global,
    operator: Operator,
    left: &mut Value,
    right: Value,
) -> Result<(), EvalFault>
    ensures { Follows result left.new (spec.applied operator left.old right) }
{
    match words_joined(operator, left, &right) {
        Some(number) => {
            *left = Value::number(number);
            Ok(())
        }
        None => apply_values(alloc, operator, left, right),
    }
}

/// The same, where the right one is handed as it was evaluated.
pub(crate) fn apply_part(
    alloc: Global,
    operator: Operator,
    left: &mut Value,
    right: Result<Value, EvalFault>,
) -> Result<(), EvalFault>
    ensures { (answer : Outcome AnyValue) → Gives right answer → Follows result left.new (then_do (spec.applied operator left.old) answer) }
{
    match right {
        Ok(right) => apply(alloc, operator, left, right),
        Err(fault) => Err(fault),
    }
}

// What an operator makes of whole numbers that are words. Of others than these that is not told.
fn words_joined(operator: Operator, left: &Value, right: &Value) -> Option<Frac>
    ensures { IfSome result (λ number. spec.applied operator left.now right.now ≡ Ok (of_number number)) }
{
    let first = plain_number(left)?;
    let second = plain_number(right)?;
    join_words(operator, first, second)
}

fn join_words(operator: Operator, first: Frac, second: Frac) -> Option<Frac>
    ensures { IfSome result (λ number. spec.applied operator (of_number first) (of_number second) ≡ Ok (of_number number)) }
{
    match operator {
        Operator::Plus => word_sum(first, second),
        Operator::Minus => word_difference(first, second),
        Operator::Times => word_product(first, second),
        Operator::Mod => word_remainder(first, second),
        _ => None,
    }
}

fn apply_values(
    alloc: Global,
    operator: Operator,
    left: &mut Value,
    right: Value,
) -> Result<(), EvalFault>
    ensures { Follows result left.new (spec.applied operator left.old right) }
{
    match plain_number(left) {
        Some(first) => apply_to_number(alloc, operator, left, first, right),
        None => apply_to_other(alloc, operator, left, right),
    }
}

// The number that a value is as it stands.
fn plain_number(value: &Value) -> Option<Frac>
    ensures { IfSome result (λ number. value.now ≡ of_number number) }
{
    match value {
        Value::Scalar(symbol) => plain_number_of(symbol),
        _ => None,
    }
}

fn plain_number_of(symbol: &Symbol) -> Option<Frac>
    ensures { IfSome result (λ number. values.Scalar symbol.now ≡ of_number number) }
{
    match symbol {
        Symbol::Number(number) => Some(*number),
        Symbol::Word(_) => None,
    }
}

fn apply_to_number(
    alloc: Global,
    operator: Operator,
    left: &mut Value,
    first: Frac,
    right: Value,
) -> Result<(), EvalFault>
    requires number { left.old ≡ of_number first }
    ensures { Follows result left.new (spec.applied operator (of_number first) right) }
{
    match right {
        Value::Linear(form) => number_and_form(alloc, operator, left, first, form),
        right => match plain_number(&right) {
            Some(second) => numbers(alloc, operator, left, first, second),
            None => apply_anew(alloc, operator, left, right),
        },
    }
}

fn number_and_form(
    alloc: Global,
    operator: Operator,
    left: &mut Value,
    first: Frac,
    form: Form,
) -> Result<(), EvalFault>
    requires number { left.old ≡ of_number first }
    ensures { Follows result left.new (spec.applied operator (of_number first) (values.Linear form)) }
{
    match operator {
        Operator::Times => multiply_form(left, first, form),
        _ => apply_anew(alloc, operator, left, Value::Linear(form)),
    }
}

fn multiply_form(left: &mut Value, factor: Frac, form: Form) -> Result<(), EvalFault>
    ensures { Follows result left.new (as_value (product_of (amounts.Number factor) (amounts.Form form))) }
{
    let product = form.scaled(&Scaling::Of(factor))?;
    *left = Value::Linear(product);
    Ok(())
}

fn numbers(
    alloc: Global,
    operator: Operator,
    left: &mut Value,
    first: Frac,
    second: Frac,
) -> Result<(), EvalFault>
    requires number { left.old ≡ of_number first }
    ensures { Follows result left.new (spec.applied operator (of_number first) (of_number second)) }
{
    match operator {
        Operator::Plus => put_sum(left, first.add(second)),
        Operator::Minus => put_sum(left, first.sub(second)),
        Operator::Times => put_sum(left, first.mul(second)),
        Operator::Over => put(left, quotient(first, second)),
        Operator::Less => put(left, less(first, second)),
        Operator::Div => put(left, div(first, second)),
        Operator::Mod => put(left, modulo(first, second)),
        _ => apply_anew(alloc, operator, left, Value::number(second)),
    }
}

fn put_sum(left: &mut Value, number: Result<Frac, NoFit>) -> Result<(), EvalFault>
    ensures { Follows result left.new (as_value (number_amount (fitting number))) }
{
    match number {
        Ok(number) => {
            *left = Value::number(number);
            Ok(())
        }
        Err(fault) => Err(EvalFault::NoFit(fault)),
    }
}

fn put(left: &mut Value, number: Result<Frac, EvalFault>) -> Result<(), EvalFault>
    ensures amount { (answer : Outcome Rational) → Gives number answer → Follows result left.new (as_value (number_amount answer)) }
    ensures number { (answer : Outcome Rational) → Gives number answer → Follows result left.new (as_number answer) }
{
    match number {
        Ok(number) => {
            *left = Value::number(number);
            Ok(())
        }
        Err(fault) => Err(fault),
    }
}

// Behind what is no number as it stands: a form takes a sum in its place.
fn apply_to_other(
    alloc: Global,
    operator: Operator,
    left: &mut Value,
    right: Value,
) -> Result<(), EvalFault>
    ensures { Follows result left.new (spec.applied operator left.old right) }
{
    match operator {
        Operator::Plus => add(alloc, left, right),
        _ => apply_anew(alloc, operator, left, right),
    }
}

fn add(alloc: Global, left: &mut Value, right: Value) -> Result<(), EvalFault>
    ensures { Follows result left.new (spec.applied operators.Plus left.old right) }
{
    if let Value::Linear(form) = left {
        return add_to_form(alloc, form, right);
    }
    apply_anew(alloc, Operator::Plus, left, right)
}

fn add_to_form(alloc: Global, form: &mut Form, right: Value) -> Result<(), EvalFault>
    ensures { Follows result (values.Linear form.new) (spec.applied operators.Plus (values.Linear form.old) right) }
{
    match right {
        Value::Linear(other) => add_form(alloc, form, &other),
        right => add_amount(alloc, form, right),
    }
}

fn add_form(alloc: Global, form: &mut Form, other: &Form) -> Result<(), EvalFault>
    ensures { Follows result (values.Linear form.new) (as_value (sum_of signs.Plus (amounts.Form form.old) (amounts.Form other.now))) }
{
    form.combine(alloc, Sign::Plus, other)?;
    Ok(())
}

fn add_amount(alloc: Global, form: &mut Form, right: Value) -> Result<(), EvalFault>
    ensures { Follows result (values.Linear form.new) (spec.applied operators.Plus (values.Linear form.old) right) }
{
    match right.into_amount()? {
        Amount::Number(number) => shift(form, number),
        Amount::Form(other) => add_form(alloc, form, &other),
    }
}

fn shift(form: &mut Form, number: Frac) -> Result<(), EvalFault>
    ensures { Follows result (values.Linear form.new) (as_value (sum_of signs.Plus (amounts.Form form.old) (amounts.Number number))) }
{
    form.shift(Sign::Plus, number)?;
    Ok(())
}

fn apply_anew(
    alloc: Global,
    operator: Operator,
    left: &mut Value,
    right: Value,
) -> Result<(), EvalFault>
    ensures { Follows result left.new (spec.applied operator left.old right) }
{
    let value = replace(left, Value::Truth(false));
    *left = applied(alloc, operator, value, right)?;
    Ok(())
}

// ---- iterations

/// The value so far, where there is one, with one more value, in its place.
pub(crate) fn join(
    alloc: Global,
    iteration: Iteration,
    total: &mut Option<Value>,
    value: Value,
) -> Result<(), EvalFault>
    ensures { Follows result total.new (iterations.joined iteration total.old value) }
{
    match iteration {
        Iteration::Sum => add_to_total(alloc, total, value),
        _ => join_anew(alloc, iteration, total, value),
    }
}

/// The same, where the value is handed as it was evaluated.
pub(crate) fn join_part(
    alloc: Global,
    iteration: Iteration,
    total: &mut Option<Value>,
    value: Result<Value, EvalFault>,
) -> Result<(), EvalFault>
    ensures { (answer : Outcome AnyValue) → Gives value answer → Follows result total.new (then_do (iterations.joined iteration total.old) answer) }
{
    match value {
        Ok(value) => join(alloc, iteration, total, value),
        Err(fault) => Err(fault),
    }
}

fn add_to_total(alloc: Global, total: &mut Option<Value>, value: Value) -> Result<(), EvalFault>
    ensures { Follows result total.new (iterations.joined over.Sum total.old value) }
{
    if let Some(so_far) = total {
        apply(alloc, Operator::Plus, so_far, value)?;
        return Ok(());
    }
    join_anew(alloc, Iteration::Sum, total, value)
}

fn join_anew(
    alloc: Global,
    iteration: Iteration,
    total: &mut Option<Value>,
    value: Value,
) -> Result<(), EvalFault>
    ensures { Follows result total.new (iterations.joined iteration total.old value) }
{
    let so_far = total.take();
    *total = joined(alloc, iteration, so_far, value)?;
    Ok(())
}
