// Functions on the values of their arguments, signs and groups.
ghost use Rattle.std.specs.Prelude.{◌≡◌};
ghost use Rattle.gmpl_value.specs.Outcome.{Gives, then_do};
ghost use Rattle.gmpl_operations.specs.Functions as spec;
ghost use Rattle.gmpl_operations.specs.Values.{as_number, as_value, amount_in};
ghost use Rattle.gmpl_functions.specs.Amounts.{negative_of};

use crate::value::Value;
use fraction::Frac;
use gmpl_functions::{
    ceil, floor, greatest, least, round, round_to, substring, substring_from, trunc, trunc_to,
};
use gmpl_syntax::{Function, Sign};
use gmpl_value::{EvalFault, Symbol};
use std::alloc::Global;

fn of_one(function: Function, number: Frac) -> Result<Frac, EvalFault>
    ensures { Gives result (spec.of_one function number) }
{
    match function {
        Function::Abs => Ok(number.abs()),
        Function::Ceil => Ok(ceil(number)),
        Function::Floor => Ok(floor(number)),
        Function::Trunc => Ok(trunc(number)),
        Function::Round => round(number),
        _ => Err(EvalFault::NotANumber),
    }
}

fn of_two(function: Function, number: Frac, places: Frac) -> Result<Frac, EvalFault>
    ensures { Gives result (spec.of_two function number places) }
{
    match function {
        Function::Trunc => trunc_to(number, places),
        Function::Round => round_to(number, places),
        _ => Err(EvalFault::NotANumber),
    }
}

fn of_all(function: Function, numbers: &[Frac]) -> Result<Frac, EvalFault>
    ensures { Gives result (spec.of_all function numbers.now) }
{
    match numbers {
        [number] => of_one(function, *number),
        [number, places] => of_two(function, *number, *places),
        _ => Err(EvalFault::NotANumber),
    }
}

/// A function of numbers alone: `abs`, `ceil`, `floor`, `trunc`, `round`, `max` and `min`.
pub fn called_with_numbers(function: Function, numbers: &[Frac]) -> Result<Frac, EvalFault>
    ensures { Gives result (spec.of_numbers function numbers.now) }
{
    match function {
        Function::Max => greatest(numbers),
        Function::Min => least(numbers),
        _ => of_all(function, numbers),
    }
}

/// `substr` of a symbol's text: a place, and how many characters where that is said.
pub fn sliced(alloc: Global, symbol: &Symbol, numbers: &[Frac]) -> Result<Symbol, EvalFault>
    ensures { Gives result (spec.sliced symbol.now numbers.now) }
{
    match numbers {
        [place] => substring_from(alloc, symbol, *place),
        [place, count] => substring(alloc, symbol, *place, *count),
        _ => Err(EvalFault::NotANumber),
    }
}

/// A sign before a number or a form.
pub fn signed(sign: Sign, value: Value) -> Result<Value, EvalFault>
    ensures { Gives result (spec.signed sign value) }
{
    let amount = value.into_amount()?;
    match sign {
        Sign::Plus => Ok(Value::amount(amount)),
        Sign::Minus => Ok(Value::amount(amount.negated()?)),
    }
}
