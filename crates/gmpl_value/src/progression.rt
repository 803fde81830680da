// Ranges of numbers.
ghost use Rattle.std.specs.Prelude.{◌≡◌, ◌≢◌, pos, map};
ghost use Rattle.fraction.specs.Answers.{add_answer};
ghost use Rattle.gmpl_value.specs.Follows.{Gives, GivesAs, fitting};
ghost use Rattle.gmpl_value.specs.Sets.{set_of};
ghost use Rattle.gmpl_value.specs.Range.{range_of, progression_of, steps, number_tuple};

use crate::fault::SetFault;
use crate::set_value::SetValue;
use crate::symbol::Symbol;
use crate::tuple::Tuple;
use fraction::Frac;
use std::alloc::Global;

const MOST_ELEMENTS: i128 = 5_000_000;

/// The numbers `from`, `from + by` and so on up to `to`, down to it where `by` is negative. `NoFit` where the
/// distance, its quotient by the step or a number doesn't fit, and `TooMany` where there would be more than 5,000,000.
pub fn range(alloc: Global, from: Frac, to: Frac, by: Frac) -> Result<SetValue, SetFault>
    requires { by.numerator ≢ pos 0 }
    ensures { Gives result (range_of from to by) }
{
    let numbers = progression(alloc, from, to, by)?;
    set_of_numbers(alloc, &numbers)
}

fn progression(alloc: Global, from: Frac, to: Frac, by: Frac) -> Result<Vec<Frac>, SetFault>
    requires { by.numerator ≢ pos 0 }
    ensures { GivesAs (λ v. v.items) result (progression_of from to by) }
{
    let distance = to.sub(from)?;
    let quotient = distance.div(by)?;
    let last = quotient.floor();
    if last < 0 {
        return Ok(Vec::new(alloc));
    }
    if last >= MOST_ELEMENTS {
        return Err(SetFault::TooMany);
    }
    stepped(alloc, last as u64, from, by)
}

fn stepped(alloc: Global, count: u64, from: Frac, by: Frac) -> Result<Vec<Frac>, SetFault>
    ensures { GivesAs (λ v. v.items) result (steps count from by) }
{
    let mut found = Vec::new(alloc);
    let mut number = from;
    for _step in 0..count {
        found.push(number)?;
        number = next(number, by)?;
    }
    found.push(number)?;
    Ok(found)
}

fn next(number: Frac, by: Frac) -> Result<Frac, SetFault>
    ensures { Gives result (fitting (add_answer number by)) }
{
    match number.add(by) {
        Ok(next) => Ok(next),
        Err(no_fit) => Err(SetFault::NoFit(no_fit)),
    }
}

fn set_of_numbers(alloc: Global, numbers: &[Frac]) -> Result<SetValue, SetFault>
    ensures { Gives result (set_of (map number_tuple numbers.now)) }
{
    let mut found = SetValue::new(alloc);
    for number in numbers {
        found.add(Tuple::single(alloc, Symbol::Number(*number))?)?;
    }
    Ok(found)
}
