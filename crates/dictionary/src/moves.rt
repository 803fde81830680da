// How a step moves the variables.
ghost use Rattle.std.specs.Prelude.{ℕ, length, ◌≡◌, ◌<◌, OnOk, IfOk, IfErr};
ghost use Rattle.rational.specs.Rational.{Rational, ◌+ℚ◌, ◌*ℚ◌};
ghost use Rattle.milp.specs.Form.{number_at};
ghost use Rattle.basis.specs.Dictionary.{IsResting};
ghost use Rattle.dictionary.specs.Values.{direction_of, AreMoved, IsVariableFault, IsMoveFault};

use crate::dictionary::Dictionary;
use crate::row::mul_add;
use fraction::{Frac, NoFit};

/// Moves the resting variable q by `by`, and the basic variables with it.
pub fn move_variables(
    values: &mut [Frac],
    dictionary: &Dictionary,
    q: usize,
    by: Frac,
) -> Result<(), NoFit>
    requires places { length dictionary.now.places ≡ length values.old }
    requires resting { IsResting dictionary.now.places q }
    ensures ok { OnOk result (AreMoved dictionary.now q by values.old values.new) }
    ensures err { IfErr result (IsMoveFault dictionary.now q by values.old) }
{
    for v in 0..values.len() {
        values[v] = moved(dictionary, q, by, v, values[v])?;
    }
    Ok(())
}

// The number of the variable v, which is at x, after q has moved.
fn moved(dictionary: &Dictionary, q: usize, by: Frac, v: usize, x: Frac) -> Result<Frac, NoFit>
    requires known { v < length dictionary.now.places }
    requires resting { IsResting dictionary.now.places q }
    ensures ok { IfOk result (λ y. y ≡ x +ℚ by *ℚ direction_of dictionary.now q v) }
    ensures err { IfErr result (IsVariableFault dictionary.now q by v x) }
{
    if v == q {
        return x.add(by);
    }
    if !dictionary.is_basic(v) {
        return Ok(x);
    }
    let rate = dictionary.rate(q, v);
    // most rates are 0, and there x stays
    if rate.is_zero() {
        return Ok(x);
    }
    mul_add(rate, by, x)
}
