// Whole numbers near a number.
ghost use Rattle.std.specs.Prelude.{◌≡◌, ◌≢◌, IsTrue};
ghost use Rattle.rational.specs.Rational.{floor_ℚ};
ghost use Rattle.fraction.specs.Fits.{fits};
ghost use Rattle.gmpl_value.specs.Outcome.{Gives};
ghost use Rattle.gmpl_functions.specs.Numbers.{floor_of, ceil_of, trunc_of, round_of, half};

use fraction::Frac;
use gmpl_value::EvalFault;

/// The greatest whole number that is at most this one.
pub fn floor(number: Frac) -> Frac
    ensures { result ≡ floor_of number }
{
    Frac::whole(floor_number(number))
}

fn floor_number(number: Frac) -> i128
    ensures value { result ≡ floor_ℚ number }
    ensures fits { result ≢ i128.MIN }
{
    parts_fit(number);
    number.floor()
}

// Both parts of a fraction are within plus or minus 2^127 - 1.
fn parts_fit(number: Frac)
    ensures { IsTrue (fits number) }
{
    let (_numerator, _denominator) = number.parts();
    let (_negative, _) = number.neg().parts();
}

/// The least whole number that is at least this one.
pub fn ceil(number: Frac) -> Frac
    ensures { result ≡ ceil_of number }
{
    floor(number.neg()).neg()
}

/// The nearest whole number on the way to 0.
pub fn trunc(number: Frac) -> Frac
    ensures { result ≡ trunc_of number }
{
    if number.is_negative() {
        ceil(number)
    } else {
        floor(number)
    }
}

/// The greatest whole number that is at most this one and a half: halves are rounded up.
pub fn round(number: Frac) -> Result<Frac, EvalFault>
    ensures { Gives result (round_of number) }
{
    let raised = number.add(half())?;
    Ok(floor(raised))
}

fn half() -> Frac
    ensures { result ≡ half }
{
    match Frac::one().div(Frac::whole(2)) {
        Ok(half) => half,
        Err(_) => Frac::zero(),
    }
}
