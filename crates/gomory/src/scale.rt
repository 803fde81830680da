// The fractional part of a row's number, and signs.
ghost use Rattle.std.specs.Prelude.{◌≡◌, ◌≢◌, pos, IfOk};
ghost use Rattle.rational.specs.Rational.{one_ℚ, ◌-ℚ◌, ◌*ℚ◌, ◌/ℚ◌};
ghost use Rattle.milp.specs.Points.{IsWhole};
ghost use Rattle.fraction.specs.Answers.{sub_answer, div_answer};
ghost use Rattle.gomory.specs.Cuts.{distance_sign, fractional_part};
ghost use Rattle.gomory.specs.Numbers.{scale_at};
ghost use Rattle.gomory.specs.Faults.{part_answer, scale_answer};

use basis::Place;
use certificate::WholeNumber;
use fraction::{Frac, NoFit};

/// What is above the floor.
#[tactic(auto, using(crate::proofs::NumberAnswers::part_ok))]
pub(crate) fn part(value: Frac) -> Result<Frac, NoFit>
    ensures exact { result ≡ part_answer value }
    ensures is_part { IfOk result (λ f. f ≡ fractional_part value) }
{
    value.sub(WholeNumber::floor(value).to_frac())
}

/// The number with the sign that a variable at this place has in its distance.
#[tactic(auto, using(crate::proofs::FractionalParts::one_mul, crate::proofs::FractionalParts::zero_mul, crate::proofs::FractionalParts::minus_mul))]
pub(crate) fn signed(place: Place, value: Frac) -> Frac
    ensures { result ≡ distance_sign place *ℚ value }
{
    match place {
        Place::AtLower => value,
        Place::AtUpper => value.neg(),
        Place::Basic => Frac::zero(),
        Place::AtZero => Frac::zero(),
    }
}

/// The fractional part of a row's number, 1 over it, and 1 over what it lacks to 1.
#[derive(Clone, Copy)]
pub(crate) struct Scale {
    pub part: Frac,
    pub low: Frac,
    pub high: Frac,
}

// What a fractional part lacks to 1.
#[tactic(auto, using(crate::proofs::NumberAnswers::lack_ok))]
fn lack(part: Frac) -> Result<Frac, NoFit>
    ensures exact { result ≡ sub_answer one_ℚ part }
    ensures value { IfOk result (λ rest. rest ≡ one_ℚ -ℚ part) }
{
    Frac::one().sub(part)
}

// 1 over a number.
#[tactic(auto, using(crate::proofs::NumberAnswers::inverse_ok))]
fn inverse(value: Frac) -> Result<Frac, NoFit>
    requires { value.numerator ≢ pos 0 }
    ensures exact { result ≡ div_answer one_ℚ value }
    ensures value { IfOk result (λ i. i ≡ one_ℚ /ℚ value) }
{
    Frac::one().div(value)
}

/// The scale of a row whose number is not whole.
pub(crate) fn scale_of(value: Frac) -> Result<Scale, NoFit>
    requires not_whole { ¬ (IsWhole value) }
    ensures exact { result ≡ scale_answer value }
    ensures is_scale { IfOk result (λ s. s ≡ scale_at (fractional_part value)) }
{
    let part = part(value)?;
    let rest = lack(part)?;
    let low = inverse(part)?;
    let high = inverse(rest)?;
    Ok(Scale { part, low, high })
}
