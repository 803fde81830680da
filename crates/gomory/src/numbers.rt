// The numbers of a cut at one variable.
ghost use Rattle.std.specs.Prelude.{◌≡◌, if◌then◌else◌, true, Ok, IfOk};
ghost use Rattle.rational.specs.Rational.{one_ℚ, ◌*ℚ◌};
ghost use Rattle.rational.specs.Compare.{is_at_most};
ghost use Rattle.fraction.specs.Answers.{add_answer, sub_answer};
ghost use Rattle.instance.specs.Sums.{and_then};
ghost use Rattle.verdicts.specs.WeightedSums.{coefficient_of};
ghost use Rattle.basis.specs.System.{unit_form};
ghost use Rattle.gomory.specs.Cuts.{distance_sign};
ghost use Rattle.gomory.specs.Numbers.{scale_at, number_at_variable};
ghost use Rattle.gomory.specs.Faults.{remainder_answer, share_answer, both_answer, low_answer, high_answer, signed_answer, role_answer, number_answer};

use crate::scale::{Scale, part, signed};
use basis::Place;
use fraction::{Frac, NoFit};

/// What a cut needs to know of a variable in a row: where it rests, whether it counts as whole, and the coefficient of its
/// distance from its bound.
#[derive(Clone, Copy)]
pub(crate) struct RowVariable {
    pub place: Place,
    pub whole: bool,
    pub coefficient: Frac,
}

/// Which number of a variable is meant: its weight in the cut, on the low or the high side of the split, or its coefficient in
/// the split's form.
#[derive(Clone, Copy)]
pub(crate) enum Role {
    OfCut,
    OfLow,
    OfHigh,
    OfSplit,
}

// What is left of the coefficient of a whole column whose fractional part this is.
fn left_of_part(part_of_row: Frac, above: Frac) -> Result<Frac, NoFit>
    ensures { result ≡ (if is_at_most above part_of_row then Ok above else sub_answer above one_ℚ) }
{
    if above <= part_of_row {
        Ok(above)
    } else {
        above.sub(Frac::one())
    }
}

// What is left of the coefficient of a whole column.
fn whole_remainder(part_of_row: Frac, a: Frac) -> Result<Frac, NoFit>
    ensures { result ≡ remainder_answer part_of_row true a }
{
    let above = part(a)?;
    left_of_part(part_of_row, above)
}

// What is left of a coefficient.
fn remainder(part_of_row: Frac, whole: bool, a: Frac) -> Result<Frac, NoFit>
    ensures { result ≡ remainder_answer part_of_row whole a }
{
    if whole {
        whole_remainder(part_of_row, a)
    } else {
        Ok(a)
    }
}

// The coefficient of a distance in the cut.
fn share(scale: &Scale, left: Frac) -> Result<Frac, NoFit>
    ensures { result ≡ share_answer scale.now left }
{
    if left.is_negative() {
        left.neg().mul(scale.high)
    } else {
        left.mul(scale.low)
    }
}

fn both_shares(scale: &Scale, left: Frac) -> Result<Frac, NoFit>
    ensures { result ≡ both_answer scale.now left }
{
    let low = left.mul(scale.low)?;
    let high = left.mul(scale.high)?;
    low.add(high)
}

// The coefficient of a distance in the weights of the low side.
fn low_share(scale: &Scale, left: Frac) -> Result<Frac, NoFit>
    ensures { result ≡ low_answer scale.now left }
{
    if left.is_negative() {
        both_shares(scale, left.neg())
    } else {
        Ok(Frac::zero())
    }
}

// The coefficient of a distance in the weights of the high side.
fn high_share(scale: &Scale, left: Frac) -> Result<Frac, NoFit>
    ensures { result ≡ high_answer scale.now left }
{
    if left.is_negative() {
        Ok(Frac::zero())
    } else {
        both_shares(scale, left)
    }
}

fn with_sign(place: Place, share: Result<Frac, NoFit>) -> Result<Frac, NoFit>
    ensures { result ≡ signed_answer place share }
{
    let value = share?;
    Ok(signed(place, value))
}

// The coefficient of v in the form of r alone.
#[tactic(auto, using(crate::proofs::FractionalParts::add_zero))]
fn own(r: usize, v: usize) -> Frac
    ensures { result ≡ coefficient_of (unit_form r) v }
{
    if r == v { Frac::one() } else { Frac::zero() }
}

// The coefficient of v in the form of the split.
fn split_number(r: usize, v: usize, variable: RowVariable, left: Frac) -> Result<Frac, NoFit>
    ensures { result ≡ and_then (sub_answer variable.coefficient left) (λ near. add_answer (coefficient_of (unit_form r) v) (distance_sign variable.place *ℚ near)) }
{
    let near = variable.coefficient.sub(left)?;
    own(r, v).add(signed(variable.place, near))
}

// The number of this role, where that much is left of the variable's coefficient.
fn number_by(
    scale: &Scale,
    r: usize,
    v: usize,
    variable: RowVariable,
    left: Frac,
    role: Role,
) -> Result<Frac, NoFit>
    ensures { result ≡ role_answer scale.now r v variable left role }
{
    match role {
        Role::OfCut => with_sign(variable.place, share(scale, left)),
        Role::OfLow => with_sign(variable.place, low_share(scale, left)),
        Role::OfHigh => with_sign(variable.place, high_share(scale, left)),
        Role::OfSplit => split_number(r, v, variable, left),
    }
}

/// The number of this role for the variable v in the row of r.
#[tactic(auto, using(crate::proofs::NumberAnswers::number_ok))]
pub(crate) fn number(
    scale: &Scale,
    r: usize,
    v: usize,
    variable: RowVariable,
    role: Role,
) -> Result<Frac, NoFit>
    requires { scale.now ≡ scale_at scale.now.part }
    ensures exact { result ≡ number_answer scale.now r v variable role }
    ensures is_number { IfOk result (λ n. n ≡ number_at_variable scale.now.part r v variable role) }
{
    let left = remainder(scale.part, variable.whole, variable.coefficient)?;
    number_by(scale, r, v, variable, left, role)
}
