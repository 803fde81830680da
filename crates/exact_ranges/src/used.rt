// A bound of a row, with what the weights make of it.
ghost use Rattle.std.specs.Prelude.{◌≡◌, [], ◌∷◌, Err, IfOk, IfErr};
ghost use Rattle.rational.specs.Rational.{zero_ℚ, ◌*ℚ◌};
ghost use Rattle.milp.specs.Form.{sum_at};
ghost use Rattle.milp.specs.Points.{sign_of};
ghost use Rattle.ranging.specs.BoundRanges.{uses};
ghost use Rattle.exact_ranges.specs.Faults.{using_answer};
ghost use Rattle.exact_ranges.specs.Sought.{side_of};
ghost use Rattle.exact_ranges.specs.ShownBest.{best_point, best_weights, IsShownBest};
ghost use Rattle.exact_ranges.specs.BoundParts.{used_at};

use crate::Side;
use crate::best::{best_point, row_weights};
use crate::reached::sum_of;
use certificate::{Certificate, Item};
use fraction::{Frac, NoFit};
use instance::{Instance, signed};

/// The bound of a row on a side, the weight that uses it, and what the weights show of the objective without its constant.
#[derive(Clone, Copy)]
pub(crate) struct Used {
    pub(crate) row: usize,
    pub(crate) side: Side,
    pub(crate) bound: Frac,
    pub(crate) weight: Frac,
    pub(crate) total: Frac,
}

/// The bound of a row, as the certificate's weights use it.
pub(crate) fn used_at(
    problem: &Instance,
    certificate: &Certificate,
    row: usize,
    side: Side,
    bound: Frac,
) -> Result<Used, NoFit>
    requires { IsShownBest problem.now (best_point certificate.now) (best_weights certificate.now) }
    ensures made { IfOk result (λ used. used ≡ used_at problem.now (best_point certificate.now) (best_weights certificate.now) row side bound) }
    ensures fault { IfErr result (λ e. using_answer row (side_of side) zero_ℚ (best_weights certificate.now).rows ≡ Err e) }
{
    let weight = weight_using(row_weights(certificate), row, side)?;
    let total = total_of(problem, certificate);
    Ok(Used {
        row,
        side,
        bound,
        weight,
        total,
    })
}

// What the point makes of the objective without its constant, negated where the greatest value is wanted.
fn total_of(problem: &Instance, certificate: &Certificate) -> Frac
    requires { IsShownBest problem.now (best_point certificate.now) (best_weights certificate.now) }
    ensures { result ≡ sign_of problem.now.direction *ℚ sum_at (best_point certificate.now) problem.now.objective }
{
    let x = best_point(certificate);
    let form = problem.objective().as_slice();
    signed(problem.direction(), sum_of(form, x))
}

fn uses(side: Side, weight: Frac) -> bool
    ensures { result ≡ uses (side_of side) weight }
{
    match side {
        Side::Lower => weight.is_positive(),
        Side::Upper => weight.is_negative(),
    }
}

// The sum of a row's weights that use its bound on this side.
fn weight_using(items: &[Item], row: usize, side: Side) -> Result<Frac, NoFit>
    ensures { result ≡ using_answer row (side_of side) zero_ℚ items.now }
{
    let mut total = Frac::zero();
    for item in items {
        total = with_weight(total, *item, row, side)?;
    }
    Ok(total)
}

// The total and a weight, where that uses the bound.
fn with_weight(total: Frac, item: Item, row: usize, side: Side) -> Result<Frac, NoFit>
    ensures { result ≡ using_answer row (side_of side) total (item ∷ []) }
{
    if item.index as usize == row && uses(side, item.weight) {
        total.add(item.weight)
    } else {
        Ok(total)
    }
}
