// The values of forms, summed from the first entry on.
ghost use Rattle.std.specs.Prelude.{length, ◌≡◌, IfOk, IfErr};
ghost use Rattle.rational.specs.Rational.{Rational, ◌+ℚ◌, ◌*ℚ◌};
ghost use Rattle.milp.specs.Form.{value_at, number_at};
ghost use Rattle.verdicts.specs.WeightedSums.{AllBelow};
ghost use Rattle.dictionary.specs.Sums.{IsTermFault, IsSumFault};

use fraction::{Frac, NoFit};
use instance::Entry;

/// The value of a form at a point, or the first product or sum on the way that does not fit.
pub(crate) fn form_value(form: &[Entry], x: &[Frac]) -> Result<Frac, NoFit>
    requires { AllBelow (length x.now) form.now }
    ensures ok { IfOk result (λ v. v ≡ value_at (number_at x.now) form.now) }
    ensures err { IfErr result (IsSumFault form.now (number_at x.now)) }
{
    let mut total = Frac::zero();
    for entry in form {
        total = plus_product(total, entry.coefficient, x[entry.column as usize])?;
    }
    Ok(total)
}

// total + a * b
fn plus_product(total: Frac, a: Frac, b: Frac) -> Result<Frac, NoFit>
    ensures ok { IfOk result (λ v. v ≡ total +ℚ a *ℚ b) }
    ensures err { IfErr result (IsTermFault total a b) }
{
    total.add(a.mul(b)?)
}
