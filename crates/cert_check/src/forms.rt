// Whether weights make a form.
ghost use Rattle.std.specs.Prelude.{ℕ, ◌<◌, List, length, ◌≡◌, ◌++◌, IsTrue, Ok};
ghost use Rattle.rational.specs.Rational.{zero_ℚ};
ghost use Rattle.verdicts.specs.WeightedSums.{coefficient_of};
ghost use Rattle.cert_check.specs.Sums.{Product, with_products, weight_products, are_forms};
ghost use Rattle.cert_check.specs.Totals.{AreTotals};
ghost use Rattle.cert_check.specs.Parts.{side_weights, side_products, ascending, signed_by};

use crate::lookup::entry_of;
use crate::named::Named;
use crate::setting::Setting;
use crate::sums::{column_sum, with_coefficient, with_negative_coefficient};
use crate::totals::totals_of;
use certificate::{FormSplit, Side, Weights};
use fraction::{Frac, NoFit};
use instance::{Entry, Instance, signed};
use milp::Direction;

// The coefficient of a column in a form.
#[tactic(auto, using(crate::proofs::Ascending::coefficient_found, crate::proofs::Ascending::coefficient_none))]
fn coefficient(form: &[Entry], column: u32) -> Frac
    requires { IsTrue (ascending 0 form.now) }
    ensures { result ≡ coefficient_of form.now column }
{
    match entry_of(form, column) {
        None => Frac::zero(),
        Some(coefficient) => coefficient,
    }
}

// The same, with the sign of a direction where there is one.
fn wanted_at(form: &[Entry], sign: Option<Direction>, column: u32) -> Frac
    requires { IsTrue (ascending 0 form.now) }
    ensures { result ≡ signed_by sign (coefficient_of form.now column) }
{
    let value = coefficient(form, column);
    match sign {
        None => value,
        Some(direction) => signed(direction, value),
    }
}

// F is the form, with the sign of a direction where there is one: by the totals of all columns, where they are there.
pub(crate) fn is_form(
    setting: &Setting,
    weights: &Named,
    wanted: &[Entry],
    sign: Option<Direction>,
) -> Result<bool, NoFit>
    requires { IsTrue (ascending 0 wanted.now) }
    ensures { result ≡ are_forms (weight_products setting.now weights.now) (λ j. signed_by sign (coefficient_of wanted.now j)) 0 setting.now.problem.columns }
{
    match totals_of(setting, weights) {
        Some(totals) => Ok(are_wanted(setting.problem(), &totals, wanted, sign)),
        None => is_form_by_column(setting, weights, wanted, sign),
    }
}

// Totals of columns are the form, with the sign of a direction where there is one.
fn are_wanted(
    problem: &Instance,
    totals: &[Frac],
    wanted: &[Entry],
    sign: Option<Direction>,
) -> bool
    requires order { IsTrue (ascending 0 wanted.now) }
    requires count { length totals.now ≡ length problem.now.columns }
    ensures { (f : ℕ → List Product) → AreTotals (length problem.now.columns) f totals.now → Ok result ≡ are_forms f (λ j. signed_by sign (coefficient_of wanted.now j)) 0 problem.now.columns }
{
    problem.keeps_its_limits();
    let columns = problem.columns();
    for (j, _) in columns.iter().enumerate() {
        if totals[j] != wanted_at(wanted, sign, j as u32) {
            return false;
        }
    }
    true
}

// The same, column by column, up to the first that differs.
fn is_form_by_column(
    setting: &Setting,
    weights: &Named,
    wanted: &[Entry],
    sign: Option<Direction>,
) -> Result<bool, NoFit>
    requires { IsTrue (ascending 0 wanted.now) }
    ensures { result ≡ are_forms (weight_products setting.now weights.now) (λ j. signed_by sign (coefficient_of wanted.now j)) 0 setting.now.problem.columns }
{
    let problem = setting.problem();
    problem.keeps_its_limits();
    let columns = problem.columns();
    for (j, _) in columns.iter().enumerate() {
        let sum = column_sum(setting, weights, j as u32, Frac::zero())?;
        if sum != wanted_at(wanted, sign, j as u32) {
            return Ok(false);
        }
    }
    Ok(true)
}

// What the inequality of a split's side adds to F at a column.
fn side_sum(split: &FormSplit, side: Side, column: u32) -> Result<Frac, NoFit>
    ensures { result ≡ with_products zero_ℚ (side_products split.now side column) }
{
    let _at = split.at();
    let form = split.form().as_slice();
    match side {
        Side::Low => with_negative_coefficient(Frac::zero(), split.low(), form, column),
        Side::High => with_coefficient(Frac::zero(), split.high(), form, column),
    }
}

// F of a split's side at a column.
#[tactic(auto, using(crate::proofs::Products::products_then))]
fn side_column_sum(
    setting: &Setting,
    split: &FormSplit,
    side: Side,
    column: u32,
) -> Result<Frac, NoFit>
    requires { column < length setting.now.problem.columns }
    ensures { result ≡ with_products zero_ℚ (side_products split.now side column ++ weight_products setting.now (side_weights split.now side) column) }
{
    let start = side_sum(split, side, column)?;
    let weights = Named::without_splits(weights_of(split, side));
    column_sum(setting, &weights, column, start)
}

// The other weights of a split's side.
pub(crate) fn weights_of(split: &FormSplit, side: Side) -> &Weights
    ensures { result.now ≡ side_weights split.now side }
{
    match side {
        Side::Low => split.low_weights(),
        Side::High => split.high_weights(),
    }
}

// F of a split's side is the form: column by column, up to the first that differs.
pub(crate) fn is_side_form(
    setting: &Setting,
    split: &FormSplit,
    side: Side,
    wanted: &[Entry],
) -> Result<bool, NoFit>
    requires { IsTrue (ascending 0 wanted.now) }
    ensures { result ≡ are_forms (λ j. side_products split.now side j ++ weight_products setting.now (side_weights split.now side) j) (coefficient_of wanted.now) 0 setting.now.problem.columns }
{
    let problem = setting.problem();
    problem.keeps_its_limits();
    let columns = problem.columns();
    for (j, _) in columns.iter().enumerate() {
        let sum = side_column_sum(setting, split, side, j as u32)?;
        if sum != coefficient(wanted, j as u32) {
            return Ok(false);
        }
    }
    Ok(true)
}
