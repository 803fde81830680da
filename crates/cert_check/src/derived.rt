// The test of derived rows.
ghost use Rattle.std.specs.Prelude.{◌≡◌, ◌&&◌, IsTrue, [], length, slice_get, neg_ℤ};
ghost use Rattle.rational.specs.Rational.{zero_ℚ};
ghost use Rattle.rational.specs.Compare.{is_at_most, is_whole};
ghost use Rattle.verdicts.specs.WeightedSums.{coefficient_of};
ghost use Rattle.verdicts.specs.Proves.{in_range, is_integer, is_whole_form, usable};
ghost use Rattle.certificate.specs.Values.{proof_of, version_of};
ghost use Rattle.cert_check.specs.Parts.{ascending, side_bound, side_answer, shown_answer, split_answer, proof_answer, derived_answer};
ghost use Rattle.cert_check.specs.Outcome.{outcome, outcome_of, derived_trials};

use crate::bounds::next;
use crate::by_column::ByColumn;
use crate::forms::{is_form, is_side_form, weights_of};
use crate::named::Named;
use crate::part::{CheckFault, Checked, Part};
use crate::setting::Setting;
use crate::sums::{all_there, bound_sum, with_product};
use crate::way::Way;
use certificate::{Derived, FormSplit, Proof, Side, Version, Weights};
use fraction::{Frac, NoFit};
use instance::{Entry, Instance};

// The columns of a form are the problem's.
fn in_range(problem: &Instance, form: &[Entry]) -> bool
    ensures { result ≡ in_range (length problem.now.columns) form.now }
{
    let count = problem.columns().len();
    for entry in form {
        if entry.column as usize >= count {
            return false;
        }
    }
    true
}

// There is a column at the index, and it is integer.
fn is_integer(problem: &Instance, column: u32) -> bool
    ensures { result ≡ is_integer (slice_get problem.now.columns column) }
{
    match problem.columns().get(column as usize) {
        None => false,
        Some(column) => column.integer(),
    }
}

fn is_whole_entry(problem: &Instance, entry: Entry) -> bool
    ensures { result ≡ (is_whole entry.coefficient && is_integer (slice_get problem.now.columns entry.column)) }
{
    entry.coefficient.is_whole() && is_integer(problem, entry.column)
}

// The form is whole at each feasible point: whole coefficients on integer columns alone.
pub(crate) fn is_whole_form(problem: &Instance, form: &[Entry]) -> bool
    ensures { result ≡ is_whole_form problem.now form.now }
{
    for entry in form {
        if !is_whole_entry(problem, *entry) {
            return false;
        }
    }
    true
}

// What the inequality of a split's side adds to R.
#[tactic(auto, using(crate::proofs::Signs::whole_negative))]
fn side_bound(split: &FormSplit, side: Side) -> Result<Frac, NoFit>
    ensures { result ≡ side_bound split.now side }
{
    match side {
        Side::Low => with_product(Frac::zero(), split.low(), split.at().to_frac().neg()),
        Side::High => {
            if split.high().is_zero() {
                return Ok(Frac::zero());
            }
            let bound = next(split.at())?;
            with_product(Frac::zero(), split.high(), bound)
        }
    }
}

// One side of a split shows that the form is at least the bound.
fn side_passes(
    setting: &Setting,
    split: &FormSplit,
    side: Side,
    form: &[Entry],
    bound: Frac,
) -> Result<bool, NoFit>
    requires { IsTrue (ascending 0 form.now) }
    ensures { result ≡ side_answer setting.now split.now side form.now bound }
{
    let weights = Named::without_splits(weights_of(split, side));
    if !all_there(setting, &weights)? {
        return Ok(false);
    }
    if !is_side_form(setting, split, side, form)? {
        return Ok(false);
    }
    let start = side_bound(split, side)?;
    let sum = bound_sum(setting, start, &weights)?;
    Ok(bound <= sum)
}

// Both sides of a split show that the form is at least the bound.
fn split_passes(
    setting: &Setting,
    split: &FormSplit,
    form: &[Entry],
    bound: Frac,
) -> Result<bool, NoFit>
    requires { IsTrue (ascending 0 form.now) }
    ensures { result ≡ split_answer setting.now split.now form.now bound }
{
    if !is_split(setting.problem(), split) {
        return Ok(false);
    }
    if !side_passes(setting, split, Side::Low, form, bound)? {
        return Ok(false);
    }
    side_passes(setting, split, Side::High, form, bound)
}

// The split's form is whole, and the weights of its inequalities are not negative.
fn is_split(problem: &Instance, split: &FormSplit) -> bool
    ensures { result ≡ (is_whole_form problem.now split.now.form && (is_at_most zero_ℚ split.now.low && is_at_most zero_ℚ split.now.high)) }
{
    let zero = Frac::zero();
    is_whole_form(problem, split.form().as_slice()) && (zero <= split.low() && zero <= split.high())
}

// Weights show that the form is at least the bound.
fn plain_passes(
    setting: &Setting,
    weights: &Weights,
    form: &[Entry],
    bound: Frac,
) -> Result<bool, NoFit>
    requires { IsTrue (ascending 0 form.now) }
    ensures { result ≡ shown_answer setting.now weights.now (coefficient_of form.now) (is_at_most bound) }
{
    let weights = Named::without_splits(weights);
    if !all_there(setting, &weights)? {
        return Ok(false);
    }
    if !is_form(setting, &weights, form, None)? {
        return Ok(false);
    }
    let sum = bound_sum(setting, Frac::zero(), &weights)?;
    Ok(bound <= sum)
}

fn proof_passes(
    setting: &Setting,
    form: &[Entry],
    bound: Frac,
    proof: &Proof,
) -> Result<bool, NoFit>
    requires { IsTrue (ascending 0 form.now) }
    ensures { result ≡ proof_answer setting.now form.now bound (proof_of proof.now) }
{
    match proof {
        Proof::Plain(weights) => plain_passes(setting, weights, form, bound),
        Proof::BySplit(split) => split_passes(setting, split, form, bound),
    }
}

// A derived row follows from the problem and the rows before it that its version lets it use.
pub(crate) fn derived_passes(
    problem: &ByColumn,
    version: Version,
    before: &[Derived],
    root: &Way,
    row: &Derived,
) -> Result<bool, NoFit>
    requires { root.now.place ≡ 0 }
    ensures { result ≡ derived_answer problem.now (version_of version) before.now row.now }
{
    let form = row.form().as_slice();
    if !in_range(problem.problem(), form) {
        return Ok(false);
    }
    let setting = Setting::of_node(version, problem, usable(version, before), root);
    proof_passes(&setting, form, row.bound(), row.proof())
}

// The derived rows that the proof of the next one may use.
fn usable(version: Version, before: &[Derived]) -> &[Derived]
    ensures { result.now ≡ usable (version_of version) before.now }
{
    match version {
        Version::One => &[],
        Version::Two => before,
    }
}

/// The first derived row that does not follow, if there is one.
pub fn check_derived(
    problem: &ByColumn,
    version: Version,
    root: &Way,
    rows: &[Derived],
) -> Result<Checked, CheckFault>
    requires root { root.now.place ≡ 0 }
    ensures exact { outcome_of result ≡ outcome (derived_trials problem.now (version_of version) 1 [] rows.now) }
{
    for (k, row) in rows.iter().enumerate() {
        let part = Part::DerivedRow(k + 1);
        match derived_passes(problem, version, &rows[..k], root, row) {
            Err(fault) => return Err(CheckFault { part, fault }),
            Ok(false) => return Ok(Checked::Refused(part)),
            Ok(true) => {}
        }
    }
    Ok(Checked::Accepted)
}
