// Sums of all variables times their weights, and the values of forms.
ghost use Rattle.std.specs.Prelude.{◌≡◌, ◌<◌, ◌≤◌, ◌+◌, length, IsTrue, IfOk, IfErr, Err};
ghost use Rattle.rational.specs.Rational.{zero_ℚ, one_ℚ, floor_ℚ, ◌+ℚ◌};
ghost use Rattle.milp.specs.Form.{number_at, sum_at};
ghost use Rattle.fraction.specs.Answers.{mul_add_answer};
ghost use Rattle.instance.specs.Sums.{sum_answer};
ghost use Rattle.instance.specs.ByColumn.{AreByColumn};
ghost use Rattle.instance.specs.WellFormed.{are_entries};
ghost use Rattle.certificate.specs.Written.{count_max};
ghost use Rattle.basis.specs.Weights.{numbers_from};
ghost use Rattle.gomory.specs.Cuts.{form_from, sum_coefficient};
ghost use Rattle.gomory.specs.Faults.{IfNoFit, column_answer, bound_answer, IsCoefficientFault};

use crate::Unfit;
use crate::forms::{form, number};
use crate::row::add;
use certificate::WholeNumber;
use fraction::{Frac, NoFit};
use instance::{ColumnEntry, Entries, EntriesByColumn, Entry, Instance, sum};
use std::alloc::Global;

// A total plus an entry times the weight of its row.
fn with_entry(
    total: Frac,
    weights: &[Frac],
    columns: usize,
    entry: ColumnEntry,
) -> Result<Frac, NoFit>
    requires { columns ≤ 1000000 }
    ensures { result ≡ mul_add_answer entry.coefficient (number_at weights.now (columns + entry.row)) total }
{
    let weight = number(weights, columns + entry.row as usize);
    entry.coefficient.mul_add(weight, total)
}

// A total plus the entries of a column times the weights of their rows.
fn column_sum(
    total: Frac,
    weights: &[Frac],
    columns: usize,
    entries: &[ColumnEntry],
) -> Result<Frac, NoFit>
    requires { columns ≤ 1000000 }
    ensures { result ≡ column_answer weights.now columns total entries.now }
{
    let mut so_far = total;
    for entry in entries {
        so_far = with_entry(so_far, weights, columns, *entry)?;
    }
    Ok(so_far)
}

// The coefficient of a column in the sum of all variables times their weights.
#[tactic(auto, using(crate::proofs::ColumnSums::coefficient_is, crate::proofs::ColumnSums::coefficient_fault))]
fn coefficient(
    instance: &Instance,
    by_column: &EntriesByColumn,
    weights: &[Frac],
    column: u32,
) -> Result<Frac, Unfit>
    requires by_column { AreByColumn by_column.now instance.now.columns instance.now.rows }
    requires column { column < length instance.now.columns }
    ensures value { IfOk result (λ c. c ≡ sum_coefficient instance.now (number_at weights.now) column) }
    ensures fault { IfErr result (IfNoFit (IsCoefficientFault instance.now weights.now)) }
{
    instance.keeps_its_limits();
    let columns = instance.columns().len();
    let own = number(weights, column as usize);
    match column_sum(own, weights, columns, by_column.get(column)) {
        Ok(total) => Ok(total),
        Err(fault) => Err(Unfit::NoFit(fault)),
    }
}

// The coefficients of all columns in that sum.
fn coefficients(
    alloc: Global,
    instance: &Instance,
    by_column: &EntriesByColumn,
    weights: &[Frac],
) -> Result<Vec<Frac>, Unfit>
    requires { AreByColumn by_column.now instance.now.columns instance.now.rows }
    ensures size { IfOk result (λ list. length list.items ≡ length instance.now.columns) }
    ensures numbers { IfOk result (λ list. list.items ≡ numbers_from 0 (length instance.now.columns) (sum_coefficient instance.now (number_at weights.now))) }
    ensures fault { IfErr result (IfNoFit (IsCoefficientFault instance.now weights.now)) }
{
    instance.keeps_its_limits();
    let count = instance.columns().len() as u32;
    let mut list = Vec::new(alloc);
    for column in 0..count {
        let one = coefficient(instance, by_column, weights, column)?;
        add(&mut list, one)?;
    }
    Ok(list)
}

/// The sum of all variables times their weights, as a form over columns.
pub(crate) fn sum_form(
    alloc: Global,
    instance: &Instance,
    by_column: &EntriesByColumn,
    weights: &[Frac],
) -> Result<Entries, Unfit>
    requires { AreByColumn by_column.now instance.now.columns instance.now.rows }
    ensures form { IfOk result (λ f. f ≡ form_from 0 (length instance.now.columns) (sum_coefficient instance.now (number_at weights.now))) }
    ensures written { IfOk result (λ f. IsTrue (are_entries count_max f)) }
    ensures fault { IfErr result (IfNoFit (IsCoefficientFault instance.now weights.now)) }
{
    instance.keeps_its_limits();
    let count = instance.columns().len() as u32;
    let list = coefficients(alloc, instance, by_column, weights)?;
    let made = form(alloc, &list, count)?;
    Ok(made)
}

// The value of a form, and 1.
fn sum_and_one(form: &[Entry], at: &[Frac]) -> Result<Frac, NoFit>
    ensures { result ≡ bound_answer at.now form.now }
{
    let total = sum(form, at)?;
    total.add(Frac::one())
}

// The same, with its fault as one of a cut.
#[tactic(auto, using(crate::proofs::ColumnSums::bound_is))]
fn bound_of(form: &[Entry], at: &[Frac]) -> Result<Frac, Unfit>
    ensures value { IfOk result (λ b. b ≡ sum_at at.now form.now +ℚ one_ℚ) }
    ensures fault { IfErr result (IfNoFit (λ o. bound_answer at.now form.now ≡ Err o)) }
{
    match sum_and_one(form, at) {
        Ok(bound) => Ok(bound),
        Err(fault) => Err(Unfit::NoFit(fault)),
    }
}

/// 1 more than the sum of all variables times their weights is at the basic point.
pub(crate) fn bound(alloc: Global, weights: &[Frac], at: &[Frac]) -> Result<Frac, Unfit>
    requires { length weights.now ≤ 2000000 }
    ensures value { IfOk result (λ b. b ≡ sum_at at.now (form_from 0 (length weights.now) (number_at weights.now)) +ℚ one_ℚ) }
    ensures fault { IfErr result (IfNoFit (λ o. bound_answer at.now (form_from 0 (length weights.now) (number_at weights.now)) ≡ Err o)) }
{
    let over_variables = form(alloc, weights, weights.len() as u32)?;
    bound_of(over_variables.as_slice(), at)
}

/// The floor of a form's value.
#[tactic(auto, using(crate::proofs::ColumnSums::floor_is))]
pub(crate) fn floor_of(form: &[Entry], at: &[Frac]) -> Result<WholeNumber, Unfit>
    ensures value { IfOk result (λ n. n ≡ floor_ℚ (sum_at at.now form.now)) }
    ensures fault { IfErr result (IfNoFit (λ o. sum_answer at.now zero_ℚ form.now ≡ Err o)) }
{
    match sum(form, at) {
        Ok(value) => Ok(WholeNumber::floor(value)),
        Err(fault) => Err(Unfit::NoFit(fault)),
    }
}
