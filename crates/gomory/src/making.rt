// Makes the cut of a row.
ghost use Rattle.std.specs.Prelude.{◌≡◌, ◌<◌, ◌+◌, [], length, Err, IsTrue, IsFalse, IfOk, IfErr, IfSome, IfNone};
ghost use Rattle.milp.specs.Form.{number_at};
ghost use Rattle.milp.specs.Points.{IsWhole};
ghost use Rattle.instance.specs.ByColumn.{AreByColumn};
ghost use Rattle.instance.specs.WellFormed.{are_entries};
ghost use Rattle.certificate.specs.Written.{count_max};
ghost use Rattle.basis.specs.Weights.{weights_of, nonzero};
ghost use Rattle.gomory.specs.Cuts.{fractional_part, split_coefficient, form_from, HasCut, IsGomorySplit, IsGomoryCut};
ghost use Rattle.gomory.specs.Numbers.{scale_at, number_of};
ghost use Rattle.gomory.specs.Faults.{IfNoFit, IsCutFault, scale_answer};
ghost use Rattle.gomory.specs.HasCut.{rests_within, all_rest_within, has_cut};

use crate::Unfit;
use crate::forms::{form, weights};
use crate::numbers::Role;
use crate::row::numbers;
use crate::scale::{Scale, scale_of};
use crate::sums::{bound, floor_of, sum_form};
use basis::Place;
use certificate::{Derived, FormSplit, Proof, Weights};
use fraction::Frac;
use instance::{Entries, EntriesByColumn, Instance};
use std::alloc::Global;

// The form of the split.
fn split_form(
    alloc: Global,
    instance: &Instance,
    places: &[Place],
    rates: &[Frac],
    at: &[Frac],
    r: usize,
    scale: &Scale,
) -> Result<Entries, Unfit>
    requires places { length places.now ≡ length instance.now.columns + length instance.now.rows }
    requires rates { length rates.now ≡ length places.now }
    requires numbers { length at.now ≡ length places.now }
    requires scale { scale.now ≡ scale_at (fractional_part (number_at at.now r)) }
    ensures form { IfOk result (λ f. f ≡ form_from 0 (length instance.now.columns) (split_coefficient instance.now places.now (number_at rates.now) (number_at at.now) r)) }
    ensures written { IfOk result (λ f. IsTrue (are_entries count_max f)) }
    ensures fault { IfErr result (IfNoFit (IsCutFault instance.now places.now rates.now at.now r)) }
{
    instance.keeps_its_limits();
    let count = instance.columns().len() as u32;
    let list = numbers(alloc, instance, places, rates, at, r, scale, Role::OfSplit)?;
    let made = form(alloc, &list, count)?;
    Ok(made)
}

// The weights of one side.
fn side_weights(
    alloc: Global,
    instance: &Instance,
    places: &[Place],
    rates: &[Frac],
    at: &[Frac],
    r: usize,
    scale: &Scale,
    role: Role,
) -> Result<Weights, Unfit>
    requires places { length places.now ≡ length instance.now.columns + length instance.now.rows }
    requires rates { length rates.now ≡ length places.now }
    requires numbers { length at.now ≡ length places.now }
    requires scale { scale.now ≡ scale_at (fractional_part (number_at at.now r)) }
    ensures weights { IfOk result (λ w. w ≡ weights_of instance.now [] (λ v. nonzero (number_of instance.now places.now (number_at rates.now) (number_at at.now) r role v))) }
    ensures fault { IfErr result (IfNoFit (IsCutFault instance.now places.now rates.now at.now r)) }
{
    let list = numbers(alloc, instance, places, rates, at, r, scale, role)?;
    let made = weights(alloc, instance, &list)?;
    Ok(made)
}

// The split that shows the cut.
fn split_of(
    alloc: Global,
    instance: &Instance,
    places: &[Place],
    rates: &[Frac],
    at: &[Frac],
    r: usize,
    scale: &Scale,
) -> Result<FormSplit, Unfit>
    requires places { length places.now ≡ length instance.now.columns + length instance.now.rows }
    requires rates { length rates.now ≡ length places.now }
    requires numbers { length at.now ≡ length places.now }
    requires scale { scale.now ≡ scale_at (fractional_part (number_at at.now r)) }
    ensures split { IfOk result (IsGomorySplit instance.now places.now (number_at rates.now) (number_at at.now) r) }
    ensures fault { IfErr result (IfNoFit (IsCutFault instance.now places.now rates.now at.now r)) }
{
    let form = split_form(alloc, instance, places, rates, at, r, scale)?;
    let below = floor_of(form.as_slice(), at)?;
    let low_weights = side_weights(alloc, instance, places, rates, at, r, scale, Role::OfLow)?;
    let high_weights = side_weights(alloc, instance, places, rates, at, r, scale, Role::OfHigh)?;
    Ok(FormSplit::new(
        below,
        form,
        scale.low,
        low_weights,
        scale.high,
        high_weights,
    ))
}

// No variable that rests without a bound changes the row's number.
fn rests_within(place: Place, rate: Frac) -> bool
    ensures { result ≡ rests_within place rate }
{
    match place {
        Place::AtZero => rate.is_zero(),
        Place::Basic => true,
        Place::AtLower => true,
        Place::AtUpper => true,
    }
}

// The same for each variable.
fn all_rest_within(places: &[Place], rates: &[Frac]) -> bool
    requires { length rates.now ≡ length places.now }
    ensures { result ≡ all_rest_within places.now rates.now }
{
    for v in 0..places.len() {
        if !rests_within(places[v], rates[v]) {
            return false;
        }
    }
    true
}

// The column is basic and to be whole, is not whole, and its row has no resting variable without a bound.
fn is_cuttable(instance: &Instance, places: &[Place], rates: &[Frac], at: &[Frac], r: usize) -> bool
    requires places { r < length places.now }
    requires rates { length rates.now ≡ length places.now }
    requires numbers { r < length at.now }
    requires column { r < length instance.now.columns }
    ensures { result ≡ has_cut instance.now places.now rates.now at.now r }
{
    instance.columns()[r].integer()
        && matches!(places[r], Place::Basic)
        && !at[r].is_whole()
        && all_rest_within(places, rates)
}

// The same, as the definition has it.
#[tactic(auto, using(crate::proofs::MadeCuts::has_yes, crate::proofs::MadeCuts::has_no))]
fn has_cut(instance: &Instance, places: &[Place], rates: &[Frac], at: &[Frac], r: usize) -> bool
    requires places { r < length places.now }
    requires rates { length rates.now ≡ length places.now }
    requires numbers { r < length at.now }
    requires column { r < length instance.now.columns }
    ensures yes { IsTrue result → HasCut instance.now places.now (number_at rates.now) (number_at at.now) r }
    ensures no { IsFalse result → ¬ (HasCut instance.now places.now (number_at rates.now) (number_at at.now) r) }
{
    is_cuttable(instance, places, rates, at, r)
}

// The scale of the row.
fn row_scale(at: &[Frac], r: usize) -> Result<Scale, Unfit>
    requires known { r < length at.now }
    requires not_whole { ¬ (IsWhole (number_at at.now r)) }
    ensures value { IfOk result (λ s. s ≡ scale_at (fractional_part (number_at at.now r))) }
    ensures fault { IfErr result (IfNoFit (λ o. scale_answer (number_at at.now r) ≡ Err o)) }
{
    match scale_of(at[r]) {
        Ok(scale) => Ok(scale),
        Err(fault) => Err(Unfit::NoFit(fault)),
    }
}

// The cut of a row that has one.
fn made(
    alloc: Global,
    instance: &Instance,
    by_column: &EntriesByColumn,
    places: &[Place],
    rates: &[Frac],
    at: &[Frac],
    r: usize,
) -> Result<Derived, Unfit>
    requires by_column { AreByColumn by_column.now instance.now.columns instance.now.rows }
    requires places { length places.now ≡ length instance.now.columns + length instance.now.rows }
    requires rates { length rates.now ≡ length places.now }
    requires numbers { length at.now ≡ length places.now }
    requires column { r < length instance.now.columns }
    requires not_whole { ¬ (IsWhole (number_at at.now r)) }
    ensures cut { IfOk result (IsGomoryCut instance.now places.now (number_at rates.now) (number_at at.now) r) }
    ensures fault { IfErr result (IfNoFit (IsCutFault instance.now places.now rates.now at.now r)) }
{
    instance.keeps_its_limits();
    let scale = row_scale(at, r)?;
    let weights = numbers(alloc, instance, places, rates, at, r, &scale, Role::OfCut)?;
    let bound = bound(alloc, &weights, at)?;
    let form = sum_form(alloc, instance, by_column, &weights)?;
    let split = split_of(alloc, instance, places, rates, at, r, &scale)?;
    Ok(Derived::new(bound, form, Proof::BySplit(split)))
}

/// The cut of the row of a basic column at a basis of the problem: where each variable rests (columns, then rows), how
/// much the column's number rises with each resting variable (0 for basic ones), and the number of each variable. The
/// entries of the problem are lent by column.
///
/// `None` exactly where the column is not to be whole or not basic, its number is whole, or its row has a resting variable
/// without a bound. `NoFit` is the first operation that does not fit in a number of the cut.
pub fn cut(
    alloc: Global,
    instance: &Instance,
    by_column: &EntriesByColumn,
    places: &[Place],
    rates: &[Frac],
    at: &[Frac],
    column: u32,
) -> Result<Option<Derived>, Unfit>
    requires by_column { AreByColumn by_column.now instance.now.columns instance.now.rows }
    requires places { length places.now ≡ length instance.now.columns + length instance.now.rows }
    requires rates { length rates.now ≡ length places.now }
    requires numbers { length at.now ≡ length places.now }
    requires column { column < length instance.now.columns }
    ensures cut { IfOk result (λ o. IfSome o (IsGomoryCut instance.now places.now (number_at rates.now) (number_at at.now) column)) }
    ensures has { IfOk result (λ o. IfSome o (λ c. HasCut instance.now places.now (number_at rates.now) (number_at at.now) column)) }
    ensures none { IfOk result (λ o. IfNone o (¬ (HasCut instance.now places.now (number_at rates.now) (number_at at.now) column))) }
    ensures fault { IfErr result (IfNoFit (IsCutFault instance.now places.now rates.now at.now column)) }
{
    let r = column as usize;
    if !has_cut(instance, places, rates, at, r) {
        return Ok(None);
    }
    let cut = made(alloc, instance, by_column, places, rates, at, r)?;
    Ok(Some(cut))
}
