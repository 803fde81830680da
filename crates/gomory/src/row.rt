// The row of a basic variable, variable by variable.
ghost use Rattle.std.specs.Prelude.{◌≡◌, ◌<◌, ◌+◌, ◌++◌, ◌∷◌, [], length, IfOk, IfErr, OnOk};
ghost use Rattle.milp.specs.Form.{number_at};
ghost use Rattle.basis.specs.Weights.{numbers_from};
ghost use Rattle.gomory.specs.Cuts.{fractional_part, is_whole_column};
ghost use Rattle.gomory.specs.Numbers.{scale_at, variable_at, number_of};
ghost use Rattle.gomory.specs.Faults.{IfNoFit, IsCutFault};

use crate::Unfit;
use crate::numbers::{Role, RowVariable, number};
use crate::scale::{Scale, signed};
use basis::Place;
use fraction::Frac;
use instance::Instance;
use std::alloc::{AllocError, Global};

// A column that is to be whole, and whose number is whole.
fn is_whole_column(instance: &Instance, at: &[Frac], v: usize) -> bool
    requires { v < length at.now }
    ensures { result ≡ is_whole_column instance.now (number_at at.now) v }
{
    match instance.columns().get(v) {
        None => false,
        Some(column) => column.integer() && at[v].is_whole(),
    }
}

// What a cut needs to know of the variable v.
fn variable(
    instance: &Instance,
    places: &[Place],
    rates: &[Frac],
    at: &[Frac],
    v: usize,
) -> RowVariable
    requires places { v < length places.now }
    requires rates { v < length rates.now }
    requires numbers { v < length at.now }
    ensures { result ≡ variable_at instance.now places.now (number_at rates.now) (number_at at.now) v }
{
    RowVariable {
        place: places[v],
        whole: is_whole_column(instance, at, v),
        coefficient: signed(places[v], rates[v]).neg(),
    }
}

// The number of this role for the variable v in the row of r.
#[tactic(auto, using(crate::proofs::CutFaults::number_fault, crate::proofs::CutFaults::number_is))]
fn number_in_row(
    instance: &Instance,
    places: &[Place],
    rates: &[Frac],
    at: &[Frac],
    r: usize,
    scale: &Scale,
    role: Role,
    v: usize,
) -> Result<Frac, Unfit>
    requires places { v < length places.now }
    requires rates { v < length rates.now }
    requires numbers { v < length at.now }
    requires scale { scale.now ≡ scale_at (fractional_part (number_at at.now r)) }
    ensures value { IfOk result (λ n. n ≡ number_of instance.now places.now (number_at rates.now) (number_at at.now) r role v) }
    ensures fault { IfErr result (IfNoFit (IsCutFault instance.now places.now rates.now at.now r)) }
{
    let variable = variable(instance, places, rates, at, v);
    match number(scale, r, v, variable, role) {
        Ok(number) => Ok(number),
        Err(fault) => Err(Unfit::NoFit(fault)),
    }
}

/// One more number.
pub(crate) fn add(list: &mut Vec<Frac>, number: Frac) -> Result<(), AllocError>
    ensures { OnOk result (list.new.items ≡ list.old.items ++ number ∷ []) }
{
    list.push(number)?;
    Ok(())
}

/// The numbers of this role in the row of r, variable by variable.
pub(crate) fn numbers(
    alloc: Global,
    instance: &Instance,
    places: &[Place],
    rates: &[Frac],
    at: &[Frac],
    r: usize,
    scale: &Scale,
    role: Role,
) -> Result<Vec<Frac>, Unfit>
    requires rates { length rates.now ≡ length places.now }
    requires numbers { length at.now ≡ length places.now }
    requires scale { scale.now ≡ scale_at (fractional_part (number_at at.now r)) }
    ensures size { IfOk result (λ list. length list.items ≡ length places.now) }
    ensures numbers { IfOk result (λ list. list.items ≡ numbers_from 0 (length places.now) (number_of instance.now places.now (number_at rates.now) (number_at at.now) r role)) }
    ensures fault { IfErr result (IfNoFit (IsCutFault instance.now places.now rates.now at.now r)) }
{
    let mut list = Vec::new(alloc);
    for v in 0..places.len() {
        let one = number_in_row(instance, places, rates, at, r, scale, role, v)?;
        add(&mut list, one)?;
    }
    Ok(list)
}
