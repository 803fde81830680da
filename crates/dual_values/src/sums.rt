// Sums of weights, place by place.
ghost use Rattle.std.specs.Prelude.{◌≡◌, IfOk, map};
ghost use Rattle.rational.specs.Rational.{zero_ℚ};
ghost use Rattle.dual_values.specs.Duals as spec;
ghost use Rattle.dual_values.specs.Places.{with_weight};
ghost use Rattle.gmpl_solution.specs.declared.dual.Dual.TheVariants as duals;

use certificate::Item;
use fraction::Frac;
use gmpl_solution::Dual;
use instance::signed;
use milp::Direction;
use std::alloc::{AllocError, Global};

fn plus(sum: Dual, weight: Frac) -> Dual
    ensures { result ≡ spec.plus sum weight }
{
    match sum {
        Dual::Number(number) => match number.add(weight) {
            Ok(more) => Dual::Number(more),
            Err(no_fit) => Dual::NoFit(no_fit),
        },
        Dual::NoFit(no_fit) => Dual::NoFit(no_fit),
        Dual::Missing => Dual::Missing,
    }
}

fn directed(direction: Direction, sum: Dual) -> Dual
    ensures { result ≡ spec.directed direction sum }
{
    match sum {
        Dual::Number(number) => Dual::Number(signed(direction, number)),
        Dual::NoFit(no_fit) => Dual::NoFit(no_fit),
        Dual::Missing => Dual::Missing,
    }
}

// One weight more, at its place.
#[tactic(auto, using(crate::proofs::Places::written, crate::proofs::Places::unwritten))]
fn add_weight(sums: &mut [Dual], item: Item)
    ensures { sums.new ≡ with_weight item.index item.weight sums.old }
{
    let place = item.index as usize;
    if place < sums.len() {
        sums[place] = plus(sums[place], item.weight);
    }
}

fn add_weights(sums: &mut [Dual], items: &[Item])
    ensures { sums.new ≡ spec.sums_from 0 items.now sums.old }
{
    for item in items {
        add_weight(sums, *item);
    }
}

// The same for each place.
fn alike<T>(alloc: Global, places: &[T], dual: &Dual) -> Result<Vec<Dual>, AllocError>
    ensures { IfOk result (λ made. made.items ≡ map (λ _. dual.now) places.now) }
{
    let mut made = Vec::with_capacity(alloc, places.len())?;
    for _ in places {
        made.push(*dual)?;
    }
    Ok(made)
}

fn directed_all(alloc: Global, direction: Direction, sums: &[Dual]) -> Result<Vec<Dual>, AllocError>
    ensures { IfOk result (λ made. made.items ≡ map (spec.directed direction) sums.now) }
{
    let mut made = Vec::with_capacity(alloc, sums.len())?;
    for sum in sums {
        made.push(directed(direction, *sum))?;
    }
    Ok(made)
}

/// For each place none.
pub(crate) fn missing_list<T>(alloc: Global, places: &[T]) -> Result<Vec<Dual>, AllocError>
    ensures { IfOk result (λ made. made.items ≡ spec.missing_list places.now) }
{
    alike(alloc, places, &Dual::Missing)
}

/// For each place the sum of its weights, in the sign of the direction.
pub(crate) fn dual_list<T>(
    alloc: Global,
    direction: Direction,
    items: &[Item],
    places: &[T],
) -> Result<Vec<Dual>, AllocError>
    ensures { IfOk result (λ made. made.items ≡ spec.dual_list direction items.now places.now) }
{
    let mut sums = alike(alloc, places, &Dual::Number(Frac::zero()))?;
    add_weights(&mut sums, items);
    directed_all(alloc, direction, &sums)
}
