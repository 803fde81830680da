// Bounds that contradict each other.
ghost use Rattle.std.specs.Prelude.{None, negsuc, [], ◌∷◌, ◌≡◌, ◌<◌, IfSome, IfOk};
ghost use Rattle.rational.specs.Rational.{one_ℚ, whole};
ghost use Rattle.certificate.specs.Written.{count_max};
ghost use Rattle.basis.specs.System.{AreBoundsInOrder};
ghost use Rattle.basis.specs.Weights.{IsContradictory, items_at, items_of, weights_of, contradiction_weights};
ghost use Rattle.simplex.specs.Crossed.{is_above, are_crossed};

use certificate::{DerivedRows, Item, Items, Weights};
use dictionary::{Bounds, System};
use fraction::Frac;
use instance::Instance;
use std::alloc::{AllocError, Global};

/// The first variable whose lower bound is above its upper one.
pub(crate) fn contradiction(system: &System) -> Option<usize>
    ensures some { IfSome result (IsContradictory system.now) }
    ensures none { result ≡ None → AreBoundsInOrder system.now }
{
    for v in 0..system.variables() {
        if are_crossed(system.bounds(v)) {
            return Some(v);
        }
    }
    None
}

fn are_crossed(bounds: Bounds) -> bool
    ensures { result ≡ are_crossed bounds.lower bounds.upper }
{
    match bounds.lower {
        None => false,
        Some(lower) => is_above(lower, bounds.upper),
    }
}

fn is_above(lower: Frac, upper: Option<Frac>) -> bool
    ensures { result ≡ is_above lower upper }
{
    match upper {
        None => false,
        Some(upper) => upper < lower,
    }
}

/// The weights of the two bounds of a variable against each other.
pub(crate) fn contradiction_weights(
    alloc: Global,
    instance: &Instance,
    derived: &DerivedRows,
    v: usize,
) -> Result<Weights, AllocError>
    ensures { IfOk result (λ w. w ≡ weights_of instance.now derived.now (contradiction_weights v)) }
{
    instance.keeps_its_limits();
    let columns = instance.columns().len();
    let rows = instance.rows().len();
    let derived = derived.as_slice().len();
    let of_rows = two_items(alloc, columns, rows as u32, v)?;
    let of_columns = two_items(alloc, 0, columns as u32, v)?;
    let of_derived = two_items(alloc, columns + rows, derived as u32, v)?;
    Ok(Weights::new(of_rows, of_columns, of_derived))
}

// The two weights, where v is one of the `count` variables from `first` on.
fn two_items(alloc: Global, first: usize, count: u32, v: usize) -> Result<Items, AllocError>
    ensures { IfOk result (λ items. items ≡ items_of (contradiction_weights v) first 0 count) }
{
    if v < first {
        return Ok(Items::new(alloc));
    }
    let index = v - first;
    if index >= count as usize {
        return Ok(Items::new(alloc));
    }
    both_bounds(alloc, index as u32)
}

fn both_bounds(alloc: Global, index: u32) -> Result<Items, AllocError>
    requires { index < count_max }
    ensures { IfOk result (λ items. items ≡ items_at index (one_ℚ ∷ whole (negsuc 0) ∷ [])) }
{
    let mut items = Items::new(alloc);
    items.push(Item {
        index,
        weight: Frac::one(),
    })?;
    items.push(Item {
        index,
        weight: Frac::whole(-1),
    })?;
    Ok(items)
}
