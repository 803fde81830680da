// The places of variables at the root, with fixed variables at their lower bounds.
ghost use Rattle.std.specs.Prelude.{◌≡◌, ◌<◌, ◌+◌, length, IfOk, OnOk};
ghost use Rattle.basis.specs.Dictionary.{place_of};
ghost use Rattle.root_cuts.specs.RootBasis.{is_fixed, settled, settled_place, AreSettled};

use basis::Place;
use fraction::Frac;
use instance::Instance;
use std::alloc::{AllocError, Global};

// No number but one lies inside these bounds.
fn is_fixed(lower: Option<Frac>, upper: Option<Frac>) -> bool
    ensures { result ≡ is_fixed lower upper }
{
    match lower {
        None => false,
        Some(low) => match upper {
            None => false,
            Some(high) => high <= low,
        },
    }
}

// A fixed variable that rests at its upper bound rests at the lower one.
fn settled(lower: Option<Frac>, upper: Option<Frac>, place: Place) -> Place
    ensures { result ≡ settled lower upper place }
{
    match place {
        Place::AtUpper => {
            if is_fixed(lower, upper) {
                Place::AtLower
            } else {
                Place::AtUpper
            }
        }
        place => place,
    }
}

// Where one variable rests.
fn settled_place(problem: &Instance, places: &[Place], v: usize) -> Place
    requires size { length places.now ≡ length problem.now.columns + length problem.now.rows }
    requires known { v < length places.now }
    ensures { result ≡ settled_place problem.now places.now v }
{
    let columns = problem.columns();
    if v < columns.len() {
        let column = &columns[v];
        settled(column.lower(), column.upper(), places[v])
    } else {
        let row = &problem.rows()[v - columns.len()];
        settled(row.lower(), row.upper(), places[v])
    }
}

/// Where each variable rests.
pub(crate) fn settled_places(
    alloc: Global,
    problem: &Instance,
    places: &[Place],
) -> Result<Vec<Place>, AllocError>
    requires size { length places.now ≡ length problem.now.columns + length problem.now.rows }
    ensures { IfOk result (λ made. AreSettled problem.now places.now made.items) }
{
    let mut made = Vec::new(alloc);
    for v in 0..places.len() {
        made.push(settled_place(problem, places, v))?;
    }
    Ok(made)
}
