// The dictionary at the start of a run.
ghost use Rattle.std.specs.Prelude.{ℕ, length, slice_get, ◌+◌, ◌≡◌, ◌<◌, IfOk, OnOk, IfSome};
ghost use Rattle.verdicts.specs.WeightedSums.{AllBelow};
ghost use Rattle.basis.specs.Bland.{IsStart, first_place};
ghost use Rattle.dictionary.specs.Ascending.{IsAscending};
ghost use Rattle.dictionary.specs.Start.{IsDense, AreDense, AreCounted, AreBasicPast, ArePositions};

use crate::row::Row;
use crate::system::{Bounds, System};
use basis::Place;
use instance::Entries;
use std::alloc::{AllocError, Global};

/// Each column rests at its lower bound, else its upper one, else 0, and the variable of each form is basic.
pub(crate) fn places_of(alloc: Global, system: &System) -> Result<Vec<Place>, AllocError>
    ensures { IfOk result (λ places. IsStart system.now places.items) }
{
    let columns = system.columns();
    let mut places = Vec::new(alloc);
    for v in 0..columns {
        places.push(first_place(system.bounds(v)))?;
    }
    add_basic(&mut places, system.forms().len())?;
    Ok(places)
}

fn first_place(bounds: Bounds) -> Place
    ensures { result ≡ first_place bounds.lower bounds.upper }
{
    if bounds.lower.is_some() {
        Place::AtLower
    } else if bounds.upper.is_some() {
        Place::AtUpper
    } else {
        Place::AtZero
    }
}

fn add_basic(places: &mut Vec<Place>, count: usize) -> Result<(), AllocError>
    ensures { OnOk result (AreBasicPast places.old.items count places.new.items) }
{
    for _k in 0..count {
        places.push(Place::Basic)?;
    }
    Ok(())
}

/// The column of each column, and the row of the variable of each form.
pub(crate) fn positions_of(
    alloc: Global,
    columns: usize,
    forms: usize,
) -> Result<Vec<usize>, AllocError>
    ensures { IfOk result (λ positions. ArePositions columns forms positions.items) }
{
    let mut positions = Vec::new(alloc);
    count_on(&mut positions, columns)?;
    count_on(&mut positions, forms)?;
    Ok(positions)
}

/// A row for each form.
pub(crate) fn rows_of(
    alloc: Global,
    columns: usize,
    forms: &[Entries],
) -> Result<Vec<Row>, AllocError>
    requires below { (k : ℕ) → IfSome (slice_get forms.now k) (AllBelow columns) }
    requires ascending { (k : ℕ) → IfSome (slice_get forms.now k) (IsAscending 0) }
    ensures { IfOk result (λ rows. AreDense columns forms.now rows.items) }
{
    let mut rows = Vec::new(alloc);
    for form in forms {
        rows.push(row_of(alloc, columns, form)?)?;
    }
    Ok(rows)
}

/// The coefficients of a form before each column.
pub(crate) fn row_of(alloc: Global, columns: usize, form: &Entries) -> Result<Row, AllocError>
    requires below { AllBelow columns form.now }
    requires ascending { IsAscending 0 form.now }
    ensures { IfOk result (λ row. IsDense columns form.now row) }
{
    let entries = form.as_slice().to_vec(alloc)?;
    Ok(Row::from_vec(columns, entries))
}

// 0, 1, .., `count` numbers more.
fn count_on(positions: &mut Vec<usize>, count: usize) -> Result<(), AllocError>
    ensures { OnOk result (AreCounted positions.old.items count positions.new.items) }
{
    for k in 0..count {
        positions.push(k)?;
    }
    Ok(())
}
