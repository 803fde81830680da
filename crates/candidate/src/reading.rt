// The parts of a certificate, read off where a search ends.
ghost use Rattle.std.specs.Prelude.{◌≤◌, ◌<◌, ◌+◌, ◌*◌, OnOk};
ghost use Rattle.certificate.specs.Written.{count_max, next_rank};

use crate::branching::advised;
use crate::ending::{Blocked, Endless};
use crate::gains::Gains;
use crate::proposal::{Candidate, ProposedOptimum, ProposedRay};
use certificate::{Item, Items, Weights};
use fraction::Frac;
use instance::{Column, Point};
use search_node::Basis;
use sparse_factors::{Entry, Stop, add, number_at, put, zeros};
use std::alloc::{AllocError, Global};
use tableau::{Model, State, places_of, prices_at};

/// The weights for the true costs.
pub(crate) fn bound(alloc: Global, state: &State) -> Result<Candidate, Stop> {
    Ok(Candidate::Bounded(cost_weights(alloc, state)?))
}

fn cost_weights(alloc: Global, state: &State) -> Result<Weights, Stop> {
    let prices = state.true_prices(alloc)?;
    weights(alloc, &state.model, &prices)
}

/// The point, the weights for the true costs, the basis, and what tells the number of the column that may be split.
pub(crate) fn optimum(
    alloc: Global,
    columns: &[Column],
    first_columns: usize,
    state: &mut State,
    gains: &Gains,
    cutoff: &Option<Frac>,
) -> Result<Candidate, Stop> {
    let weights = cost_weights(alloc, state)?;
    let point = point(alloc, state)?;
    let places = places_of(alloc, &state.model, &state.places, &state.at_upper)?;
    let basis = Basis::from_vec(places);
    let column = advised(alloc, columns, first_columns, state, gains, cutoff)?;
    Ok(Candidate::Optimal(ProposedOptimum {
        point,
        weights,
        basis,
        column,
        told: telling(alloc, state, column)?,
    }))
}

// Weights of what rests that make this column alone, if they fit.
fn telling(alloc: Global, state: &State, column: Option<usize>) -> Result<Option<Weights>, Stop> {
    match column {
        None => Ok(None),
        Some(column) => match row_of(alloc, state, column) {
            Ok(weights) => Ok(Some(weights)),
            Err(Stop::NoMemory) => Err(Stop::NoMemory),
            Err(_) => Ok(None),
        },
    }
}

// A basic column's row of the table, as weights: the column is the sum of what they name.
fn row_of(alloc: Global, state: &State, column: usize) -> Result<Weights, Stop> {
    let mut unit = zeros(alloc, state.model.size())?;
    put(&mut unit, column, Frac::one());
    let y = state.row_weights(alloc, &unit)?;
    let none = zeros(alloc, state.model.size())?;
    let prices = state.resting_prices(alloc, &y, &none)?;
    weights(alloc, &state.model, &prices)
}

/// The weights of a row that can't be mended.
pub(crate) fn contradiction(
    alloc: Global,
    state: &State,
    blocked: &Blocked,
) -> Result<Candidate, Stop> {
    let row = &blocked.row.entries;
    let y = row_weights(alloc, row, state.model.matrix.rows, blocked.above)?;
    let none = zeros(alloc, state.model.size())?;
    let prices = prices_at(alloc, &state.model, &y, &none)?;
    Ok(Candidate::Infeasible(weights(alloc, &state.model, &prices)?))
}

/// The point, and the ray along which a variable moves without end.
pub(crate) fn endless_ray(
    alloc: Global,
    state: &State,
    endless: &Endless,
) -> Result<Candidate, Stop> {
    let mut ray = zeros(alloc, state.model.matrix.columns)?;
    let one = Frac::one();
    put(
        &mut ray,
        endless.variable,
        if endless.rises { one } else { one.neg() },
    );
    follow(&mut ray, state, endless);
    Ok(Candidate::Unbounded(ProposedRay {
        point: point(alloc, state)?,
        ray: Point::from_vec(ray),
    }))
}

// The basic columns move along.
fn follow(ray: &mut [Frac], state: &State, endless: &Endless) {
    for entry in &endless.column.entries {
        let number = entry.number;
        let way = if endless.rises { number.neg() } else { number };
        put(ray, state.variable_at(entry.at), way);
    }
}

fn point(alloc: Global, state: &State) -> Result<Point, Stop> {
    let mut numbers = Vec::with_capacity(alloc, state.model.matrix.columns)?;
    for v in 0..state.model.matrix.columns {
        add(&mut numbers, state.value_of(v))?;
    }
    Ok(Point::from_vec(numbers))
}

// The numbers of a row as weights of all rows, or all of them with the sign turned.
fn row_weights(alloc: Global, row: &[Entry], rows: usize, keep: bool) -> Result<Vec<Frac>, Stop> {
    let mut weights = zeros(alloc, rows)?;
    for entry in row {
        let number = entry.number;
        put(
            &mut weights,
            entry.at,
            if keep { number } else { number.neg() },
        );
    }
    Ok(weights)
}

// The weights that the prices of all variables are: of a row minus the price, since its variable is minus its value.
fn weights(alloc: Global, model: &Model, prices: &[Frac]) -> Result<Weights, Stop> {
    let row_count = count_of(model.matrix.rows)?;
    let column_count = count_of(model.matrix.columns)?;
    let rows = items(alloc, prices, model.matrix.columns, row_count, true)?;
    let columns = items(alloc, prices, 0, column_count, false)?;
    Ok(Weights::new(rows, columns, Items::new(alloc)))
}

fn count_of(n: usize) -> Result<u32, Stop> {
    match u32::try_from(n) {
        Ok(count) => Ok(count),
        Err(_) => Err(Stop::NoFit),
    }
}

// The prices of `count` variables from `first` on, with the sign turned where `turn` says so.
fn items(
    alloc: Global,
    prices: &[Frac],
    first: usize,
    count: u32,
    turn: bool,
) -> Result<Items, Stop> {
    let mut items = Items::new(alloc);
    for index in 0..count {
        let price = number_at(prices, first.saturating_add(index as usize));
        add_item(&mut items, index, if turn { price.neg() } else { price })?;
    }
    Ok(items)
}

// One more weight, where it is not 0.
fn add_item(items: &mut Items, index: u32, weight: Frac) -> Result<(), AllocError>
    requires index { index < count_max }
    requires order { next_rank 0 items.old ≤ 2 * index }
    ensures { OnOk result (next_rank 0 items.new ≤ 2 * index + 2) }
{
    if weight.parts().0 == 0 {
        return Ok(());
    }
    items.push(Item { index, weight })
}
