// The basis where a search starts.
use crate::model::Model;
use basis::Place;
use search_node::Basis;
use sparse_factors::{Stop, add, at, filled};
use std::alloc::Global;

/// The basic variables, and whether each of the others rests at its upper bound.
#[derive(Drop)]
pub struct Start {
    pub basic: Vec<usize>,
    pub at_upper: Vec<bool>,
}

/// The basis that is given, where it has a place for each variable, else that of the rows.
pub fn start_of(alloc: Global, model: &Model, basis: Option<&Basis>) -> Result<Start, Stop> {
    match basis {
        Some(basis) if basis.as_slice().len() == model.size() => {
            given(alloc, model, basis.as_slice())
        }
        _ => rows(alloc, model),
    }
}

fn rows(alloc: Global, model: &Model) -> Result<Start, Stop> {
    let mut basic = Vec::with_capacity(alloc, model.matrix.rows)?;
    for row in 0..model.matrix.rows {
        add(&mut basic, model.matrix.variable_of(row))?;
    }
    let at_upper = filled(alloc, model.size(), false)?;
    Ok(Start { basic, at_upper })
}

fn given(alloc: Global, model: &Model, places: &[Place]) -> Result<Start, Stop> {
    let mut basic = Vec::with_capacity(alloc, model.matrix.rows)?;
    let mut at_upper = Vec::with_capacity(alloc, places.len())?;
    for v in 0..places.len() {
        let place = places[v];
        if place == Place::Basic {
            add(&mut basic, v)?;
        }
        add(&mut at_upper, place == upper_place(model, v))?;
    }
    Ok(Start { basic, at_upper })
}

/// Where a variable is said to rest if it is at its upper bound: that of a row is minus the row's value.
pub fn upper_place(model: &Model, v: usize) -> Place {
    if v < model.matrix.columns {
        Place::AtUpper
    } else {
        Place::AtLower
    }
}

/// Where a variable is said to rest if it is at its lower bound.
pub fn lower_place(model: &Model, v: usize) -> Place {
    if v < model.matrix.columns {
        Place::AtLower
    } else {
        Place::AtUpper
    }
}

/// The places of all variables.
pub fn places_of(
    alloc: Global,
    model: &Model,
    slots: &[Option<usize>],
    at_upper: &[bool],
) -> Result<Vec<Place>, Stop> {
    let mut places = Vec::with_capacity(alloc, model.size())?;
    for v in 0..model.size() {
        let is_basic = at(slots, v, None).is_some();
        add(
            &mut places,
            place_of(model, v, is_basic, at(at_upper, v, false)),
        )?;
    }
    Ok(places)
}

fn place_of(model: &Model, v: usize, is_basic: bool, above: bool) -> Place {
    let bounds = model.bounds_of(v);
    if is_basic {
        Place::Basic
    } else if bounds.lower.is_none() && bounds.upper.is_none() {
        Place::AtZero
    } else if above {
        upper_place(model, v)
    } else {
        lower_place(model, v)
    }
}
