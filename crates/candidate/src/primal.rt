// The primal phase: steps from a feasible point until no price is wrong.
use crate::dual::{least_first, lowered_weight, raise_weight};
use crate::ending::{Endless, Step};
use fraction::Frac;
use sparse_factors::{Stop, at, difference, log, number_at, put, quotient};
use std::alloc::Global;
use tableau::{Solved, State};

// Where the variable that enters stops: at its own other bound, or where the variable of a slot reaches a bound.
#[derive(Clone, Copy)]
enum Stopping {
    Own,
    Slot(usize, bool),
}

// How long a step may be, and what stops it, with its number in the column.
#[derive(Clone, Copy)]
struct Reach {
    length: Frac,
    by: Stopping,
    number: Frac,
}

/// One step of the primal phase. The weights are those of variables.
pub(crate) fn primal_step(
    state: &mut State,
    alloc: Global,
    weights: &mut [i32],
) -> Result<Step, Stop> {
    let q = match entering_variable(state, weights) {
        Some(q) => q,
        None => return Ok(Step::Done),
    };
    let rises = state.price_of(q).is_negative();
    let column = state.solved_column(alloc, q)?;
    match first_reach(state, &column, q, rises)? {
        None => Ok(Step::Endless(Endless {
            variable: q,
            rises,
            column,
        })),
        Some(reach) => {
            state.count_step()?;
            state.count_stall(reach.length.is_zero());
            go(state, alloc, weights, &column, q, rises, reach)?;
            Ok(Step::Taken)
        }
    }
}

// The variable whose price is most wrong in fair units.
fn entering_variable(state: &State, weights: &[i32]) -> Option<usize> {
    let careful = state.is_careful();
    let mut best = None;
    let mut most = i64::MIN;
    for v in 0..state.values.len() {
        if state.should_move(v) {
            let score = if careful {
                least_first(v)
            } else {
                entering_score(state, v, weights)
            };
            if score > most {
                most = score;
                best = Some(v);
            }
        }
    }
    best
}

fn entering_score(state: &State, v: usize, weights: &[i32]) -> i64 {
    let size = log(state.scaled_price_of(v)).saturating_add(state.unit_of(v));
    i64::from(size.saturating_mul(2)) - i64::from(at(weights, v, 0))
}

// ---- how far

fn first_reach(
    state: &State,
    column: &Solved,
    q: usize,
    rises: bool,
) -> Result<Option<Reach>, Stop> {
    let mut first = own_reach(state, q)?;
    for entry in &column.entries {
        let reach = reach_of(state, entry.at, entry.number, rises)?;
        first = sooner(state, first, reach);
    }
    Ok(first)
}

fn sooner(state: &State, first: Option<Reach>, other: Option<Reach>) -> Option<Reach> {
    match other {
        None => first,
        Some(reach) => Some(sooner_reach(state, first, reach)),
    }
}

fn sooner_reach(state: &State, first: Option<Reach>, reach: Reach) -> Reach {
    match first {
        None => reach,
        Some(old) => sooner_one(state, old, reach),
    }
}

fn sooner_one(state: &State, old: Reach, reach: Reach) -> Reach {
    let comes_before = comes_before(state, &reach, &old);
    if comes_before { reach } else { old }
}

fn own_reach(state: &State, q: usize) -> Result<Option<Reach>, Stop> {
    let bounds = state.model.bounds_of(q);
    match (bounds.lower, bounds.upper) {
        (Some(lower), Some(upper)) => Ok(Some(Reach {
            length: difference(upper, lower)?,
            by: Stopping::Own,
            number: Frac::zero(),
        })),
        _ => Ok(None),
    }
}

// Where the variable of a slot reaches a bound: it falls where what enters rises and the number is above 0.
fn reach_of(state: &State, slot: usize, number: Frac, rises: bool) -> Result<Option<Reach>, Stop> {
    let v = state.variable_at(slot);
    let bounds = state.model.bounds_of(v);
    let goes_up = number.is_positive() != rises;
    let bound = if goes_up { bounds.upper } else { bounds.lower };
    match bound {
        None => Ok(None),
        Some(bound) => {
            let room = difference(bound, state.value_of(v))?;
            // never beyond its bound
            let is_beyond = room.is_negative() == goes_up;
            let room = if is_beyond { Frac::zero() } else { room };
            let length = quotient(room, number)?.abs();
            let by = Stopping::Slot(slot, goes_up);
            Ok(Some(Reach { length, by, number }))
        }
    }
}

// The shorter one comes first; of equal ones its own bound, then the largest entry.
fn comes_before(state: &State, reach: &Reach, old: &Reach) -> bool {
    if reach.length == old.length {
        ranks_before(state, reach, old)
    } else {
        reach.length < old.length
    }
}

fn ranks_before(state: &State, reach: &Reach, old: &Reach) -> bool {
    match (reach.by, old.by) {
        (Stopping::Slot(slot, _), Stopping::Slot(other, _)) => {
            if state.is_careful() {
                state.variable_at(slot) < state.variable_at(other)
            } else {
                slot_key(state, slot, reach.number) > slot_key(state, other, old.number)
            }
        }
        _ => false,
    }
}

fn slot_key(state: &State, slot: usize, number: Frac) -> i32 {
    let unit = state.unit_of(state.variable_at(slot));
    state.tie_key(number, 0i32.saturating_sub(unit))
}

// ---- the step itself

fn go(
    state: &mut State,
    alloc: Global,
    weights: &mut [i32],
    column: &Solved,
    q: usize,
    rises: bool,
    reach: Reach,
) -> Result<(), Stop> {
    let t = if rises {
        reach.length
    } else {
        reach.length.neg()
    };
    state.move_by(column, t, q)?;
    match reach.by {
        Stopping::Own => {
            state.flip(q);
            Ok(())
        }
        Stopping::Slot(slot, above) => replace(state, alloc, weights, column, q, slot, above),
    }
}

// q becomes basic, and the variable of the slot rests.
fn replace(
    state: &mut State,
    alloc: Global,
    weights: &mut [i32],
    column: &Solved,
    q: usize,
    slot: usize,
    above: bool,
) -> Result<(), Stop> {
    let out = state.variable_at(slot);
    let bounds = state.model.bounds_of(out);
    let bound = if above { bounds.upper } else { bounds.lower };
    put(&mut state.values, out, bound.unwrap_or(Frac::zero()));
    state.find_row(alloc, slot)?;
    update_price_weights(state, weights, q, slot);
    state.update_prices(q, out)?;
    state.exchange(alloc, slot, q, above, column)
}

fn update_price_weights(state: &State, weights: &mut [i32], q: usize, slot: usize) {
    let pivot = log(number_at(&state.entries, q)).saturating_add(state.unit_of(q));
    let weight = at(weights, q, 0);
    for v in &state.touched {
        let entry = number_at(&state.entries, *v);
        if *v != q && !entry.is_zero() {
            let size = log(entry).saturating_add(state.unit_of(*v));
            raise_weight(weights, *v, size.saturating_sub(pivot), weight);
        }
    }
    let out = state.variable_at(slot);
    let left = pivot
        .saturating_sub(log(state.scale))
        .saturating_sub(state.unit_of(out));
    put(weights, out, lowered_weight(weight, left));
}
