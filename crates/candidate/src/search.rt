// The search from a basis to an end.
use crate::dual::dual_step;
use crate::ending::{End, Step};
use crate::gains::{Departure, departure_of};
use crate::primal::primal_step;
use crate::spread::spread_costs;
use fraction::Frac;
use search_node::SplitsTaken;
use sparse_factors::{Stop, add, copied, difference, filled, fused, number_at, put};
use std::alloc::Global;
use tableau::{State, TieRule};

// How often a search whose numbers did not fit is taken up again.
const TRIES: u32 = 6;

/// What a search is to find: the least value, if it is below the cutoff, below these splits. Where so many steps in a row have
/// length 0 it may go on with small costs, and it gives up where the dual phase takes more than `dual_steps`.
#[derive(Clone, Copy)]
pub(crate) struct Aim<'a> {
    pub splits: &'a SplitsTaken,
    pub cutoff: &'a Option<Frac>,
    pub spread_after: Option<usize>,
    pub dual_steps: u32,
}

/// What it comes to, and where it began.
#[derive(Drop)]
pub(crate) struct Found {
    pub end: End,
    pub departure: Option<Departure>,
}

/// From this basis to an end. Where a number does not fit, the basis is factored anew and ties are broken by the next
/// rule, a few times.
pub(crate) fn run(state: &mut State, alloc: Global, aim: Aim<'_>) -> Result<Found, Stop> {
    match run_once(state, alloc, aim) {
        Err(Stop::NoFit) => {}
        outcome => return outcome,
    }
    let later = Aim {
        spread_after: None,
        ..aim
    };
    for _ in 0..TRIES {
        state.ties = next_rule(state.ties);
        state.steps_between = (state.steps_between / 2).max(4);
        state.try_to_refactor(alloc)?;
        // a step that was broken off may have moved what rests
        state.settle();
        match run_once(state, alloc, later) {
            Err(Stop::NoFit) => {}
            outcome => return outcome,
        }
    }
    Err(Stop::NoFit)
}

fn run_once(state: &mut State, alloc: Global, aim: Aim<'_>) -> Result<Found, Stop> {
    begin(state, alloc)?;
    let departure = departure_of(state, aim.splits);
    let end = match dual_phase(state, alloc, aim)? {
        Some(end) => end,
        None => finish(state, alloc)?,
    };
    Ok(Found { end, departure })
}

// Values and prices at the basis. Prices that are wrong are made right.
fn begin(state: &mut State, alloc: Global) -> Result<(), Stop> {
    state.stalls = 0;
    state.costs = copied(alloc, &state.model.costs)?;
    state.costs_are_shifted = false;
    state.find_prices(alloc)?;
    let wrong = wrong_prices(state, alloc)?;
    if are_boxed(state, &wrong) {
        flip_resting(state, &wrong)?;
        state.find_values(alloc)?;
    } else {
        state.find_values(alloc)?;
        if !state.is_feasible() {
            shift_costs(state, &wrong)?;
        }
    }
    state.objective = objective(state).ok();
    Ok(())
}

// With the true costs to the best point.
fn finish(state: &mut State, alloc: Global) -> Result<End, Stop> {
    if state.costs_are_shifted {
        state.costs = copied(alloc, &state.model.costs)?;
        state.costs_are_shifted = false;
        state.find_prices(alloc)?;
        state.objective = objective(state).ok();
        state.stalls = 0;
    }
    primal_phase(state, alloc)
}

// The variables whose prices are wrong where they rest.
fn wrong_prices(state: &State, alloc: Global) -> Result<Vec<usize>, Stop> {
    let mut wrong = Vec::new(alloc);
    for v in 0..state.values.len() {
        if state.should_move(v) {
            add(&mut wrong, v)?;
        }
    }
    Ok(wrong)
}

fn are_boxed(state: &State, variables: &[usize]) -> bool {
    for v in variables {
        if !state.model.bounds_of(*v).is_boxed() {
            return false;
        }
    }
    true
}

fn flip_resting(state: &mut State, variables: &[usize]) -> Result<(), Stop> {
    for v in variables {
        state.count_step()?;
        state.flip(*v);
    }
    Ok(())
}

// Sets the wrong prices to 0, by other costs for now.
fn shift_costs(state: &mut State, wrong: &[usize]) -> Result<(), Stop> {
    state.costs_are_shifted = true;
    for v in wrong {
        let cost = difference(number_at(&state.costs, *v), state.price_of(*v))?;
        put(&mut state.costs, *v, cost);
        state.clear_price(*v)?;
    }
    Ok(())
}

fn dual_phase(state: &mut State, alloc: Global, aim: Aim<'_>) -> Result<Option<End>, Stop> {
    let most = state.steps_left.min(aim.dual_steps);
    for _ in 0..u64::from(most) + 1 {
        if is_cut_off(state, aim.cutoff) {
            return Ok(Some(End::Bounded));
        }
        if stands_still(state, aim.spread_after) {
            spread_costs(state)?;
        }
        match dual_step(state, alloc)? {
            Step::Taken => {}
            Step::Done => return Ok(None),
            Step::Blocked(blocked) => return Ok(Some(End::Infeasible(blocked))),
            Step::Endless(endless) => return Ok(Some(End::Unbounded(endless))),
        }
    }
    Err(Stop::Steps)
}

// So many steps in a row had length 0 that small costs may help.
fn stands_still(state: &State, after: Option<usize>) -> bool {
    match after {
        None => false,
        Some(most) => !state.costs_are_shifted && state.stalls > most,
    }
}

// The prices bound the value, which is not below the cutoff. They do so while a bound is broken and the costs are the true ones.
fn is_cut_off(state: &State, cutoff: &Option<Frac>) -> bool {
    match cutoff {
        None => false,
        Some(least) => {
            !state.costs_are_shifted && !state.is_feasible() && is_at_least(state, least)
        }
    }
}

fn is_at_least(state: &State, least: &Frac) -> bool {
    match objective(state) {
        Ok(value) => *least <= value,
        Err(_) => false,
    }
}

/// The objective's value at the basis, for the true costs.
pub(crate) fn objective(state: &State) -> Result<Frac, Stop> {
    match state.objective {
        Some(value) => Ok(value),
        None => sum_of_costs(state),
    }
}

fn sum_of_costs(state: &State) -> Result<Frac, Stop> {
    let mut value = Frac::zero();
    for v in 0..state.model.matrix.columns {
        value = fused(state.model.cost_of(v), state.value_of(v), value)?;
    }
    Ok(value)
}

fn primal_phase(state: &mut State, alloc: Global) -> Result<End, Stop> {
    state.split_prices()?;
    let mut weights = filled(alloc, state.values.len(), 0)?;
    for _ in 0..u64::from(state.steps_left) + 1 {
        match primal_step(state, alloc, &mut weights)? {
            Step::Taken => {}
            Step::Done => return Ok(End::Optimal),
            Step::Blocked(blocked) => return Ok(End::Infeasible(blocked)),
            Step::Endless(endless) => return Ok(End::Unbounded(endless)),
        }
    }
    Err(Stop::Steps)
}

fn next_rule(rule: TieRule) -> TieRule {
    match rule {
        TieRule::Largest => TieRule::Shortest,
        TieRule::Shortest => TieRule::Ones,
        TieRule::Ones => TieRule::Largest,
    }
}
