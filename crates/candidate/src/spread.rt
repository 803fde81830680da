// Small costs for a start from the rows.
use sparse_factors::{Stop, number_at, put, sum, whole};
use tableau::State;

/// Adds a small cost to each resting variable, in the direction that keeps its price right, so that hardly a step of the dual phase
/// has length 0. The true costs, all of which are 0, are taken again behind the phase, so the small ones are whole numbers, from 64 to
/// 127.
pub(crate) fn spread_costs(state: &mut State) -> Result<(), Stop> {
    state.costs_are_shifted = true;
    for v in 0..state.values.len() {
        if may_move(state, v) {
            let small = whole(spread(v).saturating_add(64))?;
            let small = if state.rests_above(v) {
                small.neg()
            } else {
                small
            };
            let cost = sum(number_at(&state.costs, v), small)?;
            put(&mut state.costs, v, cost);
            state.add_to_price(v, small)?;
        }
    }
    Ok(())
}

// The variable rests at a bound that it can leave.
fn may_move(state: &State, v: usize) -> bool {
    let bounds = state.model.bounds_of(v);
    !state.is_basic(v) && !state.is_fixed(v) && (bounds.lower.is_some() || bounds.upper.is_some())
}

// From 0 to 63, well spread.
fn spread(v: usize) -> i128 {
    let mixed = v.saturating_mul(40_503) % 65_536;
    (mixed / 1_024) as i128
}
