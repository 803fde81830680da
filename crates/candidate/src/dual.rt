// The dual phase: steps until no bound is broken.
use crate::ending::{Blocked, Step};
use fraction::Frac;
use sparse_factors::{Stop, add, at, difference, fused, log, number_at, product, put, quotient};
use std::alloc::Global;
use tableau::{Solved, State};

// A bound that the variable of a slot breaks, and how far.
#[derive(Clone, Copy)]
struct Broken {
    above: bool,
    bound: Frac,
    far: Frac,
}

// A variable that may enter: how long its price lasts, about, as a logarithm, and exactly, where that was wanted; and what ranks it
// among those with equal ratios.
#[derive(Clone, Copy)]
struct Offer {
    size: i32,
    ratio: Option<Frac>,
    key: i32,
    variable: usize,
}

// A ratio whose size is larger by more than this is larger: a size is told to 47 steps, since it is made of four logarithms, each
// of which is at most 23 steps too low.
const ERROR: i32 = 100;

// What enters, and which variables go to their other bounds before.
#[derive(Drop)]
struct Entering {
    variable: usize,
    flips: Vec<usize>,
}

// An offer and its ratio.
#[derive(Clone, Copy)]
struct Weighed {
    ratio: Frac,
    key: i32,
    variable: usize,
}

// The best of the offers with the least ratio, and how far the row stays broken where all of them are passed.
#[derive(Clone, Copy)]
struct Group {
    best: Weighed,
    rest: Option<Frac>,
}

/// One step of the dual phase.
pub(crate) fn dual_step(state: &mut State, alloc: Global) -> Result<Step, Stop> {
    let slot = match leaving_slot(state)? {
        Some(slot) => slot,
        None => return Ok(Step::Done),
    };
    let broken = broken_bound(state, state.variable_at(slot))?;
    let above = broken.above;
    let row = state.find_row(alloc, slot)?;
    match robust_choice(state, alloc, &broken)? {
        None => Ok(Step::Blocked(Blocked { above, row })),
        Some(entering) => {
            enter(state, alloc, slot, &broken, entering)?;
            Ok(Step::Taken)
        }
    }
}

// The slot whose variable is farthest beyond a bound in fair units, or that of the least variable that is beyond one.
fn leaving_slot(state: &mut State) -> Result<Option<usize>, Stop> {
    if state.is_careful() {
        Ok(least_slot(state))
    } else {
        state.farthest_slot()
    }
}

fn least_slot(state: &State) -> Option<usize> {
    let mut best = None;
    let mut most = i64::MIN;
    for slot in 0..state.gaps.len() {
        let rank = least_first(state.variable_at(slot));
        if state.gaps[slot].is_some() && rank > most {
            most = rank;
            best = Some(slot);
        }
    }
    best
}

fn broken_bound(state: &State, v: usize) -> Result<Broken, Stop> {
    let value = state.value_of(v);
    let bounds = state.model.bounds_of(v);
    match (bounds.lower, bounds.upper) {
        (_, Some(upper)) if upper < value => Ok(Broken {
            above: true,
            bound: upper,
            far: difference(value, upper)?,
        }),
        (Some(lower), _) => Ok(Broken {
            above: false,
            bound: lower,
            far: difference(lower, value)?,
        }),
        _ => Err(Stop::NoFit),
    }
}

// ---- what enters

// The same with prices as fractions where a number does not fit, and then on the entries as they are, without their scale.
fn robust_choice(
    state: &mut State,
    alloc: Global,
    broken: &Broken,
) -> Result<Option<Entering>, Stop> {
    match choice(state, alloc, broken) {
        Err(Stop::NoFit) => {}
        outcome => return outcome,
    }
    state.split_prices()?;
    match choice(state, alloc, broken) {
        Err(Stop::NoFit) => {}
        outcome => return outcome,
    }
    state.unscale()?;
    choice(state, alloc, broken)
}

/// How much a step brings at least that takes the variable of the row that was found so far, down or up: none, where nothing can
/// enter.
pub(crate) fn step_gain(
    state: &State,
    alloc: Global,
    down: bool,
    far: Frac,
) -> Result<Option<Frac>, Stop> {
    let mut open = offers(state, alloc, down)?;
    let best = match best_offer(state, &mut open)? {
        Some(best) => best,
        None => return Ok(None),
    };
    let length = product(best.ratio, quotient(state.scale, state.price_scale())?)?;
    Ok(Some(product(length, far)?))
}

// The variable that enters: the first price that would turn. Variables with two bounds are passed while the row
// stays broken.
fn choice(state: &State, alloc: Global, broken: &Broken) -> Result<Option<Entering>, Stop> {
    let mut open = offers(state, alloc, broken.above)?;
    let mut flips = Vec::new(alloc);
    let mut rest = product(broken.far, state.scale).ok();
    for _ in 0..open.len() {
        let group = match first_group(state, &mut open, rest)? {
            Some(group) => group,
            None => return Ok(None),
        };
        match group.rest {
            None => {
                let variable = group.best.variable;
                return Ok(Some(Entering { variable, flips }));
            }
            Some(after) => rest = Some(after),
        }
        open = pass(alloc, &open, group.best.ratio, &mut flips)?;
    }
    Ok(None)
}

fn offers(state: &State, alloc: Global, above: bool) -> Result<Vec<Offer>, Stop> {
    let mut offers = Vec::new(alloc);
    for v in &state.touched {
        let entry = number_at(&state.entries, *v);
        if may_help(state, *v, entry, above) {
            add(&mut offers, offered(state, *v, entry))?;
        }
    }
    Ok(offers)
}

// Whether the resting variable moves the row's own one towards its bound.
fn may_help(state: &State, v: usize, entry: Frac, above: bool) -> bool {
    if entry.is_zero() || state.is_basic(v) {
        return false;
    }
    let bounds = state.model.bounds_of(v);
    if entry.is_positive() == above {
        state.may_rise(bounds, v)
    } else {
        state.may_fall(bounds, v)
    }
}

fn offered(state: &State, v: usize, entry: Frac) -> Offer {
    let price = state.scaled_price_of(v);
    let (size, ratio) = if price.is_zero() {
        (i32::MIN, Some(price))
    } else {
        (log(price).saturating_sub(log(entry)), None)
    };
    Offer {
        size,
        ratio,
        key: state.tie_key(entry, state.unit_of(v)),
        variable: v,
    }
}

// Finds the ratios that may be the least.
fn weigh(state: &State, open: &mut [Offer]) -> Result<(), Stop> {
    let mut least = i32::MAX;
    for offer in open.iter() {
        least = least.min(offer.size);
    }
    let most = least.saturating_add(ERROR);
    for i in 0..open.len() {
        let offer = open[i];
        if offer.ratio.is_none() && offer.size <= most {
            open[i] = Offer {
                ratio: Some(ratio_of(state, offer.variable)?),
                ..offer
            };
        }
    }
    Ok(())
}

fn ratio_of(state: &State, v: usize) -> Result<Frac, Stop> {
    let ratio = quotient(state.scaled_price_of(v), number_at(&state.entries, v))?;
    Ok(ratio.abs())
}

// The offers with the least ratio.
fn first_group(
    state: &State,
    open: &mut [Offer],
    far: Option<Frac>,
) -> Result<Option<Group>, Stop> {
    let best = match best_offer(state, open)? {
        Some(best) => best,
        None => return Ok(None),
    };
    let rest = match far {
        Some(far) if !state.is_careful() => rest_after(state, open, best.ratio, far)?,
        _ => None,
    };
    Ok(Some(Group { best, rest }))
}

// The least ratio; of equal ones the highest key, and then the least index.
fn best_offer(state: &State, open: &mut [Offer]) -> Result<Option<Weighed>, Stop> {
    weigh(state, open)?;
    let careful = state.is_careful();
    let mut best = None;
    for offer in open.iter() {
        match offer.ratio {
            None => {}
            Some(ratio) => best = Some(better_of(with_ratio(offer, ratio), best, careful)),
        }
    }
    Ok(best)
}

fn with_ratio(offer: &Offer, ratio: Frac) -> Weighed {
    Weighed {
        ratio,
        key: offer.key,
        variable: offer.variable,
    }
}

// How far the row stays broken where all of them with this ratio go to their other bounds, if they can and it does.
fn rest_after(state: &State, open: &[Offer], ratio: Frac, far: Frac) -> Result<Option<Frac>, Stop> {
    let mut rest = far;
    for offer in open {
        if has_ratio(offer, ratio) {
            rest = match flip_length(state, offer.variable)? {
                None => return Ok(None),
                Some(length) => {
                    let entry = number_at(&state.entries, offer.variable);
                    fused(length.neg(), entry.abs(), rest)?
                }
            };
            if !rest.is_positive() {
                return Ok(None);
            }
        }
    }
    Ok(Some(rest))
}

fn has_ratio(offer: &Offer, ratio: Frac) -> bool {
    match offer.ratio {
        None => false,
        Some(own) => own == ratio,
    }
}

fn flip_length(state: &State, v: usize) -> Result<Option<Frac>, Stop> {
    let bounds = state.model.bounds_of(v);
    match (bounds.lower, bounds.upper) {
        (Some(lower), Some(upper)) => Ok(Some(difference(upper, lower)?)),
        _ => Ok(None),
    }
}

// ---- the step itself

fn enter(
    state: &mut State,
    alloc: Global,
    slot: usize,
    broken: &Broken,
    entering: Entering,
) -> Result<(), Stop> {
    let q = entering.variable;
    let column = state.solved_column(alloc, q)?;
    state.count_step()?;
    flip_first(state, alloc, &entering.flips)?;
    state.count_stall(state.scaled_price_of(q).is_zero());
    let out = state.variable_at(slot);
    let far = difference(state.value_of(out), broken.bound)?;
    let t = quotient(far, column.at(slot))?;
    state.move_by(&column, t, q)?;
    put(&mut state.values, out, broken.bound);
    update_weights(state, &column, slot, q);
    state.update_prices(q, out)?;
    state.exchange(alloc, slot, q, broken.above, &column)
}

fn flip_first(state: &mut State, alloc: Global, flips: &[usize]) -> Result<(), Stop> {
    if flips.is_empty() {
        return Ok(());
    }
    for _ in flips {
        state.count_step()?;
    }
    state.flip_all(alloc, flips)
}

// The weights of rows, as logarithms.
fn update_weights(state: &mut State, column: &Solved, slot: usize, q: usize) {
    let unit = state.unit_of(state.variable_at(slot));
    let pivot = log(column.at(slot)).saturating_sub(unit);
    let weight = at(&state.weights, slot, 0);
    for other in &column.entries {
        let unit = state.unit_of(state.variable_at(other.at));
        let size = log(other.number).saturating_sub(unit);
        raise_weight(
            &mut state.weights,
            other.at,
            size.saturating_sub(pivot),
            weight,
        );
    }
    let left = lowered_weight(weight, pivot.saturating_add(state.unit_of(q)));
    put(&mut state.weights, slot, left);
}

/// Ranks variables so that the least index comes first.
pub(crate) fn least_first(v: usize) -> i64 {
    match i64::try_from(v) {
        Ok(index) => 0i64.saturating_sub(index),
        Err(_) => i64::MIN,
    }
}

/// Raises the weight at a place to twice the size plus the pivot's weight, where that is more.
pub(crate) fn raise_weight(weights: &mut [i32], place: usize, size: i32, weight: i32) {
    let other = size.saturating_mul(2).saturating_add(weight);
    let old = at(weights, place, 0);
    put(weights, place, old.max(other));
}

/// The weight of what leaves.
pub(crate) fn lowered_weight(weight: i32, size: i32) -> i32 {
    weight.saturating_sub(size.saturating_mul(2)).max(0)
}

fn better_of(offer: Weighed, best: Option<Weighed>, careful: bool) -> Weighed {
    match best {
        Some(old) => better_one(offer, old, careful),
        None => offer,
    }
}

fn better_one(offer: Weighed, old: Weighed, careful: bool) -> Weighed {
    let is_better = is_better(&offer, &old, careful);
    if is_better { offer } else { old }
}

fn is_better(offer: &Weighed, old: &Weighed, careful: bool) -> bool {
    if offer.ratio == old.ratio {
        if careful || offer.key == old.key {
            offer.variable < old.variable
        } else {
            old.key < offer.key
        }
    } else {
        offer.ratio < old.ratio
    }
}

// The offers that are left behind a ratio; those with it are flipped.
fn pass(
    alloc: Global,
    open: &[Offer],
    ratio: Frac,
    flips: &mut Vec<usize>,
) -> Result<Vec<Offer>, Stop> {
    let mut left = Vec::new(alloc);
    for offer in open {
        if has_ratio(offer, ratio) {
            add(flips, offer.variable)?;
        } else {
            add(&mut left, *offer)?;
        }
    }
    Ok(left)
}
