// Which integer column is split.
use crate::dual::step_gain;
use crate::gains::{Gains, MOST, STEPS, in_steps, share};
use crate::search::objective;
use fraction::Frac;
use instance::Column;
use sparse_factors::{Stop, add, at, difference, sum, whole};
use std::alloc::Global;
use tableau::State;

// At so many of the most promising columns a step is tried always, and at so many where little is known.
const TRIED: usize = 8;

const TRIED_UNKNOWN: usize = 32;

// Of a side of which so many splits are known, enough is known.
const KNOWN: i64 = 2;

// What a side brings at least, in steps, so that a product tells something of the other side.
const LEAST: i64 = 16;

/// A column that may be split: how far its number is from the nearest whole one, and what its sides may bring, in steps.
#[derive(Clone, Copy)]
struct Choice {
    column: usize,
    far: i64,
    low: i64,
    high: i64,
}

impl Choice {
    // What both sides bring.
    fn score(self) -> i128 {
        let low = i128::from(self.low.max(LEAST));
        low.saturating_mul(i128::from(self.high.max(LEAST)))
    }

    // Whether it promises more than the other; of equal ones the one that is nearer to a half, and then the first.
    fn is_better(self, other: Choice) -> bool {
        let (own, others) = (self.score(), other.score());
        own > others || own == others && self.far > other.far
    }
}

/// An integer column whose number is not whole, if there is one: the first of those before `first_columns`, or else the one of
/// which both sides may bring most, by what splits of it brought and, at some, what one step of the dual phase brings; a side
/// bounded by the cutoff brings most of all, and one with a side without a point comes first. Where no cost is other than 0, the one
/// that is nearest to a half.
pub(crate) fn advised(
    alloc: Global,
    columns: &[Column],
    first_columns: usize,
    state: &mut State,
    gains: &Gains,
    cutoff: &Option<Frac>,
) -> Result<Option<usize>, Stop> {
    let first = first_fraction(columns, state, first_columns);
    if first.is_some() {
        return Ok(first);
    }
    if state.model.has_no_costs() {
        return Ok(nearest_to_half(columns, state));
    }
    let choices = by_promise(alloc, columns, state, gains)?;
    best_of(alloc, state, gains, cutoff, &choices)
}

fn is_fraction(columns: &[Column], state: &State, column: usize) -> bool {
    column < columns.len() && columns[column].integer() && !state.value_of(column).is_whole()
}

// The first of the columns before `end` that may be split.
fn first_fraction(columns: &[Column], state: &State, end: usize) -> Option<usize> {
    for column in 0..end {
        if is_fraction(columns, state, column) {
            return Some(column);
        }
    }
    None
}

// ---- what splits brought

// The columns that may be split, the most promising first.
fn by_promise(
    alloc: Global,
    columns: &[Column],
    state: &State,
    gains: &Gains,
) -> Result<Vec<Choice>, Stop> {
    let mut choices = Vec::new(alloc);
    let (low, high) = (gains.mean_low(), gains.mean_high());
    for column in 0..columns.len() {
        if is_fraction(columns, state, column) {
            add(&mut choices, expected(state, gains, column, low, high))?;
        }
    }
    choices.sort_unstable_by_key(|choice| rank(choice));
    Ok(choices)
}

fn rank(choice: &Choice) -> (i128, i64, usize) {
    let score = 0i128.saturating_sub(choice.score());
    (score, 0i64.saturating_sub(choice.far), choice.column)
}

// What the sides may bring by what splits of the column brought, or else by the means of all columns.
fn expected(state: &State, gains: &Gains, column: usize, low: i64, high: i64) -> Choice {
    let part = part_of(state.value_of(column));
    let rest = STEPS.saturating_sub(part);
    Choice {
        column,
        far: part.min(rest),
        low: share(gains.low(column).mean(low), part),
        high: share(gains.high(column).mean(high), rest),
    }
}

// What stands behind the point, in steps.
fn part_of(value: Frac) -> i64 {
    match behind_point(value) {
        Ok(part) => in_steps(part),
        Err(_) => STEPS / 2,
    }
}

fn behind_point(value: Frac) -> Result<Frac, Stop> {
    difference(value, whole(value.floor())?)
}

// ---- what a step brings

// What is found out of a column.
enum Trial {
    // One of its sides has no point, or the cutoff bounds both.
    Closed,
    Open(Choice),
}

fn best_of(
    alloc: Global,
    state: &mut State,
    gains: &Gains,
    cutoff: &Option<Frac>,
    choices: &[Choice],
) -> Result<Option<usize>, Stop> {
    let mut best = None;
    for place in 0..choices.len() {
        let choice = choices[place];
        if place >= tries_of(gains, choice.column) {
            best = Some(better(choice, best));
        } else {
            match tried(alloc, state, gains, cutoff, choice)? {
                Trial::Closed => return Ok(Some(choice.column)),
                Trial::Open(found) => best = Some(better(found, best)),
            }
        }
    }
    Ok(column_of(best))
}

fn column_of(choice: Option<Choice>) -> Option<usize> {
    match choice {
        None => None,
        Some(choice) => Some(choice.column),
    }
}

fn better(choice: Choice, best: Option<Choice>) -> Choice {
    match best {
        Some(best) if !choice.is_better(best) => best,
        _ => choice,
    }
}

// Among so many first ones a step is tried.
fn tries_of(gains: &Gains, column: usize) -> usize {
    if gains.low(column).count.min(gains.high(column).count) >= KNOWN {
        TRIED
    } else {
        TRIED_UNKNOWN
    }
}

// Where a number doesn't fit, the column stays as it was.
fn tried(
    alloc: Global,
    state: &mut State,
    gains: &Gains,
    cutoff: &Option<Frac>,
    choice: Choice,
) -> Result<Trial, Stop> {
    match step_from(alloc, state, choice.column) {
        Ok(Some(step)) => Ok(after_step(state, gains, cutoff, choice, step)),
        Ok(None) => Ok(Trial::Closed),
        Err(Stop::NoMemory) => Err(Stop::NoMemory),
        Err(_) => Ok(Trial::Open(choice)),
    }
}

// How much a step brings at least on each side.
#[derive(Clone, Copy)]
struct Gain {
    low: Frac,
    high: Frac,
}

// None where a side has no point.
fn step_from(alloc: Global, state: &mut State, column: usize) -> Result<Option<Gain>, Stop> {
    let slot = match at(&state.places, column, None) {
        Some(slot) => slot,
        None => return Err(Stop::NoFit),
    };
    state.find_row(alloc, slot)?;
    let part = behind_point(state.value_of(column))?;
    let rest = difference(Frac::one(), part)?;
    let low = step_gain(state, alloc, true, part)?;
    let high = step_gain(state, alloc, false, rest)?;
    Ok(both(low, high))
}

fn both(low: Option<Frac>, high: Option<Frac>) -> Option<Gain> {
    match (low, high) {
        (Some(low), Some(high)) => Some(Gain { low, high }),
        _ => None,
    }
}

fn after_step(
    state: &State,
    gains: &Gains,
    cutoff: &Option<Frac>,
    choice: Choice,
    gain: Gain,
) -> Trial {
    let low_ends = reaches(state, cutoff, gain.low);
    let high_ends = reaches(state, cutoff, gain.high);
    if low_ends && high_ends {
        return Trial::Closed;
    }
    let column = choice.column;
    let low = at_least(choice.low, gains.low(column).count, gain.low);
    let high = at_least(choice.high, gains.high(column).count, gain.high);
    Trial::Open(Choice {
        low: if low_ends { MOST } else { low },
        high: if high_ends { MOST } else { high },
        ..choice
    })
}

// What is expected, where something is known, but not less than what the step brings.
fn at_least(expected: i64, count: i64, gain: Frac) -> i64 {
    let found = in_steps(gain);
    if count > 0 {
        expected.max(found)
    } else {
        found
    }
}

// With so much more the value is not below the cutoff.
fn reaches(state: &State, cutoff: &Option<Frac>, gain: Frac) -> bool {
    match *cutoff {
        None => false,
        Some(least) => match value_with(state, gain) {
            Ok(value) => least <= value,
            Err(_) => false,
        },
    }
}

fn value_with(state: &State, gain: Frac) -> Result<Frac, Stop> {
    sum(objective(state)?, gain)
}

// ---- where there are no costs

// Of the integer columns that are not whole the one that is nearest to a half, of equal ones the first.
fn nearest_to_half(columns: &[Column], state: &State) -> Option<usize> {
    let mut best = None;
    for column in 0..columns.len() {
        if is_fraction(columns, state, column) {
            let part = part_of(state.value_of(column));
            let choice = Choice {
                column,
                far: part.min(STEPS.saturating_sub(part)),
                low: 0,
                high: 0,
            };
            best = Some(better(choice, best));
        }
    }
    column_of(best)
}
