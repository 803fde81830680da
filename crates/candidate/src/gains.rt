// What splits brought.
use crate::search::objective;
use certificate::Side;
use fraction::Frac;
use search_node::{SplitTaken, SplitsTaken};
use sparse_factors::{Stop, at, difference, filled, product, put, sum, whole};
use std::alloc::Global;
use tableau::State;

/// So many steps are one: what guides the choice of a column is counted in whole steps.
pub(crate) const STEPS: i64 = 1_048_576;

/// What is larger is cut off.
pub(crate) const MOST: i64 = 1_152_921_504_606_846_976;

/// A number in whole steps, cut off where it is very large.
pub(crate) fn in_steps(number: Frac) -> i64 {
    let steps = match scaled(number) {
        Ok(scaled) => scaled.floor(),
        Err(_) => number.floor().saturating_mul(i128::from(STEPS)),
    };
    let least = i128::from(0i64.saturating_sub(MOST));
    match i64::try_from(steps.clamp(least, i128::from(MOST))) {
        Ok(steps) => steps,
        Err(_) => MOST,
    }
}

fn scaled(number: Frac) -> Result<Frac, Stop> {
    product(number, whole(i128::from(STEPS))?)
}

/// The part of a product of two counts of steps that is a count of steps again.
pub(crate) fn share(number: i64, part: i64) -> i64 {
    let steps = i128::from(number).saturating_mul(i128::from(part)) / i128::from(STEPS);
    match i64::try_from(steps) {
        Ok(steps) => steps,
        Err(_) => MOST,
    }
}

// How many steps there are for each part that is so long.
fn rate(number: i64, part: i64) -> i64 {
    let whole = i128::from(number).saturating_mul(i128::from(STEPS));
    let steps = whole.checked_div(i128::from(part)).unwrap_or(0);
    match i64::try_from(steps) {
        Ok(steps) => steps.min(MOST),
        Err(_) => MOST,
    }
}

/// What the splits of a column brought on one side, for each unit by which they moved its number.
#[derive(Clone, Copy)]
pub(crate) struct Brought {
    sum: i64,
    pub count: i64,
}

const NOTHING: Brought = Brought { sum: 0, count: 0 };

impl Brought {
    /// The mean, or the other number where nothing is known.
    pub(crate) fn mean(self, other: i64) -> i64 {
        self.sum.checked_div(self.count).unwrap_or(other)
    }

    fn with(self, rate: i64) -> Brought {
        Brought {
            sum: self.sum.saturating_add(rate),
            count: self.count.saturating_add(1),
        }
    }
}

/// What splits brought, by column and side.
#[derive(Drop)]
pub(crate) struct Gains {
    low: Vec<Brought>,
    high: Vec<Brought>,
}

impl Gains {
    /// Nothing is known yet.
    pub(crate) fn new(alloc: Global) -> Gains {
        Gains {
            low: Vec::new(alloc),
            high: Vec::new(alloc),
        }
    }

    /// Makes room for so many columns, of which nothing is known, where it isn't there yet.
    pub(crate) fn begin(&mut self, alloc: Global, columns: usize) -> Result<(), Stop> {
        if self.low.len() == columns && self.high.len() == columns {
            return Ok(());
        }
        self.low = filled(alloc, columns, NOTHING)?;
        self.high = filled(alloc, columns, NOTHING)?;
        Ok(())
    }

    /// What the low sides of a column brought.
    pub(crate) fn low(&self, column: usize) -> Brought {
        at(&self.low, column, NOTHING)
    }

    /// What the high sides of a column brought.
    pub(crate) fn high(&self, column: usize) -> Brought {
        at(&self.high, column, NOTHING)
    }

    /// What a unit of a low side brings in the mean of the columns of which something is known, at least one step.
    pub(crate) fn mean_low(&self) -> i64 {
        mean_of(&self.low)
    }

    /// The same for the high sides.
    pub(crate) fn mean_high(&self) -> i64 {
        mean_of(&self.high)
    }

    /// Notes what a side brought, by where the search began and the least value that it found.
    pub(crate) fn note(&mut self, departure: &Departure, value: Frac) {
        let gain = match difference(value, departure.value) {
            Ok(gain) => in_steps(gain).max(0),
            Err(_) => return,
        };
        let rate = rate(gain, in_steps(departure.far).max(1));
        let sides = match departure.side {
            Side::Low => &mut self.low,
            Side::High => &mut self.high,
        };
        let old = at(sides, departure.column, NOTHING);
        put(sides, departure.column, old.with(rate));
    }
}

fn mean_of(sides: &[Brought]) -> i64 {
    let mut sum = 0i64;
    let mut count = 0i64;
    for side in sides {
        if side.count > 0 {
            sum = sum.saturating_add(side.mean(0));
            count = count.saturating_add(1);
        }
    }
    sum.checked_div(count).unwrap_or(STEPS).max(1)
}

/// Where the search of a node below a split begins: the least value of the node above, and how far the column's number there is
/// from this side.
#[derive(Clone, Copy)]
pub(crate) struct Departure {
    column: usize,
    side: Side,
    far: Frac,
    value: Frac,
}

/// Where the search begins, if it begins at the end of the node above: its prices are right, and the number of the column that was
/// split last is beyond its new bound.
pub(crate) fn departure_of(state: &State, splits: &SplitsTaken) -> Option<Departure> {
    if state.costs_are_shifted {
        return None;
    }
    match splits.as_slice().last() {
        None => None,
        Some(taken) => departure_by(state, *taken).ok(),
    }
}

fn departure_by(state: &State, taken: SplitTaken) -> Result<Departure, Stop> {
    let column = taken.split.column() as usize;
    let limit = whole(taken.split.at().get())?;
    let number = state.value_of(column);
    let far = match taken.side {
        Side::Low => difference(number, limit)?,
        Side::High => difference(sum(limit, Frac::one())?, number)?,
    };
    if !far.is_positive() {
        return Err(Stop::NoFit);
    }
    Ok(Departure {
        column,
        side: taken.side,
        far,
        value: objective(state)?,
    })
}
