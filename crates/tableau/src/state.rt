// The state of a search: a basis with its factors, the values and prices of all variables, and what guides the choices.
use crate::model::{Bounds, Model};
use crate::prices::Prices;
use crate::ranking::{Ranked, Ranking};
use crate::start::Start;
use fraction::Frac;
use sparse_factors::{
    Factored, Factors, Scaled, Stop, at, copied, difference, digits, factorise, filled, log,
    number_at, put, zeros,
};
use std::alloc::Global;
use std::mem;

/// Which variable is taken among those with equal ratios.
#[derive(Clone, Copy, PartialEq, Eq)]
pub enum TieRule {
    /// The one with the largest entry.
    Largest,
    /// The one with the shortest number.
    Shortest,
    /// One with the entry 1 or -1, else the one with the largest.
    Ones,
}

/// What a row of the table may have of a variable.
#[derive(Clone, Copy, PartialEq, Eq)]
pub(crate) enum Mark {
    /// Nothing: it is basic, or can't move.
    Closed,
    Open,
    /// A number, in the row that was found last.
    Touched,
}

// After so many steps of length 0 in a row, and twice as many as there are rows, the least index is taken.
const PATIENCE: usize = 1000;

// More slots than this are ranked.
const MANY_SLOTS: usize = 1000;

// The basis is factored anew after so many steps, and a part of the rows above so many, since factoring goes over all of them.
const STEPS_BETWEEN: usize = 12;

const MANY_ROWS: usize = 2400;

const PART: usize = 20;

/// A basis on the way, and what is known of it.
#[derive(Drop)]
pub struct State {
    pub model: Model,
    pub factors: Factors,
    // the variable of each slot, and the slot of each basic variable
    pub slots: Vec<usize>,
    pub places: Vec<Option<usize>>,
    // a resting variable is at its upper bound
    pub at_upper: Vec<bool>,
    pub is_fixed: Vec<bool>,
    pub costs: Vec<Frac>,
    pub values: Vec<Frac>,
    pub(crate) prices: Prices,
    // how far the variable of a slot is beyond a bound, as a logarithm
    pub gaps: Vec<Option<i32>>,
    pub weights: Vec<i32>,
    ranking: Ranking,
    // the numbers of a slot's row times a scale, by variable, and the variables that may have one
    pub scale: Frac,
    pub entries: Vec<Frac>,
    pub touched: Vec<usize>,
    // the same numbers, while they are summed up as whole ones
    pub(crate) sums: Vec<i128>,
    pub(crate) marks: Vec<Mark>,
    // where systems are solved
    pub(crate) work: Scaled,
    pub ties: TieRule,
    pub steps_between: usize,
    pub steps_left: u32,
    pub stalls: usize,
    pub costs_are_shifted: bool,
    // among slots that come equal it is the least variable that counts, and not the first slot
    ranks_variables: bool,
    // the objective's value for the true costs, where it is known
    pub objective: Option<Frac>,
}

impl State {
    /// The state at a basis, its values and prices not yet found.
    pub fn at_basis(alloc: Global, model: Model, start: Start, steps: u32) -> Result<State, Stop> {
        let size = model.size();
        let Factored { factors, slots } = factorise(alloc, &model.matrix, &start.basic)?;
        let mut state = State {
            factors,
            slots,
            places: filled(alloc, size, None)?,
            at_upper: start.at_upper,
            is_fixed: filled(alloc, size, false)?,
            costs: copied(alloc, &model.costs)?,
            values: zeros(alloc, size)?,
            prices: Prices::zeros(alloc, size)?,
            gaps: filled(alloc, model.matrix.rows, None)?,
            weights: filled(alloc, model.matrix.rows, 0)?,
            ranking: Ranking::new(alloc),
            scale: Frac::one(),
            entries: zeros(alloc, size)?,
            sums: filled(alloc, size, 0)?,
            touched: Vec::new(alloc),
            marks: filled(alloc, size, Mark::Closed)?,
            work: Scaled::zeros(alloc, model.matrix.rows)?,
            ties: TieRule::Largest,
            steps_between: steps_between(model.matrix.rows),
            steps_left: steps,
            stalls: 0,
            costs_are_shifted: false,
            ranks_variables: !model.has_no_costs(),
            objective: None,
            model,
        };
        state.mark_fixed();
        state.settle();
        Ok(state)
    }

    /// Gives the linear program back.
    pub fn into_model(self) -> Model {
        self.model
    }

    fn mark_fixed(&mut self) {
        for v in 0..self.is_fixed.len() {
            self.is_fixed[v] = self.model.bounds_of(v).is_fixed();
        }
    }

    // ---- what is known of a variable

    /// Whether the variable is basic.
    #[inline]
    pub fn is_basic(&self, v: usize) -> bool {
        at(&self.places, v, None).is_some()
    }

    #[inline]
    pub fn is_fixed(&self, v: usize) -> bool {
        at(&self.is_fixed, v, false)
    }

    #[inline]
    pub fn rests_above(&self, v: usize) -> bool {
        at(&self.at_upper, v, false)
    }

    #[inline]
    pub fn unit_of(&self, v: usize) -> i32 {
        at(&self.model.units, v, 0)
    }

    #[inline]
    pub fn value_of(&self, v: usize) -> Frac {
        number_at(&self.values, v)
    }

    pub fn price_of(&self, v: usize) -> Frac {
        self.prices.get(v)
    }

    /// A price times the scale of all prices: a whole number, while they are over one denominator.
    #[inline(always)]
    pub fn scaled_price_of(&self, v: usize) -> Frac {
        self.prices.scaled(v)
    }

    /// What scaled prices are multiplied with.
    pub fn price_scale(&self) -> Frac {
        self.prices.scale()
    }

    /// Sets a price to 0.
    pub fn clear_price(&mut self, v: usize) -> Result<(), Stop> {
        self.prices.clear(v)
    }

    /// Adds a number to a price.
    pub fn add_to_price(&mut self, v: usize, number: Frac) -> Result<(), Stop> {
        self.prices.add(v, number)
    }

    #[inline]
    pub fn variable_at(&self, slot: usize) -> usize {
        at(&self.slots, slot, usize::MAX)
    }

    /// The resting variable may rise.
    #[inline]
    pub fn may_rise(&self, bounds: Bounds, v: usize) -> bool {
        bounds.upper.is_none() || !self.rests_above(v)
    }

    /// The resting variable may fall.
    #[inline]
    pub fn may_fall(&self, bounds: Bounds, v: usize) -> bool {
        bounds.lower.is_none() || self.rests_above(v)
    }

    /// The resting variable's price is wrong where it rests: it should move.
    pub fn should_move(&self, v: usize) -> bool {
        let price = self.scaled_price_of(v);
        if price.is_zero() || at(&self.marks, v, Mark::Closed) == Mark::Closed {
            return false;
        }
        let bounds = self.model.bounds_of(v);
        if price.is_negative() {
            self.may_rise(bounds, v)
        } else {
            self.may_fall(bounds, v)
        }
    }

    /// So many steps of length 0 came in a row that the least index is taken.
    pub fn is_careful(&self) -> bool {
        let patience = PATIENCE.saturating_add(self.model.matrix.rows.saturating_mul(2));
        self.stalls > patience
    }

    /// What ranks the entry a among equal ratios, its size in units of `unit`.
    pub fn tie_key(&self, a: Frac, unit: i32) -> i32 {
        match self.ties {
            TieRule::Largest => log(a).saturating_add(unit),
            TieRule::Shortest => 0i32.saturating_sub(digits(a)),
            TieRule::Ones => {
                if digits(a) <= 2 {
                    i32::MAX
                } else {
                    log(a).saturating_add(unit)
                }
            }
        }
    }

    /// One step is taken, if one is left.
    pub fn count_step(&mut self) -> Result<(), Stop> {
        match self.steps_left.checked_sub(1) {
            Some(left) => {
                self.steps_left = left;
                Ok(())
            }
            None => Err(Stop::Steps),
        }
    }

    /// A step may have length 0.
    pub fn count_stall(&mut self, is_stall: bool) {
        self.stalls = if is_stall {
            self.stalls.saturating_add(1)
        } else {
            0
        };
    }

    // ---- values where variables rest

    /// Sets the places, and the values of the resting variables.
    pub fn settle(&mut self) {
        for v in 0..self.places.len() {
            self.places[v] = None;
        }
        self.place_all();
        for v in 0..self.values.len() {
            self.mark(v);
            if !self.is_basic(v) {
                self.rest(v);
            }
        }
    }

    // The same where only these variables were basic before: all others rest already.
    fn settle_again(&mut self, basic: &[usize]) {
        self.unplace(basic);
        self.place_all();
        for v in basic {
            self.mark(*v);
            if !self.is_basic(*v) {
                self.rest(*v);
            }
        }
    }

    fn unplace(&mut self, variables: &[usize]) {
        for v in variables {
            put(&mut self.places, *v, None);
        }
    }

    // Sets the places of the basic variables, which may not have been basic before.
    fn place_all(&mut self) {
        for slot in 0..self.slots.len() {
            let v = self.slots[slot];
            put(&mut self.places, v, Some(slot));
            put(&mut self.marks, v, Mark::Closed);
        }
    }

    // Marks a variable by whether it is basic or fixed. In a row that was found before, it has no number any more.
    pub(crate) fn mark(&mut self, v: usize) {
        let mark = if self.is_basic(v) || self.is_fixed(v) {
            Mark::Closed
        } else {
            Mark::Open
        };
        put(&mut self.marks, v, mark);
    }

    /// Lets a variable rest at its bound, or at 0 where it has none.
    pub fn rest(&mut self, v: usize) {
        let bounds = self.model.bounds_of(v);
        let above = if self.rests_above(v) {
            bounds.upper.is_some()
        } else {
            bounds.lower.is_none() && bounds.upper.is_some()
        };
        put(&mut self.at_upper, v, above);
        let bound = if above { bounds.upper } else { bounds.lower };
        put(&mut self.values, v, bound.unwrap_or(Frac::zero()));
    }

    /// Lets a resting variable rest at its other bound.
    pub fn flip(&mut self, v: usize) {
        let above = self.rests_above(v);
        put(&mut self.at_upper, v, !above);
        self.rest(v);
    }

    // ---- gaps

    /// Finds how far the variable of a slot is beyond a bound.
    pub fn look_at(&mut self, slot: usize) -> Result<(), Stop> {
        let gap = self.gap_of(self.variable_at(slot));
        put(&mut self.gaps, slot, gap);
        if self.ranks_slots() {
            self.rank(slot)?;
        }
        Ok(())
    }

    /// The same for all slots.
    pub fn look_at_all(&mut self) -> Result<(), Stop> {
        self.ranking.clear();
        for slot in 0..self.slots.len() {
            self.look_at(slot)?;
        }
        Ok(())
    }

    fn gap_of(&self, v: usize) -> Option<i32> {
        let value = self.value_of(v);
        let bounds = self.model.bounds_of(v);
        match bounds.lower {
            Some(lower) if value < lower => return Some(size_between(value, lower)),
            _ => {}
        }
        match bounds.upper {
            Some(upper) if upper < value => Some(size_between(upper, value)),
            _ => None,
        }
    }

    /// No bound is broken.
    pub fn is_feasible(&self) -> bool {
        for gap in &self.gaps {
            if gap.is_some() {
                return false;
            }
        }
        true
    }

    // ---- which slot comes first

    // There are so many slots that those beyond a bound are ranked.
    fn ranks_slots(&self) -> bool {
        self.slots.len() > MANY_SLOTS
    }

    // A slot that was looked at, or whose score fell, is ranked anew. Old ranks of it may stay.
    fn rank(&mut self, slot: usize) -> Result<(), Stop> {
        match self.ranked(slot) {
            None => Ok(()),
            Some(ranked) => self.ranking.add(ranked),
        }
    }

    fn ranked(&self, slot: usize) -> Option<Ranked> {
        Some(Ranked {
            score: self.score(slot)?,
            rank: self.rank_among_equals(slot),
            slot,
        })
    }

    // Which slot a variable has changes where the basis is factored anew.
    fn rank_among_equals(&self, slot: usize) -> usize {
        if self.ranks_variables {
            self.variable_at(slot)
        } else {
            slot
        }
    }

    // How far the variable of a slot is beyond a bound, in fair units; none where it isn't.
    fn score(&self, slot: usize) -> Option<i64> {
        let gap = at(&self.gaps, slot, None)?;
        let size = gap.saturating_sub(self.unit_of(self.variable_at(slot)));
        let weight = at(&self.weights, slot, 0);
        Some(i64::from(size.saturating_mul(2)) - i64::from(weight))
    }

    /// The slot whose variable is farthest beyond a bound in fair units, of equal ones that of the least variable, or the first slot
    /// where there are no costs.
    pub fn farthest_slot(&mut self) -> Result<Option<usize>, Stop> {
        if !self.ranks_slots() {
            return Ok(self.farthest_of_all());
        }
        if self.ranking.count() / 4 > self.slots.len() {
            self.look_at_all()?;
        }
        self.first_ranked()
    }

    fn farthest_of_all(&self) -> Option<usize> {
        let mut best = None;
        for slot in 0..self.gaps.len() {
            match self.ranked(slot) {
                Some(ranked) if ranked.is_before_all(best) => best = Some(ranked),
                _ => {}
            }
        }
        Some(best?.slot)
    }

    // The first one by its rank. Scores rise only where a slot is looked at, so a rank that is not what the score is now is too high.
    fn first_ranked(&mut self) -> Result<Option<usize>, Stop> {
        for _ in 0..u64::MAX {
            let first = match self.ranking.first() {
                None => return Ok(None),
                Some(first) => first,
            };
            if self.is_still(&first) {
                return Ok(Some(first.slot));
            }
            self.ranking.drop_first();
            self.rank(first.slot)?;
        }
        Ok(None)
    }

    fn is_still(&self, ranked: &Ranked) -> bool {
        self.score(ranked.slot) == Some(ranked.score)
            && self.rank_among_equals(ranked.slot) == ranked.rank
    }

    // ---- factoring anew

    /// Factors the basis anew. Values and prices stay.
    fn refactor(&mut self, alloc: Global) -> Result<(), Stop> {
        let weights = self.weights_by_variable(alloc)?;
        let Factored { factors, slots } = factorise(alloc, &self.model.matrix, &self.slots)?;
        let basic = mem::replace(&mut self.slots, slots);
        self.factors = factors;
        self.settle_again(&basic);
        self.take_weights(&weights);
        Ok(())
    }

    /// The same, but where its numbers do not fit the factors stay, for longer than before.
    pub fn try_to_refactor(&mut self, alloc: Global) -> Result<(), Stop> {
        match self.refactor(alloc) {
            Err(Stop::NoFit) => {
                self.steps_between = self.steps_between.saturating_mul(2);
                Ok(())
            }
            outcome => outcome,
        }
    }

    fn weights_by_variable(&self, alloc: Global) -> Result<Vec<i32>, Stop> {
        let mut weights = filled(alloc, self.values.len(), 0)?;
        for slot in 0..self.slots.len() {
            put(&mut weights, self.slots[slot], at(&self.weights, slot, 0));
        }
        Ok(weights)
    }

    fn take_weights(&mut self, weights: &[i32]) {
        for slot in 0..self.weights.len() {
            self.weights[slot] = at(weights, at(&self.slots, slot, 0), 0);
        }
    }

    /// Whether it is time to factor anew.
    pub fn is_worn(&self) -> bool {
        self.factors.is_worn(self.steps_between)
    }
}

fn steps_between(rows: usize) -> usize {
    STEPS_BETWEEN.saturating_add(rows.saturating_sub(MANY_ROWS) / PART)
}

// The logarithm of the distance of two numbers, or of the larger one where the distance does not fit.
fn size_between(low: Frac, high: Frac) -> i32 {
    match difference(high, low) {
        Ok(gap) => log(gap),
        Err(_) => log(low).max(log(high)),
    }
}
