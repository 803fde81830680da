// Values, prices and the basis, as steps change them.
use crate::model::Model;
use crate::prices::{Exchange, price_factor};
use crate::state::{Mark, State};
use fraction::Frac;
use lifted_systems::{lifted_columns, lifted_rows};
use sparse_factors::{
    Entry, Factors, Fractions, Scaled, Stop, add, at, copied, difference, entries_of, fused,
    fused_by_word, number_at, number_in, plus_product, product, put, quotient, sum, whole,
    whole_part, word, zeros,
};
use std::alloc::Global;

/// A column's numbers other than 0, by slots: how the basic variables fall where its variable rises by 1.
#[derive(Drop)]
pub struct Solved {
    pub entries: Vec<Entry>,
}

impl Solved {
    /// The number at a slot.
    pub fn at(&self, slot: usize) -> Frac {
        number_in(&self.entries, slot)
    }
}

/// The numbers other than 0 of a slot's row of the inverse, times a scale that is above 0.
#[derive(Drop)]
pub struct Row {
    pub entries: Vec<Entry>,
    pub scale: Frac,
}

// Adds t times a variable's column.
fn add_column(x: &mut [Frac], model: &Model, v: usize, t: Frac) -> Result<(), Stop> {
    match model.matrix.row_of(v) {
        Some(row) => {
            let old = number_at(x, row);
            put(x, row, sum(old, t)?);
            Ok(())
        }
        None => add_entries(x, model.matrix.by_column.list(v), t),
    }
}

fn add_entries(x: &mut [Frac], entries: &[Entry], t: Frac) -> Result<(), Stop> {
    for entry in entries {
        if entry.at < x.len() {
            x[entry.at] = fused(t, entry.number, x[entry.at])?;
        }
    }
    Ok(())
}

// c minus the products of a column's entries with y.
fn reduced(model: &Model, y: &[Frac], v: usize, cost: Frac) -> Result<Frac, Stop> {
    match model.matrix.row_of(v) {
        Some(row) => difference(cost, number_at(y, row)),
        None => minus_products(model.matrix.by_column.list(v), y, cost),
    }
}

fn minus_products(entries: &[Entry], y: &[Frac], first: Frac) -> Result<Frac, Stop> {
    let mut rest = first;
    for entry in entries {
        let number = number_at(y, entry.at);
        if !number.is_zero() {
            rest = fused(number.neg(), entry.number, rest)?;
        }
    }
    Ok(rest)
}

/// The prices of all variables at these weights of rows, for the costs that are given.
pub fn prices_at(
    alloc: Global,
    model: &Model,
    y: &[Frac],
    costs: &[Frac],
) -> Result<Vec<Frac>, Stop> {
    let mut prices = Vec::with_capacity(alloc, costs.len())?;
    for v in 0..costs.len() {
        add(&mut prices, reduced(model, y, v, costs[v])?)?;
    }
    Ok(prices)
}

// Whether the variable may have a number in the row, which is noted.
#[inline]
fn is_open(v: usize, marks: &mut [Mark], touched: &mut Vec<usize>) -> Result<bool, Stop> {
    match at(marks, v, Mark::Closed) {
        Mark::Closed => Ok(false),
        Mark::Touched => Ok(true),
        Mark::Open => {
            put(marks, v, Mark::Touched);
            add(touched, v)?;
            Ok(true)
        }
    }
}

// The right side of a system.
#[derive(Clone, Copy)]
enum Given<'a> {
    // 1 at a place
    Unit(usize),
    Entries(&'a [Entry]),
    Numbers(&'a [Frac]),
}

impl Given<'_> {
    fn load(self, work: &mut Scaled) -> Result<(), Stop> {
        match self {
            Given::Unit(place) => {
                work.become_unit(place);
                Ok(())
            }
            Given::Entries(entries) => work.become_entries(entries),
            Given::Numbers(numbers) => work.become_numbers(numbers),
        }
    }

    // Solves B x = a over one denominator; where that does not fit, once more in less room.
    fn solve_columns(self, factors: &Factors, work: &mut Scaled) -> Result<(), Stop> {
        self.load(work)?;
        match factors.solve_columns(work) {
            Err(Stop::NoFit) => {}
            outcome => return outcome,
        }
        self.load(work)?;
        work.save_room();
        factors.solve_columns(work)
    }

    // Solves y B = c in the same way.
    fn solve_rows(self, factors: &Factors, work: &mut Scaled) -> Result<(), Stop> {
        self.load(work)?;
        match factors.solve_rows(work) {
            Err(Stop::NoFit) => {}
            outcome => return outcome,
        }
        self.load(work)?;
        work.save_room();
        factors.solve_rows(work)
    }
}

// A variable's column.
fn column_of(model: &Model, v: usize) -> Given<'_> {
    match model.matrix.row_of(v) {
        Some(row) => Given::Unit(row),
        None => Given::Entries(model.matrix.by_column.list(v)),
    }
}

// The sum with a product, where the word of its first factor is there if it is one.
#[inline(always)]
fn plus_multiple(sum: i128, y: i128, word: Option<i64>, a: i128) -> Result<i128, Stop> {
    match (word, i64::try_from(a)) {
        (Some(y), Ok(a)) => match sum.checked_add(i128::from(y) * i128::from(a)) {
            Some(sum) => Ok(sum),
            None => Err(Stop::NoFit),
        },
        _ => plus_product(sum, y, a),
    }
}

impl State {
    // ---- systems of the basis

    // Solves B x = a: over one denominator, else in fractions. Where numbers on the way do not fit, they are lifted.
    fn solve_columns(&mut self, alloc: Global, a: &[Frac]) -> Result<Vec<Entry>, Stop> {
        match self.columns_over_one(alloc, a) {
            Err(Stop::NoFit) => entries_of(alloc, &self.columns_in_fractions(alloc, a)?),
            outcome => outcome,
        }
    }

    fn columns_over_one(&mut self, alloc: Global, a: &[Frac]) -> Result<Vec<Entry>, Stop> {
        let State { factors, work, .. } = self;
        Given::Numbers(a).solve_columns(factors, work)?;
        work.entries(alloc)
    }

    fn columns_in_fractions(&self, alloc: Global, a: &[Frac]) -> Result<Vec<Frac>, Stop> {
        let mut x = Fractions {
            numbers: copied(alloc, a)?,
        };
        match self.factors.solve_columns(&mut x) {
            Ok(()) => Ok(x.numbers),
            Err(Stop::NoFit) => lifted_columns(alloc, &self.model.matrix, &self.slots, a),
            Err(stop) => Err(stop),
        }
    }

    // Solves y B = c in the same way.
    fn solve_rows(&self, alloc: Global, c: &[Frac]) -> Result<Vec<Frac>, Stop> {
        match self.rows_over_one(alloc, c) {
            Err(Stop::NoFit) => self.rows_in_fractions(alloc, c),
            outcome => outcome,
        }
    }

    fn rows_over_one(&self, alloc: Global, c: &[Frac]) -> Result<Vec<Frac>, Stop> {
        let mut y = Scaled::zeros(alloc, c.len())?;
        Given::Numbers(c).solve_rows(&self.factors, &mut y)?;
        y.fractions(alloc)
    }

    fn rows_in_fractions(&self, alloc: Global, c: &[Frac]) -> Result<Vec<Frac>, Stop> {
        let mut y = Fractions {
            numbers: copied(alloc, c)?,
        };
        match self.factors.solve_rows(&mut y) {
            Ok(()) => Ok(y.numbers),
            Err(Stop::NoFit) => lifted_rows(alloc, &self.model.matrix, &self.slots, c),
            Err(stop) => Err(stop),
        }
    }

    // ---- values and prices from the basis

    /// Finds the values of the basic variables anew.
    pub fn find_values(&mut self, alloc: Global) -> Result<(), Stop> {
        self.objective = None;
        let mut x = zeros(alloc, self.model.matrix.rows)?;
        for v in 0..self.values.len() {
            let value = self.values[v];
            if !value.is_zero() && !self.is_basic(v) {
                add_column(&mut x, &self.model, v, value.neg())?;
            }
        }
        let x = self.solve_columns(alloc, &x)?;
        self.set_values(&x);
        self.look_at_all()
    }

    fn set_values(&mut self, x: &[Entry]) {
        for slot in 0..self.slots.len() {
            let v = self.slots[slot];
            put(&mut self.values, v, Frac::zero());
        }
        for entry in x {
            let v = self.variable_at(entry.at);
            put(&mut self.values, v, entry.number);
        }
    }

    /// The weights of the rows at this basis, for the costs that are given.
    pub fn row_weights(&self, alloc: Global, costs: &[Frac]) -> Result<Vec<Frac>, Stop> {
        let mut y = Vec::with_capacity(alloc, self.slots.len())?;
        for v in &self.slots {
            add(&mut y, number_at(costs, *v))?;
        }
        self.solve_rows(alloc, &y)
    }

    /// Finds the prices of all variables anew, but for those of fixed ones.
    pub fn find_prices(&mut self, alloc: Global) -> Result<(), Stop> {
        let y = self.row_weights(alloc, &self.costs)?;
        let mut prices = zeros(alloc, self.costs.len())?;
        for v in 0..self.costs.len() {
            if !self.is_basic(v) && !self.is_fixed(v) {
                let price = reduced(&self.model, &y, v, number_at(&self.costs, v))?;
                put(&mut prices, v, price);
            }
        }
        self.prices.become_plain(prices);
        Ok(())
    }

    /// Keeps the prices as fractions from now on, so that their sizes are told as those of fractions.
    pub fn split_prices(&mut self) -> Result<(), Stop> {
        self.prices.stay_plain()
    }

    /// The prices of the variables that rest, and 0 for the others, at these weights of rows and for these costs.
    pub fn resting_prices(
        &self,
        alloc: Global,
        y: &[Frac],
        costs: &[Frac],
    ) -> Result<Vec<Frac>, Stop> {
        let mut prices = zeros(alloc, costs.len())?;
        for v in 0..costs.len() {
            if !self.is_basic(v) {
                put(&mut prices, v, reduced(&self.model, y, v, costs[v])?);
            }
        }
        Ok(prices)
    }

    /// The prices of all variables, for the true costs: steps keep them up to date but for those of fixed variables, and where costs
    /// are shifted.
    pub fn true_prices(&self, alloc: Global) -> Result<Vec<Frac>, Stop> {
        let y = self.row_weights(alloc, &self.model.costs)?;
        if self.costs_are_shifted {
            return self.resting_prices(alloc, &y, &self.model.costs);
        }
        let mut prices = self.prices.fractions(alloc)?;
        for v in 0..prices.len() {
            if self.is_fixed(v) && !self.is_basic(v) {
                prices[v] = reduced(&self.model, &y, v, self.model.cost_of(v))?;
            }
        }
        Ok(prices)
    }

    // ---- rows and columns of the table

    /// The column of a variable by slots.
    pub fn solved_column(&mut self, alloc: Global, v: usize) -> Result<Solved, Stop> {
        match self.column_over_one(alloc, v) {
            Err(Stop::NoFit) => self.column_in_fractions(alloc, v),
            outcome => outcome,
        }
    }

    fn column_over_one(&mut self, alloc: Global, v: usize) -> Result<Solved, Stop> {
        let State {
            model,
            factors,
            work,
            ..
        } = self;
        column_of(model, v).solve_columns(factors, work)?;
        let entries = work.entries(alloc)?;
        Ok(Solved { entries })
    }

    fn column_in_fractions(&self, alloc: Global, v: usize) -> Result<Solved, Stop> {
        let mut column = zeros(alloc, self.model.matrix.rows)?;
        add_column(&mut column, &self.model, v, Frac::one())?;
        let numbers = self.columns_in_fractions(alloc, &column)?;
        let entries = entries_of(alloc, &numbers)?;
        Ok(Solved { entries })
    }

    /// Finds a slot's row of the inverse, and from it the numbers of its row of the table, for the resting variables that
    /// may move. Both are times the row's scale.
    pub fn find_row(&mut self, alloc: Global, slot: usize) -> Result<Row, Stop> {
        match self.find_whole_row(alloc, slot) {
            Err(Stop::NoFit) => self.find_plain_row(alloc, slot),
            outcome => outcome,
        }
    }

    fn find_whole_row(&mut self, alloc: Global, slot: usize) -> Result<Row, Stop> {
        self.solve_unit_row(slot)?;
        self.find_scaled_entries(alloc)
    }

    fn solve_unit_row(&mut self, slot: usize) -> Result<(), Stop> {
        let State { factors, work, .. } = self;
        Given::Unit(slot).solve_rows(factors, work)
    }

    // Of the row in the work vector.
    fn find_scaled_entries(&mut self, alloc: Global) -> Result<Row, Stop> {
        let row = Row {
            scale: whole(self.work.scale())?,
            entries: self.work.whole_entries(alloc)?,
        };
        self.find_entries(&row)?;
        Ok(row)
    }

    // Its numbers as they are, where they do not fit over one denominator.
    fn find_plain_row(&mut self, alloc: Global, slot: usize) -> Result<Row, Stop> {
        let numbers = self.rows_in_fractions(alloc, &self.unit(alloc, slot)?)?;
        match self.find_joined_row(alloc, &numbers) {
            Err(Stop::NoFit) => {}
            outcome => return outcome,
        }
        let row = Row {
            scale: Frac::one(),
            entries: entries_of(alloc, &numbers)?,
        };
        self.find_entries(&row)?;
        Ok(row)
    }

    fn find_joined_row(&mut self, alloc: Global, numbers: &[Frac]) -> Result<Row, Stop> {
        self.work.become_numbers(numbers)?;
        self.find_scaled_entries(alloc)
    }

    fn unit(&self, alloc: Global, slot: usize) -> Result<Vec<Frac>, Stop> {
        let mut unit = zeros(alloc, self.model.matrix.rows)?;
        put(&mut unit, slot, Frac::one());
        Ok(unit)
    }

    fn find_entries(&mut self, row: &Row) -> Result<(), Stop> {
        if self.model.is_whole {
            match self.find_whole_entries(row) {
                Err(Stop::NoFit) => {}
                outcome => return outcome,
            }
        }
        self.clear_entries();
        self.scale = row.scale;
        for entry in &row.entries {
            self.touch_row(entry.at, entry.number)?;
        }
        Ok(())
    }

    // As whole numbers, where the matrix has no others.
    fn find_whole_entries(&mut self, row: &Row) -> Result<(), Stop> {
        self.clear_entries();
        self.scale = row.scale;
        for entry in &row.entries {
            self.touch_whole_row(entry.at, whole_part(entry.number)?)?;
        }
        self.take_sums()
    }

    fn touch_whole_row(&mut self, row: usize, y: i128) -> Result<(), Stop> {
        let State {
            model,
            sums,
            touched,
            marks,
            ..
        } = self;
        let word = i64::try_from(y).ok();
        let own = model.matrix.variable_of(row);
        if is_open(own, marks, touched)? {
            put(sums, own, y);
        }
        for entry in model.matrix.by_row.list(row) {
            let v = entry.at;
            if v < sums.len() && is_open(v, marks, touched)? {
                sums[v] = plus_multiple(sums[v], y, word, entry.number.parts().0)?;
            }
        }
        Ok(())
    }

    fn take_sums(&mut self) -> Result<(), Stop> {
        for i in 0..self.touched.len() {
            let v = at(&self.touched, i, 0);
            put(&mut self.entries, v, whole(at(&self.sums, v, 0))?);
        }
        Ok(())
    }

    fn clear_entries(&mut self) {
        for i in 0..self.touched.len() {
            let v = at(&self.touched, i, 0);
            put(&mut self.entries, v, Frac::zero());
            put(&mut self.sums, v, 0);
            if at(&self.marks, v, Mark::Closed) == Mark::Touched {
                put(&mut self.marks, v, Mark::Open);
            }
        }
        self.touched.clear();
    }

    fn touch_row(&mut self, row: usize, y: Frac) -> Result<(), Stop> {
        let State {
            model,
            entries,
            touched,
            marks,
            ..
        } = self;
        let word = word(y);
        let own = model.matrix.variable_of(row);
        if is_open(own, marks, touched)? {
            put(entries, own, y);
        }
        for entry in model.matrix.by_row.list(row) {
            let v = entry.at;
            if v < entries.len() && is_open(v, marks, touched)? {
                entries[v] = fused_by_word(y, word, entry.number, entries[v])?;
            }
        }
        Ok(())
    }

    // ---- a step

    /// A resting variable rises by t, and the basic ones follow.
    pub fn move_by(&mut self, column: &Solved, t: Frac, q: usize) -> Result<(), Stop> {
        if t.is_zero() {
            return Ok(());
        }
        self.follow_objective(t, q);
        let back = t.neg();
        for entry in &column.entries {
            let v = self.variable_at(entry.at);
            let value = fused(back, entry.number, self.value_of(v))?;
            put(&mut self.values, v, value);
            self.look_at(entry.at)?;
        }
        let value = sum(self.value_of(q), t)?;
        put(&mut self.values, q, value);
        Ok(())
    }

    // The objective's value, where a resting variable rises by t.
    fn follow_objective(&mut self, t: Frac, v: usize) {
        self.objective = match self.objective {
            Some(value) if !self.costs_are_shifted => fused(t, self.price_of(v), value).ok(),
            _ => None,
        };
    }

    /// Changes the prices where q becomes basic and the variable `out` rests: over one denominator, else in fractions. Where a factor
    /// of these does not fit, the row is taken without its scale.
    pub fn update_prices(&mut self, q: usize, out: usize) -> Result<(), Stop> {
        let leaves = if self.is_fixed(out) { None } else { Some(out) };
        if self.update_over_one(q, leaves)? {
            return Ok(());
        }
        if !self.has_factor(q) {
            self.unscale()?;
        }
        self.update_fractions(q, leaves)
    }

    fn update_over_one(&mut self, q: usize, leaves: Option<usize>) -> Result<bool, Stop> {
        let State {
            prices,
            touched,
            entries,
            scale,
            ..
        } = self;
        prices.exchange_over_one(&Exchange {
            enters: q,
            leaves,
            touched,
            entries,
            scale: *scale,
        })
    }

    fn update_fractions(&mut self, q: usize, leaves: Option<usize>) -> Result<(), Stop> {
        let State {
            prices,
            touched,
            entries,
            scale,
            ..
        } = self;
        prices.exchange_plain(&Exchange {
            enters: q,
            leaves,
            touched,
            entries,
            scale: *scale,
        })
    }

    fn has_factor(&self, q: usize) -> bool {
        price_factor(self.price_of(q), number_at(&self.entries, q), self.scale).is_ok()
    }

    /// Takes the scale off the numbers of the row.
    pub fn unscale(&mut self) -> Result<(), Stop> {
        for i in 0..self.touched.len() {
            let v = at(&self.touched, i, 0);
            let entry = quotient(number_at(&self.entries, v), self.scale)?;
            put(&mut self.entries, v, entry);
        }
        self.scale = Frac::one();
        Ok(())
    }

    /// q takes the slot; the variable there rests.
    pub fn exchange(
        &mut self,
        alloc: Global,
        slot: usize,
        q: usize,
        above: bool,
        column: &Solved,
    ) -> Result<(), Stop> {
        let out = self.variable_at(slot);
        put(&mut self.at_upper, out, above);
        put(&mut self.places, out, None);
        put(&mut self.places, q, Some(slot));
        put(&mut self.slots, slot, q);
        self.mark(out);
        self.mark(q);
        self.factors.exchange(slot, &column.entries)?;
        self.look_at(slot)?;
        if self.is_worn() {
            self.try_to_refactor(alloc)?;
            self.look_at_all()?;
            self.prices.join();
        }
        Ok(())
    }

    /// Lets resting variables rest at their other bounds; the basic ones follow.
    pub fn flip_all(&mut self, alloc: Global, flips: &[usize]) -> Result<(), Stop> {
        let mut x = zeros(alloc, self.model.matrix.rows)?;
        for v in flips {
            let old = self.value_of(*v);
            self.flip(*v);
            let way = difference(old, self.value_of(*v))?;
            self.follow_objective(way.neg(), *v);
            add_column(&mut x, &self.model, *v, way)?;
        }
        let x = self.solve_columns(alloc, &x)?;
        self.add_values(&x)
    }

    fn add_values(&mut self, x: &[Entry]) -> Result<(), Stop> {
        for entry in x {
            let v = self.variable_at(entry.at);
            let value = sum(self.value_of(v), entry.number)?;
            put(&mut self.values, v, value);
            self.look_at(entry.at)?;
        }
        Ok(())
    }
}
