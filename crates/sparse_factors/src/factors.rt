// Factors of a basis, B = L U, with a list of the columns that were exchanged since. Slots are named by the rows of
// their pivots; the rows' own variables are unit columns and cost nothing.
use crate::elimination::Elimination;
use crate::lists::{Entry, Lists, number_in};
use crate::matrix::Matrix;
use crate::numbers::quotient;
use crate::stop::Stop;
use crate::unknowns::Unknowns;
use crate::vectors::{add, at, copied, filled, number_at, put};
use fraction::Frac;
use std::alloc::Global;

// A column that took a slot: 1 over its number there.
#[derive(Clone, Copy)]
struct Change {
    slot: usize,
    inverse: Frac,
}

/// The factors of a basis.
#[derive(Drop)]
pub struct Factors {
    order: Vec<usize>,
    sequence: Sequence,
    inverses: Vec<Frac>,
    lower_columns: Lists,
    lower_rows: Lists,
    upper_columns: Lists,
    upper_rows: Lists,
    passes: Passes,
    changes: Vec<Change>,
    change_entries: Lists,
}

// All rows, those whose own variables are basic before those in `order`, and the rank that each row has among them. Where few numbers are
// other than 0, a pass goes from one of these to the next by their ranks.
#[derive(Drop)]
struct Sequence {
    rows: Vec<usize>,
    ranks: Vec<usize>,
    // how many rows stand before those in `order`
    first: usize,
}

// The places in `order`, or the rows there, at which a pass has something to do: most lists are empty, and most pivots are 1.
#[derive(Drop)]
struct Passes {
    lower_places: Vec<usize>,
    lower_rows: Vec<usize>,
    upper_places: Vec<usize>,
    upper_rows: Vec<usize>,
    slack_rows: Vec<usize>,
}

/// The factors of a basis, and the variable of each slot.
#[derive(Drop)]
pub struct Factored {
    pub factors: Factors,
    pub slots: Vec<usize>,
}

/// Factors the basis that is made of these variables. Where their columns depend on each other, rows' own variables
/// take the place of some of them.
pub fn factorise(alloc: Global, matrix: &Matrix, basic: &[usize]) -> Result<Factored, Stop> {
    let mut elimination = Elimination::start(alloc, matrix, basic)?;
    take_pivots(alloc, &mut elimination)?;
    elimination.fill_up(matrix)?;
    let Elimination {
        slots,
        slack_rows,
        order,
        inverses,
        lower,
        upper,
        ..
    } = elimination;
    let lower_rows = lower.turned(alloc, &order, matrix.rows)?;
    let upper_rows = upper.turned(alloc, &order, matrix.rows)?;
    let slots = all_slots(alloc, matrix, &slots)?;
    let passes = Passes {
        lower_places: filled_lists(alloc, &lower)?,
        lower_rows: with_lists(alloc, &order, &lower_rows)?,
        upper_places: dividing_places(alloc, &order, &inverses, &upper)?,
        upper_rows: dividing_rows(alloc, &order, &inverses, &upper_rows)?,
        slack_rows: with_lists(alloc, &slack_rows, &upper_rows)?,
    };
    let factors = Factors {
        sequence: sequence_of(alloc, &slack_rows, &order)?,
        order,
        inverses,
        lower_columns: lower,
        lower_rows,
        upper_columns: upper,
        upper_rows,
        passes,
        changes: Vec::new(alloc),
        change_entries: Lists::new(alloc),
    };
    Ok(Factored { factors, slots })
}

fn take_pivots(alloc: Global, elimination: &mut Elimination) -> Result<(), Stop> {
    for _ in 0..elimination.columns.len() {
        match elimination.next_pivot() {
            Some(pivot) => elimination.take(alloc, pivot)?,
            None => return Ok(()),
        }
    }
    Ok(())
}

fn all_slots(alloc: Global, matrix: &Matrix, slots: &[Option<usize>]) -> Result<Vec<usize>, Stop> {
    let mut all = Vec::with_capacity(alloc, slots.len())?;
    for row in 0..slots.len() {
        match slots[row] {
            Some(v) => add(&mut all, v)?,
            None => add(&mut all, matrix.variable_of(row))?,
        }
    }
    Ok(all)
}

fn sequence_of(alloc: Global, slack_rows: &[usize], order: &[usize]) -> Result<Sequence, Stop> {
    let mut rows = copied(alloc, slack_rows)?;
    for row in order {
        add(&mut rows, *row)?;
    }
    let mut ranks = filled(alloc, rows.len(), 0)?;
    for rank in 0..rows.len() {
        put(&mut ranks, rows[rank], rank);
    }
    Ok(Sequence {
        rows,
        ranks,
        first: slack_rows.len(),
    })
}

// The lists that have entries.
fn filled_lists(alloc: Global, lists: &Lists) -> Result<Vec<usize>, Stop> {
    let mut places = Vec::new(alloc);
    for k in 0..lists.count() {
        if !lists.list(k).is_empty() {
            add(&mut places, k)?;
        }
    }
    Ok(places)
}

// Those of these rows whose lists have entries.
fn with_lists(alloc: Global, rows: &[usize], lists: &Lists) -> Result<Vec<usize>, Stop> {
    let mut kept = Vec::new(alloc);
    for row in rows {
        if !lists.list(*row).is_empty() {
            add(&mut kept, *row)?;
        }
    }
    Ok(kept)
}

// The places whose pivots are not 1 or whose lists have entries.
fn dividing_places(
    alloc: Global,
    order: &[usize],
    inverses: &[Frac],
    lists: &Lists,
) -> Result<Vec<usize>, Stop> {
    let mut places = Vec::new(alloc);
    for k in 0..order.len() {
        if number_at(inverses, order[k]) != Frac::one() || !lists.list(k).is_empty() {
            add(&mut places, k)?;
        }
    }
    Ok(places)
}

// The rows whose pivots are not 1 or whose lists have entries.
fn dividing_rows(
    alloc: Global,
    order: &[usize],
    inverses: &[Frac],
    lists: &Lists,
) -> Result<Vec<usize>, Stop> {
    let mut rows = Vec::new(alloc);
    for row in order {
        if number_at(inverses, *row) != Frac::one() || !lists.list(*row).is_empty() {
            add(&mut rows, *row)?;
        }
    }
    Ok(rows)
}

impl Factors {
    /// No change came since the basis was factored.
    pub fn is_fresh(&self) -> bool {
        self.changes.is_empty()
    }

    /// It is time to factor anew.
    pub fn is_worn(&self, most: usize) -> bool {
        let lower = self.lower_columns.entry_count();
        let upper = self.upper_columns.entry_count();
        let room = lower
            .saturating_add(upper)
            .saturating_add(self.inverses.len());
        self.changes.len() >= most || self.change_entries.entry_count() / 2 > room
    }

    /// A column takes a slot: its numbers other than 0, by slots.
    pub fn exchange(&mut self, slot: usize, column: &[Entry]) -> Result<(), Stop> {
        let inverse = quotient(Frac::one(), number_in(column, slot))?;
        add(&mut self.changes, Change { slot, inverse })?;
        for entry in column {
            if entry.at != slot {
                self.change_entries.put(*entry)?;
            }
        }
        self.change_entries.close()
    }

    // ---- B x = a

    /// Solves B x = a, where a is given and x comes in its place, by slots.
    pub fn solve_columns<U: Unknowns>(&self, x: &mut U) -> Result<(), Stop> {
        self.lower_forward(x)?;
        self.upper_backward(x)?;
        self.changes_forward(x)
    }

    fn lower_forward<U: Unknowns>(&self, x: &mut U) -> Result<(), Stop> {
        for k in &self.passes.lower_places {
            let row = at(&self.order, *k, 0);
            if !x.is_zero(row) {
                x.subtract_multiple(self.lower_columns.list(*k), row)?;
            }
        }
        Ok(())
    }

    fn upper_backward<U: Unknowns>(&self, x: &mut U) -> Result<(), Stop> {
        match self.few_backward(x)? {
            None => Ok(()),
            Some(end) => self.all_backward(x, end),
        }
    }

    // While few numbers are other than 0: none where all is done, else the place from which on it is.
    fn few_backward<U: Unknowns>(&self, x: &mut U) -> Result<Option<usize>, Stop> {
        let mut end = usize::MAX;
        for _ in 0..self.order.len() {
            if !x.are_few(self.passes.upper_places.len()) {
                return Ok(Some(end));
            }
            match self.last_place(x, end) {
                None => return Ok(None),
                Some(k) => {
                    self.divide_column(x, k)?;
                    end = k;
                }
            }
        }
        Ok(None)
    }

    // At all places before `end`.
    fn all_backward<U: Unknowns>(&self, x: &mut U, end: usize) -> Result<(), Stop> {
        for i in (0..self.passes.upper_places.len()).rev() {
            let k = at(&self.passes.upper_places, i, 0);
            if k < end && !x.is_zero(at(&self.order, k, 0)) {
                self.divide_column(x, k)?;
            }
        }
        Ok(())
    }

    // The last place before `end` whose row's number isn't 0.
    fn last_place<U: Unknowns>(&self, x: &U, end: usize) -> Option<usize> {
        let end = self.sequence.first.saturating_add(end);
        x.last_below(&self.sequence.ranks, end)?
            .checked_sub(self.sequence.first)
    }

    fn divide_column<U: Unknowns>(&self, x: &mut U, k: usize) -> Result<(), Stop> {
        let row = at(&self.order, k, 0);
        x.multiply(row, number_at(&self.inverses, row))?;
        x.subtract_multiple(self.upper_columns.list(k), row)
    }

    fn changes_forward<U: Unknowns>(&self, x: &mut U) -> Result<(), Stop> {
        for k in 0..self.changes.len() {
            let change = self.changes[k];
            if !x.is_zero(change.slot) {
                x.multiply(change.slot, change.inverse)?;
                x.subtract_multiple(self.change_entries.list(k), change.slot)?;
            }
        }
        Ok(())
    }

    // ---- y B = c

    /// Solves y B = c, where c is given by slots and y comes in its place, by rows.
    pub fn solve_rows<U: Unknowns>(&self, y: &mut U) -> Result<(), Stop> {
        self.changes_backward(y)?;
        self.upper_forward(y)?;
        self.lower_backward(y)
    }

    fn changes_backward<U: Unknowns>(&self, y: &mut U) -> Result<(), Stop> {
        for k in (0..self.changes.len()).rev() {
            if k < self.changes.len() {
                let change = self.changes[k];
                y.subtract_products(self.change_entries.list(k), change.slot)?;
                if !y.is_zero(change.slot) {
                    y.multiply(change.slot, change.inverse)?;
                }
            }
        }
        Ok(())
    }

    fn upper_forward<U: Unknowns>(&self, y: &mut U) -> Result<(), Stop> {
        match self.few_forward(y)? {
            None => Ok(()),
            Some(from) => {
                self.slacks_forward(y, from)?;
                self.pivots_forward(y, from)
            }
        }
    }

    // While few numbers are other than 0: none where all is done, else the rank up to which it is.
    fn few_forward<U: Unknowns>(&self, y: &mut U) -> Result<Option<usize>, Stop> {
        let slacks = self.passes.slack_rows.len();
        let count = slacks.saturating_add(self.passes.upper_rows.len());
        let mut from: usize = 0;
        for _ in 0..self.sequence.rows.len() {
            if !y.are_few(count) {
                return Ok(Some(from));
            }
            match y.first_from(&self.sequence.ranks, from) {
                None => return Ok(None),
                Some(rank) => {
                    self.divide_row(y, at(&self.sequence.rows, rank, 0))?;
                    from = rank.saturating_add(1);
                }
            }
        }
        Ok(None)
    }

    fn slacks_forward<U: Unknowns>(&self, y: &mut U, from: usize) -> Result<(), Stop> {
        for row in &self.passes.slack_rows {
            if !y.is_zero(*row) && self.rank_of(*row) >= from {
                y.subtract_multiple(self.upper_rows.list(*row), *row)?;
            }
        }
        Ok(())
    }

    fn pivots_forward<U: Unknowns>(&self, y: &mut U, from: usize) -> Result<(), Stop> {
        for row in &self.passes.upper_rows {
            if !y.is_zero(*row) && self.rank_of(*row) >= from {
                self.divide_row(y, *row)?;
            }
        }
        Ok(())
    }

    fn divide_row<U: Unknowns>(&self, y: &mut U, row: usize) -> Result<(), Stop> {
        y.multiply(row, number_at(&self.inverses, row))?;
        y.subtract_multiple(self.upper_rows.list(row), row)
    }

    fn lower_backward<U: Unknowns>(&self, y: &mut U) -> Result<(), Stop> {
        for i in (0..self.passes.lower_rows.len()).rev() {
            let row = at(&self.passes.lower_rows, i, 0);
            if !y.is_zero(row) {
                y.subtract_multiple(self.lower_rows.list(row), row)?;
            }
        }
        Ok(())
    }

    fn rank_of(&self, row: usize) -> usize {
        at(&self.sequence.ranks, row, 0)
    }
}
