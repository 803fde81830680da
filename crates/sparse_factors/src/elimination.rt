// Which entries are pivots of a basis, and what is left of its columns meanwhile.
use crate::lists::{Entry, Lists};
use crate::matrix::Matrix;
use crate::numbers::{digits, fused, product, quotient};
use crate::stop::Stop;
use crate::vectors::{
    add, add_to, at, count_down, count_up, empty_lists, filled, put, put_list, take_list,
};
use fraction::Frac;
use std::alloc::Global;

/// The entry in a row and a column, named by its place among the basis' columns.
#[derive(Clone, Copy)]
pub(crate) struct Pivot {
    pub row: usize,
    pub column: usize,
}

// An entry that may be a pivot: how many numbers it may fill in, and how long it is.
#[derive(Clone, Copy)]
struct Choice {
    fill: usize,
    digits: i32,
    pivot: Pivot,
}

/// A basis that is being factored.
#[derive(Drop)]
pub(crate) struct Elimination {
    // the variables of the columns that are no rows' variables
    pub columns: Vec<usize>,
    // the variable that has its pivot in a row
    pub slots: Vec<Option<usize>>,
    // the rows whose own variables are basic
    pub slack_rows: Vec<usize>,
    // the rows of the pivots, in order
    pub order: Vec<usize>,
    // 1 over the pivot, by row
    pub inverses: Vec<Frac>,
    // below and above the pivots, by place in `order`
    pub lower: Lists,
    pub upper: Lists,
    // what is left of each row, and the upper part of each column so far
    rows: Vec<Vec<Entry>>,
    above: Vec<Vec<Entry>>,
    // the rows in which each column may have entries, and how many it has left
    in_rows: Vec<Vec<usize>>,
    left: Vec<usize>,
    is_open: Vec<bool>,
    open_rows: Vec<usize>,
    open_columns: Vec<usize>,
    single_rows: Vec<usize>,
    single_columns: Vec<usize>,
    // where a column's entry stands in a row, from 1; 0 where it has none
    marks: Vec<usize>,
}

impl Elimination {
    /// The basis made of these variables, with nothing done yet.
    pub(crate) fn start(
        alloc: Global,
        matrix: &Matrix,
        basic: &[usize],
    ) -> Result<Elimination, Stop> {
        let columns = columns_among(alloc, matrix, basic)?;
        let slack_rows = rows_among(alloc, matrix, basic)?;
        let count = columns.len();
        let mut elimination = Elimination {
            slots: slots_of(alloc, matrix, &slack_rows)?,
            slack_rows,
            order: Vec::new(alloc),
            inverses: filled(alloc, matrix.rows, Frac::one())?,
            lower: Lists::new(alloc),
            upper: Lists::new(alloc),
            rows: empty_lists(alloc, matrix.rows)?,
            above: empty_lists(alloc, count)?,
            in_rows: empty_lists(alloc, count)?,
            left: filled(alloc, count, 0)?,
            is_open: filled(alloc, count, true)?,
            open_rows: Vec::new(alloc),
            open_columns: Vec::new(alloc),
            single_rows: Vec::new(alloc),
            single_columns: Vec::new(alloc),
            marks: filled(alloc, count, 0)?,
            columns,
        };
        elimination.load_all(matrix)?;
        elimination.list_columns()?;
        elimination.list_rows(matrix.rows)?;
        Ok(elimination)
    }

    fn load_all(&mut self, matrix: &Matrix) -> Result<(), Stop> {
        for k in 0..self.columns.len() {
            let variable = at(&self.columns, k, 0);
            self.load(k, matrix.by_column.list(variable))?;
        }
        Ok(())
    }

    fn load(&mut self, k: usize, entries: &[Entry]) -> Result<(), Stop> {
        for entry in entries {
            if self.is_done(entry.at) {
                add_to(&mut self.above, k, *entry)?;
            } else {
                let turned = Entry {
                    at: k,
                    number: entry.number,
                };
                add_to(&mut self.rows, entry.at, turned)?;
                add_to(&mut self.in_rows, k, entry.at)?;
                count_up(&mut self.left, k);
            }
        }
        Ok(())
    }

    fn list_columns(&mut self) -> Result<(), Stop> {
        for k in 0..self.columns.len() {
            add(&mut self.open_columns, k)?;
            if at(&self.left, k, 0) == 1 {
                add(&mut self.single_columns, k)?;
            }
        }
        Ok(())
    }

    fn list_rows(&mut self, rows: usize) -> Result<(), Stop> {
        for row in 0..rows {
            if self.is_done(row) {
                continue;
            }
            add(&mut self.open_rows, row)?;
            if self.length_of(row) == 1 {
                add(&mut self.single_rows, row)?;
            }
        }
        Ok(())
    }

    // The row has its pivot.
    #[inline]
    fn is_done(&self, row: usize) -> bool {
        at(&self.slots, row, None).is_some()
    }

    fn row(&self, row: usize) -> &[Entry] {
        if row < self.rows.len() {
            &self.rows[row]
        } else {
            &[]
        }
    }

    fn length_of(&self, row: usize) -> usize {
        self.row(row).len()
    }

    fn rows_of(&self, column: usize) -> &[usize] {
        if column < self.in_rows.len() {
            &self.in_rows[column]
        } else {
            &[]
        }
    }

    // ---- which pivot comes next

    /// The next pivot: of a column or a row with one entry, else one that fills in little.
    pub(crate) fn next_pivot(&mut self) -> Option<Pivot> {
        match self.single_column() {
            Some(pivot) => return Some(pivot),
            None => {}
        }
        match self.single_row() {
            Some(pivot) => return Some(pivot),
            None => {}
        }
        self.keep_open_rows();
        self.keep_open_columns();
        self.least_fill()
    }

    fn single_column(&mut self) -> Option<Pivot> {
        for _ in 0..self.single_columns.len() {
            let column = self.single_columns.pop()?;
            if at(&self.is_open, column, false) && at(&self.left, column, 0) == 1 {
                match self.open_row_of(column) {
                    Some(row) => return Some(Pivot { row, column }),
                    None => {}
                }
            }
        }
        None
    }

    fn open_row_of(&self, column: usize) -> Option<usize> {
        for row in self.rows_of(column) {
            if !self.is_done(*row) {
                return Some(*row);
            }
        }
        None
    }

    fn single_row(&mut self) -> Option<Pivot> {
        for _ in 0..self.single_rows.len() {
            let row = self.single_rows.pop()?;
            if !self.is_done(row) && self.length_of(row) == 1 {
                match self.row(row).first() {
                    Some(entry) => {
                        return Some(Pivot {
                            row,
                            column: entry.at,
                        });
                    }
                    None => {}
                }
            }
        }
        None
    }

    // Drops the rows that are done or empty from the list of open ones.
    fn keep_open_rows(&mut self) {
        let mut kept: usize = 0;
        for i in 0..self.open_rows.len() {
            let row = at(&self.open_rows, i, 0);
            if !self.is_done(row) && self.length_of(row) > 0 {
                put(&mut self.open_rows, kept, row);
                kept = kept.saturating_add(1);
            }
        }
        self.open_rows.truncate(kept);
    }

    fn keep_open_columns(&mut self) {
        let mut kept: usize = 0;
        for i in 0..self.open_columns.len() {
            let column = at(&self.open_columns, i, 0);
            if at(&self.is_open, column, false) && at(&self.left, column, 0) > 0 {
                put(&mut self.open_columns, kept, column);
                kept = kept.saturating_add(1);
            }
        }
        self.open_columns.truncate(kept);
    }

    // The entry that fills in least among the shortest row and the shortest column, the shortest number first.
    fn least_fill(&self) -> Option<Pivot> {
        let column = self.shortest_column()?;
        let row = self.shortest_row()?;
        let best = self.best_in_row(row, self.best_in_column(column));
        match best {
            Some(choice) => Some(choice.pivot),
            None => None,
        }
    }

    fn shortest_column(&self) -> Option<usize> {
        let mut best = None;
        let mut least = usize::MAX;
        for column in &self.open_columns {
            let left = at(&self.left, *column, 0);
            if left < least {
                least = left;
                best = Some(*column);
            }
        }
        best
    }

    fn shortest_row(&self) -> Option<usize> {
        let mut best = None;
        let mut least = usize::MAX;
        for row in &self.open_rows {
            let length = self.length_of(*row);
            if length < least {
                least = length;
                best = Some(*row);
            }
        }
        best
    }

    fn best_in_column(&self, column: usize) -> Option<Choice> {
        let mut best = None;
        for row in self.rows_of(column) {
            if self.is_done(*row) {
                continue;
            }
            match entry_at(self.row(*row), column) {
                Some(number) => best = better(best, self.choice(*row, column, number)),
                None => {}
            }
        }
        best
    }

    fn best_in_row(&self, row: usize, before: Option<Choice>) -> Option<Choice> {
        let mut best = before;
        for entry in self.row(row) {
            best = better(best, self.choice(row, entry.at, entry.number));
        }
        best
    }

    fn choice(&self, row: usize, column: usize, number: Frac) -> Choice {
        let beside = self.length_of(row).saturating_sub(1);
        let below = at(&self.left, column, 0).saturating_sub(1);
        Choice {
            fill: beside.saturating_mul(below),
            digits: digits(number),
            pivot: Pivot { row, column },
        }
    }

    // ---- what a pivot does

    /// Takes a pivot: its column is done, and taken off the rows that are left.
    pub(crate) fn take(&mut self, alloc: Global, pivot: Pivot) -> Result<(), Stop> {
        put(&mut self.is_open, pivot.column, false);
        let row = take_list(alloc, &mut self.rows, pivot.row);
        let number = match entry_at(&row, pivot.column) {
            Some(number) => number,
            None => return Err(Stop::NoFit),
        };
        let inverse = quotient(Frac::one(), number)?;
        let variable = at(&self.columns, pivot.column, 0);
        put(&mut self.slots, pivot.row, Some(variable));
        put(&mut self.inverses, pivot.row, inverse);
        add(&mut self.order, pivot.row)?;
        let above = take_list(alloc, &mut self.above, pivot.column);
        self.upper.add_list(&above)?;
        self.raise_row(&row, pivot)?;
        self.clear_column(alloc, &row, pivot, inverse)
    }

    // The row's other entries belong to the upper part of their columns.
    fn raise_row(&mut self, row: &[Entry], pivot: Pivot) -> Result<(), Stop> {
        for entry in row {
            if entry.at == pivot.column {
                continue;
            }
            let raised = Entry {
                at: pivot.row,
                number: entry.number,
            };
            add_to(&mut self.above, entry.at, raised)?;
            self.shorten(entry.at)?;
        }
        Ok(())
    }

    // A column has one entry less.
    fn shorten(&mut self, column: usize) -> Result<(), Stop> {
        if count_down(&mut self.left, column) == 1 {
            add(&mut self.single_columns, column)?;
        }
        Ok(())
    }

    fn clear_column(
        &mut self,
        alloc: Global,
        row: &[Entry],
        pivot: Pivot,
        inverse: Frac,
    ) -> Result<(), Stop> {
        let others = take_list(alloc, &mut self.in_rows, pivot.column);
        for other in &others {
            if !self.is_done(*other) {
                self.clear_row(alloc, *other, row, pivot.column, inverse)?;
            }
        }
        self.lower.close()
    }

    // Takes a multiple of the pivot's row off another one, so that it has no entry in the pivot's column.
    fn clear_row(
        &mut self,
        alloc: Global,
        place: usize,
        row: &[Entry],
        column: usize,
        inverse: Frac,
    ) -> Result<(), Stop> {
        let mut other = take_list(alloc, &mut self.rows, place);
        match taken_out(&mut other, column) {
            None => {}
            Some(number) => {
                let factor = product(number, inverse)?;
                self.lower.put(Entry {
                    at: place,
                    number: factor,
                })?;
                if row.len() > 1 {
                    self.subtract(place, &mut other, row, column, factor)?;
                }
                if other.len() == 1 {
                    add(&mut self.single_rows, place)?;
                }
            }
        }
        put_list(&mut self.rows, place, other);
        Ok(())
    }

    fn subtract(
        &mut self,
        place: usize,
        other: &mut Vec<Entry>,
        row: &[Entry],
        column: usize,
        factor: Frac,
    ) -> Result<(), Stop> {
        self.mark(other);
        let minus = factor.neg();
        for entry in row {
            if entry.at != column {
                self.add_multiple(place, other, *entry, minus)?;
            }
        }
        self.unmark(other);
        self.drop_zeros(place, other)
    }

    fn mark(&mut self, entries: &[Entry]) {
        for i in 0..entries.len() {
            put(&mut self.marks, entries[i].at, i + 1);
        }
    }

    fn unmark(&mut self, entries: &[Entry]) {
        for entry in entries {
            put(&mut self.marks, entry.at, 0);
        }
    }

    // Adds a multiple of one entry to a row, which may get longer.
    fn add_multiple(
        &mut self,
        place: usize,
        other: &mut Vec<Entry>,
        entry: Entry,
        factor: Frac,
    ) -> Result<(), Stop> {
        let mark = at(&self.marks, entry.at, 0);
        match mark.checked_sub(1) {
            Some(i) if i < other.len() => {
                let number = fused(factor, entry.number, other[i].number)?;
                other[i] = Entry {
                    at: entry.at,
                    number,
                };
                Ok(())
            }
            _ => {
                let number = product(factor, entry.number)?;
                add_to(&mut self.in_rows, entry.at, place)?;
                count_up(&mut self.left, entry.at);
                add(
                    other,
                    Entry {
                        at: entry.at,
                        number,
                    },
                )
            }
        }
    }

    fn drop_zeros(&mut self, place: usize, other: &mut Vec<Entry>) -> Result<(), Stop> {
        let mut kept: usize = 0;
        for i in 0..other.len() {
            let entry = other[i];
            if entry.number.is_zero() {
                self.forget(place, entry.at)?;
            } else {
                put(other, kept, entry);
                kept = kept.saturating_add(1);
            }
        }
        other.truncate(kept);
        Ok(())
    }

    // A column has no entry in this row any more.
    fn forget(&mut self, place: usize, column: usize) -> Result<(), Stop> {
        if column < self.in_rows.len() {
            drop_place(&mut self.in_rows[column], place);
        }
        self.shorten(column)
    }

    /// Where a row has no pivot, its own variable is basic.
    pub(crate) fn fill_up(&mut self, matrix: &Matrix) -> Result<(), Stop> {
        for row in 0..matrix.rows {
            if !self.is_done(row) {
                put(&mut self.slots, row, Some(matrix.variable_of(row)));
                add(&mut self.order, row)?;
                self.lower.close()?;
                self.upper.close()?;
            }
        }
        Ok(())
    }
}

fn columns_among(alloc: Global, matrix: &Matrix, basic: &[usize]) -> Result<Vec<usize>, Stop> {
    let mut columns = Vec::new(alloc);
    for v in basic {
        if *v < matrix.columns {
            add(&mut columns, *v)?;
        }
    }
    Ok(columns)
}

fn rows_among(alloc: Global, matrix: &Matrix, basic: &[usize]) -> Result<Vec<usize>, Stop> {
    let mut rows = Vec::new(alloc);
    for v in basic {
        match matrix.row_of(*v) {
            Some(row) => add(&mut rows, row)?,
            None => {}
        }
    }
    Ok(rows)
}

fn slots_of(alloc: Global, matrix: &Matrix, rows: &[usize]) -> Result<Vec<Option<usize>>, Stop> {
    let mut slots = filled(alloc, matrix.rows, None)?;
    for row in rows {
        put(&mut slots, *row, Some(matrix.variable_of(*row)));
    }
    Ok(slots)
}

// The number of the entry at a place.
fn entry_at(entries: &[Entry], place: usize) -> Option<Frac> {
    for entry in entries {
        if entry.at == place {
            return Some(entry.number);
        }
    }
    None
}

// The number of the entry at a place, which is taken out.
fn taken_out(entries: &mut Vec<Entry>, place: usize) -> Option<Frac> {
    let i = position_of(entries, place)?;
    if i < entries.len() {
        Some(entries.swap_remove(i).number)
    } else {
        None
    }
}

fn position_of(entries: &[Entry], place: usize) -> Option<usize> {
    for i in 0..entries.len() {
        if entries[i].at == place {
            return Some(i);
        }
    }
    None
}

fn drop_place(places: &mut Vec<usize>, place: usize) {
    let mut kept: usize = 0;
    for i in 0..places.len() {
        let other = places[i];
        if other != place {
            put(places, kept, other);
            kept = kept.saturating_add(1);
        }
    }
    places.truncate(kept);
}

// The choice that fills in less; of two alike the one with the shorter number, then the first.
fn better(best: Option<Choice>, other: Choice) -> Option<Choice> {
    match best {
        Some(best) if best.fill < other.fill => Some(best),
        Some(best) if best.fill == other.fill && best.digits <= other.digits => Some(best),
        _ => Some(other),
    }
}
