// A triangular start: in the place of rows whose value is fixed, columns that hardly meet.
use sparse_factors::{Entry, Matrix, Stop, add, add_to, at, digits, empty_lists, filled, put};
use std::alloc::Global;
use tableau::{Model, Start};

/// A basis in which columns stand in the place of rows whose value is fixed: each of them has no entry in a row that got its column
/// before. None where no row gets one, or where it makes a search longer more often than not: where few rows have a fixed value, or
/// columns are many.
pub(crate) fn crashed(alloc: Global, model: &Model) -> Result<Option<Start>, Stop> {
    if !may_help(model) {
        return Ok(None);
    }
    let mut open = Open::new(alloc, model)?;
    let mut taken = filled(alloc, model.matrix.rows, None)?;
    for _ in 0..model.matrix.rows {
        match open.next_row() {
            None => return start(alloc, model, &taken),
            Some(row) => put(&mut taken, row, open.take(&model.matrix, row)?),
        }
    }
    start(alloc, model, &taken)
}

// At least a quarter of the rows have a fixed value, and there are not many columns for each row.
fn may_help(model: &Model) -> bool {
    let rows = model.matrix.rows;
    fixed_count(model).saturating_mul(4) >= rows && model.matrix.columns <= rows.saturating_mul(8)
}

fn fixed_count(model: &Model) -> usize {
    let mut count = 0usize;
    for row in 0..model.matrix.rows {
        if model.bounds_of(model.matrix.variable_of(row)).is_fixed() {
            count = count.saturating_add(1);
        }
    }
    count
}

/// What is left: the rows that may get a column, and the columns that may be given.
#[derive(Drop)]
struct Open {
    columns: Vec<bool>,
    rows: Vec<bool>,
    // how many open columns a row has, and the rows by that number: where it fell, a row stands in several lists
    left: Vec<usize>,
    by_left: Vec<Vec<usize>>,
    // no list below this one has a row
    least: usize,
}

impl Open {
    fn new(alloc: Global, model: &Model) -> Result<Open, Stop> {
        let columns = movable(alloc, model)?;
        let rows = fixed_rows(alloc, model)?;
        let left = counts(alloc, &model.matrix, &rows, &columns)?;
        let mut by_left = empty_lists(alloc, largest(&left).saturating_add(1))?;
        for behind in 0..left.len() {
            let row = left.len().saturating_sub(behind).saturating_sub(1);
            let count = at(&left, row, 0);
            if count > 0 {
                add_to(&mut by_left, count, row)?;
            }
        }
        Ok(Open {
            columns,
            rows,
            left,
            by_left,
            least: 0,
        })
    }

    // The row that has the fewest open columns, if one has any. It is closed.
    fn next_row(&mut self) -> Option<usize> {
        for level in self.least..self.by_left.len() {
            self.least = level;
            match self.next_of(level) {
                None => {}
                Some(row) => return Some(row),
            }
        }
        None
    }

    // A row that is open and has so many open columns. What stands before it in the list is dropped.
    fn next_of(&mut self, level: usize) -> Option<usize> {
        for _ in 0..length_of(&self.by_left, level) {
            let row = match popped(&mut self.by_left, level) {
                Some(row) => row,
                None => return None,
            };
            if at(&self.rows, row, false) && at(&self.left, row, 0) == level {
                put(&mut self.rows, row, false);
                return Some(row);
            }
        }
        None
    }

    // The row's column; all of its columns are closed.
    fn take(&mut self, matrix: &Matrix, row: usize) -> Result<Option<usize>, Stop> {
        let mut best = None;
        for entry in matrix.by_row.list(row) {
            if at(&self.columns, entry.at, false) {
                best = Some(better(matrix, *entry, best));
                put(&mut self.columns, entry.at, false);
                self.leave(matrix.by_column.list(entry.at))?;
            }
        }
        Ok(match best {
            None => None,
            Some(entry) => Some(entry.at),
        })
    }

    // The rows of a column that is closed.
    fn leave(&mut self, entries: &[Entry]) -> Result<(), Stop> {
        for entry in entries {
            if at(&self.rows, entry.at, false) {
                let left = at(&self.left, entry.at, 0).saturating_sub(1);
                put(&mut self.left, entry.at, left);
                if left > 0 {
                    add_to(&mut self.by_left, left, entry.at)?;
                    self.least = self.least.min(left);
                }
            }
        }
        Ok(())
    }
}

fn length_of(lists: &[Vec<usize>], place: usize) -> usize {
    if place < lists.len() {
        lists[place].len()
    } else {
        0
    }
}

fn popped(lists: &mut [Vec<usize>], place: usize) -> Option<usize> {
    if place < lists.len() {
        lists[place].pop()
    } else {
        None
    }
}

// The entry with the shorter number; of equal ones that in the column with fewer entries, and then the first.
fn better(matrix: &Matrix, entry: Entry, best: Option<Entry>) -> Entry {
    match best {
        Some(old) => better_one(matrix, entry, old),
        None => entry,
    }
}

fn better_one(matrix: &Matrix, entry: Entry, old: Entry) -> Entry {
    let is_better = is_better(matrix, &entry, &old);
    if is_better { entry } else { old }
}

fn is_better(matrix: &Matrix, entry: &Entry, old: &Entry) -> bool {
    let (own, others) = (digits(entry.number), digits(old.number));
    if own == others {
        matrix.by_column.list(entry.at).len() < matrix.by_column.list(old.at).len()
    } else {
        own < others
    }
}

// The columns that are not fixed.
fn movable(alloc: Global, model: &Model) -> Result<Vec<bool>, Stop> {
    let mut columns = Vec::with_capacity(alloc, model.matrix.columns)?;
    for v in 0..model.matrix.columns {
        add(&mut columns, !model.bounds_of(v).is_fixed())?;
    }
    Ok(columns)
}

fn fixed_rows(alloc: Global, model: &Model) -> Result<Vec<bool>, Stop> {
    let mut rows = Vec::with_capacity(alloc, model.matrix.rows)?;
    for row in 0..model.matrix.rows {
        let v = model.matrix.variable_of(row);
        add(&mut rows, model.bounds_of(v).is_fixed())?;
    }
    Ok(rows)
}

// How many open columns each open row has.
fn counts(
    alloc: Global,
    matrix: &Matrix,
    rows: &[bool],
    columns: &[bool],
) -> Result<Vec<usize>, Stop> {
    let mut counts = Vec::with_capacity(alloc, rows.len())?;
    for row in 0..rows.len() {
        let count = if rows[row] {
            count_of(matrix.by_row.list(row), columns)
        } else {
            0
        };
        add(&mut counts, count)?;
    }
    Ok(counts)
}

fn count_of(entries: &[Entry], columns: &[bool]) -> usize {
    let mut count = 0usize;
    for entry in entries {
        if at(columns, entry.at, false) {
            count = count.saturating_add(1);
        }
    }
    count
}

fn largest(counts: &[usize]) -> usize {
    let mut most = 0;
    for count in counts {
        most = most.max(*count);
    }
    most
}

// The rows' basis, with the columns that were taken.
fn start(alloc: Global, model: &Model, taken: &[Option<usize>]) -> Result<Option<Start>, Stop> {
    let mut basic = Vec::with_capacity(alloc, taken.len())?;
    let mut is_changed = false;
    for row in 0..taken.len() {
        let v = match taken[row] {
            None => model.matrix.variable_of(row),
            Some(column) => {
                is_changed = true;
                column
            }
        };
        add(&mut basic, v)?;
    }
    if !is_changed {
        return Ok(None);
    }
    let at_upper = filled(alloc, model.size(), false)?;
    Ok(Some(Start { basic, at_upper }))
}
