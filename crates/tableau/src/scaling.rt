// The units of the variables, as logarithms: so that sizes are compared fairly. They only guide.
use sparse_factors::{Lists, Matrix, Stop, add, at, copied, filled, log};
use std::alloc::Global;

// How often rows and columns are scaled in turn.
const ROUNDS: u32 = 3;

/// The units of all variables, by a few rounds of geometric means of the largest and smallest entries.
pub(crate) fn units_of(alloc: Global, matrix: &Matrix) -> Result<Vec<i32>, Stop> {
    let mut rows = filled(alloc, matrix.rows, 0)?;
    let mut columns = filled(alloc, matrix.columns, 0)?;
    scale_all(&mut rows, &mut columns, matrix);
    let mut units = copied(alloc, &columns)?;
    add_negatives(&mut units, &rows)?;
    Ok(units)
}

// Until nothing changes, or the rounds are over.
fn scale_all(rows: &mut [i32], columns: &mut [i32], matrix: &Matrix) {
    for _ in 0..ROUNDS {
        let rows_change = scale(rows, &matrix.by_row, columns);
        let columns_change = scale(columns, &matrix.by_column, rows);
        if !rows_change && !columns_change {
            return;
        }
    }
}

// Tells whether a unit changed.
fn scale(units: &mut [i32], lists: &Lists, other: &[i32]) -> bool {
    let mut changes = false;
    for k in 0..units.len() {
        let unit = middle(lists, k, other);
        changes = changes || unit != units[k];
        units[k] = unit;
    }
    changes
}

// Minus the logarithm of the geometric mean of the largest and the smallest entry.
fn middle(lists: &Lists, k: usize, other: &[i32]) -> i32 {
    let mut least = i32::MAX;
    let mut most = i32::MIN;
    for entry in lists.list(k) {
        let size = log(entry.number).saturating_add(at(other, entry.at, 0));
        least = least.min(size);
        most = most.max(size);
    }
    if most < least {
        return 0;
    }
    0i32.saturating_sub((least / 2).saturating_add(most / 2))
}

fn add_negatives(units: &mut Vec<i32>, rows: &[i32]) -> Result<(), Stop> {
    for unit in rows {
        add(units, 0i32.saturating_sub(*unit))?;
    }
    Ok(())
}
