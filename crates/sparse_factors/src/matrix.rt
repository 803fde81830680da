// A matrix of fractions, with a unit column for each of its rows.
use crate::lists::Lists;

/// A matrix by columns and by rows. The variables are its columns and then, for each row, one whose column is 1 there and
/// 0 elsewhere.
#[derive(Drop)]
pub struct Matrix {
    pub rows: usize,
    pub columns: usize,
    pub by_column: Lists,
    pub by_row: Lists,
}

impl Matrix {
    /// The row of a variable that is no column.
    #[inline]
    pub fn row_of(&self, v: usize) -> Option<usize> {
        v.checked_sub(self.columns)
    }

    /// The variable of a row.
    #[inline]
    pub fn variable_of(&self, row: usize) -> usize {
        self.columns.saturating_add(row)
    }
}
