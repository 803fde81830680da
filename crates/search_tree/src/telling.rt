// Whether what rests at a point tells the number of a column.
ghost use Rattle.std.specs.Prelude.{◌≡◌, ◌<◌, true, length, Some};
ghost use Rattle.basis.specs.Node.{system_of, IsOverColumns};
ghost use Rattle.search_tree.specs.Pinned.{IsPinned};
ghost use Rattle.search_tree.specs.Told.{IsAtBound, IsRowAtRest, IsColumnAtRest, AreRowsAtRest, AreColumnsAtRest};

use crate::path::Path;
use crate::points::{form_value, number};
use certificate::{DerivedRows, Item, Weights};
use fraction::Frac;
use instance::{Instance, Point};

/// Whether the weights show that what rests at the point tells the number of a column: they name rows and columns that rest
/// there, and make this column alone. They show nothing where an operation on the way does not fit. Memory is taken as in
/// `check` of cert_check.
pub fn shows_told(
    problem: &Instance,
    cuts: &DerivedRows,
    path: &Path,
    point: &Point,
    weights: &Weights,
    column: u32,
) -> bool
    requires over { IsOverColumns problem.now cuts.now path.now }
    requires column { column < length problem.now.columns }
    ensures { result ≡ true → IsPinned (system_of problem.now cuts.now path.now) point.now column }
{
    if !weights.derived().as_slice().is_empty() {
        return false;
    }
    let x = point.as_slice();
    if !are_rows_at_rest(problem, x, weights.rows().as_slice()) {
        return false;
    }
    if !are_columns_at_rest(problem, path, x, weights.columns().as_slice()) {
        return false;
    }
    path.makes_column(problem, cuts, weights, column)
}

// Each row that is named rests.
fn are_rows_at_rest(problem: &Instance, x: &[Frac], items: &[Item]) -> bool
    ensures { result ≡ true → AreRowsAtRest problem.now x.now items.now }
{
    let mut k = 0;
    while k < items.len() {
        let item = items[k];
        if !is_row_at_rest(problem, x, item.index) {
            return false;
        }
        k += 1;
    }
    true
}

// Each column that is named rests.
fn are_columns_at_rest(problem: &Instance, path: &Path, x: &[Frac], items: &[Item]) -> bool
    ensures { result ≡ true → AreColumnsAtRest problem.now path.now x.now items.now }
{
    let mut k = 0;
    while k < items.len() {
        let item = items[k];
        if !is_column_at_rest(problem, path, x, item.index) {
            return false;
        }
        k += 1;
    }
    true
}

// The row rests at the point.
fn is_row_at_rest(problem: &Instance, x: &[Frac], index: u32) -> bool
    ensures { result ≡ true → IsRowAtRest problem.now x.now index }
{
    match problem.rows().get(index as usize) {
        None => false,
        Some(row) => match form_value(row.entries().as_slice(), x) {
            Err(_) => false,
            Ok(value) => is_at_bound(row.lower(), row.upper(), value),
        },
    }
}

// The column rests at the point, under the splits on the way.
fn is_column_at_rest(problem: &Instance, path: &Path, x: &[Frac], index: u32) -> bool
    ensures { result ≡ true → IsColumnAtRest problem.now path.now x.now index }
{
    if index as usize >= problem.columns().len() {
        return false;
    }
    let value = number(x, index);
    match path.lower(problem, index) {
        Err(_) => false,
        Ok(lower) => is_at_bound(lower, path.upper(problem, index), value),
    }
}

// The value is at a bound, or it is 0 and there are none.
fn is_at_bound(lower: Option<Frac>, upper: Option<Frac>, value: Frac) -> bool
    ensures { result ≡ true → IsAtBound lower upper value }
{
    if is_at(lower, value) {
        return true;
    }
    if is_at(upper, value) {
        return true;
    }
    lower.is_none() && upper.is_none() && value == Frac::zero()
}

fn is_at(bound: Option<Frac>, value: Frac) -> bool
    ensures { result ≡ true → bound ≡ Some value }
{
    match bound {
        None => false,
        Some(bound) => bound == value,
    }
}
