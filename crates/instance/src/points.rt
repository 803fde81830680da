// The values of forms at points, and the test of a point.
ghost use Rattle.std.specs.Prelude.{◌≡◌, ◌<◌, ◌↔◌, ◌&&◌, false, length, slice_get, IfOk, IsTrue};
ghost use Rattle.rational.specs.Rational.{zero_ℚ};
ghost use Rattle.milp.specs.Form.{number_at, sum_at};
ghost use Rattle.milp.specs.Points.{objective_value, Feasible};
ghost use Rattle.verdicts.specs.Proves.{lies_above, lies_below, meets_columns};
ghost use Rattle.instance.specs.Sums.{step_answer, sum_answer, form_of, value_answer, rows_answer, meets_answer};

use crate::{Column, Entry, Instance, Point, Row};
use fraction::{Frac, NoFit};

/// The value of a row's form at a point, summed from the first entry on, or the first product or sum on the way that
/// does not fit. It takes no memory.
pub fn activity(instance: &Instance, row: u32, point: &Point) -> Result<Frac, NoFit>
    requires row { row < length instance.now.rows }
    requires size { length point.now ≡ length instance.now.columns }
    ensures exact { result ≡ sum_answer point.now zero_ℚ (form_of (slice_get instance.now.rows row)) }
    ensures is_sum { IfOk result (λ v. v ≡ sum_at point.now (form_of (slice_get instance.now.rows row))) }
{
    let rows = instance.rows();
    sum(rows[row as usize].entries().as_slice(), point.as_slice())
}

/// The value of the objective at a point: its form's, summed from the first entry on, and then its constant, or the
/// first product or sum on the way that does not fit. It takes no memory.
pub fn value(instance: &Instance, point: &Point) -> Result<Frac, NoFit>
    requires { length point.now ≡ length instance.now.columns }
    ensures exact { result ≡ value_answer instance.now point.now }
    ensures is_value { IfOk result (λ v. v ≡ objective_value instance.now point.now) }
{
    let total = sum(instance.objective().as_slice(), point.as_slice())?;
    total.add(instance.constant())
}

/// A point is feasible: it has a number for each column, inside the column's bounds and whole where the column is, and
/// meets each row. The columns are tested first, and then the rows are summed in order, up to the first that is not
/// met. `NoFit` is the first product or sum on the way that does not fit. It takes no memory.
pub fn meets(instance: &Instance, point: &Point) -> Result<bool, NoFit>
    ensures exact { result ≡ meets_answer instance.now point.now }
    ensures feasible { IfOk result (λ b. IsTrue b ↔ Feasible instance.now point.now) }
{
    let x = point.as_slice();
    if !meets_columns(instance.columns(), x) {
        return Ok(false);
    }
    meets_rows(instance.rows(), x)
}

// The numbers are as many as the columns, inside their bounds, and whole where they are.
fn meets_columns(columns: &[Column], x: &[Frac]) -> bool
    ensures { result ≡ meets_columns false columns.now x.now }
{
    let mut i = 0;
    while i < columns.len() {
        if i >= x.len() {
            return false;
        }
        let column = &columns[i];
        let v = x[i];
        if !is_within(column.lower(), column.upper(), v) {
            return false;
        }
        if column.integer() && !v.is_whole() {
            return false;
        }
        i += 1;
    }
    x.len() == columns.len()
}

// Each row is met, as far as the first that is not.
fn meets_rows(rows: &[Row], x: &[Frac]) -> Result<bool, NoFit>
    ensures { result ≡ rows_answer x.now rows.now }
{
    for row in rows {
        let v = sum(row.entries().as_slice(), x)?;
        if !is_within(row.lower(), row.upper(), v) {
            return Ok(false);
        }
    }
    Ok(true)
}

// A number is inside its bounds.
fn is_within(lower: Option<Frac>, upper: Option<Frac>, v: Frac) -> bool
    ensures { result ≡ (lies_above lower v && lies_below upper v) }
{
    is_above(lower, v) && is_below(upper, v)
}

fn is_above(bound: Option<Frac>, v: Frac) -> bool
    ensures { result ≡ lies_above bound v }
{
    match bound {
        None => true,
        Some(b) => b <= v,
    }
}

fn is_below(bound: Option<Frac>, v: Frac) -> bool
    ensures { result ≡ lies_below bound v }
{
    match bound {
        None => true,
        Some(b) => v <= b,
    }
}

/// The value of a form at a point, summed from the first entry on, or the first product or sum on the way that does not
/// fit. A column past the end of the point counts as 0.
pub fn sum(form: &[Entry], x: &[Frac]) -> Result<Frac, NoFit>
    ensures { result ≡ sum_answer x.now zero_ℚ form.now }
{
    let mut total = Frac::zero();
    for entry in form {
        total = with_product(total, *entry, x)?;
    }
    Ok(total)
}

// A total plus an entry's product.
fn with_product(total: Frac, entry: Entry, x: &[Frac]) -> Result<Frac, NoFit>
    ensures { result ≡ step_answer x.now total entry }
{
    let product = entry.coefficient.mul(number(x, entry.column))?;
    total.add(product)
}

// The number of a column; 0 past the end.
fn number(x: &[Frac], column: u32) -> Frac
    ensures { result ≡ number_at x.now column }
{
    match x.get(column as usize) {
        Some(v) => *v,
        None => Frac::zero(),
    }
}
