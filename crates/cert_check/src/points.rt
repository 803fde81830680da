// Sums at points, and the tests of the value and of the ray.
ghost use Rattle.std.specs.Prelude.{◌≡◌, ◌&&◌, true, Some, IfOk};
ghost use Rattle.std.specs.Option.{option_map};
ghost use Rattle.milp.specs.Points.{IsImprovingRay};
ghost use Rattle.verdicts.specs.Proves.{lies_above, lies_below, bound_for, meets_columns};
ghost use Rattle.cert_check.specs.Parts.{point_answer, form_value_answer, goal_answer, ray_rows_answer, is_improving_answer, ray_answer};

use fraction::{Frac, NoFit};
use instance::{Column, Instance, Point, Row, meets, signed, sum};
use verdicts::tests_are_exact;

// The point is feasible.
pub(crate) fn point_passes(problem: &Instance, point: Option<&Point>) -> Result<bool, NoFit>
    ensures { result ≡ point_answer problem.now (option_map (λ x. x.now) point.entry) }
{
    match point {
        None => Ok(false),
        Some(x) => meets(problem, x),
    }
}

/// The value of the objective's form at a point, where with the constant it is the value that is claimed.
pub fn form_value(problem: &Instance, x: &Point, value: Frac) -> Result<Option<Frac>, NoFit>
    ensures exact { result ≡ form_value_answer problem.now x.now value }
{
    let linear = sum(problem.objective().as_slice(), x.as_slice())?;
    let total = linear.add(problem.constant())?;
    if value == total {
        Ok(Some(linear))
    } else {
        Ok(None)
    }
}

// The same, where there are a point and a value.
pub(crate) fn goal_of(
    problem: &Instance,
    point: Option<&Point>,
    value: Option<Frac>,
) -> Result<Option<Frac>, NoFit>
    ensures { result ≡ goal_answer problem.now (option_map (λ x. x.now) point.entry) value }
{
    match point {
        None => Ok(None),
        Some(x) => goal_at(problem, x, value),
    }
}

fn goal_at(problem: &Instance, x: &Point, value: Option<Frac>) -> Result<Option<Frac>, NoFit>
    ensures { result ≡ goal_answer problem.now (Some x.now) value }
{
    match value {
        None => Ok(None),
        Some(v) => form_value(problem, x, v),
    }
}

// A step by v leads out of neither bound.
fn is_harmless(lower: Option<Frac>, upper: Option<Frac>, v: Frac) -> bool
    ensures { result ≡ (lies_above (bound_for true lower) v && lies_below (bound_for true upper) v) }
{
    let low = lower.is_none() || Frac::zero() <= v;
    let high = upper.is_none() || v <= Frac::zero();
    low && high
}

// The ray leads out of no column, is whole where it must be, and has a number for each column.
fn ray_columns(columns: &[Column], x: &[Frac]) -> bool
    ensures { result ≡ meets_columns true columns.now x.now }
{
    let mut i = 0;
    while i < columns.len() {
        if i >= x.len() {
            return false;
        }
        let column = &columns[i];
        let v = x[i];
        if !is_harmless(column.lower(), column.upper(), v) {
            return false;
        }
        if column.integer() && !v.is_whole() {
            return false;
        }
        i += 1;
    }
    x.len() == columns.len()
}

// The ray leads out of no row.
fn ray_rows(rows: &[Row], x: &[Frac]) -> Result<bool, NoFit>
    ensures { result ≡ ray_rows_answer x.now rows.now }
{
    for row in rows {
        let v = sum(row.entries().as_slice(), x)?;
        if !is_harmless(row.lower(), row.upper(), v) {
            return Ok(false);
        }
    }
    Ok(true)
}

// The ray leads out of nothing, and improves.
fn is_improving(problem: &Instance, ray: &Point) -> Result<bool, NoFit>
    ensures { result ≡ is_improving_answer problem.now ray.now }
{
    let x = ray.as_slice();
    if !ray_columns(problem.columns(), x) {
        return Ok(false);
    }
    if !ray_rows(problem.rows(), x)? {
        return Ok(false);
    }
    let value = sum(problem.objective().as_slice(), x)?;
    Ok(signed(problem.direction(), value).is_negative())
}

/// Whether a ray improves the problem without end from each of its points: the test of a certificate's ray, or the first
/// operation on the way that does not fit. It takes no memory.
pub fn is_improving_ray(problem: &Instance, ray: &Point) -> Result<bool, NoFit>
    ensures exact { result ≡ ray_answer problem.now (Some ray.now) }
    ensures improving { IfOk result (λ b. b ≡ true → IsImprovingRay problem.now ray.now) }
{
    tests_are_exact();
    is_improving(problem, ray)
}

// There is a ray, and it improves without end.
pub(crate) fn ray_passes(problem: &Instance, ray: Option<&Point>) -> Result<bool, NoFit>
    ensures { result ≡ ray_answer problem.now (option_map (λ x. x.now) ray.entry) }
{
    match ray {
        None => Ok(false),
        Some(x) => is_improving(problem, x),
    }
}
