// The test of a point of a node's relaxation.
ghost use Rattle.std.specs.Prelude.{pos, ◌+ℤ◌, ◌≡◌, true, false, Err, IfOk, IfErr, IfSome};
ghost use Rattle.rational.specs.Rational.{whole, ◌≤ℚ◌};
ghost use Rattle.milp.specs.Form.{number_at, sum_at};
ghost use Rattle.milp.specs.Points.{IsWithin};
ghost use Rattle.verdicts.specs.Proves.{AllDerived};
ghost use Rattle.basis.specs.Node.{IsNodePoint};
ghost use Rattle.certificate.specs.Ways.{side_of};
ghost use Rattle.search_node.specs.Sides.{sides_of};
ghost use Rattle.rational.specs.Rational.{zero_ℚ};
ghost use Rattle.instance.specs.Sums.{sum_answer};
ghost use Rattle.cert_check.specs.Sums.{next_answer};
ghost use Rattle.search_tree.specs.Points.{AreInColumns, AreInRows, IsOnSide, IsOfColumn, AreOnSides, IsOffSide};
ghost use Rattle.search_tree.specs.Faults.{IsRowFault, IsCutFault, IsSideFault, AreSideFaults, IsPointFault};

use certificate::{Derived, DerivedRows, Side, WholeNumber};
use fraction::{Frac, NoFit};
use instance::{Column, Entry, Instance, Point, Row, sum};
use search_node::{SplitTaken, SplitsTaken};

/// Whether the point is one of the relaxation of the node below these splits: it has a number for each column inside the
/// node's bounds, and meets each row and each cut. A fault is the first operation on the way that does not fit: of the sum
/// of a row or of a cut at the point, or the whole number next to a split. It takes no memory.
pub fn is_node_point(
    problem: &Instance,
    cuts: &DerivedRows,
    splits: &SplitsTaken,
    point: &Point,
) -> Result<bool, NoFit>
    ensures yes { IfOk result (λ b. b ≡ true → IsNodePoint problem.now cuts.now (sides_of splits.now) point.now) }
    ensures no { IfOk result (λ b. b ≡ false → ¬ (IsNodePoint problem.now cuts.now (sides_of splits.now) point.now)) }
    ensures fault { IfErr result (IsPointFault problem.now cuts.now splits.now point.now) }
{
    let x = point.as_slice();
    let taken = splits.as_slice();
    if !are_in_columns(problem.columns(), x) {
        return Ok(false);
    }
    if !are_in_rows(problem.rows(), x)? {
        return Ok(false);
    }
    if !meets_cuts(cuts.as_slice(), x)? {
        return Ok(false);
    }
    is_on_sides(taken, x)
}

// A number for each column, inside its bounds.
fn are_in_columns(columns: &[Column], x: &[Frac]) -> bool
    ensures yes { result ≡ true → AreInColumns columns.now x.now }
    ensures no { result ≡ false → ¬ (AreInColumns columns.now x.now) }
{
    if x.len() != columns.len() {
        return false;
    }
    let mut j = 0;
    while j < columns.len() {
        let column = &columns[j];
        if !is_within(column.lower(), column.upper(), x[j]) {
            return false;
        }
        j += 1;
    }
    true
}

// Each row is met.
fn are_in_rows(rows: &[Row], x: &[Frac]) -> Result<bool, NoFit>
    ensures yes { IfOk result (λ b. b ≡ true → AreInRows rows.now x.now) }
    ensures no { IfOk result (λ b. b ≡ false → ¬ (AreInRows rows.now x.now)) }
    ensures fault { IfErr result (IsRowFault rows.now x.now) }
{
    let mut i = 0;
    while i < rows.len() {
        let row = &rows[i];
        let value = form_value(row.entries().as_slice(), x)?;
        if !is_within(row.lower(), row.upper(), value) {
            return Ok(false);
        }
        i += 1;
    }
    Ok(true)
}

// Each cut is met.
fn meets_cuts(cuts: &[Derived], x: &[Frac]) -> Result<bool, NoFit>
    ensures yes { IfOk result (λ b. b ≡ true → AllDerived x.now cuts.now) }
    ensures no { IfOk result (λ b. b ≡ false → ¬ (AllDerived x.now cuts.now)) }
    ensures fault { IfErr result (IsCutFault cuts.now x.now) }
{
    let mut k = 0;
    while k < cuts.len() {
        let cut = &cuts[k];
        let value = form_value(cut.form().as_slice(), x)?;
        if !is_at_most(cut.bound(), value) {
            return Ok(false);
        }
        k += 1;
    }
    Ok(true)
}

// The point is on the side of each split.
fn is_on_sides(splits: &[SplitTaken], x: &[Frac]) -> Result<bool, NoFit>
    ensures yes { IfOk result (λ b. b ≡ true → AreOnSides x.now splits.now) }
    ensures no { IfOk result (λ b. b ≡ false → IsOffSide x.now splits.now) }
    ensures fault { IfErr result (AreSideFaults splits.now) }
{
    let mut k = 0;
    while k < splits.len() {
        if !is_on_side(&splits[k], x)? {
            return Ok(false);
        }
        k += 1;
    }
    Ok(true)
}

// The point is on the side of a split, which is one of a column.
fn is_on_side(taken: &SplitTaken, x: &[Frac]) -> Result<bool, NoFit>
    ensures yes { IfOk result (λ b. b ≡ true → IsOnSide x.now (side_of taken.now.split taken.now.side)) }
    ensures no { IfOk result (λ b. b ≡ false → ¬ (IsOnSide x.now (side_of taken.now.split taken.now.side))) }
    ensures form { IsOfColumn taken.now.split }
    ensures fault { IfErr result (IsSideFault (side_of taken.now.split taken.now.side)) }
{
    let value = number(x, taken.split.column());
    let at = taken.split.at();
    match taken.side {
        Side::Low => Ok(is_at_most(value, at.to_frac())),
        Side::High => is_above_next(at, value),
    }
}

// At least the next whole number.
fn is_above_next(at: WholeNumber, value: Frac) -> Result<bool, NoFit>
    ensures yes { IfOk result (λ b. b ≡ true → whole (at +ℤ pos 1) ≤ℚ value) }
    ensures no { IfOk result (λ b. b ≡ false → ¬ (whole (at +ℤ pos 1) ≤ℚ value)) }
    ensures fault { IfErr result (λ e. next_answer at ≡ Err e) }
{
    let next = at.to_frac().add(Frac::one())?;
    Ok(is_at_most(next, value))
}

// The number of a column; 0 past the end.
pub(crate) fn number(x: &[Frac], column: u32) -> Frac
    ensures { result ≡ number_at x.now column }
{
    match x.get(column as usize) {
        Some(value) => *value,
        None => Frac::zero(),
    }
}

/// The value of a form at a point, or the first operation on the way that does not fit.
pub fn form_value(form: &[Entry], x: &[Frac]) -> Result<Frac, NoFit>
    ensures exact { result ≡ sum_answer x.now zero_ℚ form.now }
    ensures is_sum { IfOk result (λ v. v ≡ sum_at x.now form.now) }
{
    sum(form, x)
}

// A number is inside its bounds.
fn is_within(lower: Option<Frac>, upper: Option<Frac>, value: Frac) -> bool
    ensures yes { result ≡ true → IsWithin lower upper value }
    ensures no { result ≡ false → ¬ (IsWithin lower upper value) }
{
    is_above(lower, value) && is_below(upper, value)
}

fn is_above(bound: Option<Frac>, value: Frac) -> bool
    ensures yes { result ≡ true → IfSome bound (λ b. b ≤ℚ value) }
    ensures no { result ≡ false → ¬ (IfSome bound (λ b. b ≤ℚ value)) }
{
    match bound {
        None => true,
        Some(bound) => is_at_most(bound, value),
    }
}

fn is_below(bound: Option<Frac>, value: Frac) -> bool
    ensures yes { result ≡ true → IfSome bound (λ b. value ≤ℚ b) }
    ensures no { result ≡ false → ¬ (IfSome bound (λ b. value ≤ℚ b)) }
{
    match bound {
        None => true,
        Some(bound) => is_at_most(value, bound),
    }
}

#[tactic(auto, using(crate::proofs::NodePoints::at_most_is, crate::proofs::NodePoints::not_at_most))]
fn is_at_most(a: Frac, b: Frac) -> bool
    ensures yes { result ≡ true → a ≤ℚ b }
    ensures no { result ≡ false → ¬ (a ≤ℚ b) }
{
    a <= b
}
