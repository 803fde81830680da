// Whether a point meets members, each of which is tested by itself: nothing is built for it.
ghost use Rattle.std.specs.Prelude.{◌≡◌, true, IsTrue};
ghost use Rattle.milp.specs.Form.{number_at, sum_at};
ghost use Rattle.milp.specs.Points.{Feasible};
ghost use Rattle.verdicts.specs.Proves.{lies_above, lies_below};
ghost use Rattle.branch_search.specs.Plain.{NoneInteger};
ghost use Rattle.infeasible_subset.specs.Members.{has};
ghost use Rattle.infeasible_subset.specs.Subsets.{sub};
ghost use Rattle.infeasible_subset.specs.Meeting.{lies_inside, MeetsOne, MeetsEach};

use crate::{Member, Side};
use fraction::Frac;
use instance::{Column, Instance, Point, Row, sum};

/// The point meets these members. It is not told that it does where a sum on the way does not fit.
pub(crate) fn meets(problem: &Instance, members: &[Member], point: &Point) -> bool
    requires { NoneInteger problem.now.columns }
    ensures { result ≡ true → Feasible (sub problem.now (has members.now)) point.now }
{
    let x = point.as_slice();
    x.len() == problem.columns().len() && meets_each(problem, members, x)
}

fn meets_each(problem: &Instance, members: &[Member], x: &[Frac]) -> bool
    ensures { result ≡ true → MeetsEach problem.now x.now members.now }
{
    for member in members {
        if !meets_one(problem, member, x) {
            return false;
        }
    }
    true
}

fn meets_one(problem: &Instance, member: &Member, x: &[Frac]) -> bool
    ensures { result ≡ true → MeetsOne problem.now x.now member.now }
{
    match member {
        Member::OfRow(place, side) => match problem.rows().get(*place) {
            Some(row) => meets_row(row, *side, x),
            None => false,
        },
        Member::OfColumn(place, side) => match problem.columns().get(*place) {
            Some(column) => meets_column(column, *side, number(x, *place)),
            None => false,
        },
    }
}

fn meets_row(row: &Row, side: Side, x: &[Frac]) -> bool
    ensures { result ≡ true → IsTrue (lies_inside side row.now.lower row.now.upper (sum_at x.now row.now.entries)) }
{
    match sum(row.entries().as_slice(), x) {
        Ok(v) => lies_inside(side, row.lower(), row.upper(), v),
        Err(_) => false,
    }
}

fn meets_column(column: &Column, side: Side, v: Frac) -> bool
    ensures { result ≡ lies_inside side column.now.lower column.now.upper v }
{
    lies_inside(side, column.lower(), column.upper(), v)
}

fn lies_inside(side: Side, lower: Option<Frac>, upper: Option<Frac>, v: Frac) -> bool
    ensures { result ≡ lies_inside side lower upper v }
{
    match side {
        Side::Lower => is_above(lower, v),
        Side::Upper => is_below(upper, v),
    }
}

fn is_above(bound: Option<Frac>, v: Frac) -> bool
    ensures { result ≡ lies_above bound v }
{
    match bound {
        None => true,
        Some(b) => b <= v,
    }
}

fn is_below(bound: Option<Frac>, v: Frac) -> bool
    ensures { result ≡ lies_below bound v }
{
    match bound {
        None => true,
        Some(b) => v <= b,
    }
}

// The number of a column; 0 past the end.
fn number(x: &[Frac], place: usize) -> Frac
    ensures { result ≡ number_at x.now place }
{
    match x.get(place) {
        Some(v) => *v,
        None => Frac::zero(),
    }
}
