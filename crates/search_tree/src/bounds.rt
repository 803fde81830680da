// The bounds of a column under the splits on the way to a node.
ghost use Rattle.std.specs.Prelude.{◌≡◌, ◌+ℤ◌, pos, ◌∷◌, [], List, IfOk};
ghost use Rattle.rational.specs.Rational.{whole};
ghost use Rattle.milp.specs.Problem.{Problem};
ghost use Rattle.verdicts.specs.Certificate.{Side as SideOf};
ghost use Rattle.verdicts.specs.Proves.{lower_under, upper_under};
ghost use Rattle.certificate.specs.Ways.{side_of};
ghost use Rattle.search_node.specs.Sides.{sides_of};

use certificate::{Side, WholeNumber};
use fraction::{Frac, NoFit};
use instance::{Instance, greater, lesser};
use search_node::SplitTaken;

// The lower bound of a column below these splits, or the whole number next to a split that does not fit.
pub(crate) fn lower_below(
    problem: &Instance,
    splits: &[SplitTaken],
    column: u32,
) -> Result<Option<Frac>, NoFit>
    ensures { IfOk result (λ bound. bound ≡ lower_under problem.now (sides_of splits.now) column) }
{
    let mut bound = own_lower(problem, column);
    let mut k = 0;
    while k < splits.len() {
        bound = with_lower(bound, &splits[k], column)?;
        k += 1;
    }
    Ok(bound)
}

// The upper bound of a column below these splits.
pub(crate) fn upper_below(problem: &Instance, splits: &[SplitTaken], column: u32) -> Option<Frac>
    ensures { result ≡ upper_under problem.now (sides_of splits.now) column }
{
    let mut bound = own_upper(problem, column);
    let mut k = 0;
    while k < splits.len() {
        bound = with_upper(bound, &splits[k], column);
        k += 1;
    }
    bound
}

// A column's lower bound, under one more split.
#[tactic(auto, using(crate::proofs::SplitBounds::lower_past, crate::proofs::SplitBounds::lower_over))]
fn with_lower(bound: Option<Frac>, taken: &SplitTaken, column: u32) -> Result<Option<Frac>, NoFit>
    ensures { (p : Problem) (sides : List SideOf) → bound ≡ lower_under p sides column → IfOk result (λ more. more ≡ lower_under p (side_of taken.now.split taken.now.side ∷ sides) column) }
{
    match taken.side {
        Side::Low => Ok(bound),
        Side::High => {
            if taken.split.column() != column {
                return Ok(bound);
            }
            let above = next(taken.split.at())?;
            Ok(Some(greater(bound, above)))
        }
    }
}

// A column's upper bound, under one more split.
#[tactic(auto, using(crate::proofs::SplitBounds::upper_past, crate::proofs::SplitBounds::upper_over))]
fn with_upper(bound: Option<Frac>, taken: &SplitTaken, column: u32) -> Option<Frac>
    ensures { (p : Problem) (sides : List SideOf) → bound ≡ upper_under p sides column → result ≡ upper_under p (side_of taken.now.split taken.now.side ∷ sides) column }
{
    match taken.side {
        Side::High => bound,
        Side::Low => {
            if taken.split.column() != column {
                return bound;
            }
            Some(lesser(bound, taken.split.at().to_frac()))
        }
    }
}

// The next whole number, where it fits.
fn next(at: WholeNumber) -> Result<Frac, NoFit>
    ensures { IfOk result (λ above. above ≡ whole (at +ℤ pos 1)) }
{
    at.to_frac().add(Frac::one())
}

// The column's own lower bound.
fn own_lower(problem: &Instance, column: u32) -> Option<Frac>
    ensures { result ≡ lower_under problem.now [] column }
{
    match problem.columns().get(column as usize) {
        None => None,
        Some(column) => column.lower(),
    }
}

// The column's own upper bound.
fn own_upper(problem: &Instance, column: u32) -> Option<Frac>
    ensures { result ≡ upper_under problem.now [] column }
{
    match problem.columns().get(column as usize) {
        None => None,
        Some(column) => column.upper(),
    }
}
