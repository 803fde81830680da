// The bounds of columns under the splits on the way to a node.
ghost use Rattle.std.specs.Prelude.{◌≡◌, ◌≤◌, ◌+ℤ◌, pos, [], ◌∷◌, length, unsigned_abs, Ok, IfSome};
ghost use Rattle.rational.specs.Rational.{whole};
ghost use Rattle.fraction.specs.Fits.{part_max};
ghost use Rattle.verdicts.specs.Proves.{unit_column, is_column, narrows, lower_under, upper_under};
ghost use Rattle.certificate.specs.Ways.{side_of, way};
ghost use Rattle.cert_check.specs.Sums.{next_answer, lower_answer};
ghost use Rattle.cert_check.specs.Walk.{found_lower, found_upper, merged_lower, merged_upper};

use certificate::{Side, Split, Tree, WholeNumber};
use fraction::{Frac, NoFit, whole_numbers};
use instance::{Entry, Instance, greater, lesser};

// The lower bound of a column at a place: the greatest of its own and of the sums P + 1 on the way, or the first of these
// from the place back that does not fit.
pub(crate) fn lower_at(
    problem: &Instance,
    tree: &Tree,
    place: usize,
    column: u32,
) -> Result<Option<Frac>, NoFit>
    requires { place ≤ length tree.now }
    ensures { result ≡ lower_answer problem.now (way tree.now place) column }
{
    let mut found = None;
    let mut at = place;
    while let Some(turn) = tree.last_turn(at) {
        found = with_lower(found, turn.split, turn.side, column)?;
        at = turn.place;
    }
    Ok(over_own(found, problem, column))
}

// The upper bound of a column at a place: the least of its own and of the numbers P on the way.
pub(crate) fn upper_at(problem: &Instance, tree: &Tree, place: usize, column: u32) -> Option<Frac>
    requires { place ≤ length tree.now }
    ensures { result ≡ upper_under problem.now (way tree.now place) column }
{
    let mut found = None;
    let mut at = place;
    while let Some(turn) = tree.last_turn(at) {
        found = with_upper(found, turn.split, turn.side, column);
        at = turn.place;
    }
    under_own(found, problem, column)
}

fn with_lower(
    found: Option<Frac>,
    split: &Split,
    side: Side,
    column: u32,
) -> Result<Option<Frac>, NoFit>
    ensures { result ≡ found_lower found (side_of split.now side) column }
{
    match side {
        Side::Low => Ok(found),
        Side::High => {
            if !is_split_of(split, column) {
                return Ok(found);
            }
            let bound = next(split.at())?;
            Ok(Some(greater(found, bound)))
        }
    }
}

fn with_upper(found: Option<Frac>, split: &Split, side: Side, column: u32) -> Option<Frac>
    ensures { result ≡ found_upper found (side_of split.now side) column }
{
    match side {
        Side::High => found,
        Side::Low => {
            if !is_split_of(split, column) {
                return found;
            }
            Some(lesser(found, split.at().to_frac()))
        }
    }
}

// The column of a form that is one column with coefficient 1.
pub(crate) fn unit_column(form: &[Entry]) -> Option<u32>
    ensures { result ≡ unit_column form.now }
{
    match form {
        [entry] => unit_entry(*entry),
        _ => None,
    }
}

fn unit_entry(entry: Entry) -> Option<u32>
    ensures { result ≡ unit_column (entry ∷ []) }
{
    if entry.coefficient == Frac::one() {
        Some(entry.column)
    } else {
        None
    }
}

// The split is one of the column with coefficient 1.
fn is_split_of(split: &Split, column: u32) -> bool
    ensures { result ≡ narrows split.now column }
{
    is_column(unit_column(split.form().as_slice()), column)
}

// The column that was found, if there is one, is this column.
pub(crate) fn is_column(found: Option<u32>, column: u32) -> bool
    ensures { result ≡ is_column found column }
{
    match found {
        None => false,
        Some(own) => own == column,
    }
}

// at + 1.
pub(crate) fn next(at: WholeNumber) -> Result<Frac, NoFit>
    ensures { result ≡ next_answer at }
{
    match next_whole(at) {
        Some(next) => Ok(next.to_frac()),
        None => at.to_frac().add(Frac::one()),
    }
}

// at + 1, where it is within plus or minus 2^127 - 1.
pub(crate) fn next_whole(at: WholeNumber) -> Option<WholeNumber>
    ensures { IfSome result (λ next. next_answer at ≡ Ok (whole next)) }
{
    whole_numbers();
    match one_more(at) {
        None => None,
        Some(next) => Some(next),
    }
}

// The next whole number, where it is within plus or minus 2^127 - 1.
fn one_more(at: WholeNumber) -> Option<WholeNumber>
    ensures { IfSome result (λ next. (next ≡ at +ℤ pos 1) × (unsigned_abs at ≤ part_max) × (unsigned_abs next ≤ part_max)) }
{
    let n = at.get();
    if n < i128::MAX {
        Some(WholeNumber::new(n + 1))
    } else {
        None
    }
}

pub(crate) fn over_own(found: Option<Frac>, problem: &Instance, column: u32) -> Option<Frac>
    ensures { result ≡ merged_lower found (lower_under problem.now [] column) }
{
    let own = own_lower(problem, column);
    match found {
        None => own,
        Some(a) => Some(greater(own, a)),
    }
}

pub(crate) fn under_own(found: Option<Frac>, problem: &Instance, column: u32) -> Option<Frac>
    ensures { result ≡ merged_upper found (upper_under problem.now [] column) }
{
    let own = own_upper(problem, column);
    match found {
        None => own,
        Some(a) => Some(lesser(own, a)),
    }
}

// The column's own lower bound.
pub(crate) fn own_lower(problem: &Instance, column: u32) -> Option<Frac>
    ensures { result ≡ lower_under problem.now [] column }
{
    match problem.columns().get(column as usize) {
        None => None,
        Some(column) => column.lower(),
    }
}

// The column's own upper bound.
pub(crate) fn own_upper(problem: &Instance, column: u32) -> Option<Frac>
    ensures { result ≡ upper_under problem.now [] column }
{
    match problem.columns().get(column as usize) {
        None => None,
        Some(column) => column.upper(),
    }
}
