// The splits on the way to a leaf whose bounds its weights of columns use.
ghost use Rattle.std.specs.Prelude.{◌≡◌, ◌<◌, ◌≤◌, ◌+ℤ◌, [], pos, length, option_and_then, if◌then◌else◌, Some, None, IfSome};
ghost use Rattle.rational.specs.Rational.{whole};
ghost use Rattle.rational.specs.Compare.{is_less};
ghost use Rattle.verdicts.specs.Migrated.{source};
ghost use Rattle.certificate.specs.Written.{count_max};
ghost use Rattle.migration.specs.Sources.{bound_on, source_on, tightens, is_as_tight, tighter, with_split};

use crate::kept::KeptTurn;
use certificate::{Item, Side, WholeNumber, parts_fit};
use fraction::Frac;
use instance::Instance;

// A split that narrows a column: its index from the root, and where its cases part.
#[derive(Clone, Copy)]
pub(crate) struct Tightest {
    index: u32,
    at: WholeNumber,
}

// The split whose bound the weight of a column uses below these turns, by its index from the root; none where the bound is the
// column's own.
pub(crate) fn source(problem: &Instance, turns: &[KeptTurn], item: Item) -> Option<u32>
    requires { length turns.now ≤ count_max }
    ensures source { result ≡ source problem.now turns.now item }
    ensures index { IfSome result (λ index. index < count_max) }
{
    let side = if Frac::zero() < item.weight {
        Side::High
    } else {
        Side::Low
    };
    source_on(problem, turns, item.index, side)
}

// The split that gives a column its bound on a side: the tightest on the way, of several the one nearest the root, where it is
// tighter than the column's own bound.
fn source_on(problem: &Instance, turns: &[KeptTurn], column: u32, side: Side) -> Option<u32>
    requires { length turns.now ≤ count_max }
    ensures source { result ≡ source_on side problem.now turns.now column }
    ensures index { IfSome result (λ index. index < count_max) }
{
    let mut found = None;
    let mut left = turns.len() as u32;
    for turn in turns {
        left -= 1;
        found = with_turn(found, turn, left, column, side);
    }
    past_own(found, own_bound(problem, column, side), side)
}

// The tightest split of a column on a side so far, with one more turn on the way back.
fn with_turn(
    found: Option<Tightest>,
    turn: &KeptTurn,
    index: u32,
    column: u32,
    side: Side,
) -> Option<Tightest>
    ensures { result ≡ with_split side found index turn.now column }
{
    if turn.narrows(column, side) {
        Some(tighter(found, index, turn.at(), side))
    } else {
        found
    }
}

fn tighter(found: Option<Tightest>, index: u32, at: WholeNumber, side: Side) -> Tightest
    ensures { result ≡ tighter side found (record { index = index; at = at }) }
{
    match found {
        None => Tightest { index, at },
        Some(found) => {
            if is_as_tight(at, found.at, side) {
                Tightest { index, at }
            } else {
                found
            }
        }
    }
}

fn is_as_tight(at: WholeNumber, other: WholeNumber, side: Side) -> bool
    ensures { result ≡ is_as_tight side at other }
{
    match side {
        Side::Low => at.get() <= other.get(),
        Side::High => other.get() <= at.get(),
    }
}

// The index of a split that is tighter than a column's own bound.
fn past_own(found: Option<Tightest>, own: Option<Frac>, side: Side) -> Option<u32>
    ensures { result ≡ option_and_then (λ t. if tightens side own t.at then Some t.index else None) found }
{
    match found {
        None => None,
        Some(split) => {
            if tightens(own, split.at, side) {
                Some(split.index)
            } else {
                None
            }
        }
    }
}

// The column's own bound.
fn own_bound(problem: &Instance, column: u32, side: Side) -> Option<Frac>
    ensures { result ≡ bound_on side problem.now [] column }
{
    match problem.columns().get(column as usize) {
        None => None,
        Some(column) => match side {
            Side::Low => column.upper(),
            Side::High => column.lower(),
        },
    }
}

fn tightens(own: Option<Frac>, at: WholeNumber, side: Side) -> bool
    ensures { result ≡ tightens side own at }
{
    match own {
        None => true,
        Some(own) => match side {
            Side::Low => at.to_frac() < own,
            Side::High => is_below_next(own, at),
        },
    }
}

// The number is below the next whole one.
fn is_below_next(number: Frac, at: WholeNumber) -> bool
    ensures { result ≡ is_less number (whole (at +ℤ pos 1)) }
{
    let at = at.get();
    if at == i128::MAX {
        parts_fit(number);
        return true;
    }
    number < Frac::whole(at + 1)
}
