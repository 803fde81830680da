// The turns on the way to a place of a tree, from the root on.
ghost use Rattle.std.specs.Prelude.{◌≡◌, ◌∷◌, [], reverse, Ok, Some, IfSome};
ghost use Rattle.std.specs.Option.{option_map};
ghost use Rattle.rational.specs.Rational.{whole};
ghost use Rattle.rational.specs.Compare.{is_at_most};
ghost use Rattle.milp.specs.Problem.{Problem};
ghost use Rattle.verdicts.specs.Proves.{way_get, greater, lesser, lower_under, upper_under};
ghost use Rattle.certificate.specs.Values.{node_of};
ghost use Rattle.cert_check.specs.Sums.{lower_answer};
ghost use Rattle.cert_check.specs.Walk.{turn_side, turned, past_node, merged_lower, merged_upper};

use crate::bounds::{over_own, under_own};
use crate::kept::KeptTurn;
use certificate::{TreeNode, Turn, WholeNumber};
use fraction::Frac;
use instance::Instance;
use std::alloc::Global;
use std::marker::Model;

// Turns, the first from the root first. Clauses see the sides, the latest first.
#[derive(Drop)]
pub(crate) struct Turns<'t> {
    turns: Vec<KeptTurn<'t>>,
}

impl<'t> Model for Turns<'t> {
    ghost use Rattle.std.specs.Prelude.{List, reverse};
    ghost use Rattle.verdicts.specs.Certificate.{Side as SideOf};

    ghost Value = { List SideOf };

    ghost view = { λ t. reverse t.turns.items };
}

// Back to the latest low side, and over to its high side.
fn turn_back<'t>(turns: &mut Vec<KeptTurn<'t>>)
    ensures { reverse turns.new.items ≡ turned (reverse turns.old.items) }
{
    while let Some(turn) = turns.pop() {
        match turn.over() {
            None => {}
            Some(high) => {
                turns.push_reserved(high);
                return;
            }
        }
    }
}

fn is_at_most(a: &WholeNumber, b: &WholeNumber) -> bool
    ensures { result ≡ is_at_most (whole a.now) (whole b.now) }
{
    a.get() <= b.get()
}

fn greater(a: WholeNumber, b: WholeNumber) -> WholeNumber
    ensures { whole result ≡ greater (Some (whole a)) (whole b) }
{
    if is_at_most(&a, &b) { b } else { a }
}

fn lesser(a: WholeNumber, b: WholeNumber) -> WholeNumber
    ensures { whole result ≡ lesser (Some (whole a)) (whole b) }
{
    if is_at_most(&a, &b) { a } else { b }
}

// The greater of two lower bounds, where they are there.
fn greater_bound(a: Option<WholeNumber>, b: Option<WholeNumber>) -> Option<WholeNumber>
    ensures { option_map whole result ≡ merged_lower (option_map whole b) (option_map whole a) }
{
    match b {
        None => a,
        Some(b) => match a {
            None => Some(b),
            Some(a) => Some(greater(a, b)),
        },
    }
}

// The lesser of two upper bounds, where they are there.
fn lesser_bound(a: Option<WholeNumber>, b: Option<WholeNumber>) -> Option<WholeNumber>
    ensures { option_map whole result ≡ merged_upper (option_map whole b) (option_map whole a) }
{
    match b {
        None => a,
        Some(b) => match a {
            None => Some(b),
            Some(a) => Some(lesser(a, b)),
        },
    }
}

fn to_frac(bound: Option<WholeNumber>) -> Option<Frac>
    ensures { result ≡ option_map whole bound }
{
    match bound {
        None => None,
        Some(bound) => Some(bound.to_frac()),
    }
}

// The greatest of the lower bounds that turns give a column.
fn lower_by(turns: &[KeptTurn], column: u32) -> Option<WholeNumber>
    ensures { (p : Problem) → lower_answer p (reverse turns.now) column ≡ Ok (merged_lower (option_map whole result) (lower_under p [] column)) }
{
    let mut found = None;
    for turn in turns {
        found = greater_bound(found, turn.lower(column));
    }
    found
}

// The least of the upper bounds that turns give a column.
fn upper_by(turns: &[KeptTurn], column: u32) -> Option<WholeNumber>
    ensures { (p : Problem) → upper_under p (reverse turns.now) column ≡ merged_upper (option_map whole result) (upper_under p [] column) }
{
    let mut found = None;
    for turn in turns {
        found = lesser_bound(found, turn.upper(column));
    }
    found
}

impl<'t> Turns<'t> {
    // At the root there are none.
    pub(crate) fn none(alloc: Global) -> Self
        ensures { result ≡ [] }
    {
        Turns {
            turns: Vec::new(alloc),
        }
    }

    // One more turn, where there is memory for it.
    fn with(mut self, turn: KeptTurn<'t>) -> Option<Self>
        ensures { IfSome result (λ made. made ≡ turn.entry ∷ self.entry) }
    {
        match self.turns.push(turn) {
            Ok(()) => Some(self),
            Err(_) => None,
        }
    }

    // Those on the way to the place behind a subtree.
    fn turned(mut self) -> Self
        ensures { result ≡ turned self.entry }
    {
        turn_back(&mut self.turns);
        self
    }

    // Those on the way to the place behind a node, which is at this one; none where there is no memory for them, or the
    // number behind a split does not fit.
    pub(crate) fn past(self, node: &'t TreeNode, place: usize) -> Option<Self>
        ensures { IfSome result (λ made. made ≡ past_node (node_of node.now) self.entry) }
    {
        match node {
            TreeNode::Branch(split) => match KeptTurn::low(split, place) {
                None => None,
                Some(turn) => self.with(turn),
            },
            TreeNode::Empty(_) => Some(self.turned()),
            TreeNode::Bound(_) => Some(self.turned()),
        }
    }

    // The turn at the i-th split from the root.
    pub(crate) fn get(&self, i: usize) -> Option<Turn<'t>>
        ensures { option_map turn_side result ≡ way_get self.now i }
    {
        match self.turns.get(i) {
            None => None,
            Some(kept) => Some(kept.turn()),
        }
    }

    // The lower bound of a column under the splits of these turns that are of this column alone.
    pub(crate) fn lower(&self, problem: &Instance, column: u32) -> Option<Frac>
        ensures { lower_answer problem.now self.now column ≡ Ok result }
    {
        let found = lower_by(&self.turns, column);
        over_own(to_frac(found), problem, column)
    }

    // The upper bound of a column under the splits of these turns that are of this column alone.
    pub(crate) fn upper(&self, problem: &Instance, column: u32) -> Option<Frac>
        ensures { result ≡ upper_under problem.now self.now column }
    {
        let found = upper_by(&self.turns, column);
        under_own(to_frac(found), problem, column)
    }
}
