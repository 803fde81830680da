// The way from the root of a tree to a place.
ghost use Rattle.std.specs.Prelude.{◌≡◌, ◌≤◌, ◌<◌, ◌+◌, List, length, IfSome};
ghost use Rattle.std.specs.Option.{option_map};
ghost use Rattle.verdicts.specs.Certificate.{Side};
ghost use Rattle.verdicts.specs.Proves.{way_get, upper_under};
ghost use Rattle.certificate.specs.Ways.{way};
ghost use Rattle.certificate.specs.Values.{node_of};
ghost use Rattle.cert_check.specs.Sums.{lower_answer};
ghost use Rattle.cert_check.specs.Walk.{turn_side, past_node, sides_to};

use crate::bounds::{lower_at, upper_at};
use crate::turns::Turns;
use certificate::{Tree, TreeNode, Turn};
use fraction::{Frac, NoFit};
use instance::Instance;
use std::alloc::Global;
use std::marker::Model;

/// A place of a tree, with the turns on the way to it where there is memory for them and their numbers fit.
#[derive(Drop)]
pub struct Way<'t> {
    tree: &'t Tree,
    place: usize,
    turns: Option<Turns<'t>>,
}

impl<'t> Model for Way<'t> {
    ghost use Rattle.std.specs.Prelude.{◌≡◌, ◌≤◌, length, IfSome};
    ghost use Rattle.certificate.specs.Ways.{way};
    ghost use Rattle.cert_check.specs.Walk.{Place};

    ghost Value = { Place };

    ghost view = { λ w. record { nodes = w.tree.now; place = w.place } };

    ghost invariant = { λ w. (w.place ≤ length w.tree.now) × IfSome w.turns (λ sides. sides ≡ way w.tree.now w.place) };
}

// The turns past a node, where they are there before it.
fn turns_past<'t>(turns: Option<Turns<'t>>, node: &'t TreeNode, place: usize) -> Option<Turns<'t>>
    ensures { (sides : List Side) → IfSome turns.entry (λ own. own ≡ sides) → IfSome result (λ made. made ≡ past_node (node_of node.now) sides) }
{
    match turns {
        None => None,
        Some(turns) => turns.past(node, place),
    }
}

// How many turns there are on the way to a place.
fn depth_at(tree: &Tree, place: usize) -> usize
    requires { place ≤ length tree.now }
    ensures { result ≡ length (way tree.now place) }
{
    let mut depth = 0;
    let mut at = place;
    while let Some(turn) = tree.last_turn(at) {
        depth += 1;
        at = turn.place;
    }
    depth
}

// The turn at the i-th split from the root, found by a walk back from the place.
fn turn_at<'t>(tree: &'t Tree, place: usize, i: usize) -> Option<Turn<'t>>
    requires { place ≤ length tree.now }
    ensures { option_map turn_side result ≡ way_get (way tree.now place) i }
{
    let mut depth = depth_at(tree, place);
    let mut at = place;
    while let Some(turn) = tree.last_turn(at) {
        depth -= 1;
        if depth == i {
            return Some(turn);
        }
        at = turn.place;
    }
    None
}

impl<'t> Way<'t> {
    /// The root, from where turns are kept.
    pub fn root(alloc: Global, tree: &'t Tree) -> Self
        ensures root { result ≡ record { nodes = tree.now; place = 0 } }
    {
        Way {
            tree,
            place: 0,
            turns: Some(Turns::none(alloc)),
        }
    }

    // A place, to which no turns are kept.
    pub(crate) fn at(tree: &'t Tree, place: usize) -> Self
        requires { place ≤ length tree.now }
        ensures { result ≡ record { nodes = tree.now; place = place } }
    {
        Way {
            tree,
            place,
            turns: None,
        }
    }

    // A place, with the turns on the way to it where there is memory for them.
    pub(crate) fn to(alloc: Global, tree: &'t Tree, place: usize) -> Self
        requires { place ≤ length tree.now }
        ensures { result ≡ record { nodes = tree.now; place = place } }
    {
        let mut way = Way::root(alloc, tree);
        let mut at = 0;
        while at < place {
            way.advance();
            at += 1;
        }
        way
    }

    /// On to the next place. Where there is no memory for a turn, or its number does not fit, none are kept from there on.
    pub fn advance(&mut self)
        requires before_the_end { self.old.place < length self.old.nodes }
        ensures next { self.new ≡ record { nodes = self.old.nodes; place = self.old.place + 1 } }
    {
        let node = &self.tree.as_slice()[self.place];
        self.turns = turns_past(self.turns.take(), node, self.place);
        self.place += 1;
    }

    // The tree.
    pub(crate) fn tree(&self) -> &'t Tree
        ensures { result.now ≡ self.now.nodes }
    {
        self.tree
    }

    // The turn at the i-th split from the root.
    pub(crate) fn turn(&self, i: usize) -> Option<Turn<'t>>
        ensures { option_map turn_side result ≡ way_get (sides_to self.now) i }
    {
        match &self.turns {
            None => turn_at(self.tree, self.place, i),
            Some(turns) => turns.get(i),
        }
    }

    // The lower bound of a column under the splits on the way that are of this column alone, or the sum P + 1 that does not
    // fit.
    pub(crate) fn lower(&self, problem: &Instance, column: u32) -> Result<Option<Frac>, NoFit>
        ensures { result ≡ lower_answer problem.now (sides_to self.now) column }
    {
        match &self.turns {
            None => lower_at(problem, self.tree, self.place, column),
            Some(turns) => Ok(turns.lower(problem, column)),
        }
    }

    // The upper bound of a column under the splits on the way that are of this column alone.
    pub(crate) fn upper(&self, problem: &Instance, column: u32) -> Option<Frac>
        ensures { result ≡ upper_under problem.now (sides_to self.now) column }
    {
        match &self.turns {
            None => upper_at(problem, self.tree, self.place, column),
            Some(turns) => turns.upper(problem, column),
        }
    }
}
