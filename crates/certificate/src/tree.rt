// Trees of splits.
ghost use Rattle.std.specs.Prelude.{◌≡◌, ◌≤◌, ◌+◌, [], ◌∷◌, ◌++◌, length, map, reverse, take, OnOk, OnErr, IfErr};
ghost use Rattle.std.specs.List.{AllByRecursion};
ghost use Rattle.certificate.specs.Written.{IsNode};
ghost use Rattle.certificate.specs.Values.{node_of};
ghost use Rattle.certificate.specs.Ways.{IsLastTurn};
ghost use Rattle.certificate.specs.Parents.{parent_to, parent_of, IsTurnUnder};

use crate::{LeafWeights, Side, Split, Turn};
use std::alloc::{AllocFailed, Global};
use std::marker::Model;

/// A node of a tree.
#[derive(Drop)]
pub enum TreeNode {
    /// Two cases: the low side comes next, then the high side.
    Branch(Split),
    /// A leaf without feasible points, as the weights show.
    Empty(LeafWeights),
    /// A leaf without points better than the value, as the weights show.
    Bound(LeafWeights),
}

// A node has a text.
fn node_has_text(node: &TreeNode)
    ensures { IsNode (node_of node.now) }
{
    match node {
        TreeNode::Branch(split) => {
            let _form = split.form();
        }
        TreeNode::Empty(weights) => {
            let _splits = weights.splits();
        }
        TreeNode::Bound(weights) => {
            let _splits = weights.splits();
        }
    }
}

// The branch above a node, by its place in the preorder, and the side on which the node is.
#[derive(Clone, Copy)]
struct Parent {
    place: usize,
    side: Side,
}

/// The nodes of a tree in preorder. The tree keeps the place of the branch above each node, and above the place after the
/// last one.
#[derive(Drop)]
pub struct Tree {
    nodes: Vec<TreeNode>,
    parents: Vec<Option<Parent>>,
    next: Option<Parent>,
}

impl Model for Tree {
    ghost use Rattle.std.specs.Prelude.{List, length, map, ◌≡◌};
    ghost use Rattle.std.specs.List.{AllByRecursion};
    ghost use Rattle.verdicts.specs.Certificate.{TreeNode as NodeOf};
    ghost use Rattle.certificate.specs.Written.{IsNode};
    ghost use Rattle.certificate.specs.Values.{node_of};
    ghost use Rattle.certificate.specs.Parents.{parent_of, AreParents};

    ghost Value = { List NodeOf };

    ghost view = { λ t. map node_of t.nodes.items };

    ghost invariant = { λ t. AllByRecursion IsNode (map node_of t.nodes.items) × AreParents (map node_of t.nodes.items) t.parents.items × (t.next ≡ parent_of (map node_of t.nodes.items) (length t.nodes.items)) };
}

impl Tree {
    /// No nodes.
    pub fn new(alloc: Global) -> Self
        ensures { result ≡ [] }
    {
        Tree {
            nodes: Vec::new(alloc),
            parents: Vec::new(alloc),
            next: None,
        }
    }

    /// One more node, at the end. It comes back where memory is wanting.
    pub fn push(&mut self, node: TreeNode) -> Result<(), AllocFailed<TreeNode>>
        ensures ok { OnOk result (self.new ≡ self.old ++ node_of node ∷ []) }
        ensures kept { OnErr result (self.new ≡ self.old) }
        ensures back { IfErr result (λ e. e.value ≡ node) }
    {
        node_has_text(&node);
        if self.parents.reserve(1).is_err() || self.nodes.reserve(1).is_err() {
            return Err(AllocFailed { value: node });
        }
        let next = self.above_next(&node);
        self.parents.push_reserved(self.next);
        self.nodes.push_reserved(node);
        self.next = next;
        Ok(())
    }

    // The branch above the place after a node that comes next.
    fn above_next(&self, node: &TreeNode) -> Option<Parent>
        ensures { result ≡ parent_of (self.now ++ node_of node.now ∷ []) (length self.now + 1) }
    {
        let place = self.nodes.len();
        match node {
            TreeNode::Branch(_) => Some(Parent {
                place,
                side: Side::Low,
            }),
            _ => self.above_past(place),
        }
    }

    // The branch above the place after the subtree that begins at a place: the first on the way up on whose low side the
    // place is.
    fn above_past(&self, place: usize) -> Option<Parent>
        requires { place ≤ length self.now }
        ensures { result ≡ parent_to (reverse (take place self.now)) 1 }
    {
        let mut at = place;
        while let Some(parent) = self.above(at) {
            match parent.side {
                Side::Low => {
                    return Some(Parent {
                        place: parent.place,
                        side: Side::High,
                    });
                }
                Side::High => at = parent.place,
            }
        }
        None
    }

    // The branch above the node at a place, or above the place after the last node; none at the root.
    fn above(&self, place: usize) -> Option<Parent>
        requires { place ≤ length self.now }
        ensures { result ≡ parent_of self.now place }
    {
        if place < self.parents.len() {
            self.parents[place]
        } else {
            self.next
        }
    }

    /// The last turn on the way to the node at a place, or to the place after the last node; none at the root.
    pub fn last_turn(&self, place: usize) -> Option<Turn<'_>>
        requires { place ≤ length self.now }
        ensures { IsLastTurn self.now place result }
    {
        match self.above(place) {
            None => None,
            Some(parent) => turn_under(&self.nodes[parent.place], parent),
        }
    }

    /// The nodes, for reading. All of them have a text.
    pub fn as_slice(&self) -> &[TreeNode]
        ensures nodes { map node_of result.now ≡ self.now }
        ensures written { AllByRecursion IsNode self.now }
    {
        &self.nodes
    }
}

// The turn to a side of a branch.
fn turn_under(node: &TreeNode, parent: Parent) -> Option<Turn<'_>>
    ensures { IsTurnUnder (node_of node.now) parent result }
{
    match node {
        TreeNode::Branch(split) => Some(Turn {
            place: parent.place,
            split,
            side: parent.side,
        }),
        _ => None,
    }
}
