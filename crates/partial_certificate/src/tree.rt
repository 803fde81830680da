// Trees with leaves that are left to do.
ghost use Rattle.std.specs.Prelude.{◌≡◌, ◌<◌, [], ◌∷◌, ◌++◌, Some, length, map, slice_get, OnOk, OnErr, IfErr};
ghost use Rattle.verdicts.specs.Certificate.{Empty};
ghost use Rattle.certificate.specs.Values.{node_of};
ghost use Rattle.partial_certificate.specs.Partial.{Done as is_done, Todo as is_todo, shape, no_weights};
ghost use Rattle.partial_certificate.specs.Written.{AreNodes};
ghost use Rattle.partial_certificate.specs.Marks.{marked, marked_node};
ghost use Rattle.partial_certificate.specs.Values.{partial_of};

use certificate::{LeafWeights, Tree, TreeNode, Weights};
use std::alloc::{AllocError, AllocFailed, Global};
use std::marker::Model;

/// A node of a tree with leaves that are left to do, for reading.
#[derive(Clone, Copy)]
pub enum PartialNode<'t> {
    /// A node as a certificate has it.
    Done(&'t TreeNode),
    /// A leaf of which nothing is shown.
    Todo,
}

/// The nodes of a tree in preorder, with leaves that are left to do.
#[derive(Drop)]
pub struct PartialTree {
    // A leaf without weights stands in the place of each leaf that is left to do.
    tree: Tree,
    // Whether the node at each place is left to do.
    marks: Vec<bool>,
}

impl Model for PartialTree {
    ghost use Rattle.std.specs.Prelude.{List};
    ghost use Rattle.partial_certificate.specs.Partial.{PartialNode as NodeOf};
    ghost use Rattle.partial_certificate.specs.Marks.{marked, AreMarks};

    ghost Value = { List NodeOf };

    ghost view = { λ t. marked t.marks.items t.tree };

    ghost invariant = { λ t. AreMarks t.marks.items t.tree };
}

// A leaf without weights.
fn stand_in(alloc: Global) -> TreeNode
    ensures { node_of result ≡ Empty no_weights }
{
    let weights = Weights::none(alloc);
    TreeNode::Empty(LeafWeights::without_splits(alloc, weights))
}

// A node by its mark.
fn marked_node(mark: bool, node: &TreeNode) -> PartialNode<'_>
    ensures { partial_of result ≡ marked_node mark (node_of node.now) }
{
    if mark {
        PartialNode::Todo
    } else {
        PartialNode::Done(node)
    }
}

// The node at a place, by the marks and the nodes that are kept.
fn node_at<'t>(marks: &[bool], nodes: &'t [TreeNode], place: usize) -> PartialNode<'t>
    requires marks { place < length marks.now }
    requires nodes { place < length nodes.now }
    ensures { slice_get (marked marks.now (map node_of nodes.now)) place ≡ Some (partial_of result) }
{
    let mark = marks[place];
    marked_node(mark, &nodes[place])
}

impl PartialTree {
    /// No nodes.
    pub fn new(alloc: Global) -> Self
        ensures empty { result ≡ [] }
    {
        PartialTree {
            tree: Tree::new(alloc),
            marks: Vec::new(alloc),
        }
    }

    /// One more node as a certificate has it, at the end. It comes back where memory is wanting.
    pub fn push_node(&mut self, node: TreeNode) -> Result<(), AllocFailed<TreeNode>>
        ensures ok { OnOk result (self.new ≡ self.old ++ is_done (node_of node) ∷ []) }
        ensures kept { OnErr result (self.new ≡ self.old) }
        ensures back { IfErr result (λ e. e.value ≡ node) }
    {
        if self.marks.reserve(1).is_err() {
            return Err(AllocFailed { value: node });
        }
        self.tree.push(node)?;
        self.marks.push_reserved(false);
        Ok(())
    }

    /// One more leaf that is left to do, at the end.
    pub fn push_todo(&mut self, alloc: Global) -> Result<(), AllocError>
        ensures ok { OnOk result (self.new ≡ self.old ++ is_todo ∷ []) }
        ensures kept { OnErr result (self.new ≡ self.old) }
    {
        self.marks.reserve(1)?;
        self.tree.push(stand_in(alloc))?;
        self.marks.push_reserved(true);
        Ok(())
    }

    /// How many nodes there are.
    pub fn len(&self) -> usize
        ensures count { result ≡ length self.now }
    {
        self.marks.len()
    }

    /// The node at a place of the preorder.
    pub fn node(&self, place: usize) -> PartialNode<'_>
        requires within { place < length self.now }
        ensures node { slice_get self.now place ≡ Some (partial_of result) }
    {
        node_at(&self.marks, self.tree.as_slice(), place)
    }

    /// The nodes of a certificate in the places of these: a leaf without weights for each leaf that is left to do. All of
    /// them have a text.
    pub fn shapes(&self) -> &Tree
        ensures nodes { result.now ≡ map shape self.now }
        ensures written { AreNodes self.now }
    {
        let _nodes = self.tree.as_slice();
        &self.tree
    }
}
