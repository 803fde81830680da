// Partial certificates without their best points.
ghost use Rattle.std.specs.Prelude.{◌≡◌, ◌++◌, [], ◌∷◌, map, option_map, IsTrue, IfOk, OnOk};
ghost use Rattle.certificate.specs.Values.{node_of};
ghost use Rattle.partial_certificate.specs.Partial.{Done};
ghost use Rattle.partial_certificate.specs.Written.{is_whole};
ghost use Rattle.partial_certificate.specs.Values.{partial_of};
ghost use Rattle.tree_pool.specs.Shown.{done_or_todo};
ghost use Rattle.stopped_search.specs.Stopped.{open_again, without_best};

use certificate::TreeNode;
use partial_certificate::{PartialCertificate, PartialNode, PartialTree};
use std::alloc::{AllocError, Global};

/// The same without the best point: a leaf that was closed by its value is left to do.
pub(crate) fn without_best(
    alloc: Global,
    certificate: &PartialCertificate,
) -> Result<PartialCertificate, AllocError>
    ensures { IfOk result (λ made. made ≡ without_best certificate.now) }
{
    let rows = certificate.rows();
    let columns = certificate.columns();
    let tree = opened_tree(alloc, certificate.tree())?;
    let derived = certificate.derived().copy(alloc)?;
    Ok(PartialCertificate::new(rows, columns, None, derived, tree))
}

// The tree whose leaves that were closed by a value are left to do.
fn opened_tree(alloc: Global, tree: &PartialTree) -> Result<PartialTree, AllocError>
    requires { IsTrue (is_whole tree.now) }
    ensures exact { IfOk result (λ made. made ≡ map open_again tree.now) }
    ensures whole { IfOk result (λ made. IsTrue (is_whole made)) }
{
    let mut made = PartialTree::new(alloc);
    for place in 0..tree.len() {
        let node = tree.node(place);
        add_opened(alloc, &mut made, &node)?;
    }
    Ok(made)
}

// Adds the node, or a leaf that is left to do.
fn add_opened(alloc: Global, made: &mut PartialTree, node: &PartialNode) -> Result<(), AllocError>
    ensures { OnOk result (made.new ≡ made.old ++ open_again (partial_of node.now) ∷ []) }
{
    match kept_node(alloc, node)? {
        None => made.push_todo(alloc),
        Some(kept) => {
            made.push_node(kept)?;
            Ok(())
        }
    }
}

// A copy of a node that stays; None where a leaf is left to do.
fn kept_node(alloc: Global, node: &PartialNode) -> Result<Option<TreeNode>, AllocError>
    ensures { IfOk result (λ kept. done_or_todo (option_map node_of kept) ≡ open_again (partial_of node.now)) }
{
    match node {
        PartialNode::Todo => Ok(None),
        PartialNode::Done(node) => kept_done(alloc, node),
    }
}

fn kept_done(alloc: Global, node: &TreeNode) -> Result<Option<TreeNode>, AllocError>
    ensures { IfOk result (λ kept. done_or_todo (option_map node_of kept) ≡ open_again (Done (node_of node.now))) }
{
    match node {
        TreeNode::Branch(split) => Ok(Some(TreeNode::Branch(split.copy(alloc)?))),
        TreeNode::Empty(weights) => Ok(Some(TreeNode::Empty(weights.copy(alloc)?))),
        TreeNode::Bound(_) => Ok(None),
    }
}
