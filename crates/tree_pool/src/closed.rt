// The tree of a certificate.
ghost use Rattle.std.specs.Prelude.{◌≡◌, ◌++◌, option_map, is_some, IfOk, OnOk};
ghost use Rattle.certificate.specs.Values.{node_of};
ghost use Rattle.search_tree.specs.Kept.{closed_node};
ghost use Rattle.search_tree.specs.Finished.{one_or_none};
ghost use Rattle.tree_pool.specs.LogNodes.{node_at, nodes_in};
ghost use Rattle.tree_pool.specs.Ledger.{closed_in, closed_slots, are_closed};

use crate::kind::held;
use crate::refs::NodeRef;
use certificate::{Tree, TreeNode};
use search_tree::{Entry, Leaf, Slot};
use std::alloc::{AllocError, Global};

// The nodes of closed leaves, and the branches, in preorder.
pub(crate) fn closed_tree(
    alloc: Global,
    log: &[Entry],
    nodes: &[NodeRef],
) -> Result<Tree, AllocError>
    ensures { IfOk result (λ t. t ≡ closed_slots (nodes_in log.now nodes.now)) }
{
    let mut tree = Tree::new(alloc);
    for node in nodes {
        add_closed(alloc, &mut tree, log, *node)?;
    }
    Ok(tree)
}

// Adds the node of a certificate, where one stands here.
fn add_closed(
    alloc: Global,
    tree: &mut Tree,
    log: &[Entry],
    node: NodeRef,
) -> Result<(), AllocError>
    ensures { OnOk result (tree.new ≡ tree.old ++ one_or_none (closed_in (node_at log.now node))) }
{
    match closed_at(alloc, log, node)? {
        None => Ok(()),
        Some(closed) => {
            tree.push(closed)?;
            Ok(())
        }
    }
}

// The node of a certificate, where one stands here.
pub(crate) fn closed_at(
    alloc: Global,
    log: &[Entry],
    node: NodeRef,
) -> Result<Option<TreeNode>, AllocError>
    ensures { IfOk result (λ o. option_map node_of o ≡ closed_in (node_at log.now node)) }
{
    match node {
        NodeRef::Again => Ok(None),
        NodeRef::Under(_) => Ok(None),
        NodeRef::Held(entry, n) => held_closed(alloc, log, entry, n),
        NodeRef::Forked { entry, node, .. } => held_closed(alloc, log, entry, node),
    }
}

fn held_closed(
    alloc: Global,
    log: &[Entry],
    entry: usize,
    n: usize,
) -> Result<Option<TreeNode>, AllocError>
    ensures { IfOk result (λ o. option_map node_of o ≡ closed_in (node_at log.now (NodeRef.Held entry n))) }
{
    match held(log, entry, n) {
        None => Ok(None),
        Some(slot) => slot_closed(alloc, slot),
    }
}

fn slot_closed(alloc: Global, slot: &Slot) -> Result<Option<TreeNode>, AllocError>
    ensures { IfOk result (λ o. option_map node_of o ≡ closed_in slot.now) }
{
    match slot {
        Slot::Divided(split) => Ok(Some(TreeNode::Branch(split.to_split(alloc)?))),
        Slot::Leaf(leaf) => leaf_closed(alloc, leaf),
    }
}

fn leaf_closed(alloc: Global, leaf: &Leaf) -> Result<Option<TreeNode>, AllocError>
    ensures { IfOk result (λ o. option_map node_of o ≡ closed_node leaf.now) }
{
    match leaf {
        Leaf::Refuted(weights) => Ok(Some(TreeNode::Empty(weights.copy(alloc)?))),
        Leaf::Bounded(weights) => Ok(Some(TreeNode::Bound(weights.copy(alloc)?))),
        _ => Ok(None),
    }
}

// Each leaf is closed.
pub(crate) fn are_closed(log: &[Entry], nodes: &[NodeRef]) -> bool
    ensures { result ≡ are_closed (nodes_in log.now nodes.now) }
{
    for node in nodes {
        if !is_closed(log, *node) {
            return false;
        }
    }
    true
}

fn is_closed(log: &[Entry], node: NodeRef) -> bool
    ensures { result ≡ is_some (closed_in (node_at log.now node)) }
{
    match node {
        NodeRef::Again => false,
        NodeRef::Under(_) => false,
        NodeRef::Held(entry, n) => is_held_closed(log, entry, n),
        NodeRef::Forked { entry, node, .. } => is_held_closed(log, entry, node),
    }
}

fn is_held_closed(log: &[Entry], entry: usize, n: usize) -> bool
    ensures { result ≡ is_some (closed_in (node_at log.now (NodeRef.Held entry n))) }
{
    match held(log, entry, n) {
        None => false,
        Some(slot) => is_slot_closed(slot),
    }
}

fn is_slot_closed(slot: &Slot) -> bool
    ensures { result ≡ is_some (closed_in slot.now) }
{
    match slot {
        Slot::Divided(_) => true,
        Slot::Leaf(leaf) => is_leaf_closed(leaf),
    }
}

fn is_leaf_closed(leaf: &Leaf) -> bool
    ensures { result ≡ is_some (closed_node leaf.now) }
{
    match leaf {
        Leaf::Refuted(_) => true,
        Leaf::Bounded(_) => true,
        _ => false,
    }
}
