// What a board has shown so far: the tree and the best point of its partial certificate.
ghost use Rattle.std.specs.Prelude.{◌≡◌, ◌++◌, ◌∷◌, [], IfOk, OnOk};
ghost use Rattle.tree_pool.specs.LogNodes.{node_at, nodes_in};
ghost use Rattle.tree_pool.specs.Ledger.{closed_in};
ghost use Rattle.tree_pool.specs.Shown.{done_or_todo, shown_slots, with_value};

use crate::closed::closed_at;
use crate::refs::NodeRef;
use fraction::Frac;
use instance::Point;
use partial_certificate::{Best, PartialTree};
use search_tree::Entry;
use std::alloc::{AllocError, Global};

// The nodes in preorder, where each leaf that is not closed is left to do.
pub(crate) fn shown_tree(
    alloc: Global,
    log: &[Entry],
    nodes: &[NodeRef],
) -> Result<PartialTree, AllocError>
    ensures { IfOk result (λ t. t ≡ shown_slots (nodes_in log.now nodes.now)) }
{
    let mut tree = PartialTree::new(alloc);
    for node in nodes {
        add_shown(alloc, &mut tree, log, *node)?;
    }
    Ok(tree)
}

// Adds the node of a certificate where one stands here, and else a leaf that is left to do.
fn add_shown(
    alloc: Global,
    tree: &mut PartialTree,
    log: &[Entry],
    node: NodeRef,
) -> Result<(), AllocError>
    ensures { OnOk result (tree.new ≡ tree.old ++ done_or_todo (closed_in (node_at log.now node)) ∷ []) }
{
    match closed_at(alloc, log, node)? {
        None => tree.push_todo(alloc),
        Some(closed) => {
            tree.push_node(closed)?;
            Ok(())
        }
    }
}

// The point with the value, where both are there.
pub(crate) fn with_value(point: Option<Point>, value: Option<Frac>) -> Option<Best>
    ensures { result ≡ with_value point value }
{
    match point {
        None => None,
        Some(point) => point_with(point, value),
    }
}

fn point_with(point: Point, value: Option<Frac>) -> Option<Best>
    ensures { result ≡ with_value (Some point) value }
{
    match value {
        None => None,
        Some(value) => Some(Best::new(point, value)),
    }
}
