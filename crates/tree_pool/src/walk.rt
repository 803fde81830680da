// A tree read in preorder.
ghost use Rattle.std.specs.Prelude.{◌≡◌, ◌+◌, [], ◌∷◌, length, reverse, IfOk, OnOk};
ghost use Rattle.tree_pool.specs.LogNodes.{node_at};
ghost use Rattle.tree_pool.specs.Standing.{in_preorder, left_behind, side_of, ref_at};

use crate::kind::{Kind, kind_at};
use crate::refs::NodeRef;
use search_tree::Entry;
use std::alloc::{AllocError, Global};

// The nodes in preorder, from the first place on. `left` has the places of trees that are left, the next one last.
pub(crate) fn in_preorder(
    alloc: Global,
    log: &[Entry],
    nodes: &[NodeRef],
) -> Result<Vec<NodeRef>, AllocError>
    ensures { IfOk result (λ all. all.items ≡ in_preorder (node_at log.now) nodes.now (length nodes.now) (0 ∷ [])) }
{
    let mut all = Vec::new(alloc);
    let mut left = Vec::with_capacity(alloc, 1)?;
    left.push_reserved(0);
    let mut count = nodes.len();
    while count > 0 {
        let Some(place) = left.pop() else {
            return Ok(all);
        };
        count -= 1;
        let node = node_on(nodes, place);
        all.push(node)?;
        push_sides(log, node, &mut left)?;
    }
    Ok(all)
}

fn node_on(nodes: &[NodeRef], place: usize) -> NodeRef
    ensures { result ≡ ref_at nodes.now place }
{
    match nodes.get(place) {
        None => NodeRef::Again,
        Some(node) => *node,
    }
}

// The places of a split's sides are left, too.
fn push_sides(log: &[Entry], node: NodeRef, left: &mut Vec<usize>) -> Result<(), AllocError>
    ensures { OnOk result (reverse left.new.items ≡ left_behind (node_at log.now node) (side_of node) (reverse left.old.items)) }
{
    match kind_at(log, node) {
        Kind::SplitBy(_) => push_two(side_of(node), left),
        _ => Ok(()),
    }
}

fn push_two(low: usize, left: &mut Vec<usize>) -> Result<(), AllocError>
    ensures { OnOk result (reverse left.new.items ≡ low ∷ (low + 1) ∷ reverse left.old.items) }
{
    let Some(high) = low.checked_add(1) else {
        return Err(AllocError);
    };
    left.push(high)?;
    left.push(low)?;
    Ok(())
}

// The place of the low side, where a split with sides of its own stands here.
fn side_of(node: NodeRef) -> usize
    ensures { result ≡ side_of node }
{
    match node {
        NodeRef::Again => 0,
        NodeRef::Under(_) => 0,
        NodeRef::Held(_, _) => 0,
        NodeRef::Forked { low, .. } => low,
    }
}
