// Trees of version 1 as trees of version 2.
ghost use Rattle.std.specs.Prelude.{◌≡◌, ◌≤◌, [], ◌∷◌, ◌++◌, length, IsTrue, IfOk, OnOk};
ghost use Rattle.std.specs.List.{AllByRecursion};
ghost use Rattle.verdicts.specs.Migrated.{named, migrated_node, migrated_nodes};
ghost use Rattle.certificate.specs.Values.{node_of};
ghost use Rattle.certificate.specs.Ways.{way};
ghost use Rattle.certificate.specs.Written.{is_tree, IsOfOne};

use crate::columns::own_columns;
use crate::kept::turns_to;
use crate::splits::split_weights;
use certificate::{LeafWeights, Tree, TreeNode, Weights};
use instance::Instance;
use std::alloc::{AllocError, Global};

// The tree whose leaves name the splits that give the bounds of their weights of columns.
pub(crate) fn migrated_tree(
    alloc: Global,
    problem: &Instance,
    tree: &Tree,
) -> Result<Tree, AllocError>
    requires whole { IsTrue (is_tree tree.now) }
    requires one { AllByRecursion IsOfOne tree.now }
    ensures exact { IfOk result (λ made. made ≡ migrated_nodes problem.now ([] ∷ []) tree.now) }
    ensures whole { IfOk result (λ made. IsTrue (is_tree made)) }
{
    let nodes = tree.as_slice();
    let mut made = Tree::new(alloc);
    for (place, node) in nodes.iter().enumerate() {
        add_migrated(alloc, &mut made, problem, tree, place, node)?;
    }
    Ok(made)
}

// Adds the node at a place to those made.
fn add_migrated(
    alloc: Global,
    made: &mut Tree,
    problem: &Instance,
    tree: &Tree,
    place: usize,
    node: &TreeNode,
) -> Result<(), AllocError>
    requires within { place ≤ length tree.now }
    requires one { IsOfOne (node_of node.now) }
    ensures { OnOk result (made.new ≡ made.old ++ migrated_node problem.now (way tree.now place) (node_of node.now) ∷ []) }
{
    let node = migrated_node(alloc, problem, tree, place, node)?;
    made.push(node)?;
    Ok(())
}

fn migrated_node(
    alloc: Global,
    problem: &Instance,
    tree: &Tree,
    place: usize,
    node: &TreeNode,
) -> Result<TreeNode, AllocError>
    requires within { place ≤ length tree.now }
    requires one { IsOfOne (node_of node.now) }
    ensures { IfOk result (λ made. node_of made ≡ migrated_node problem.now (way tree.now place) (node_of node.now)) }
{
    match node {
        TreeNode::Branch(split) => Ok(TreeNode::Branch(split.copy(alloc)?)),
        TreeNode::Empty(weights) => Ok(TreeNode::Empty(named(
            alloc,
            problem,
            tree,
            place,
            weights.weights(),
        )?)),
        TreeNode::Bound(weights) => Ok(TreeNode::Bound(named(
            alloc,
            problem,
            tree,
            place,
            weights.weights(),
        )?)),
    }
}

/// The weights of a leaf at a place of a tree, with weights of splits in place of those of columns whose bounds splits on
/// the way give. Where more splits stand on the way than a text can count, 2^32 - 1, memory counts as wanting.
pub fn named(
    alloc: Global,
    problem: &Instance,
    tree: &Tree,
    place: usize,
    weights: &Weights,
) -> Result<LeafWeights, AllocError>
    requires { place ≤ length tree.now }
    ensures { IfOk result (λ made. made ≡ named problem.now (way tree.now place) weights.now) }
{
    let rows = weights.rows().copy(alloc)?;
    let derived = weights.derived().copy(alloc)?;
    let turns = turns_to(alloc, tree, place)?;
    let columns = own_columns(alloc, problem, &turns, weights.columns())?;
    let splits = split_weights(alloc, problem, &turns, weights.columns())?;
    Ok(LeafWeights::new(Weights::new(rows, columns, derived), splits))
}
