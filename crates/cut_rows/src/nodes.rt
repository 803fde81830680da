// Trees in which weights of the cuts' rows are weights of derived rows.
ghost use Rattle.std.specs.Prelude.{◌≡◌, map, IsTrue, IfOk};
ghost use Rattle.certificate.specs.Values.{node_of};
ghost use Rattle.certificate.specs.Written.{is_tree};
ghost use Rattle.cut_rows.specs.Restored.{restored_weights, restored_node};

use certificate::{LeafWeights, Tree, TreeNode, Weights};
use instance::Instance;
use row_columns::{first_items, items_behind};
use std::alloc::{AllocError, Global};

// The tree whose leaves weigh derived rows in place of the cuts' rows.
pub(crate) fn restored_tree(
    alloc: Global,
    problem: &Instance,
    tree: &Tree,
) -> Result<Tree, AllocError>
    requires { IsTrue (is_tree tree.now) }
    ensures exact { IfOk result (λ made. made ≡ map (restored_node problem.now) tree.now) }
    ensures whole { IfOk result (λ made. IsTrue (is_tree made)) }
{
    let mut made = Tree::new(alloc);
    let nodes = tree.as_slice();
    for node in nodes {
        let node = restored_node(alloc, problem, node)?;
        made.push(node)?;
    }
    Ok(made)
}

pub(crate) fn restored_node(
    alloc: Global,
    problem: &Instance,
    node: &TreeNode,
) -> Result<TreeNode, AllocError>
    ensures { IfOk result (λ made. node_of made ≡ restored_node problem.now (node_of node.now)) }
{
    match node {
        TreeNode::Branch(split) => Ok(TreeNode::Branch(split.copy(alloc)?)),
        TreeNode::Empty(weights) => Ok(TreeNode::Empty(restored_weights(alloc, problem, weights)?)),
        TreeNode::Bound(weights) => Ok(TreeNode::Bound(restored_weights(alloc, problem, weights)?)),
    }
}

// The weights of a leaf, of which those of rows behind the problem's are weights of derived rows.
fn restored_weights(
    alloc: Global,
    problem: &Instance,
    weights: &LeafWeights,
) -> Result<LeafWeights, AllocError>
    ensures { IfOk result (λ made. made ≡ restored_weights problem.now weights.now) }
{
    let parts = weights.weights();
    let count = problem.rows().len();
    let rows = first_items(alloc, count, parts.rows())?;
    let columns = parts.columns().copy(alloc)?;
    let derived = items_behind(alloc, count, parts.rows())?;
    let splits = weights.splits().copy(alloc)?;
    Ok(LeafWeights::new(Weights::new(rows, columns, derived), splits))
}
