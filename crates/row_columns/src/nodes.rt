// Trees without splits of the forms' columns.
ghost use Rattle.std.specs.Prelude.{◌≡◌, ◌<◌, map, IsTrue, IfOk};
ghost use Rattle.std.specs.List.{AllByRecursion};
ghost use Rattle.certificate.specs.Values.{node_of};
ghost use Rattle.certificate.specs.Written.{count_max, is_tree, column_form, split_column};
ghost use Rattle.row_columns.specs.Restored.{restored_split, restored_node, IsNodeOfColumns};

use crate::forms::Forms;
use crate::weights::restored_weights;
use certificate::{ColumnSplit, Split, Tree, TreeNode};
use instance::Instance;
use std::alloc::{AllocError, Global};

// The tree whose branches split the forms in place of their columns.
pub(crate) fn restored_tree(
    alloc: Global,
    problem: &Instance,
    forms: &Forms,
    tree: &Tree,
) -> Result<Tree, AllocError>
    requires whole { IsTrue (is_tree tree.now) }
    requires nodes { AllByRecursion IsNodeOfColumns tree.now }
    ensures exact { IfOk result (λ made. made ≡ map (restored_node problem.now forms.now) tree.now) }
    ensures whole { IfOk result (λ made. IsTrue (is_tree made)) }
{
    let mut made = Tree::new(alloc);
    let nodes = tree.as_slice();
    for node in nodes {
        let node = restored_node(alloc, problem, forms, node)?;
        made.push(node)?;
    }
    Ok(made)
}

pub(crate) fn restored_node(
    alloc: Global,
    problem: &Instance,
    forms: &Forms,
    node: &TreeNode,
) -> Result<TreeNode, AllocError>
    requires { IsNodeOfColumns (node_of node.now) }
    ensures { IfOk result (λ made. node_of made ≡ restored_node problem.now forms.now (node_of node.now)) }
{
    match node {
        TreeNode::Branch(split) => Ok(TreeNode::Branch(restored_split(alloc, forms, split)?)),
        TreeNode::Empty(weights) => Ok(TreeNode::Empty(restored_weights(
            alloc, problem, forms, weights,
        )?)),
        TreeNode::Bound(weights) => Ok(TreeNode::Bound(restored_weights(
            alloc, problem, forms, weights,
        )?)),
    }
}

// The split of a column as one of its form, or of the column among those behind the forms'.
fn restored_split(alloc: Global, forms: &Forms, split: &Split) -> Result<Split, AllocError>
    requires { split.now.form ≡ column_form (split_column split.now) }
    ensures { IfOk result (λ made. made ≡ restored_split forms.now split.now) }
{
    let column = column_of(split);
    let forms = forms.as_slice();
    match forms.get(column as usize) {
        Some(form) => Ok(Split::new(form.copy(alloc)?, split.at())),
        None => ColumnSplit::new(column - forms.len() as u32, split.at()).to_split(alloc),
    }
}

// The column of a split of one column.
fn column_of(split: &Split) -> u32
    requires { split.now.form ≡ column_form (split_column split.now) }
    ensures column { result ≡ split_column split.now }
    ensures within { result < count_max }
{
    match split.form().as_slice() {
        [] => unreachable!(),
        [entry, ..] => entry.column,
    }
}
