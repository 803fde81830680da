// What boards have shown so far, and what the check of it answers.
use crate::boards::{board_of, number, other_reply};
use crate::certificates::check_words;
use crate::texts::numbers_of;
use certificate::{Items, LeafWeights, Split, TreeNode};
use instance::Instance;
use partial_certificate::{Best, PartialCertificate, PartialNode, PartialTree, check_partial};
use std::alloc::{AllocError, Global};
use tree_pool::Board;

/// What the board of a problem has shown after these events, or the first of them with its reply where the row has another.
pub(crate) fn shown_after(
    alloc: Global,
    problem: &Instance,
    asked: &str,
) -> Result<String, AllocError> {
    let (limit, steps) = asked.split_once(": ").unwrap_or((asked, ""));
    let mut board = board_of(alloc, problem.copy(alloc)?, number(limit))?;
    let other = other_reply(alloc, &mut board, steps)?;
    let words = match other {
        Some(words) => Ok(words),
        None => shown_words(alloc, problem, &board),
    };
    std::mem::drop(board);
    words
}

/// What the board of a problem has shown so far.
pub(crate) fn shown_words(
    alloc: Global,
    problem: &Instance,
    board: &Board,
) -> Result<String, AllocError> {
    let partial = board.shown(alloc)?;
    let words = partial_words(alloc, problem, &partial);
    std::mem::drop(partial);
    words
}

/// The best point, the number of derived rows, the tree node by node, and what the check answers, with `$` between them.
pub(crate) fn partial_words(
    alloc: Global,
    problem: &Instance,
    partial: &PartialCertificate,
) -> Result<String, AllocError> {
    let best = best_words(alloc, partial.best())?;
    let rows = partial.derived().as_slice().len();
    let tree = tree_words(alloc, partial.tree())?;
    let checked = check_words(alloc, check_partial(alloc, problem, partial))?;
    format!(in alloc; "{best}$derived {rows}{tree}${checked}")
}

fn best_words(alloc: Global, best: Option<&Best>) -> Result<String, AllocError> {
    match best {
        None => "none".to_string(alloc),
        Some(best) => {
            let value = best.value().text(alloc)?;
            let point = numbers_of(alloc, best.point())?;
            format!(in alloc; "{value} at {point}")
        }
    }
}

fn tree_words(alloc: Global, tree: &PartialTree) -> Result<String, AllocError> {
    let mut words = String::new(alloc);
    for place in 0..tree.len() {
        let node = node_words(alloc, tree.node(place))?;
        write!(words, "${node}")?;
    }
    Ok(words)
}

fn node_words(alloc: Global, node: PartialNode) -> Result<String, AllocError> {
    match node {
        PartialNode::Todo => "todo".to_string(alloc),
        PartialNode::Done(node) => done_words(alloc, node),
    }
}

fn done_words(alloc: Global, node: &TreeNode) -> Result<String, AllocError> {
    match node {
        TreeNode::Branch(split) => split_words(alloc, split),
        TreeNode::Empty(weights) => leaf_words(alloc, "empty", weights),
        TreeNode::Bound(weights) => leaf_words(alloc, "bound", weights),
    }
}

fn split_words(alloc: Global, split: &Split) -> Result<String, AllocError> {
    let at = split.at().get();
    let mut words = format!(in alloc; "split {at}")?;
    for entry in split.form().as_slice() {
        let column = entry.column.saturating_add(1);
        let coefficient = entry.coefficient.text(alloc)?;
        write!(words, " {column}:{coefficient}")?;
    }
    Ok(words)
}

fn leaf_words(alloc: Global, word: &str, weights: &LeafWeights) -> Result<String, AllocError> {
    let mut words = word.to_string(alloc)?;
    let parts = weights.weights();
    push_items(alloc, &mut words, 'r', parts.rows())?;
    push_items(alloc, &mut words, 'c', parts.columns())?;
    push_items(alloc, &mut words, 'd', parts.derived())?;
    push_items(alloc, &mut words, 's', weights.splits())?;
    Ok(words)
}

fn push_items(
    alloc: Global,
    words: &mut String,
    kind: char,
    items: &Items,
) -> Result<(), AllocError> {
    for item in items.as_slice() {
        let index = item.index.saturating_add(1);
        let weight = item.weight.text(alloc)?;
        write!(words, " {kind}{index}:{weight}")?;
    }
    Ok(())
}
