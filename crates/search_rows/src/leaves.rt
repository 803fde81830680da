// The trees that are put in the place of leased leaves.
ghost use Rattle.std.specs.Prelude.{◌≡◌, ◌≤◌, [], true, None, IfOk, IfSome};
ghost use Rattle.search_node.specs.Sides.{sides_of};
ghost use Rattle.search_tree.specs.Board.{value_of};
ghost use Rattle.search_tree.specs.Honest.{IsHonestWay};
ghost use Rattle.tree_pool.specs.Places.{IsOpen};
ghost use Rattle.branch_search.specs.Treatment.{IsTreatment, IsToSplit};
ghost use Rattle.branch_search.specs.Grown.{IsFragment};
ghost use Rattle.search_rows.specs.Trees.{MayStand, LeadTo, IsLeafOf};

use branch_search::{Fractional, Fragment, Grown, Treatment, grow, treat};
use candidate::Proposer;
use certificate::{ColumnSplit, DerivedRows};
use fraction::Frac;
use search_node::Node;
use search_tree::{Hint, Leaf, Lease, Subtree, ways_of_boards};
use simplex::root_is_over_columns;
use std::alloc::{AllocError, Global};
use tree_pool::Board;

/// The tree that an event puts in the place of a leased leaf, where what becomes of the leaf is what the event says.
pub(crate) fn tree_for(
    alloc: Global,
    board: &Board,
    lease: &Lease,
    event: &str,
    words: &str,
) -> Result<Option<Subtree>, AllocError>
    requires { IsOpen board.now.tree lease.now }
    ensures { IfOk result (λ tree. IfSome tree (MayStand board.now lease.now)) }
{
    let node = leased_node(alloc, board, lease)?;
    match event {
        "split" => split_tree(alloc, board, lease, &node, words),
        "close" => closed_tree(alloc, board, lease, &node),
        "grow" => grown_tree(alloc, board, lease, &node),
        _ => untouched(alloc, board, lease),
    }
}

fn leased_node(alloc: Global, board: &Board, lease: &Lease) -> Result<Node, AllocError>
    requires { IsOpen board.now.tree lease.now }
    ensures leads { IfOk result (λ node. LeadTo board.now lease.now (sides_of node.splits)) }
    ensures honest { IfOk result (λ node. IsHonestWay board.now.problem board.now.cuts board.now.split_limit (sides_of node.splits)) }
{
    board.keeps_its_log();
    ways_of_boards();
    board.node(alloc, lease.copy())
}

// What becomes of a node, against a best value.
fn treatment_of(
    alloc: Global,
    board: &Board,
    node: &Node,
    best: &Option<Frac>,
) -> Result<Option<Treatment>, AllocError>
    requires { IsHonestWay board.now.problem board.now.cuts board.now.split_limit (sides_of node.now.splits) }
    ensures { IfOk result (λ t. IfSome t (IsTreatment board.now.problem board.now.cuts 100 (sides_of node.now.splits) best.now)) }
{
    let problem = board.problem();
    let cuts = board.cuts();
    if are_none(cuts) {
        root_is_over_columns(problem);
        let hint = no_hint();
        let mut proposer = Proposer::new(alloc, 100, 0);
        let treatment = treat(alloc, problem, cuts, node, best, 100, &hint, &mut proposer);
        std::mem::drop(hint);
        std::mem::drop(proposer);
        return Ok(Some(treatment?));
    }
    Ok(None)
}

fn are_none(cuts: &DerivedRows) -> bool
    ensures { result ≡ true → cuts.now ≡ [] }
{
    cuts.as_slice().is_empty()
}

fn no_hint() -> Hint {
    Hint::new(None, None)
}

// The leaf as it was, given back.
fn untouched(alloc: Global, board: &Board, lease: &Lease) -> Result<Option<Subtree>, AllocError>
    ensures { IfOk result (λ tree. IfSome tree (MayStand board.now lease.now)) }
{
    Ok(Some(Subtree::leaf(alloc, Leaf::Todo(no_hint()))?))
}

// The tree that grows at the leaf, where no point is known and none is found.
fn grown_tree(
    alloc: Global,
    board: &Board,
    lease: &Lease,
    node: &Node,
) -> Result<Option<Subtree>, AllocError>
    requires leads { LeadTo board.now lease.now (sides_of node.now.splits) }
    requires honest { IsHonestWay board.now.problem board.now.cuts board.now.split_limit (sides_of node.now.splits) }
    ensures { IfOk result (λ tree. IfSome tree (MayStand board.now lease.now)) }
{
    if lease.best.is_some() {
        return Ok(None);
    }
    match growth_at(alloc, board, lease, node)? {
        Some(fragment) => Ok(tree_alone(fragment)),
        None => Ok(None),
    }
}

// What grows at the leaf, where a split is granted if one is wanted.
fn growth_at(
    alloc: Global,
    board: &Board,
    lease: &Lease,
    node: &Node,
) -> Result<Option<Fragment>, AllocError>
    requires { IsHonestWay board.now.problem board.now.cuts board.now.split_limit (sides_of node.now.splits) }
    ensures { IfOk result (λ f. IfSome f (IsFragment board.now.problem board.now.cuts 100 (sides_of node.now.splits) lease.now.best lease.now.grant)) }
{
    let cuts = board.cuts();
    if !are_none(cuts) {
        return Ok(None);
    }
    let node = node.copy(alloc)?;
    let hint = no_hint();
    let mut proposer = Proposer::new(alloc, 100, 0);
    let grown = grow(
        alloc,
        board.problem(),
        cuts,
        lease,
        node,
        &hint,
        100,
        &mut proposer,
    );
    std::mem::drop(hint);
    std::mem::drop(proposer);
    match grown {
        Ok(Grown::Ready(fragment)) => Ok(Some(fragment)),
        _ => Ok(None),
    }
}

// The tree, where no point was found.
fn tree_alone(fragment: Fragment) -> Option<Subtree>
    ensures { IfSome result (λ tree. (fragment.found ≡ None) × (fragment.tree ≡ tree)) }
{
    match fragment.found {
        None => Some(fragment.tree),
        Some(_) => None,
    }
}

// The leaf closed against the best value, where it is.
fn closed_tree(
    alloc: Global,
    board: &Board,
    lease: &Lease,
    node: &Node,
) -> Result<Option<Subtree>, AllocError>
    requires leads { LeadTo board.now lease.now (sides_of node.now.splits) }
    requires honest { IsHonestWay board.now.problem board.now.cuts board.now.split_limit (sides_of node.now.splits) }
    ensures { IfOk result (λ tree. IfSome tree (MayStand board.now lease.now)) }
{
    let best = board.best_value();
    match treatment_of(alloc, board, node, &best)? {
        Some(treatment) => tree_of_closed(alloc, board, lease, node, treatment),
        None => Ok(None),
    }
}

fn tree_of_closed(
    alloc: Global,
    board: &Board,
    lease: &Lease,
    node: &Node,
    treatment: Treatment,
) -> Result<Option<Subtree>, AllocError>
    requires leads { LeadTo board.now lease.now (sides_of node.now.splits) }
    requires treatment { IsTreatment board.now.problem board.now.cuts 100 (sides_of node.now.splits) (value_of board.now) treatment }
    ensures { IfOk result (λ tree. IfSome tree (MayStand board.now lease.now)) }
{
    match treatment {
        Treatment::Refuted(weights) => {
            leaf_tree(alloc, board, lease, node, Leaf::Refuted(weights))
        }
        Treatment::Bounded(weights) => {
            leaf_tree(alloc, board, lease, node, Leaf::Bounded(weights))
        }
        other => {
            std::mem::drop(other);
            Ok(None)
        }
    }
}

fn leaf_tree(
    alloc: Global,
    board: &Board,
    lease: &Lease,
    node: &Node,
    leaf: Leaf,
) -> Result<Option<Subtree>, AllocError>
    requires leads { LeadTo board.now lease.now (sides_of node.now.splits) }
    requires leaf { IsLeafOf board.now (sides_of node.now.splits) leaf }
    ensures { IfOk result (λ tree. IfSome tree (MayStand board.now lease.now)) }
{
    board.best_value();
    Ok(Some(Subtree::leaf(alloc, leaf)?))
}

// The leaf split, where a split is granted, and this is the one that parts its relaxed best point.
fn split_tree(
    alloc: Global,
    board: &Board,
    lease: &Lease,
    node: &Node,
    words: &str,
) -> Result<Option<Subtree>, AllocError>
    requires leads { LeadTo board.now lease.now (sides_of node.now.splits) }
    requires honest { IsHonestWay board.now.problem board.now.cuts board.now.split_limit (sides_of node.now.splits) }
    ensures { IfOk result (λ tree. IfSome tree (MayStand board.now lease.now)) }
{
    if lease.grant == 0 {
        return Ok(None);
    }
    match treatment_of(alloc, board, node, &lease.best)? {
        Some(treatment) => {
            let tree = tree_of_split(alloc, board, lease, node, &treatment, words);
            std::mem::drop(treatment);
            tree
        }
        None => Ok(None),
    }
}

fn tree_of_split(
    alloc: Global,
    board: &Board,
    lease: &Lease,
    node: &Node,
    treatment: &Treatment,
    words: &str,
) -> Result<Option<Subtree>, AllocError>
    requires leads { LeadTo board.now lease.now (sides_of node.now.splits) }
    requires treatment { IsTreatment board.now.problem board.now.cuts 100 (sides_of node.now.splits) lease.now.best treatment.now }
    requires grant { 1 ≤ lease.now.grant }
    ensures { IfOk result (λ tree. IfSome tree (MayStand board.now lease.now)) }
{
    match treatment {
        Treatment::ToSplit(fractional) => divided(alloc, board, lease, node, fractional, words),
        _ => Ok(None),
    }
}

fn divided(
    alloc: Global,
    board: &Board,
    lease: &Lease,
    node: &Node,
    fractional: &Fractional,
    words: &str,
) -> Result<Option<Subtree>, AllocError>
    requires leads { LeadTo board.now lease.now (sides_of node.now.splits) }
    requires to_split { IsToSplit board.now.problem board.now.cuts (sides_of node.now.splits) lease.now.best fractional.now }
    requires grant { 1 ≤ lease.now.grant }
    ensures { IfOk result (λ tree. IfSome tree (MayStand board.now lease.now)) }
{
    let split = fractional.split;
    if is_asked(&split, words) {
        let low = Subtree::leaf(alloc, Leaf::Todo(no_hint()))?;
        let high = Subtree::leaf(alloc, Leaf::Todo(no_hint()))?;
        Ok(Some(Subtree::divided(alloc, split, low, high)?))
    } else {
        Ok(None)
    }
}

// The split is of this column at this number.
fn is_asked(split: &ColumnSplit, words: &str) -> bool {
    let (column, at) = words.split_once(' ').unwrap_or((words, ""));
    let letter = if split.column() == 0 { "x" } else { "y" };
    column == letter && at.parse::<i128>().ok() == Some(split.at().get())
}

/// Puts a tree in the place of a leased leaf, and tells the best value.
pub(crate) fn graft(
    alloc: Global,
    board: &mut Board,
    seat: usize,
    lease: Lease,
    tree: Subtree,
) -> Result<Option<Frac>, AllocError>
    requires open { IsOpen board.old.tree lease }
    requires may { MayStand board.old lease tree }
{
    match board.graft(alloc, seat, lease, tree).ok() {
        Some(best) => Ok(best),
        None => Err(AllocError),
    }
}
