// The work at a leased leaf: at its node, and at nodes below it, while splits of its grant are left.
ghost use Rattle.std.specs.Prelude.{ℕ, true, ◌≡◌, ◌+◌, ◌≤◌, [], ◌∷◌, length, None, Some, IfOk, IfErr};
ghost use Rattle.certificate.specs.Ways.{side_of};
ghost use Rattle.search_node.specs.Sides.{sides_of};
ghost use Rattle.search_tree.specs.declared.leaf.Leaf.TheVariants.{Bounded};
ghost use Rattle.search_tree.specs.Nodes.{IsHonestSplit};
ghost use Rattle.search_tree.specs.Honest.{AreHonest, IsHonestWay};
ghost use Rattle.search_tree.specs.Work.{IsWorkFault};
ghost use Rattle.branch_search.specs.Treatment.{IsToSplit};
ghost use Rattle.branch_search.specs.Grown.{IsSplitOrClosed, IsGrowth, IsDecided, IsGrown};
ghost use Rattle.branch_search.specs.Faults.{IsLeafFault};
ghost use Rattle.branch_search.specs.declared.fragment.Grown.TheVariants.{Ready};

use crate::fault::{EndlessAt, LeafFault};
use crate::fragment::{Fragment, Grown};
use crate::{Found, Fractional, Treatment, treat};
use candidate::Proposer;
use certificate::{ColumnSplit, DerivedRows, Side};
use fraction::{Frac, NoFit};
use instance::{Instance, Point};
use search_node::{Node, Site, SplitTaken};
use search_tree::{Hint, Leaf, Lease, Subtree, bounded_leaves, treated_nodes};
use simplex::root_is_over_columns;
use std::alloc::{AllocError, Global};

/// How far the work at a leased leaf has come: how many splits of its grant are left, the best value, the point that has this
/// value, if it was found here, and the value by which the leaf was chosen, if it is known: that of the node above it.
#[derive(Drop)]
pub(crate) struct Progress {
    left: usize,
    best: Option<Frac>,
    found: Option<Point>,
    bound: Option<Frac>,
}

/// What is decided of a node.
#[derive(Drop)]
pub(crate) enum Decided {
    /// It is closed by this leaf.
    Closed(Leaf),
    /// It is to be split.
    ToSplit(Node, Fractional),
}

/// What grows at a leased leaf. Its node is treated, and where it is to be split and a split is granted, so are its sides, and so
/// on: depth first, the high side first. Where no split is left, and where the board is to choose what comes next, nodes stay as
/// leaves on which no one has worked. A node is treated against the best value that the lease told, or that of the best point that
/// was found since.
pub fn grow(
    alloc: Global,
    problem: &Instance,
    cuts: &DerivedRows,
    lease: &Lease,
    node: Node,
    hint: &Hint,
    pivot_limit: u32,
    proposer: &mut Proposer,
) -> Result<Grown, LeafFault>
    requires cuts { cuts.now ≡ [] }
    requires honest { AreHonest problem.now cuts.now (sides_of node.splits) }
    ensures grown { IfOk result (IsGrown problem.now cuts.now pivot_limit (sides_of node.splits) lease.now.best lease.now.grant) }
    ensures fault { (splits : ℕ) → length (sides_of node.splits) + lease.now.grant ≤ splits → IfErr result (IsLeafFault problem.now cuts.now splits pivot_limit) }
{
    let mut progress = Progress {
        left: lease.grant,
        best: lease.best,
        found: None,
        bound: hint.bound(),
    };
    let grown = grow_with(
        alloc,
        problem,
        cuts,
        node,
        hint,
        pivot_limit,
        &mut progress,
        proposer,
    );
    std::mem::drop(progress);
    grown
}

// The same, with what is left of the grant.
fn grow_with(
    alloc: Global,
    problem: &Instance,
    cuts: &DerivedRows,
    node: Node,
    hint: &Hint,
    pivot_limit: u32,
    progress: &mut Progress,
    proposer: &mut Proposer,
) -> Result<Grown, LeafFault>
    requires cuts { cuts.now ≡ [] }
    requires honest { AreHonest problem.now cuts.now (sides_of node.splits) }
    requires none_found { progress.old.found ≡ None }
    ensures grown { IfOk result (IsGrown problem.now cuts.now pivot_limit (sides_of node.splits) progress.old.best progress.old.left) }
    ensures fault { (splits : ℕ) → length (sides_of node.splits) + progress.old.left ≤ splits → IfErr result (IsLeafFault problem.now cuts.now splits pivot_limit) }
{
    match decide(
        alloc,
        problem,
        cuts,
        node,
        hint,
        pivot_limit,
        progress,
        proposer,
    )? {
        Decided::Closed(leaf) => Ok(ready(Subtree::leaf(alloc, leaf)?, progress)),
        Decided::ToSplit(node, fractional) => grow_granted(
            alloc,
            problem,
            cuts,
            &node,
            &fractional,
            pivot_limit,
            progress,
            proposer,
        ),
    }
}

// The node is split, where a split is granted.
fn grow_granted(
    alloc: Global,
    problem: &Instance,
    cuts: &DerivedRows,
    node: &Node,
    fractional: &Fractional,
    pivot_limit: u32,
    progress: &mut Progress,
    proposer: &mut Proposer,
) -> Result<Grown, LeafFault>
    requires cuts { cuts.now ≡ [] }
    requires honest { AreHonest problem.now cuts.now (sides_of node.now.splits) }
    requires to_split { IsToSplit problem.now cuts.now (sides_of node.now.splits) progress.old.best fractional.now }
    requires none_found { progress.old.found ≡ None }
    ensures grown { IfOk result (IsGrown problem.now cuts.now pivot_limit (sides_of node.now.splits) progress.old.best progress.old.left) }
    ensures fault { (splits : ℕ) → length (sides_of node.now.splits) + progress.old.left ≤ splits → IfErr result (IsLeafFault problem.now cuts.now splits pivot_limit) }
{
    if progress.left == 0 {
        return Ok(Grown::Ungranted(hint_of(alloc, fractional)?));
    }
    let tree = grow_split(
        alloc,
        problem,
        cuts,
        node,
        fractional,
        pivot_limit,
        progress,
        proposer,
    )?;
    Ok(ready(tree, progress))
}

// The tree, with the point that was found.
fn ready(tree: Subtree, progress: &mut Progress) -> Grown
    ensures { result ≡ Ready (record { tree = tree; found = progress.old.found }) }
{
    Grown::Ready(Fragment {
        tree,
        found: progress.found.take(),
    })
}

// The node's split takes one of those that are left, and then its sides grow.
#[cycle(growth)]
fn grow_split(
    alloc: Global,
    problem: &Instance,
    cuts: &DerivedRows,
    node: &Node,
    fractional: &Fractional,
    pivot_limit: u32,
    progress: &mut Progress,
    proposer: &mut Proposer,
) -> Result<Subtree, LeafFault>
    requires left { 1 ≤ progress.old.left }
    requires cuts { cuts.now ≡ [] }
    requires honest { AreHonest problem.now cuts.now (sides_of node.now.splits) }
    requires to_split { IsToSplit problem.now cuts.now (sides_of node.now.splits) progress.old.best fractional.now }
    ensures grown { IfOk result (IsGrowth problem.now cuts.now pivot_limit (sides_of node.now.splits) progress.old progress.new) }
    ensures split { IfOk result IsSplitOrClosed }
    ensures fault { (splits : ℕ) → length (sides_of node.now.splits) + progress.old.left ≤ splits → IfErr result (IsLeafFault problem.now cuts.now splits pivot_limit) }
{
    bounded_leaves();
    treated_nodes();
    progress.left -= 1;
    let high = grow_side(
        alloc,
        problem,
        cuts,
        node,
        fractional,
        Side::High,
        pivot_limit,
        progress,
        proposer,
    )?;
    let low = grow_side(
        alloc,
        problem,
        cuts,
        node,
        fractional,
        Side::Low,
        pivot_limit,
        progress,
        proposer,
    )?;
    Ok(Subtree::divided(alloc, fractional.split, low, high)?)
}

// What grows on one side of a node's split.
#[cycle(growth)]
fn grow_side(
    alloc: Global,
    problem: &Instance,
    cuts: &DerivedRows,
    node: &Node,
    fractional: &Fractional,
    side: Side,
    pivot_limit: u32,
    progress: &mut Progress,
    proposer: &mut Proposer,
) -> Result<Subtree, LeafFault>
    requires cuts { cuts.now ≡ [] }
    requires honest { AreHonest problem.now cuts.now (sides_of node.now.splits) }
    requires split { IsHonestSplit problem.now cuts.now (sides_of node.now.splits) fractional.now.split }
    ensures grown { IfOk result (IsGrowth problem.now cuts.now pivot_limit (side_of fractional.now.split side ∷ sides_of node.now.splits) progress.old progress.new) }
    ensures fault { (splits : ℕ) → length (sides_of node.now.splits) + 1 + progress.old.left ≤ splits → IfErr result (IsLeafFault problem.now cuts.now splits pivot_limit) }
{
    let hint = hint_of(alloc, fractional)?;
    if !goes_on(progress, fractional.value) {
        return Ok(Subtree::leaf(alloc, Leaf::Todo(hint))?);
    }
    let below = node_below(alloc, node, fractional.split, side)?;
    match decide(
        alloc,
        problem,
        cuts,
        below,
        &hint,
        pivot_limit,
        progress,
        proposer,
    )? {
        Decided::Closed(leaf) => Ok(Subtree::leaf(alloc, leaf)?),
        Decided::ToSplit(below, fractional) => grow_split(
            alloc,
            problem,
            cuts,
            &below,
            &fractional,
            pivot_limit,
            progress,
            proposer,
        ),
    }
}

// Whether a side is worked on, of which the node above has this value. As long as no point is known the newest leaf comes first on
// the board, too. Once one is known the leaf with the best value does: then a side is left to the board unless its value is that by
// which the leased leaf was chosen.
fn goes_on(progress: &Progress, value: Frac) -> bool
    ensures { result ≡ true → 1 ≤ progress.now.left }
{
    if progress.left == 0 {
        return false;
    }
    match progress.best {
        None => true,
        Some(_) => progress.found.is_none() && progress.bound == Some(value),
    }
}

// A hint for the sides of a split.
fn hint_of(alloc: Global, fractional: &Fractional) -> Result<Hint, AllocError> {
    let basis = fractional.basis.copy(alloc)?;
    Ok(Hint::new(Some(basis), Some(fractional.value)))
}

// The node on one side of a node's split.
fn node_below(
    alloc: Global,
    node: &Node,
    split: ColumnSplit,
    side: Side,
) -> Result<Node, AllocError>
    ensures { IfOk result (λ below. sides_of below.splits ≡ side_of split side ∷ sides_of node.now.splits) }
{
    let mut below = node.copy(alloc)?;
    below.splits.push(SplitTaken { split, side })?;
    Ok(below)
}

// Treats a node against the best value. A point that is found is the best one from then on, and its node is closed.
fn decide(
    alloc: Global,
    problem: &Instance,
    cuts: &DerivedRows,
    node: Node,
    hint: &Hint,
    pivot_limit: u32,
    progress: &mut Progress,
    proposer: &mut Proposer,
) -> Result<Decided, LeafFault>
    requires cuts { cuts.now ≡ [] }
    requires honest { AreHonest problem.now cuts.now (sides_of node.splits) }
    ensures decided { IfOk result (IsDecided problem.now cuts.now pivot_limit node progress.old progress.new) }
    ensures fault { (splits : ℕ) → length (sides_of node.splits) ≤ splits → IfErr result (IsLeafFault problem.now cuts.now splits pivot_limit) }
{
    root_is_over_columns(problem);
    let best = progress.best;
    match treat(
        alloc,
        problem,
        cuts,
        &node,
        &best,
        pivot_limit,
        hint,
        proposer,
    )? {
        Treatment::Refuted(weights) => Ok(Decided::Closed(Leaf::Refuted(weights))),
        Treatment::Bounded(weights) => Ok(Decided::Closed(Leaf::Bounded(weights))),
        Treatment::Feasible(found) => Ok(Decided::Closed(keep(progress, found))),
        Treatment::ToSplit(fractional) => Ok(Decided::ToSplit(node, fractional)),
        Treatment::Unbounded(endless) => Err(LeafFault::Unbounded(EndlessAt { node, endless })),
        Treatment::NotFitting(fault) => Err(stuck(problem, cuts, node, fault)),
        Treatment::AtLimit(bases) => Err(LeafFault::PivotLimit(bases)),
    }
}

// The point is the best one that was found, and closes its node.
fn keep(progress: &mut Progress, found: Found) -> Leaf
    ensures leaf { result ≡ Bounded found.weights }
    ensures progress { progress.new ≡ record progress.old { best = Some found.value; found = Some found.point } }
{
    let Found {
        point,
        value,
        weights,
    } = found;
    progress.best = Some(value);
    progress.found = Some(point);
    Leaf::Bounded(weights)
}

// An operation of the work at the node does not fit.
fn stuck(problem: &Instance, cuts: &DerivedRows, node: Node, fault: NoFit) -> LeafFault
    requires cuts { cuts.now ≡ [] }
    requires fault { IsWorkFault problem.now cuts.now (sides_of node.splits) fault }
    ensures { (splits pivots : ℕ) → IsHonestWay problem.now cuts.now splits (sides_of node.splits) → IsLeafFault problem.now cuts.now splits pivots result }
{
    problem.keeps_its_limits();
    LeafFault::NoFit(Site { node, fault })
}
