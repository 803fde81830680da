// The work on a leaf that is leased.
ghost use Rattle.std.specs.Prelude.{Some, IfErr};
ghost use Rattle.search_node.specs.Sides.{sides_of};
ghost use Rattle.turn_pool.specs.Passes.{view_of, IsPassOf, IsSamePool};
ghost use Rattle.shared_search.specs.Holders.{first_of, IsTaskOf, IsFaultOf, IsSameHolder};
ghost use Rattle.shared_search.specs.Leaves.{IsGiven, IsHeld, IsGrownFor, IsFragmentFor};

use crate::task::Task;
use crate::turns::{offer, put, put_leaf};
use crate::worker::Step;
use board_pool::{LeasedLeaf, SharedBoard, trees_of_leases};
use branch_search::{Fragment, Grown, LeafFault, grow};
use candidate::Proposer;
use instance::Point;
use search_node::Node;
use search_tree::{Hint, Leaf, Lease, Slot, Subtree, bounded_leaves, treated_nodes};
use std::alloc::{AllocError, Global};
use turn_pool::{Pass, Pool};

/// Works on a leaf that is leased, and puts what grows there in its place; or tells why the search ends there. At a fault the
/// leaf stays leased.
pub(crate) fn at_leaf(
    alloc: Global,
    pool: &Pool<SharedBoard>,
    task: &Task,
    pass: &mut Pass<SharedBoard>,
    leaf: LeasedLeaf,
    proposer: &mut Proposer,
) -> Result<Step, LeafFault>
    requires pool { IsPassOf pool.now pass.old }
    requires task { IsTaskOf (first_of (view_of pass.old)) task.now }
    requires given { IsGiven (view_of pass.old) leaf }
    ensures pool { IsSamePool pass.old pass.new }
    ensures same { IsSameHolder (view_of pass.old) (view_of pass.new) }
    ensures fault { IfErr result (IsFaultOf (first_of (view_of pass.old))) }
{
    let LeasedLeaf { lease, hint, node } = leaf;
    match node {
        None => Err(LeafFault::NoMemory),
        Some(node) => at_node(alloc, pool, task, pass, lease, &hint, node, proposer),
    }
}

// The same at its node.
fn at_node(
    alloc: Global,
    pool: &Pool<SharedBoard>,
    task: &Task,
    pass: &mut Pass<SharedBoard>,
    lease: Lease,
    hint: &Hint,
    node: Node,
    proposer: &mut Proposer,
) -> Result<Step, LeafFault>
    requires pool { IsPassOf pool.now pass.old }
    requires task { IsTaskOf (first_of (view_of pass.old)) task.now }
    requires held { IsHeld (view_of pass.old) lease (sides_of node.splits) }
    ensures pool { IsSamePool pass.old pass.new }
    ensures same { IsSameHolder (view_of pass.old) (view_of pass.new) }
    ensures fault { IfErr result (IsFaultOf (first_of (view_of pass.old))) }
{
    let grown = grow(
        alloc,
        &task.problem,
        &task.cuts,
        &lease,
        node,
        hint,
        task.pivot_limit,
        proposer,
    )?;
    Ok(settle(alloc, pool, pass, lease, grown)?)
}

// Puts what grew in the place of the leaf. Where the leaf is to be split and no split is granted, it is given back as one that
// was treated, and the worker ends.
fn settle(
    alloc: Global,
    pool: &Pool<SharedBoard>,
    pass: &mut Pass<SharedBoard>,
    lease: Lease,
    grown: Grown,
) -> Result<Step, AllocError>
    requires pool { IsPassOf pool.now pass.old }
    requires grown { IsGrownFor (view_of pass.old) lease grown }
    ensures pool { IsSamePool pass.old pass.new }
    ensures same { IsSameHolder (view_of pass.old) (view_of pass.new) }
{
    treated_nodes();
    match grown {
        Grown::Ready(fragment) => {
            let step = step_behind(&fragment.tree);
            put_fragment(alloc, pool, pass, lease, fragment)?;
            Ok(step)
        }
        Grown::Ungranted(hint) => {
            put_leaf(alloc, pool, pass, lease, Leaf::Treated(hint))?;
            Ok(Step::Ended)
        }
    }
}

// How the worker goes on behind a tree.
fn step_behind(tree: &Subtree) -> Step {
    if has_work(tree) {
        Step::Split
    } else {
        Step::Closed
    }
}

// Whether a leaf of the tree is to be worked on.
fn has_work(tree: &Subtree) -> bool {
    for slot in tree.as_slice() {
        if let Slot::Leaf(Leaf::Todo(_)) = slot {
            return true;
        }
    }
    false
}

// The tree is put in the place of the leaf, behind an offer of the point, if one was found.
fn put_fragment(
    alloc: Global,
    pool: &Pool<SharedBoard>,
    pass: &mut Pass<SharedBoard>,
    lease: Lease,
    fragment: Fragment,
) -> Result<(), AllocError>
    requires pool { IsPassOf pool.now pass.old }
    requires fragment { IsFragmentFor (view_of pass.old) lease fragment }
    ensures pool { IsSamePool pass.old pass.new }
    ensures same { IsSameHolder (view_of pass.old) (view_of pass.new) }
{
    trees_of_leases();
    let Fragment { tree, found } = fragment;
    match found {
        None => put(alloc, pool, pass, lease, tree),
        Some(point) => put_with(alloc, pool, pass, lease, tree, point),
    }
}

// The point that was found is offered, and then the tree is put in the place of the leaf, against the best value.
fn put_with(
    alloc: Global,
    pool: &Pool<SharedBoard>,
    pass: &mut Pass<SharedBoard>,
    lease: Lease,
    tree: Subtree,
    point: Point,
) -> Result<(), AllocError>
    requires pool { IsPassOf pool.now pass.old }
    requires fragment { IsFragmentFor (view_of pass.old) lease (record { tree = tree; found = Some point }) }
    ensures pool { IsSamePool pass.old pass.new }
    ensures same { IsSameHolder (view_of pass.old) (view_of pass.new) }
{
    trees_of_leases();
    bounded_leaves();
    let _best = offer(alloc, pool, pass, point)?;
    put(alloc, pool, pass, lease, tree)
}
