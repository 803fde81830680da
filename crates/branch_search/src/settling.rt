// What is made of the board where a leaf is leased.
ghost use Rattle.std.specs.Prelude.{◌≡◌, Option, IfOk, OnOk};
ghost use Rattle.rational.specs.Rational.{Rational};
ghost use Rattle.milp.specs.Points.{Feasible};
ghost use Rattle.search_tree.specs.Board.{value_of};
ghost use Rattle.search_tree.specs.Kept.{HasSums};
ghost use Rattle.search_tree.specs.Steps.{IsOffer};
ghost use Rattle.tree_pool.specs.Places.{IsOpen};
ghost use Rattle.branch_search.specs.Grown.{IsOutcome, IsBetterPoint};
ghost use Rattle.branch_search.specs.Places.{GrowsAt, IsFragmentAt, MayStand};
ghost use Rattle.branch_search.specs.Settled.{seat, IsPut, IsOffered, IsWorked, IsSettled};
ghost use Rattle.branch_search.specs.Underway.{AreSame};

use crate::fragment::{Fragment, Grown};
use instance::Point;
use search_tree::{Lease, Subtree};
use std::alloc::{AllocError, Global};
use tree_pool::Board;

/// What one round of the search does.
#[derive(Clone, Copy)]
pub(crate) enum Round {
    /// A tree is put in the place of a leaf.
    Worked,
    /// A leaf is to be split, and no split is granted: it stays leased.
    Left,
    /// No leaf is to be worked on.
    Idle,
}

/// Puts what grew at a leased leaf in its place; or leaves it leased, where it is to be split and no split is granted.
pub(crate) fn settle(
    alloc: Global,
    board: &mut Board,
    lease: Lease,
    grown: Grown,
) -> Result<Round, AllocError>
    requires open { IsOpen board.old.tree lease }
    requires best { lease.best ≡ value_of board.old }
    requires grown { GrowsAt board.old lease grown }
    ensures settled { IfOk result (λ round. IsSettled board.old lease round board.new) }
    ensures same { AreSame board.old board.new }
{
    match grown {
        Grown::Ready(fragment) => {
            put(alloc, board, lease, fragment)?;
            Ok(Round::Worked)
        }
        Grown::Ungranted(_) => Ok(Round::Left),
    }
}

// The tree is put in the place of the leaf, behind an offer of the point, if one was found.
fn put(alloc: Global, board: &mut Board, lease: Lease, fragment: Fragment) -> Result<(), AllocError>
    requires open { IsOpen board.old.tree lease }
    requires best { lease.best ≡ value_of board.old }
    requires fragment { IsFragmentAt board.old lease fragment }
    ensures worked { OnOk result (IsWorked board.old lease board.new) }
    ensures same { AreSame board.old board.new }
{
    let Fragment { tree, found } = fragment;
    match found {
        None => graft(alloc, board, lease, tree),
        Some(point) => put_with(alloc, board, lease, tree, point),
    }
}

// The point is offered, and then the tree is put in the place of the leaf. Leaves that were left are to be worked on again,
// since they may be closed against the point's value, too.
fn put_with(
    alloc: Global,
    board: &mut Board,
    lease: Lease,
    tree: Subtree,
    point: Point,
) -> Result<(), AllocError>
    requires open { IsOpen board.old.tree lease }
    requires best { lease.best ≡ value_of board.old }
    requires fragment { IsFragmentAt board.old lease (record { tree = tree; found = Some point }) }
    ensures offered { OnOk result (IsOffered board.old lease board.new) }
    ensures same { AreSame board.old board.new }
{
    offer(board, point)?;
    graft(alloc, board, lease, tree)?;
    board.reclaim(alloc)?;
    Ok(())
}

fn graft(alloc: Global, board: &mut Board, lease: Lease, tree: Subtree) -> Result<(), AllocError>
    requires open { IsOpen board.old.tree lease }
    requires may { MayStand board.old lease tree }
    requires outcome { IsOutcome lease.grant tree }
    ensures put { OnOk result (IsPut board.old lease board.new) }
    ensures same { AreSame board.old board.new }
{
    board.best_value();
    match board.graft(alloc, 0, lease, tree).ok() {
        Some(_) => Ok(()),
        None => Err(AllocError),
    }
}

fn offer(board: &mut Board, point: Point) -> Result<(), AllocError>
    requires feasible { Feasible board.old.problem point }
    requires sums { HasSums board.old.problem point }
    ensures offer { OnOk result ((best : Option Rational) × IsOffer board.old seat point best board.new) }
    ensures same { AreSame board.old board.new }
{
    match board.offer(0, point).ok() {
        Some(_) => Ok(()),
        None => Err(AllocError),
    }
}
