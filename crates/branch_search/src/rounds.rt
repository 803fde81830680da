// One round of the search.
ghost use Rattle.std.specs.Prelude.{◌≡◌, ◌+◌, ◌≤◌, [], length, IfOk, IfErr};
ghost use Rattle.search_node.specs.Sides.{sides_of};
ghost use Rattle.search_tree.specs.Board.{value_of};
ghost use Rattle.search_tree.specs.Honest.{AreHonest};
ghost use Rattle.tree_pool.specs.Places.{IsOpen};
ghost use Rattle.branch_search.specs.Places.{LeadTo, GrowsAt};
ghost use Rattle.branch_search.specs.Settled.{IsSettled, IsRound};
ghost use Rattle.branch_search.specs.Underway.{AreSame};
ghost use Rattle.branch_search.specs.Faults.{IsLeafFault};

use crate::fault::LeafFault;
use crate::fragment::Grown;
use crate::grow;
use crate::settling::{Round, settle};
use candidate::Proposer;
use search_node::Node;
use search_tree::{Hint, Lease, ways_of_boards};
use std::alloc::{AllocError, Global};
use tree_pool::{Board, LeaseAnswer};

/// Leases a leaf that is to be worked on, and settles it.
pub(crate) fn round(
    alloc: Global,
    board: &mut Board,
    pivot_limit: u32,
    proposer: &mut Proposer,
) -> Result<Round, LeafFault>
    requires cuts { board.old.cuts ≡ [] }
    requires pivots { board.old.pivot_limit ≡ pivot_limit }
    ensures ok { IfOk result (λ round. IsRound board.old round board.new) }
    ensures same { AreSame board.old board.new }
    ensures fault { IfErr result (IsLeafFault board.old.problem board.old.cuts board.old.split_limit board.old.pivot_limit) }
{
    match board.lease(alloc, 0)? {
        LeaseAnswer::Idle(_) => Ok(Round::Idle),
        LeaseAnswer::Leased(lease, hint) => {
            work(alloc, board, pivot_limit, lease, hint, proposer)
        }
    }
}

// Works on the leaf that is leased, and settles it.
fn work(
    alloc: Global,
    board: &mut Board,
    pivot_limit: u32,
    lease: Lease,
    hint: Hint,
    proposer: &mut Proposer,
) -> Result<Round, LeafFault>
    requires open { IsOpen board.old.tree lease }
    requires best { lease.best ≡ value_of board.old }
    requires cuts { board.old.cuts ≡ [] }
    requires pivots { board.old.pivot_limit ≡ pivot_limit }
    ensures ok { IfOk result (λ round. IsSettled board.old lease round board.new) }
    ensures same { AreSame board.old board.new }
    ensures fault { IfErr result (IsLeafFault board.old.problem board.old.cuts board.old.split_limit board.old.pivot_limit) }
{
    let grown = grown_at(alloc, board, pivot_limit, &lease, &hint, proposer)?;
    Ok(settle(alloc, board, lease, grown)?)
}

// What grows at the leaf that is leased.
fn grown_at(
    alloc: Global,
    board: &Board,
    pivot_limit: u32,
    lease: &Lease,
    hint: &Hint,
    proposer: &mut Proposer,
) -> Result<Grown, LeafFault>
    requires open { IsOpen board.now.tree lease.now }
    requires cuts { board.now.cuts ≡ [] }
    requires pivots { board.now.pivot_limit ≡ pivot_limit }
    ensures grown { IfOk result (GrowsAt board.now lease.now) }
    ensures fault { IfErr result (IsLeafFault board.now.problem board.now.cuts board.now.split_limit board.now.pivot_limit) }
{
    let node = leased_node(alloc, board, lease)?;
    let problem = board.problem();
    let cuts = board.cuts();
    grow(
        alloc,
        problem,
        cuts,
        lease,
        node,
        hint,
        pivot_limit,
        proposer,
    )
}

// The node of the leaf that is leased. It is on an honest way, which leaves room for the splits of the lease.
fn leased_node(alloc: Global, board: &Board, lease: &Lease) -> Result<Node, AllocError>
    requires { IsOpen board.now.tree lease.now }
    ensures leads { IfOk result (λ node. LeadTo board.now lease.now (sides_of node.splits)) }
    ensures honest { IfOk result (λ node. AreHonest board.now.problem board.now.cuts (sides_of node.splits)) }
    ensures room { IfOk result (λ node. length (sides_of node.splits) + lease.now.grant ≤ board.now.split_limit) }
{
    board.keeps_its_log();
    ways_of_boards();
    board.node(alloc, lease.copy())
}
