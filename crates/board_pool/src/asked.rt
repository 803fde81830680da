// What is answered to who asks for a leaf.
ghost use Rattle.std.specs.Prelude.{◌≡◌, List, [], Some, IfOk, IfSome, OnErr};
ghost use Rattle.search_node.specs.Sides.{sides_of};
ghost use Rattle.certificate.specs.declared.split.Side.{Side as SideOf};
ghost use Rattle.search_tree.specs.declared.leaf.Leaf.TheVariants.{Leased as AtLease};
ghost use Rattle.search_tree.specs.Tree.{AtLeaf, at_place, sides_to};
ghost use Rattle.board_pool.specs.Asks.{IsAsked};

use search_node::Node;
use search_tree::{Hint, Lease};
use std::alloc::{AllocError, Global};
use tree_pool::{Board, LeaseAnswer};

/// A leaf that is leased, with its hint and its node. The node is not there where memory was wanting for it: the leaf is
/// leased all the same.
#[derive(Drop)]
pub struct LeasedLeaf {
    pub lease: Lease,
    pub hint: Hint,
    pub node: Option<Node>,
}

/// The answer to who asks for a leaf.
#[derive(Drop)]
pub enum Asked {
    /// A leaf is leased.
    Leased(LeasedLeaf),
    /// No leaf is to be worked on, and so many are leased.
    Idle(usize),
}

// Leases a leaf that is to be worked on, with its node; or tells that there is none. After an error nothing has changed.
pub(crate) fn leased(alloc: Global, board: &mut Board, seat: u32) -> Result<Asked, AllocError>
    ensures ok { IfOk result (λ asked. IsAsked board.old seat asked board.new) }
    ensures kept { OnErr result (board.new ≡ board.old) }
{
    match board.lease(alloc, seat as usize)? {
        LeaseAnswer::Idle(count) => Ok(Asked::Idle(count)),
        LeaseAnswer::Leased(lease, hint) => {
            let node = node_of(alloc, board, &lease);
            Ok(Asked::Leased(LeasedLeaf { lease, hint, node }))
        }
    }
}

// The node of a leased leaf, if there is memory for it.
fn node_of(alloc: Global, board: &Board, lease: &Lease) -> Option<Node>
    ensures { IfSome result (λ node. (way : List SideOf) → at_place board.now.tree way ≡ Some (AtLeaf (AtLease lease.now)) → sides_of node.splits ≡ sides_to board.now.tree way []) }
{
    board.node(alloc, lease.copy()).ok()
}
