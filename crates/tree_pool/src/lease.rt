// The leases of leaves.
ghost use Rattle.std.specs.Prelude.{◌≡◌};
ghost use Rattle.search_tree.specs.Tree.{lease_of};
ghost use Rattle.tree_pool.specs.LogNodes.{leased_by, node_at};
ghost use Rattle.tree_pool.specs.Kinds.{lease_in};

use crate::kind::held;
use crate::refs::NodeRef;
use search_tree::{Entry, Leaf, Lease, Reply, Slot};

// The lease of a node, where it is a leaf that is leased.
pub(crate) fn node_lease(log: &[Entry], node: NodeRef) -> Option<Lease>
    ensures { result ≡ lease_in (node_at log.now node) }
{
    match node {
        NodeRef::Again => None,
        NodeRef::Under(entry) => told_lease(log, entry),
        NodeRef::Held(entry, n) => held_lease(log, entry, n),
        NodeRef::Forked { entry, node, .. } => held_lease(log, entry, node),
    }
}

fn told_lease(log: &[Entry], entry: usize) -> Option<Lease>
    ensures { result ≡ lease_in (node_at log.now (NodeRef.Under entry)) }
{
    match log.get(entry) {
        None => None,
        Some(entry) => reply_lease(entry),
    }
}

fn reply_lease(entry: &Entry) -> Option<Lease>
    ensures { result ≡ lease_in (leased_by entry.now.reply) }
{
    match &entry.reply {
        Reply::Given(_, lease) => Some(lease.copy()),
        _ => None,
    }
}

fn held_lease(log: &[Entry], entry: usize, n: usize) -> Option<Lease>
    ensures { result ≡ lease_in (node_at log.now (NodeRef.Held entry n)) }
{
    match held(log, entry, n) {
        None => None,
        Some(slot) => slot_lease(slot),
    }
}

fn slot_lease(slot: &Slot) -> Option<Lease>
    ensures { result ≡ lease_in slot.now }
{
    match slot {
        Slot::Divided(_) => None,
        Slot::Leaf(leaf) => leaf_lease(leaf),
    }
}

fn leaf_lease(leaf: &Leaf) -> Option<Lease>
    ensures { result ≡ lease_of leaf.now }
{
    match leaf {
        Leaf::Leased(lease) => Some(lease.copy()),
        _ => None,
    }
}
