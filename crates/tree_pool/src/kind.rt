// What the board looks for among the nodes of its tree.
ghost use Rattle.std.specs.Prelude.{◌≡◌, ◌<◌, length, slice_get, option_map};
ghost use Rattle.tree_pool.specs.LogNodes.{put_by, put_in, leased_by, node_at};
ghost use Rattle.tree_pool.specs.Kinds.{leaf_kind, kind_of};
ghost use Rattle.tree_pool.specs.Standing.{ref_at};

use crate::refs::NodeRef;
use certificate::ColumnSplit;
use search_tree::{Entry, Event, Leaf, Reply, Slot};

// What a node is.
#[derive(Clone, Copy)]
pub enum Kind {
    // A split.
    SplitBy(ColumnSplit),
    // A leaf that is to be worked on.
    ToDo,
    // A leaf that is leased under this number.
    LeasedUnder(usize),
    // A leaf on which no more work is done.
    Ended,
}

// What the node at a place of the board's tree is.
pub(crate) fn kind_on(log: &[Entry], nodes: &[NodeRef], place: usize) -> Kind
    requires { place < length nodes.now }
    ensures { result ≡ kind_of (node_at log.now (ref_at nodes.now place)) }
{
    kind_at(log, nodes[place])
}

pub(crate) fn kind_at(log: &[Entry], node: NodeRef) -> Kind
    ensures { result ≡ kind_of (node_at log.now node) }
{
    match node {
        NodeRef::Again => Kind::ToDo,
        NodeRef::Under(entry) => leased_kind(log, entry),
        NodeRef::Held(entry, n) => held_kind(log, entry, n),
        NodeRef::Forked { entry, node, .. } => held_kind(log, entry, node),
    }
}

fn leased_kind(log: &[Entry], entry: usize) -> Kind
    ensures { result ≡ kind_of (node_at log.now (NodeRef.Under entry)) }
{
    match log.get(entry) {
        None => Kind::ToDo,
        Some(entry) => reply_kind(entry),
    }
}

fn reply_kind(entry: &Entry) -> Kind
    ensures { result ≡ kind_of (leased_by entry.now.reply) }
{
    match &entry.reply {
        Reply::Given(_, lease) => Kind::LeasedUnder(lease.number),
        _ => Kind::ToDo,
    }
}

fn held_kind(log: &[Entry], entry: usize, n: usize) -> Kind
    ensures { result ≡ kind_of (node_at log.now (NodeRef.Held entry n)) }
{
    match held(log, entry, n) {
        None => Kind::ToDo,
        Some(slot) => slot_kind(slot),
    }
}

// The node of a tree that an entry put in.
pub(crate) fn held(log: &[Entry], entry: usize, n: usize) -> Option<&Slot>
    ensures { option_map (λ s. s.now) result ≡ slice_get (put_in (slice_get log.now entry)) n }
{
    put_in(log, entry).get(n)
}

// The nodes of the tree that an entry put in, none where it put in no tree.
pub(crate) fn put_in(log: &[Entry], entry: usize) -> &[Slot]
    ensures { result.now ≡ put_in (slice_get log.now entry) }
{
    match log.get(entry) {
        None => &[],
        Some(entry) => put_by(entry),
    }
}

// The nodes of the tree that an entry puts in.
fn put_by(entry: &Entry) -> &[Slot]
    ensures { result.now ≡ put_by entry.now.event }
{
    match &entry.event {
        Event::Grafting(_, _, subtree) => subtree.as_slice(),
        _ => &[],
    }
}

fn slot_kind(slot: &Slot) -> Kind
    ensures { result ≡ kind_of slot.now }
{
    match slot {
        Slot::Divided(split) => Kind::SplitBy(*split),
        Slot::Leaf(leaf) => leaf_kind(leaf),
    }
}

fn leaf_kind(leaf: &Leaf) -> Kind
    ensures { result ≡ leaf_kind leaf.now }
{
    match leaf {
        Leaf::Todo(_) => Kind::ToDo,
        Leaf::Treated(_) => Kind::ToDo,
        Leaf::Leased(lease) => Kind::LeasedUnder(lease.number),
        _ => Kind::Ended,
    }
}
