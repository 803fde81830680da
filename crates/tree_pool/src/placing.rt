// Trees in the place of a leaf.
ghost use Rattle.std.specs.Prelude.{suc, ◌≡◌, ◌≤◌, ◌<◌, ◌+◌, ◌*◌, [], ◌∷◌, ◌++◌, length, set, slice_get};
ghost use Rattle.std.specs.Vec.{vec_len, vec_capacity};
ghost use Rattle.search_tree.specs.Tree.{Tree, made};
ghost use Rattle.search_tree.specs.Slots.{slots_of};
ghost use Rattle.tree_pool.specs.declared.refs.NodeRef.TheVariants.{Again, Forked};
ghost use Rattle.tree_pool.specs.LogNodes.{put_in};
ghost use Rattle.tree_pool.specs.Placed.{Begins, paths_with, refs_with, split_by, split_in};

use crate::kind::put_in;
use crate::paths::Paths;
use crate::refs::NodeRef;
use certificate::ColumnSplit;
use search_tree::{Entry, Slot};

// Puts the tree of an entry in the place of a leaf: its root stands there, the sides of its splits behind all other nodes.
pub(crate) fn put_tree(
    log: &[Entry],
    nodes: &mut Vec<NodeRef>,
    paths: &mut Paths,
    place: usize,
    entry: usize,
)
    requires room { (t : Tree) × (put_in (slice_get log.now entry) ≡ slots_of t) × (vec_len nodes.old + made t * 2 ≤ vec_capacity nodes.old) × (made t * 2 ≤ paths.old.room) }
    requires place { place < length nodes.old.items }
    requires each { length paths.old.all ≡ length nodes.old.items }
    ensures nodes { (t : Tree) → put_in (slice_get log.now entry) ≡ slots_of t → nodes.new.items ≡ refs_with entry 0 place t nodes.old.items }
    ensures paths { (t : Tree) → put_in (slice_get log.now entry) ≡ slots_of t → paths.new.all ≡ paths_with place t paths.old.all }
{
    put_from(put_in(log, entry), nodes, paths, place, entry, 0);
}

// The same of the tree that begins at the node `n` of an entry's. The answer is the number of the node behind the tree.
fn put_from(
    slots: &[Slot],
    nodes: &mut Vec<NodeRef>,
    paths: &mut Paths,
    place: usize,
    entry: usize,
    n: usize,
) -> usize
    requires room { (t : Tree) × Begins slots.now n t × (vec_len nodes.old + made t * 2 ≤ vec_capacity nodes.old) × (made t * 2 ≤ paths.old.room) }
    requires place { place < length nodes.old.items }
    requires each { length paths.old.all ≡ length nodes.old.items }
    ensures nodes { (t : Tree) → Begins slots.now n t → nodes.new.items ≡ refs_with entry n place t nodes.old.items }
    ensures paths { (t : Tree) → Begins slots.now n t → paths.new.all ≡ paths_with place t paths.old.all }
    ensures room { (t : Tree) → Begins slots.now n t → (vec_capacity nodes.new ≡ vec_capacity nodes.old) × (paths.new.room + made t * 2 ≡ paths.old.room) }
    ensures behind { (t : Tree) → Begins slots.now n t → result ≡ n + length (slots_of t) }
{
    let next = after(slots, n);
    match split_at(slots, n) {
        None => {
            nodes[place] = NodeRef::Held(entry, n);
            next
        }
        Some(split) => {
            let low = nodes.len();
            fork(nodes, place, entry, n);
            paths.fork(place, split);
            let behind = put_from(slots, nodes, paths, low, entry, next);
            put_from(slots, nodes, paths, low + 1, entry, behind)
        }
    }
}

// The number behind that of a node.
fn after(slots: &[Slot], n: usize) -> usize
    requires { n < length slots.now }
    ensures { result ≡ suc n }
{
    let _count = slots.len();
    n + 1
}

// The split of a node, where it is one.
fn split_at(slots: &[Slot], n: usize) -> Option<ColumnSplit>
    ensures { result ≡ split_in (slice_get slots.now n) }
{
    match slots.get(n) {
        None => None,
        Some(slot) => split_by(slot),
    }
}

fn split_by(slot: &Slot) -> Option<ColumnSplit>
    ensures { result ≡ split_by slot.now }
{
    match slot {
        Slot::Divided(split) => Some(*split),
        Slot::Leaf(_) => None,
    }
}

// A split of an entry stands at a place, and its sides behind all other nodes.
fn fork(nodes: &mut Vec<NodeRef>, place: usize, entry: usize, node: usize)
    requires place { place < length nodes.old.items }
    requires room { vec_len nodes.old + 2 ≤ vec_capacity nodes.old }
    ensures nodes { nodes.new.items ≡ set nodes.old.items place (Forked entry node (length nodes.old.items)) ++ Again ∷ Again ∷ [] }
    ensures room { vec_capacity nodes.new ≡ vec_capacity nodes.old }
{
    let low = nodes.len();
    nodes[place] = NodeRef::Forked { entry, node, low };
    nodes.push_reserved(NodeRef::Again);
    nodes.push_reserved(NodeRef::Again);
}
