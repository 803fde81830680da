// Which leaf is worked on next.
ghost use Rattle.std.specs.Prelude.{◌≡◌, true, false, None};
ghost use Rattle.tree_pool.specs.declared.kind.Kind.TheVariants.{ToDo};
ghost use Rattle.tree_pool.specs.Ledger.{IsPlaceOf, HasNone};

use crate::kind::{Kind, held, kind_on};
use crate::open::{Open, OpenLeaf};
use crate::refs::NodeRef;
use fraction::Frac;
use milp::Direction;
use search_tree::{Entry, Hint, Leaf, Slot};

/// What the choice of a leaf goes by. It is a mere preference: nothing is said of which leaf is chosen.
#[derive(Clone, Copy)]
pub(crate) struct Order {
    pub(crate) direction: Direction,
    pub(crate) has_best: bool,
}

// The place of a leaf that is to be worked on, if there is one: before the first point is found the newest one, and afterwards
// the newest of those whose node above has the best value.
pub(crate) fn chosen(
    log: &[Entry],
    nodes: &[NodeRef],
    open: &mut Open,
    order: Order,
) -> Option<usize>
    ensures none { result ≡ None → HasNone ToDo log.now nodes.now }
{
    match preferred(log, nodes, open, order) {
        Some(place) => Some(place),
        None => any_todo(log, nodes),
    }
}

// The preferred one of the leaves that are known to be open. Those that are no longer to be worked on are dropped.
fn preferred(log: &[Entry], nodes: &[NodeRef], open: &mut Open, order: Order) -> Option<usize> {
    let mut left = open.count();
    while left > 0 {
        left -= 1;
        match open.first(order) {
            None => return None,
            Some(place) => {
                if is_todo_at(log, nodes, place) {
                    return Some(place);
                }
            }
        }
        open.drop_first();
    }
    None
}

fn any_todo(log: &[Entry], nodes: &[NodeRef]) -> Option<usize>
    ensures none { result ≡ None → HasNone ToDo log.now nodes.now }
{
    let mut at = 0;
    while at < nodes.len() {
        if is_todo_at(log, nodes, at) {
            return Some(at);
        }
        at += 1;
    }
    None
}

// At this place stands a leaf that is to be worked on.
pub(crate) fn is_todo_at(log: &[Entry], nodes: &[NodeRef], place: usize) -> bool
    ensures yes { result ≡ true → IsPlaceOf ToDo log.now nodes.now place }
    ensures no { result ≡ false → ¬ (IsPlaceOf ToDo log.now nodes.now place) }
{
    if place >= nodes.len() {
        return false;
    }
    is_todo(kind_on(log, nodes, place))
}

fn is_todo(kind: Kind) -> bool
    ensures yes { result ≡ true → kind ≡ ToDo }
    ensures no { result ≡ false → ¬ (kind ≡ ToDo) }
{
    match kind {
        Kind::ToDo => true,
        _ => false,
    }
}

// The leaf at a place is known to be open, where it is to be worked on.
pub(crate) fn add_open(open: &mut Open, log: &[Entry], nodes: &[NodeRef], place: usize) {
    if !is_todo_at(log, nodes, place) {
        return;
    }
    if let Some(node) = nodes.get(place) {
        open.add(OpenLeaf {
            place,
            entry: entry_of(*node),
            bound: bound_of(log, *node),
        });
    }
}

// The leaves from a place on, too.
pub(crate) fn add_from(open: &mut Open, log: &[Entry], nodes: &[NodeRef], first: usize) {
    for place in first..nodes.len() {
        add_open(open, log, nodes, place);
    }
}

// The leaves at these places, too.
pub(crate) fn add_all(open: &mut Open, log: &[Entry], nodes: &[NodeRef], places: &[usize]) {
    for place in places {
        add_open(open, log, nodes, *place);
    }
}

// The entry that put the leaf in.
fn entry_of(node: NodeRef) -> usize {
    match node {
        NodeRef::Again => 0,
        NodeRef::Under(entry) => entry,
        NodeRef::Held(entry, _) => entry,
        NodeRef::Forked { entry, .. } => entry,
    }
}

// The hint of a leaf, if it has one.
pub(crate) fn hint_of(log: &[Entry], node: NodeRef) -> Option<&Hint> {
    match node {
        NodeRef::Held(entry, n) => match held(log, entry, n) {
            Some(Slot::Leaf(Leaf::Todo(hint))) => Some(hint),
            Some(Slot::Leaf(Leaf::Treated(hint))) => Some(hint),
            _ => None,
        },
        _ => None,
    }
}

fn bound_of(log: &[Entry], node: NodeRef) -> Option<Frac> {
    match hint_of(log, node) {
        None => None,
        Some(hint) => hint.bound(),
    }
}
