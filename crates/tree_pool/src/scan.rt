// Searches among the nodes of the board's tree.
ghost use Rattle.std.specs.Prelude.{◌≡◌, ◌≤◌, true, false, map, None, IfOk, IfSome};
ghost use Rattle.tree_pool.specs.declared.kind.Kind.TheVariants.{LeasedUnder};
ghost use Rattle.tree_pool.specs.Ledger.{given_back, kinds_in, of_kind, lease_count, IsPlaceOf, HasNone};

use crate::kind::{Kind, kind_at, kind_on};
use crate::refs::NodeRef;
use certificate::Side;
use search_node::SplitTaken;
use search_tree::Entry;
use std::alloc::{AllocError, Global};

// The sides of splits.
pub(crate) fn sides_of(alloc: Global, taken: &[SplitTaken]) -> Result<Vec<Side>, AllocError>
    ensures { IfOk result (λ sides. sides.items ≡ map (λ t. t.side) taken.now) }
{
    let mut sides = Vec::new(alloc);
    for split in taken {
        sides.push(split.side)?;
    }
    Ok(sides)
}

// The place of a leaf that is leased under this number, if there is one.
pub(crate) fn place_under(
    log: &[Entry],
    nodes: &[NodeRef],
    leased: &[usize],
    number: usize,
) -> Option<usize>
    ensures under { IfSome result (IsPlaceOf (LeasedUnder number) log.now nodes.now) }
    ensures none { result ≡ None → HasNone (LeasedUnder number) log.now nodes.now }
{
    match known_under(log, nodes, leased, number) {
        Some(place) => Some(place),
        None => any_under(log, nodes, number),
    }
}

// The same among the places of leaves that are known to be leased, the latest first.
fn known_under(log: &[Entry], nodes: &[NodeRef], leased: &[usize], number: usize) -> Option<usize>
    ensures under { IfSome result (IsPlaceOf (LeasedUnder number) log.now nodes.now) }
{
    let mut at = leased.len();
    while at > 0 {
        at -= 1;
        let place = leased[at];
        if is_under_at(log, nodes, place, number) {
            return Some(place);
        }
    }
    None
}

// The same among all places.
fn any_under(log: &[Entry], nodes: &[NodeRef], number: usize) -> Option<usize>
    ensures under { IfSome result (IsPlaceOf (LeasedUnder number) log.now nodes.now) }
    ensures none { result ≡ None → HasNone (LeasedUnder number) log.now nodes.now }
{
    let mut at = 0;
    while at < nodes.len() {
        if is_under_at(log, nodes, at, number) {
            return Some(at);
        }
        at += 1;
    }
    None
}

// At this place stands a leaf that is leased under this number.
fn is_under_at(log: &[Entry], nodes: &[NodeRef], place: usize, number: usize) -> bool
    ensures yes { result ≡ true → IsPlaceOf (LeasedUnder number) log.now nodes.now place }
    ensures no { result ≡ false → ¬ (IsPlaceOf (LeasedUnder number) log.now nodes.now place) }
{
    if place >= nodes.len() {
        return false;
    }
    is_under(kind_on(log, nodes, place), number)
}

fn is_under(kind: Kind, number: usize) -> bool
    ensures yes { result ≡ true → kind ≡ LeasedUnder number }
    ensures no { result ≡ false → ¬ (kind ≡ LeasedUnder number) }
{
    match kind {
        Kind::LeasedUnder(other) => other == number,
        _ => false,
    }
}

// The place of a leaf is known to be leased, where memory is there.
pub(crate) fn remember(leased: &mut Vec<usize>, place: usize) {
    let _is_kept = leased.push(place).is_ok();
}

// The place of a leaf is no longer known to be leased.
pub(crate) fn forget(leased: &mut Vec<usize>, place: usize) {
    let mut at = leased.len();
    while at > 0 {
        at -= 1;
        if leased[at] == place {
            leased.swap_remove(at);
            return;
        }
    }
}

// The number of leased leaves.
pub(crate) fn leased_count(log: &[Entry], nodes: &[NodeRef]) -> usize
    ensures { result ≡ lease_count (kinds_in log.now nodes.now) }
{
    let mut count: usize = 0;
    for node in nodes {
        count += lease_of(kind_at(log, *node));
    }
    count
}

// 1 for a leased leaf.
fn lease_of(kind: Kind) -> usize
    ensures count { result ≡ of_kind (λ n. 1) kind }
    ensures limit { result ≤ 1 }
{
    match kind {
        Kind::LeasedUnder(_) => 1,
        _ => 0,
    }
}

// The nodes, where each leased leaf is to be worked on again.
pub(crate) fn given_back(
    alloc: Global,
    log: &[Entry],
    nodes: &[NodeRef],
) -> Result<Vec<NodeRef>, AllocError>
    ensures { IfOk result (λ back. back.items ≡ map (given_back log.now) nodes.now) }
{
    let mut back = Vec::new(alloc);
    for node in nodes {
        back.push(node_back(log, *node))?;
    }
    Ok(back)
}

fn node_back(log: &[Entry], node: NodeRef) -> NodeRef
    ensures { result ≡ given_back log.now node }
{
    match kind_at(log, node) {
        Kind::LeasedUnder(_) => NodeRef::Again,
        _ => node,
    }
}
