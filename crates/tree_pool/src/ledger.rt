// The log of a board, and the tree and best point that it leads to.
ghost use Rattle.std.specs.Prelude.{◌≡◌, ◌++◌, [], ◌∷◌, ◌<◌, ◌≤◌, ◌+◌, ◌*◌, length, cond, Some, None, option_map, true, false, OnOk, OnErr, IfOk, IfErr, IfSome, List, slice_get};
ghost use Rattle.std.specs.Vec.{vec_len, vec_capacity};
ghost use Rattle.certificate.specs.declared.split.Side.{Side as SideOf};
ghost use Rattle.search_tree.specs.declared.leaf.Lease.{Lease as LeaseOf};
ghost use Rattle.search_tree.specs.declared.leaf.Leaf.TheVariants.{Todo, Leased};
ghost use Rattle.search_tree.specs.declared.event.Event.TheVariants.{Idling, Grafting, Offering, Reclaiming};
ghost use Rattle.search_tree.specs.declared.event.Reply.TheVariants.{StillLeased, Best, Done};
ghost use Rattle.search_tree.specs.Tree.{AtLeaf, IsTodo, at_place, made, leased, leased_under, reclaimed, AllLeaves};
ghost use Rattle.search_tree.specs.Slots.{slots_of};
ghost use Rattle.search_tree.specs.Finished.{nodes_of};
ghost use Rattle.tree_pool.specs.Places.{AreClosed, IsOpen, taken_to};
ghost use Rattle.tree_pool.specs.LogNodes.{nodes_in};
ghost use Rattle.tree_pool.specs.Paths.{path_at};
ghost use Rattle.tree_pool.specs.Standing.{way_of};
ghost use Rattle.tree_pool.specs.Grown.{put_under};
ghost use Rattle.tree_pool.specs.Ledger.{IsTaken, offered_by, offered_in};
ghost use Rattle.tree_pool.specs.Shown.{shown_nodes};

use crate::choice::{Order, add_all, add_from, add_open, chosen, hint_of, is_todo_at};
use crate::closed::{are_closed, closed_tree};
use crate::lease::node_lease;
use crate::open::Open;
use crate::paths::Paths;
use crate::placing::put_tree;
use crate::refs::NodeRef;
use crate::scan::{forget, given_back, leased_count, place_under, remember, sides_of};
use crate::shown::shown_tree;
use crate::walk::in_preorder;
use certificate::Tree;
use fraction::Frac;
use instance::Point;
use partial_certificate::PartialTree;
use search_node::SplitTaken;
use search_tree::{Entry, Event, Hint, Lease, Reply, Subtree, Way};
use std::alloc::{AllocError, Global};
use std::marker::Model;

/// A log with the tree and the best point that it leads to. The log owns the subtrees and points. Each node of the tree has a
/// place of its own, which it keeps: `nodes` says where in the log it stands, and `paths` which splits lead to it. `open` and
/// `leased` tell where to look first for a leaf.
#[derive(Drop)]
pub(crate) struct Ledger {
    log: Vec<Entry>,
    paths: Paths,
    nodes: Vec<NodeRef>,
    open: Open,
    leased: Vec<usize>,
    best: Option<usize>,
}

impl Model for Ledger {
    ghost use Rattle.std.specs.Prelude.{length, IfSome, ◌<◌};
    ghost use Rattle.std.specs.Coded.{codes};
    ghost use Rattle.search_tree.specs.Slots.{tree_code};
    ghost use Rattle.tree_pool.specs.LogNodes.{node_at, AllInLog};
    ghost use Rattle.tree_pool.specs.Grown.{tree_after};
    ghost use Rattle.tree_pool.specs.Standing.{AreNodes};
    ghost use Rattle.tree_pool.specs.Ledger.{Ledger as LedgerOf, best_at};

    ghost Value = { LedgerOf };

    ghost coded = { Prim.hlevel (codes, tree_code) };

    ghost view = { λ l. record { log = l.log.items; tree = tree_after l.log.items; best = best_at l.log.items l.best } };

    ghost invariant = { λ l. AreNodes (node_at l.log.items) (tree_after l.log.items) l.paths.all l.nodes.items × AllInLog (length l.log.items) l.nodes.items × IfSome l.best (λ n. n < length l.log.items) };
}

impl Ledger {
    /// No entry, a leaf that is to be worked on, and no best point.
    pub(crate) fn new(alloc: Global) -> Result<Self, AllocError>
        ensures { IfOk result (λ l. l ≡ record { log = []; tree = AtLeaf (Todo tt); best = None }) }
    {
        let mut nodes = Vec::with_capacity(alloc, 1)?;
        nodes.push_reserved(NodeRef::Again);
        Ok(Ledger {
            log: Vec::new(alloc),
            paths: Paths::new(alloc),
            nodes,
            open: Open::new(alloc),
            leased: Vec::new(alloc),
            best: None,
        })
    }

    /// The number of entries.
    pub(crate) fn count(&self) -> usize
        ensures { result ≡ length self.now.log }
    {
        self.log.len()
    }

    // The nodes in preorder.
    fn in_preorder(&self, alloc: Global) -> Result<Vec<NodeRef>, AllocError>
        ensures { IfOk result (λ all. nodes_in self.now.log all.items ≡ slots_of self.now.tree) }
    {
        in_preorder(alloc, &self.log, &self.nodes)
    }

    /// The number of leased leaves.
    pub(crate) fn leased(&self, alloc: Global) -> Result<usize, AllocError>
        ensures { IfOk result (λ count. count ≡ leased self.now.tree) }
    {
        let nodes = self.in_preorder(alloc)?;
        Ok(leased_count(&self.log, &nodes))
    }

    /// The place of a leaf that is to be worked on, if there is one.
    pub(crate) fn chosen(&mut self, order: Order) -> Option<usize>
        ensures same { self.new ≡ self.old }
        ensures none { result ≡ None → AllLeaves (λ sides leaf. ¬ (IsTodo leaf)) [] self.old.tree }
    {
        chosen(&self.log, &self.nodes, &mut self.open, order)
    }

    /// The open lease of this number, if there is one.
    pub(crate) fn open_lease(&self, number: usize) -> Option<Lease>
        ensures number { IfSome result (λ lease. lease.number ≡ number) }
        ensures open { IfSome result (IsOpen self.now.tree) }
        ensures none { result ≡ None → leased_under number self.now.tree ≡ 0 }
    {
        match place_under(&self.log, &self.nodes, &self.leased, number) {
            None => None,
            Some(place) => node_lease(&self.log, self.nodes[place]),
        }
    }

    /// A copy of the hint of the leaf at a place, or an empty one.
    pub(crate) fn hint(&self, alloc: Global, place: usize) -> Result<Hint, AllocError> {
        let found = match self.nodes.get(place) {
            None => None,
            Some(node) => hint_of(&self.log, *node),
        };
        match found {
            None => Ok(Hint::new(None, None)),
            Some(hint) => hint.copy(alloc),
        }
    }

    /// The splits on the way to the leaf that is leased under this number, the first of them first.
    pub(crate) fn splits_under(
        &self,
        alloc: Global,
        number: usize,
    ) -> Result<Vec<SplitTaken>, AllocError>
        requires { leased_under number self.now.tree ≤ 1 }
        ensures { IfOk result (λ taken. (way : List SideOf) (lease : LeaseOf) → at_place self.now.tree way ≡ Some (AtLeaf (Leased lease)) → lease.number ≡ number → taken.items ≡ taken_to self.now.tree way) }
    {
        let Some(place) = place_under(&self.log, &self.nodes, &self.leased, number) else {
            return Err(AllocError);
        };
        self.paths.splits_to(alloc, place)
    }
}

impl Ledger {
    /// One more entry, by which the leaf at a place is leased. After an error nothing has changed.
    pub(crate) fn lease(
        &mut self,
        alloc: Global,
        place: usize,
        seat: usize,
        lease: Lease,
    ) -> Result<(), AllocError>
        ensures ok { OnOk result (IsTaken self.old seat lease self.new) }
        ensures kept { OnErr result (self.new ≡ self.old) }
    {
        if !is_todo_at(&self.log, &self.nodes, place) {
            return Err(AllocError);
        }
        let told = way_to(alloc, &self.paths, place)?;
        self.log.reserve(1)?;
        let entry = self.log.len();
        self.nodes[place] = NodeRef::Under(entry);
        self.log.push_reserved(Entry {
            event: Event::Leasing(seat),
            reply: Reply::Given(told, lease),
        });
        remember(&mut self.leased, place);
        Ok(())
    }

    /// One more entry, by which no leaf is leased. After an error nothing has changed.
    pub(crate) fn idle(&mut self, seat: usize, count: usize) -> Result<(), AllocError>
        ensures ok { OnOk result (self.new ≡ record self.old { log = self.old.log ++ record { event = Idling seat; reply = StillLeased count } ∷ [] }) }
        ensures kept { OnErr result (self.new ≡ self.old) }
    {
        self.log.reserve(1)?;
        self.log.push_reserved(Entry {
            event: Event::Idling(seat),
            reply: Reply::StillLeased(count),
        });
        Ok(())
    }

    /// One more entry, by which a tree is put in the place of the leaf that is leased. After an error nothing has changed, and
    /// the tree comes back.
    pub(crate) fn graft(
        &mut self,
        seat: usize,
        lease: Lease,
        tree: Subtree,
        best: Option<Frac>,
    ) -> Result<(), Subtree>
        requires one { leased_under lease.number self.old.tree ≤ 1 }
        ensures log { OnOk result (self.new.log ≡ self.old.log ++ record { event = Grafting seat lease tree; reply = Best best } ∷ []) }
        ensures tree { OnOk result (self.new.tree ≡ put_under lease.number tree self.old.tree) }
        ensures best { OnOk result (self.new.best ≡ self.old.best) }
        ensures kept { OnErr result (self.new ≡ self.old) }
        ensures back { IfErr result (λ t. t ≡ tree) }
    {
        let Some(place) = place_under(&self.log, &self.nodes, &self.leased, lease.number) else {
            return Err(tree);
        };
        if make_room(&mut self.log, &mut self.nodes, &mut self.paths, &tree).is_err() {
            return Err(tree);
        }
        let entry = self.log.len();
        let behind = self.nodes.len();
        self.log.push_reserved(Entry {
            event: Event::Grafting(seat, lease, tree),
            reply: Reply::Best(best),
        });
        put_tree(&self.log, &mut self.nodes, &mut self.paths, place, entry);
        forget(&mut self.leased, place);
        add_open(&mut self.open, &self.log, &self.nodes, place);
        add_from(&mut self.open, &self.log, &self.nodes, behind);
        Ok(())
    }

    /// One more entry, by which a point is offered: the best one from now on, where it is better. After an error nothing
    /// has changed, and the point comes back.
    pub(crate) fn offer(
        &mut self,
        seat: usize,
        point: Point,
        better: bool,
        told: Option<Frac>,
    ) -> Result<(), Point>
        ensures log { OnOk result (self.new.log ≡ self.old.log ++ record { event = Offering seat point; reply = Best told } ∷ []) }
        ensures tree { OnOk result (self.new.tree ≡ self.old.tree) }
        ensures best { OnOk result (self.new.best ≡ cond better (Some point) self.old.best) }
        ensures kept { OnErr result (self.new ≡ self.old) }
        ensures back { IfErr result (λ x. x ≡ point) }
    {
        if self.log.reserve(1).is_err() {
            return Err(point);
        }
        let entry = self.log.len();
        let best = newer(better, entry, self.best);
        self.log.push_reserved(Entry {
            event: Event::Offering(seat, point),
            reply: Reply::Best(told),
        });
        self.best = best;
        Ok(())
    }
}

impl Ledger {
    /// One more entry, by which leased leaves are to be worked on again. After an error nothing has changed.
    pub(crate) fn reclaim(&mut self, alloc: Global) -> Result<(), AllocError>
        ensures log { OnOk result (self.new.log ≡ self.old.log ++ record { event = Reclaiming; reply = Done } ∷ []) }
        ensures tree { OnOk result (self.new.tree ≡ reclaimed self.old.tree) }
        ensures best { OnOk result (self.new.best ≡ self.old.best) }
        ensures kept { OnErr result (self.new ≡ self.old) }
    {
        let nodes = given_back(alloc, &self.log, &self.nodes)?;
        self.log.reserve(1)?;
        self.nodes = nodes;
        self.log.push_reserved(Entry {
            event: Event::Reclaiming,
            reply: Reply::Done,
        });
        add_all(&mut self.open, &self.log, &self.nodes, &self.leased);
        self.leased.clear();
        Ok(())
    }

    /// The best point, if there is one.
    pub(crate) fn best(&self) -> Option<&Point>
        ensures { option_map (λ x. x.now) result ≡ self.now.best }
    {
        match self.best {
            None => None,
            Some(entry) => offered_in(&self.log, entry),
        }
    }

    /// A copy of the best point, if there is one.
    pub(crate) fn best_copy(&self, alloc: Global) -> Result<Option<Point>, AllocError>
        ensures { IfOk result (λ best. best ≡ self.now.best) }
    {
        match self.best() {
            None => Ok(None),
            Some(point) => Ok(Some(point.copy(alloc)?)),
        }
    }

    /// Whether each leaf is closed.
    pub(crate) fn is_finished(&self) -> bool
        ensures yes { result ≡ true → AreClosed self.now.tree }
        ensures no { result ≡ false → ¬ (AreClosed self.now.tree) }
    {
        are_closed(&self.log, &self.nodes)
    }

    /// The tree as a partial certificate has it.
    pub(crate) fn shown_tree(&self, alloc: Global) -> Result<PartialTree, AllocError>
        ensures { IfOk result (λ t. t ≡ shown_nodes self.now.tree) }
    {
        let nodes = self.in_preorder(alloc)?;
        shown_tree(alloc, &self.log, &nodes)
    }

    /// The tree as a certificate has it, without the leaves that are not closed.
    pub(crate) fn closed_tree(&self, alloc: Global) -> Result<Tree, AllocError>
        ensures { IfOk result (λ t. t ≡ nodes_of self.now.tree) }
    {
        let nodes = self.in_preorder(alloc)?;
        closed_tree(alloc, &self.log, &nodes)
    }
}

// The point that an entry offers.
fn offered_in(log: &[Entry], entry: usize) -> Option<&Point>
    ensures { option_map (λ x. x.now) result ≡ offered_in (slice_get log.now entry) }
{
    match log.get(entry) {
        None => None,
        Some(entry) => offered_by(entry),
    }
}

fn offered_by(entry: &Entry) -> Option<&Point>
    ensures { option_map (λ x. x.now) result ≡ offered_by entry.now.event }
{
    match &entry.event {
        Event::Offering(_, point) => Some(point),
        _ => None,
    }
}

// The entry of the best point.
fn newer(better: bool, entry: usize, best: Option<usize>) -> Option<usize>
    ensures { result ≡ cond better (Some entry) best }
{
    if better { Some(entry) } else { best }
}

// The way to a place.
fn way_to(alloc: Global, paths: &Paths, place: usize) -> Result<Way, AllocError>
    requires { place < length paths.now.all }
    ensures { IfOk result (λ way. way ≡ way_of (path_at paths.now.all place)) }
{
    let taken = paths.splits_to(alloc, place)?;
    let sides = sides_of(alloc, &taken)?;
    Ok(Way::from_vec(sides))
}

// Room for one more entry, and for the nodes of a tree in the place of a leaf.
fn make_room(
    log: &mut Vec<Entry>,
    nodes: &mut Vec<NodeRef>,
    paths: &mut Paths,
    tree: &Subtree,
) -> Result<(), AllocError>
    ensures same_log { log.new.items ≡ log.old.items }
    ensures same_nodes { nodes.new.items ≡ nodes.old.items }
    ensures same_paths { paths.new.all ≡ paths.old.all }
    ensures log { OnOk result (vec_len log.new + 1 ≤ vec_capacity log.new) }
    ensures nodes { OnOk result (vec_len nodes.new + made tree.now * 2 ≤ vec_capacity nodes.new) }
    ensures paths { OnOk result (made tree.now * 2 ≤ paths.new.room) }
{
    let more = further_nodes(tree);
    log.reserve(1)?;
    nodes.reserve(more)?;
    paths.reserve(more)
}

// The number of a tree's nodes beside its root.
fn further_nodes(tree: &Subtree) -> usize
    ensures { result ≡ made tree.now * 2 }
{
    tree.count().saturating_sub(1)
}
