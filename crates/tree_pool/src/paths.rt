// The splits on the ways to the nodes of a tree.
ghost use Rattle.std.specs.Prelude.{◌≡◌, ◌≤◌, ◌<◌, ◌+◌, ◌-◌, ◌++◌, ◌∷◌, [], length, get_or, reverse, IfOk, OnOk};
ghost use Rattle.certificate.specs.declared.split.Side.TheVariants.{Low, High};
ghost use Rattle.tree_pool.specs.Paths.{path_at, paths_of, AreAbove};

use certificate::{ColumnSplit, Side};
use search_node::SplitTaken;
use std::alloc::{AllocError, Global};
use std::marker::Model;

// The place of the node above a node, and the split between them.
#[derive(Clone, Copy)]
pub struct Link {
    pub above: usize,
    pub taken: SplitTaken,
}

/// For each place the splits on the way to it, the first of them first. The first place is the root's; the others have links.
#[derive(Drop)]
pub(crate) struct Paths {
    links: Vec<Link>,
}

impl Model for Paths {
    ghost use Rattle.std.specs.Prelude.{◌-◌};
    ghost use Rattle.std.specs.Vec.{vec_len, vec_capacity};
    ghost use Rattle.tree_pool.specs.Paths.{Paths as PathsOf, paths_of, AreAbove};

    ghost Value = { PathsOf };

    ghost view = { λ p. record { all = paths_of p.links.items; room = vec_capacity p.links - vec_len p.links } };

    ghost invariant = { λ p. AreAbove 1 p.links.items };
}

impl Paths {
    /// The root's alone.
    pub(crate) fn new(alloc: Global) -> Self
        ensures { result.all ≡ [] ∷ [] }
    {
        Paths {
            links: Vec::new(alloc),
        }
    }

    /// Makes room for so many further places.
    pub(crate) fn reserve(&mut self, count: usize) -> Result<(), AllocError>
        ensures same { self.new.all ≡ self.old.all }
        ensures room { OnOk result (count ≤ self.new.room) }
    {
        self.links.reserve(count)
    }

    /// Those of the two sides of a split at a place come behind all others.
    pub(crate) fn fork(&mut self, place: usize, split: ColumnSplit)
        requires place { place < length self.old.all }
        requires room { 2 ≤ self.old.room }
        ensures all { self.new.all ≡ self.old.all ++ (path_at self.old.all place ++ record { split = split; side = Low } ∷ []) ∷ (path_at self.old.all place ++ record { split = split; side = High } ∷ []) ∷ [] }
        ensures room { self.new.room + 2 ≡ self.old.room }
    {
        self.links.push_reserved(link_to(place, split, Side::Low));
        self.links.push_reserved(link_to(place, split, Side::High));
    }

    /// The splits on the way to a place.
    pub(crate) fn splits_to(
        &self,
        alloc: Global,
        place: usize,
    ) -> Result<Vec<SplitTaken>, AllocError>
        requires { place < length self.now.all }
        ensures { IfOk result (λ taken. taken.items ≡ path_at self.now.all place) }
    {
        splits_to(alloc, &self.links, place)
    }
}

fn link_to(above: usize, split: ColumnSplit, side: Side) -> Link
    ensures { result ≡ record { above = above; taken = record { split = split; side = side } } }
{
    Link {
        above,
        taken: SplitTaken { split, side },
    }
}

// The splits on the way to a place.
fn splits_to(alloc: Global, links: &[Link], place: usize) -> Result<Vec<SplitTaken>, AllocError>
    requires place { place ≤ length links.now }
    requires above { AreAbove 1 links.now }
    ensures { IfOk result (λ taken. taken.items ≡ path_at (paths_of links.now) place) }
{
    let mut taken = splits_up(alloc, links, place)?;
    taken.reverse();
    Ok(taken)
}

// The same up to the root, the last of them first.
fn splits_up(alloc: Global, links: &[Link], place: usize) -> Result<Vec<SplitTaken>, AllocError>
    requires place { place ≤ length links.now }
    requires above { AreAbove 1 links.now }
    ensures { IfOk result (λ taken. reverse taken.items ≡ path_at (paths_of links.now) place) }
{
    let mut taken = Vec::new(alloc);
    let mut at = place;
    while at > 0 {
        let link = link_of(links, at);
        taken.push(link.taken)?;
        at = link.above;
    }
    Ok(taken)
}

fn link_of(links: &[Link], place: usize) -> Link
    requires { (0 < place) × (place ≤ length links.now) }
    ensures { result ≡ get_or links.now (place - 1) result }
{
    links[place - 1]
}
