// Trees of splits.
ghost use Rattle.std.specs.Prelude.{◌≡◌, length, IfOk};
ghost use Rattle.search_tree.specs.Tree.{Divided, AtLeaf, made};
ghost use Rattle.search_tree.specs.Slots.{slots_of};

use crate::{Leaf, Slot};
use certificate::ColumnSplit;
use std::alloc::{AllocError, Global};
use std::marker::Model;

/// A tree of splits, kept in preorder.
#[derive(Drop)]
pub struct Subtree {
    slots: Vec<Slot>,
}

impl Model for Subtree {
    ghost use Rattle.search_tree.specs.Tree.{Tree};
    ghost use Rattle.search_tree.specs.Slots.{tree_of, tree_code, AreOneTree};

    ghost Value = { Tree };

    ghost coded = { tree_code };

    ghost view = { λ t. tree_of t.slots.items };

    ghost invariant = { λ t. AreOneTree t.slots.items };
}

impl Subtree {
    /// The tree of one leaf.
    pub fn leaf(alloc: Global, leaf: Leaf) -> Result<Self, AllocError>
        ensures { IfOk result (λ t. t ≡ AtLeaf leaf) }
    {
        let mut slots = Vec::with_capacity(alloc, 1)?;
        slots.push_reserved(Slot::Leaf(leaf));
        Ok(Subtree { slots })
    }

    /// The tree of a split and its two sides.
    pub fn divided(
        alloc: Global,
        split: ColumnSplit,
        low: Subtree,
        high: Subtree,
    ) -> Result<Self, AllocError>
        ensures { IfOk result (λ t. t ≡ Divided split low high) }
    {
        let Subtree { slots: mut first } = low;
        let Subtree { slots: mut second } = high;
        let mut slots = Vec::with_capacity(alloc, 1)?;
        slots.push_reserved(Slot::Divided(split));
        slots.append(&mut first)?;
        slots.append(&mut second)?;
        Ok(Subtree { slots })
    }

    /// The nodes in preorder, for reading.
    pub fn as_slice(&self) -> &[Slot]
        ensures { result.now ≡ slots_of self.now }
    {
        &self.slots
    }

    /// The number of nodes.
    pub fn count(&self) -> usize
        ensures { result ≡ length (slots_of self.now) }
    {
        self.slots.len()
    }

    /// The number of splits.
    pub fn splits(&self) -> usize
        ensures { result ≡ made self.now }
    {
        self.count() / 2
    }
}
