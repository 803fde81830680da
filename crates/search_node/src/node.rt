// Nodes of a tree of splits.
ghost use Rattle.std.specs.Prelude.{◌≡◌, [], ◌∷◌, ◌++◌, IfOk, OnOk, OnErr, None};

use crate::Basis;
use certificate::{ColumnSplit, Side};
use std::alloc::{AllocError, Global};
use std::marker::Model;

/// A split on the way to a node, and the side that was taken.
#[derive(Clone, Copy)]
pub struct SplitTaken {
    pub split: ColumnSplit,
    pub side: Side,
}

/// The splits on the way to a node, the first of them first.
#[derive(Drop)]
pub struct SplitsTaken {
    splits: Vec<SplitTaken>,
}

impl Model for SplitsTaken {
    ghost use Rattle.std.specs.Prelude.{List};
    ghost use Rattle.search_node.specs.declared.node.SplitTaken.{SplitTaken as SplitTakenOf};

    ghost Value = { List SplitTakenOf };

    ghost view = { λ s. s.splits.items };
}

impl SplitsTaken {
    /// No split.
    pub fn new(alloc: Global) -> Self
        ensures { result ≡ [] }
    {
        SplitsTaken {
            splits: Vec::new(alloc),
        }
    }

    /// These splits, the first of them first. It takes no memory.
    pub fn from_vec(splits: Vec<SplitTaken>) -> Self
        ensures { result ≡ splits.items }
    {
        SplitsTaken { splits }
    }

    /// One more split, below the others. After an error nothing has changed.
    pub fn push(&mut self, split: SplitTaken) -> Result<(), AllocError>
        ensures ok { OnOk result (self.new ≡ self.old ++ split ∷ []) }
        ensures kept { OnErr result (self.new ≡ self.old) }
    {
        self.splits.push(split)?;
        Ok(())
    }

    /// The same splits.
    pub fn copy(&self, alloc: Global) -> Result<Self, AllocError>
        ensures { IfOk result (λ copy. copy ≡ self.now) }
    {
        let splits = self.splits.to_vec(alloc)?;
        Ok(SplitsTaken { splits })
    }

    /// The splits, for reading.
    pub fn as_slice(&self) -> &[SplitTaken]
        ensures { result.now ≡ self.now }
    {
        &self.splits
    }
}

/// A node of a tree: the basis from which the root's cuts were read, if there are any, and the splits on its way.
#[derive(Drop)]
pub struct Node {
    pub root_basis: Option<Basis>,
    pub splits: SplitsTaken,
}

impl Node {
    /// The root, without cuts.
    pub fn root(alloc: Global) -> Self
        ensures { result ≡ record { root_basis = None; splits = [] } }
    {
        Node {
            root_basis: None,
            splits: SplitsTaken::new(alloc),
        }
    }

    /// The same node.
    pub fn copy(&self, alloc: Global) -> Result<Self, AllocError>
        ensures { IfOk result (λ copy. copy ≡ self.now) }
    {
        let root_basis = copy_basis(alloc, &self.root_basis)?;
        let splits = self.splits.copy(alloc)?;
        Ok(Node { root_basis, splits })
    }
}

fn copy_basis(alloc: Global, basis: &Option<Basis>) -> Result<Option<Basis>, AllocError>
    ensures { IfOk result (λ copy. copy ≡ basis.now) }
{
    match basis {
        None => Ok(None),
        Some(basis) => Ok(Some(basis.copy(alloc)?)),
    }
}
