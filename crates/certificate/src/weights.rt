// Weights: the multipliers of rows, columns and derived rows.
ghost use Rattle.std.specs.Prelude.{◌≡◌, ◌≢◌, ◌+◌, ◌<◌, ◌≤◌, [], ◌∷◌, ◌++◌, pos, IfOk, OnOk, OnErr, IfErr};
ghost use Rattle.verdicts.specs.Certificate.{Item as ItemOf, Weights as WeightsOf};
ghost use Rattle.certificate.specs.Written.{count_max, rank_of, next_rank, AreItemsFrom, AreWeights, AreLeafWeights};

use crate::whole::parts_fit;
use fraction::Frac;
use std::alloc::{AllocError, Global};
use std::marker::Model;

/// The weight of a row, a column, a derived row or a split on the way to a leaf, named by its index from 0.
#[derive(Clone, Copy)]
pub struct Item {
    pub index: u32,
    pub weight: Frac,
}

impl Model for Item {
    ghost use Rattle.verdicts.specs.Certificate.{Item as ItemOf};

    ghost Value = { ItemOf };

    ghost view = { λ i. record { index = i.index; weight = i.weight } };

    ghost inverse = { λ i. record { index = i.index; weight = i.weight } };
}

/// Weights of one kind, in ascending order of index, none of them 0. One index may stand twice, the positive weight
/// first.
#[derive(Drop)]
pub struct Items {
    items: Vec<Item>,
}

impl Model for Items {
    ghost use Rattle.std.specs.Prelude.{List};
    ghost use Rattle.verdicts.specs.Certificate.{Item as ItemOf};
    ghost use Rattle.certificate.specs.Written.{AreItemsFrom};

    ghost Value = { List ItemOf };

    ghost view = { λ i. i.items.items };

    ghost invariant = { λ i. AreItemsFrom 0 i.items.items };
}

impl Items {
    /// No weights.
    pub fn new(alloc: Global) -> Self
        ensures { result ≡ [] }
    {
        Items {
            items: Vec::new(alloc),
        }
    }

    /// One more weight, at the end.
    pub fn push(&mut self, item: Item) -> Result<(), AllocError>
        requires index { item.index < count_max }
        requires some { item.weight.numerator ≢ pos 0 }
        requires order { next_rank 0 self.old ≤ rank_of item }
        ensures ok { OnOk result (self.new ≡ self.old ++ item ∷ []) }
        ensures next { OnOk result (next_rank 0 self.new ≡ rank_of item + 1) }
        ensures kept { OnErr result (self.new ≡ self.old) }
    {
        parts_fit(item.weight);
        self.items.push(item)?;
        Ok(())
    }

    /// The same weights.
    pub fn copy(&self, alloc: Global) -> Result<Self, AllocError>
        ensures { IfOk result (λ copy. copy ≡ self.now) }
    {
        let items = self.items.to_vec(alloc)?;
        Ok(Items { items })
    }

    /// The weights, for reading.
    pub fn as_slice(&self) -> &[Item]
        ensures items { result.now ≡ self.now }
        ensures written { AreItemsFrom 0 self.now }
    {
        &self.items
    }
}

/// Weights of rows, of columns (their bounds) and of derived rows.
#[derive(Drop)]
pub struct Weights {
    rows: Items,
    columns: Items,
    derived: Items,
}

impl Model for Weights {
    ghost use Rattle.std.specs.Prelude.{[]};
    ghost use Rattle.verdicts.specs.Certificate.{Weights as WeightsOf};
    ghost use Rattle.certificate.specs.Written.{AreItemsFrom};

    ghost Value = { WeightsOf };

    ghost view = { λ w. record { rows = w.rows; columns = w.columns; derived = w.derived; splits = [] } };

    ghost invariant = { λ w. AreItemsFrom 0 w.rows × AreItemsFrom 0 w.columns × AreItemsFrom 0 w.derived };
}

impl Weights {
    /// No weights.
    pub fn none(alloc: Global) -> Self
        ensures { result ≡ record { rows = []; columns = []; derived = []; splits = [] } }
    {
        Weights::new(Items::new(alloc), Items::new(alloc), Items::new(alloc))
    }

    /// These weights. It takes no memory.
    pub fn new(rows: Items, columns: Items, derived: Items) -> Self
        ensures { result ≡ record { rows = rows; columns = columns; derived = derived; splits = [] } }
    {
        let _rows = rows.as_slice();
        let _columns = columns.as_slice();
        let _derived = derived.as_slice();
        Weights {
            rows,
            columns,
            derived,
        }
    }

    /// The same weights.
    pub fn copy(&self, alloc: Global) -> Result<Self, AllocError>
        ensures { IfOk result (λ copy. copy ≡ self.now) }
    {
        let rows = self.rows.copy(alloc)?;
        let columns = self.columns.copy(alloc)?;
        let derived = self.derived.copy(alloc)?;
        Ok(Weights::new(rows, columns, derived))
    }

    /// The weights of rows. All of the weights have a text.
    pub fn rows(&self) -> &Items
        ensures rows { result.now ≡ self.now.rows }
        ensures written { AreWeights self.now }
    {
        &self.rows
    }

    /// The weights of columns: of a column's lower bound where they are positive, of its upper bound where they are
    /// negative.
    pub fn columns(&self) -> &Items
        ensures { result.now ≡ self.now.columns }
    {
        &self.columns
    }

    /// The weights of derived rows.
    pub fn derived(&self) -> &Items
        ensures { result.now ≡ self.now.derived }
    {
        &self.derived
    }
}

/// The weights of a leaf: those of rows, columns and derived rows, and those of the splits on the way from the root to the
/// leaf, of which the first has the index 0. The weight of a split is one of the inequality of the side that is taken.
#[derive(Drop)]
pub struct LeafWeights {
    weights: Weights,
    splits: Items,
}

impl Model for LeafWeights {
    ghost use Rattle.verdicts.specs.Certificate.{Weights as WeightsOf};
    ghost use Rattle.certificate.specs.Written.{AreLeafWeights};

    ghost Value = { WeightsOf };

    ghost view = { λ l. record { rows = l.weights.rows; columns = l.weights.columns; derived = l.weights.derived; splits = l.splits } };

    ghost invariant = { λ l. AreLeafWeights (record { rows = l.weights.rows; columns = l.weights.columns; derived = l.weights.derived; splits = l.splits }) };
}

impl LeafWeights {
    /// These weights. It takes no memory.
    pub fn new(weights: Weights, splits: Items) -> Self
        ensures { result ≡ record { rows = weights.rows; columns = weights.columns; derived = weights.derived; splits = splits } }
    {
        let _rows = weights.rows();
        let _splits = splits.as_slice();
        LeafWeights { weights, splits }
    }

    /// These weights, and none of splits. It takes no memory.
    pub fn without_splits(alloc: Global, weights: Weights) -> Self
        ensures { result ≡ weights }
    {
        let _rows = weights.rows();
        LeafWeights::new(weights, Items::new(alloc))
    }

    /// The same weights.
    pub fn copy(&self, alloc: Global) -> Result<Self, AllocError>
        ensures { IfOk result (λ copy. copy ≡ self.now) }
    {
        let weights = self.weights.copy(alloc)?;
        let splits = self.splits.copy(alloc)?;
        Ok(LeafWeights::new(weights, splits))
    }

    /// The weights of rows, columns and derived rows.
    pub fn weights(&self) -> &Weights
        ensures { result.now ≡ record { rows = self.now.rows; columns = self.now.columns; derived = self.now.derived; splits = [] } }
    {
        let _rows = self.weights.rows();
        &self.weights
    }

    /// The weights of splits. All of the weights have a text.
    pub fn splits(&self) -> &Items
        ensures splits { result.now ≡ self.now.splits }
        ensures written { AreLeafWeights self.now }
    {
        &self.splits
    }
}
