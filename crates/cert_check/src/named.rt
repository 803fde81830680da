// Weights, by what they name.
ghost use Rattle.std.specs.Prelude.{◌≡◌};
ghost use Rattle.certificate.specs.Written.{AreItemsFrom};

use certificate::{Item, LeafWeights, Weights};
use std::marker::Model;

// The weights of rows, columns and derived rows, and those of splits.
#[derive(Drop)]
pub(crate) struct Named<'a> {
    weights: &'a Weights,
    splits: &'a [Item],
}

impl<'a> Model for Named<'a> {
    ghost use Rattle.verdicts.specs.Certificate.{Weights as WeightsOf};

    ghost Value = { WeightsOf };

    ghost view = { λ n. record { rows = n.weights.now.rows; columns = n.weights.now.columns; derived = n.weights.now.derived; splits = n.splits.now } };
}

impl<'a> Named<'a> {
    // The weights of a leaf.
    pub(crate) fn of_leaf(leaf: &'a LeafWeights) -> Self
        ensures { result ≡ leaf.now }
    {
        Named {
            weights: leaf.weights(),
            splits: leaf.splits().as_slice(),
        }
    }

    // Weights that name no split.
    pub(crate) fn without_splits(weights: &'a Weights) -> Self
        ensures { result ≡ weights.now }
    {
        let _rows = weights.rows();
        Named {
            weights,
            splits: &[],
        }
    }

    // The weights of rows.
    pub(crate) fn rows(&self) -> &'a [Item]
        ensures rows { result.now ≡ self.now.rows }
        ensures order { AreItemsFrom 0 result.now }
    {
        self.weights.rows().as_slice()
    }

    // The weights of columns.
    pub(crate) fn columns(&self) -> &'a [Item]
        ensures columns { result.now ≡ self.now.columns }
        ensures order { AreItemsFrom 0 result.now }
    {
        self.weights.columns().as_slice()
    }

    // The weights of derived rows.
    pub(crate) fn derived(&self) -> &'a [Item]
        ensures { result.now ≡ self.now.derived }
    {
        self.weights.derived().as_slice()
    }

    // The weights of splits.
    pub(crate) fn splits(&self) -> &'a [Item]
        ensures { result.now ≡ self.now.splits }
    {
        self.splits
    }
}
