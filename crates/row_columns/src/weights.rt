// Weights without those of the forms' columns and of the rows that tie them.
ghost use Rattle.std.specs.Prelude.{◌≡◌, ◌++◌, [], ◌∷◌, IfOk, OnOk};
ghost use Rattle.verdicts.specs.SplitRows.{first_items};
ghost use Rattle.certificate.specs.Written.{next_rank, AreItemsFrom};
ghost use Rattle.row_columns.specs.Restored.{items_behind, restored_weights};

use crate::forms::Forms;
use certificate::{Item, Items, LeafWeights, Weights};
use instance::Instance;
use std::alloc::{AllocError, Global};

// The weights of a leaf as those of the problem without columns for the forms.
pub(crate) fn restored_weights(
    alloc: Global,
    problem: &Instance,
    forms: &Forms,
    weights: &LeafWeights,
) -> Result<LeafWeights, AllocError>
    ensures { IfOk result (λ made. made ≡ restored_weights problem.now forms.now weights.now) }
{
    let parts = weights.weights();
    let rows = first_items(alloc, problem.rows().len(), parts.rows())?;
    let columns = items_behind(alloc, forms.as_slice().len(), parts.columns())?;
    let derived = parts.derived().copy(alloc)?;
    let splits = weights.splits().copy(alloc)?;
    Ok(LeafWeights::new(Weights::new(rows, columns, derived), splits))
}

/// The weights of indices below `count`.
pub fn first_items(alloc: Global, count: usize, items: &Items) -> Result<Items, AllocError>
    ensures { IfOk result (λ made. made ≡ first_items count items.now) }
{
    let mut made = Items::new(alloc);
    let items = items.as_slice();
    for item in items {
        add_first(&mut made, count, *item)?;
    }
    Ok(made)
}

// Adds a weight whose index is below `count`.
fn add_first(made: &mut Items, count: usize, item: Item) -> Result<(), AllocError>
    requires { AreItemsFrom (next_rank 0 made.old) (first_items count (item ∷ [])) }
    ensures { OnOk result (made.new ≡ made.old ++ first_items count (item ∷ [])) }
{
    if (item.index as usize) < count {
        made.push(item)
    } else {
        Ok(())
    }
}

/// The weights of indices from `count` on, which count from there.
pub fn items_behind(alloc: Global, count: usize, items: &Items) -> Result<Items, AllocError>
    ensures { IfOk result (λ made. made ≡ items_behind count items.now) }
{
    let mut made = Items::new(alloc);
    let items = items.as_slice();
    for item in items {
        add_behind(&mut made, count, *item)?;
    }
    Ok(made)
}

// Adds a weight whose index is at least `count`.
fn add_behind(made: &mut Items, count: usize, item: Item) -> Result<(), AllocError>
    requires { AreItemsFrom (next_rank 0 made.old) (items_behind count (item ∷ [])) }
    ensures { OnOk result (made.new ≡ made.old ++ items_behind count (item ∷ [])) }
{
    if (item.index as usize) < count {
        Ok(())
    } else {
        made.push(Item {
            index: item.index - count as u32,
            weight: item.weight,
        })
    }
}
