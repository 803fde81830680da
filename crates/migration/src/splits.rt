// The weights of a leaf's columns that use the bounds of splits, as weights of these splits.
ghost use Rattle.std.specs.Prelude.{◌≡◌, ◌≢◌, ◌<◌, ◌≤◌, [], length, pos, true, insert, IfOk, OnOk};
ghost use Rattle.rational.specs.Rational.{zero_ℚ};
ghost use Rattle.rational.specs.Compare.{is_less};
ghost use Rattle.verdicts.specs.Migrated.{source, on_split, placed, placed_if, with_splits, Each, Rising};
ghost use Rattle.certificate.specs.Written.{count_max, AreItemsFrom};

use crate::kept::KeptTurn;
use crate::sources::source;
use certificate::{Item, Items};
use fraction::Frac;
use instance::Instance;
use std::alloc::{AllocError, Global};

// The weights of splits that stand for those of columns below these turns, each above 0, in order of the splits.
pub(crate) fn split_weights(
    alloc: Global,
    problem: &Instance,
    turns: &[KeptTurn],
    columns: &Items,
) -> Result<Items, AllocError>
    requires { length turns.now ≤ count_max }
    ensures { IfOk result (λ splits. splits ≡ with_splits problem.now turns.now columns.now []) }
{
    let columns = columns.as_slice();
    let named = named_splits(alloc, problem, turns, columns)?;
    verdicts::splits_are_named();
    to_items(alloc, &named)
}

// The same, as a list.
fn named_splits(
    alloc: Global,
    problem: &Instance,
    turns: &[KeptTurn],
    columns: &[Item],
) -> Result<Vec<Item>, AllocError>
    requires count { length turns.now ≤ count_max }
    requires columns { AreItemsFrom 0 columns.now }
    ensures named { IfOk result (λ named. named.items ≡ with_splits problem.now turns.now columns.now []) }
    ensures indices { IfOk result (λ named. Each (λ i. i.index < count_max) named.items) }
{
    let mut named = Vec::new(alloc);
    let mut k = columns.len();
    while k > 0 {
        k -= 1;
        name_split(&mut named, problem, turns, columns[k])?;
    }
    Ok(named)
}

// Names the split whose bound the weight of a column uses, if it uses one.
fn name_split(
    named: &mut Vec<Item>,
    problem: &Instance,
    turns: &[KeptTurn],
    item: Item,
) -> Result<(), AllocError>
    requires count { length turns.now ≤ count_max }
    requires some { item.weight.numerator ≢ pos 0 }
    requires indices { Each (λ i. i.index < count_max) named.old.items }
    ensures named { OnOk result (named.new.items ≡ placed_if (source problem.now turns.now item) item named.old.items) }
    ensures indices { OnOk result (Each (λ i. i.index < count_max) named.new.items) }
{
    match source(problem, turns, item) {
        None => Ok(()),
        Some(index) => insert(named, on_split(index, item)),
    }
}

// The weight of a split's inequality, which has the sign of the side that is taken.
fn on_split(index: u32, item: Item) -> Item
    ensures { result ≡ on_split index item }
{
    let weight = if Frac::zero() < item.weight {
        item.weight
    } else {
        item.weight.neg()
    };
    Item { index, weight }
}

// Inserts a weight in order of the index.
fn insert(named: &mut Vec<Item>, item: Item) -> Result<(), AllocError>
    ensures { OnOk result (named.new.items ≡ placed item named.old.items) }
{
    let k = place_for(named, item);
    named.insert(k, item)?;
    Ok(())
}

// Where a weight stands among others in order of the index.
fn place_for(named: &[Item], item: Item) -> usize
    ensures within { result ≤ length named.now }
    ensures placed { insert named.now result item ≡ placed item named.now }
{
    let mut k = 0;
    while k < named.len() {
        let other = named[k];
        if other.index >= item.index {
            return k;
        }
        k += 1;
    }
    k
}

// Weights in order.
fn to_items(alloc: Global, named: &[Item]) -> Result<Items, AllocError>
    requires order { Rising 0 named.now }
    requires positive { Each (λ i. is_less zero_ℚ i.weight ≡ true) named.now }
    requires indices { Each (λ i. i.index < count_max) named.now }
    ensures { IfOk result (λ items. items ≡ named.now) }
{
    let mut items = Items::new(alloc);
    for item in named {
        items.push(*item)?;
    }
    Ok(items)
}
