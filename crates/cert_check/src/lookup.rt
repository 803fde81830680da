// Weights found by their index.
ghost use Rattle.std.specs.Prelude.{◌≡◌, ◌≤◌, [], ◌∷◌, length, drop, IsTrue};
ghost use Rattle.rational.specs.Rational.{Rational};
ghost use Rattle.certificate.specs.Written.{AreItemsFrom};
ghost use Rattle.cert_check.specs.Sums.{with_products};
ghost use Rattle.cert_check.specs.Lookup.{at_index, at_entries, entry_at};
ghost use Rattle.cert_check.specs.Parts.{ascending};

use crate::sums::with_product;
use certificate::Item;
use fraction::{Frac, NoFit};
use instance::{ColumnEntry, Entry};

// The place of the first weight whose index is at least this one, by halving.
#[tactic(auto, using(crate::proofs::ItemOrder::before_skipped))]
fn first_from(items: &[Item], index: u32) -> usize
    requires { AreItemsFrom 0 items.now }
    ensures within { result ≤ length items.now }
    ensures rest { (factor : Rational) → at_index (drop result items.now) index factor ≡ at_index items.now index factor }
{
    let mut low = 0;
    let mut high = items.len();
    while low < high {
        let middle = low + (high - low) / 2;
        let item = items[middle];
        if item.index < index {
            low = middle + 1;
        } else {
            high = middle;
        }
    }
    low
}

// A total plus the weight times a factor, where the weight has the index.
fn with_weight(total: Frac, item: Item, index: u32, factor: Frac) -> Result<Frac, NoFit>
    ensures { result ≡ with_products total (at_index (item ∷ []) index factor) }
{
    if item.index == index {
        with_product(total, item.weight, factor)
    } else {
        Ok(total)
    }
}

// A total plus the weights of an index, each times a factor.
pub(crate) fn with_index(
    start: Frac,
    items: &[Item],
    index: u32,
    factor: Frac,
) -> Result<Frac, NoFit>
    requires { AreItemsFrom 0 items.now }
    ensures { result ≡ with_products start (at_index items.now index factor) }
{
    let first = first_from(items, index);
    let mut total = start;
    let mut k = first;
    while k < items.len() {
        let item = items[k];
        if item.index > index {
            return Ok(total);
        }
        total = with_weight(total, item, index, factor)?;
        k += 1;
    }
    Ok(total)
}

// A total plus, for each entry of a column, the weights of its row times its coefficient.
#[tactic(auto, using(crate::proofs::Products::products_then))]
pub(crate) fn with_entries(
    start: Frac,
    entries: &[ColumnEntry],
    items: &[Item],
) -> Result<Frac, NoFit>
    requires { AreItemsFrom 0 items.now }
    ensures { result ≡ with_products start (at_entries entries.now items.now) }
{
    let mut total = start;
    for entry in entries {
        total = with_entry(total, *entry, items)?;
    }
    Ok(total)
}

fn with_entry(total: Frac, entry: ColumnEntry, items: &[Item]) -> Result<Frac, NoFit>
    requires { AreItemsFrom 0 items.now }
    ensures { result ≡ with_products total (at_index items.now entry.row entry.coefficient) }
{
    with_index(total, items, entry.row, entry.coefficient)
}

// The place of the first entry whose column is at least this one, by halving.
#[tactic(auto, using(crate::proofs::Ascending::entry_skipped))]
fn first_entry_from(form: &[Entry], column: u32) -> usize
    requires { IsTrue (ascending 0 form.now) }
    ensures within { result ≤ length form.now }
    ensures rest { entry_at (drop result form.now) column ≡ entry_at form.now column }
{
    let mut low = 0;
    let mut high = form.len();
    while low < high {
        let middle = low + (high - low) / 2;
        let entry = form[middle];
        if entry.column < column {
            low = middle + 1;
        } else {
            high = middle;
        }
    }
    low
}

// The coefficient of a column's entry in a form, where it has one.
pub(crate) fn entry_of(form: &[Entry], column: u32) -> Option<Frac>
    requires { IsTrue (ascending 0 form.now) }
    ensures { result ≡ entry_at form.now column }
{
    let mut k = first_entry_from(form, column);
    while k < form.len() {
        let entry = form[k];
        if entry.column > column {
            return None;
        }
        if entry.column == column {
            return Some(entry.coefficient);
        }
        k += 1;
    }
    None
}
