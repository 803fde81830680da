// Lists of numbers as weights and as forms.
ghost use Rattle.std.specs.Prelude.{◌≡◌, ◌<◌, ◌≤◌, ◌+◌, ◌*◌, ◌++◌, [], length, IsTrue, IfOk, OnOk};
ghost use Rattle.milp.specs.Form.{number_at};
ghost use Rattle.instance.specs.WellFormed.{are_entries};
ghost use Rattle.certificate.specs.Written.{count_max, next_rank};
ghost use Rattle.basis.specs.Weights.{items_at, items_of, nonzero};
ghost use Rattle.gomory.specs.Cuts.{entries_at, form_from};

use certificate::{Item, Items, Weights};
use fraction::Frac;
use instance::{Entries, Entry, Instance};
use std::alloc::{AllocError, Global};

/// The number at a place; 0 past the end.
pub(crate) fn number(list: &[Frac], place: usize) -> Frac
    ensures { result ≡ number_at list.now place }
{
    match list.get(place) {
        Some(number) => *number,
        None => Frac::zero(),
    }
}

// One more weight, where it is not 0.
fn add_item(items: &mut Items, index: u32, weight: Frac) -> Result<(), AllocError>
    requires index { index < count_max }
    requires order { next_rank 0 items.old ≤ 2 * index }
    ensures added { OnOk result (items.new ≡ items.old ++ items_at index (nonzero weight)) }
    ensures order { OnOk result (next_rank 0 items.new ≤ 2 * index + 2) }
{
    if weight.is_zero() {
        return Ok(());
    }
    items.push(Item { index, weight })
}

// The weights of `count` variables from `first` on.
fn items(alloc: Global, list: &[Frac], first: usize, count: u32) -> Result<Items, AllocError>
    requires { first + count ≤ length list.now }
    ensures { IfOk result (λ items. items ≡ items_of (λ v. nonzero (number_at list.now v)) first 0 count) }
{
    let mut items = Items::new(alloc);
    for index in 0..count {
        let weight = number(list, first + index as usize);
        add_item(&mut items, index, weight)?;
    }
    Ok(items)
}

/// Weights by variable as weights of rows and columns.
pub(crate) fn weights(
    alloc: Global,
    instance: &Instance,
    list: &[Frac],
) -> Result<Weights, AllocError>
    requires { length list.now ≡ length instance.now.columns + length instance.now.rows }
    ensures rows { IfOk result (λ w. w.rows ≡ items_of (λ v. nonzero (number_at list.now v)) (length instance.now.columns) 0 (length instance.now.rows)) }
    ensures columns { IfOk result (λ w. w.columns ≡ items_of (λ v. nonzero (number_at list.now v)) 0 0 (length instance.now.columns)) }
    ensures derived { IfOk result (λ w. w.derived ≡ []) }
    ensures splits { IfOk result (λ w. w.splits ≡ []) }
{
    instance.keeps_its_limits();
    let columns = instance.columns().len();
    let rows = instance.rows().len();
    let of_rows = items(alloc, list, columns, rows as u32)?;
    let of_columns = items(alloc, list, 0, columns as u32)?;
    Ok(Weights::new(of_rows, of_columns, Items::new(alloc)))
}

// One more entry, where its coefficient is not 0.
fn add_entry(entries: &mut Vec<Entry>, column: u32, coefficient: Frac) -> Result<(), AllocError>
    ensures { OnOk result (entries.new.items ≡ entries.old.items ++ entries_at column (nonzero coefficient)) }
{
    if coefficient.is_zero() {
        return Ok(());
    }
    entries.push(Entry {
        column,
        coefficient,
    })?;
    Ok(())
}

/// The form with the first `count` of these coefficients.
pub(crate) fn form(alloc: Global, list: &[Frac], count: u32) -> Result<Entries, AllocError>
    requires { count ≤ length list.now }
    ensures form { IfOk result (λ f. f ≡ form_from 0 count (number_at list.now)) }
    ensures written { IfOk result (λ f. IsTrue (are_entries count_max f)) }
{
    let mut entries = Vec::new(alloc);
    for column in 0..count {
        let coefficient = number(list, column as usize);
        add_entry(&mut entries, column, coefficient)?;
    }
    Ok(Entries::from_vec(entries))
}
