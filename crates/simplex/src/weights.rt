// The weights that a basis gives.
ghost use Rattle.std.specs.Prelude.{ℕ, length, cond, ◌≡◌, ◌≤◌, ◌<◌, ◌+◌, ◌*◌, ◌++◌, OnOk, IfOk};
ghost use Rattle.rational.specs.Rational.{zero_ℚ};
ghost use Rattle.certificate.specs.Written.{count_max, next_rank};
ghost use Rattle.basis.specs.Dictionary.{IsBasic, gain_of};
ghost use Rattle.basis.specs.Weights.{items_at, items_of, weights_of, nonzero, row_weight};
ghost use Rattle.dictionary.specs.Table.{dictionary_of};
ghost use Rattle.simplex.specs.Sources.{IsFromBasic, weight_from, weights_from};

use certificate::{DerivedRows, Item, Items, Weights};
use dictionary::Dictionary;
use fraction::Frac;
use instance::Instance;
use std::alloc::{AllocError, Global};

/// The numbers of a dictionary that are weights: those of the objective, of the row of a basic variable, or of that row
/// times -1.
#[derive(Clone, Copy)]
pub(crate) enum Source {
    Objective,
    Row(usize),
    MinusRow(usize),
}

/// The weights of rows, columns and derived rows that the numbers give.
pub(crate) fn weights(
    alloc: Global,
    instance: &Instance,
    derived: &DerivedRows,
    dictionary: &Dictionary,
    source: Source,
) -> Result<Weights, AllocError>
    requires places { length dictionary.now.places ≡ length instance.now.columns + (length instance.now.rows + length derived.now) }
    requires basic { IsFromBasic dictionary.now.places source }
    ensures { IfOk result (λ w. w ≡ weights_of instance.now derived.now (weights_from dictionary.now source)) }
{
    instance.keeps_its_limits();
    let columns = instance.columns().len();
    let rows = instance.rows().len();
    let derived = derived.as_slice().len();
    let of_rows = items(alloc, dictionary, source, columns as u32, rows as u32)?;
    let of_columns = items(alloc, dictionary, source, 0, columns as u32)?;
    let of_derived = items(
        alloc,
        dictionary,
        source,
        (columns + rows) as u32,
        derived as u32,
    )?;
    Ok(Weights::new(of_rows, of_columns, of_derived))
}

// The weights of `count` variables from `first` on.
fn items(
    alloc: Global,
    dictionary: &Dictionary,
    source: Source,
    first: u32,
    count: u32,
) -> Result<Items, AllocError>
    requires known { first + count ≤ length dictionary.now.places }
    requires basic { IsFromBasic dictionary.now.places source }
    ensures { IfOk result (λ items. items ≡ items_of (weights_from dictionary.now source) first 0 count) }
{
    let mut items = Items::new(alloc);
    for index in 0..count {
        let weight = weight(dictionary, source, first as usize + index as usize);
        add(&mut items, index, weight)?;
    }
    Ok(items)
}

// One more weight, where it is not 0.
fn add(items: &mut Items, index: u32, weight: Frac) -> Result<(), AllocError>
    requires index { index < count_max }
    requires order { next_rank 0 items.old ≤ 2 * index }
    ensures added { OnOk result (items.new ≡ items.old ++ items_at index (nonzero weight)) }
    ensures order { OnOk result (next_rank 0 items.new ≤ 2 * index + 2) }
{
    if weight.is_zero() {
        return Ok(());
    }
    items.push(Item { index, weight })
}

fn weight(dictionary: &Dictionary, source: Source, v: usize) -> Frac
    requires known { v < length dictionary.now.places }
    requires basic { IsFromBasic dictionary.now.places source }
    ensures { result ≡ weight_from dictionary.now source v }
{
    match source {
        Source::Objective => gain(dictionary, v),
        Source::Row(r) => row_weight(dictionary, r, v),
        Source::MinusRow(r) => row_weight(dictionary, r, v).neg(),
    }
}

// A basic variable is not in the objective.
fn gain(dictionary: &Dictionary, v: usize) -> Frac
    requires { v < length dictionary.now.places }
    ensures { result ≡ gain_of (dictionary_of dictionary.now) v }
{
    if dictionary.is_basic(v) {
        return Frac::zero();
    }
    dictionary.gain(v)
}

// A basic variable is in no row but its own.
fn row_weight(dictionary: &Dictionary, r: usize, v: usize) -> Frac
    requires known { v < length dictionary.now.places }
    requires basic { IsBasic dictionary.now.places r }
    ensures { result ≡ row_weight (dictionary_of dictionary.now) r v }
{
    if v == r {
        return Frac::one();
    }
    if dictionary.is_basic(v) {
        return Frac::zero();
    }
    dictionary.rate(v, r).neg()
}
