// What weights add up to at each column, form by form.
ghost use Rattle.std.specs.Prelude.{◌≡◌, Ok, length, replicate, IfSome, OnOk, negsuc};
ghost use Rattle.rational.specs.Rational.{zero_ℚ, whole};
ghost use Rattle.verdicts.specs.WeightedSums.{scaled};
ghost use Rattle.verdicts.specs.Proves.{side_form};
ghost use Rattle.certificate.specs.Ways.{side_of};
ghost use Rattle.cert_check.specs.Sums.{form_at, weight_products};
ghost use Rattle.cert_check.specs.Totals.{with_factor, with_form, with_forms, with_weights, AreTotals};

use crate::kind::Kind;
use crate::named::Named;
use crate::setting::Setting;
use crate::sums::with_product;
use certificate::{Item, Side, Split};
use fraction::{Frac, NoFit};
use instance::{Entry, signed};
use milp::Direction;
use std::alloc::Global;

// The total of each column, where all sums on the way fit and there is memory for them: the forms that weights name are gone
// over once.
pub(crate) fn totals_of(setting: &Setting, weights: &Named) -> Option<Vec<Frac>>
    ensures { IfSome result (λ totals. AreTotals (length setting.now.problem.columns) (weight_products setting.now weights.now) totals.items) }
{
    let count = setting.problem().columns().len();
    let mut totals = zeros(setting.alloc(), count)?;
    match add_weights(&mut totals, setting, weights) {
        Ok(()) => Some(totals),
        Err(_) => None,
    }
}

// So many totals, each 0.
fn zeros(alloc: Global, count: usize) -> Option<Vec<Frac>>
    ensures { IfSome result (λ totals. totals.items ≡ replicate count zero_ℚ) }
{
    let mut totals = Vec::new(alloc);
    match totals.resize(count, Frac::zero()) {
        Ok(()) => Some(totals),
        Err(_) => None,
    }
}

// All weights more, each times its form.
fn add_weights(totals: &mut [Frac], setting: &Setting, weights: &Named) -> Result<(), NoFit>
    ensures { OnOk result (with_weights setting.now weights.now totals.old ≡ Ok totals.new) }
{
    add_forms(totals, setting, Kind::OfRow, weights.rows())?;
    add_forms(totals, setting, Kind::OfColumn, weights.columns())?;
    add_forms(totals, setting, Kind::OfDerived, weights.derived())?;
    add_forms(totals, setting, Kind::OfSplit, weights.splits())
}

// The weights of one kind more, each times its form.
fn add_forms(
    totals: &mut [Frac],
    setting: &Setting,
    kind: Kind,
    items: &[Item],
) -> Result<(), NoFit>
    ensures { OnOk result (with_forms (form_at setting.now kind) items.now totals.old ≡ Ok totals.new) }
{
    for item in items {
        add_item(totals, setting, kind, *item)?;
    }
    Ok(())
}

// A weight more, times its form.
fn add_item(totals: &mut [Frac], setting: &Setting, kind: Kind, item: Item) -> Result<(), NoFit>
    ensures { OnOk result (with_form item.weight (form_at setting.now kind item.index) totals.old ≡ Ok totals.new) }
{
    match kind {
        Kind::OfRow => add_row(totals, setting, item),
        Kind::OfColumn => add_factor(totals, item.weight, item.index, Frac::one()),
        Kind::OfDerived => add_derived(totals, setting, item),
        Kind::OfSplit => add_split(totals, setting, item),
    }
}

// The weight of a row more, times the row.
fn add_row(totals: &mut [Frac], setting: &Setting, item: Item) -> Result<(), NoFit>
    ensures { OnOk result (with_form item.weight (form_at setting.now Kind.OfRow item.index) totals.old ≡ Ok totals.new) }
{
    match setting.problem().rows().get(item.index as usize) {
        None => Ok(()),
        Some(row) => add_form(totals, item.weight, row.entries().as_slice()),
    }
}

// The weight of a derived row more, times the row.
fn add_derived(totals: &mut [Frac], setting: &Setting, item: Item) -> Result<(), NoFit>
    ensures { OnOk result (with_form item.weight (form_at setting.now Kind.OfDerived item.index) totals.old ≡ Ok totals.new) }
{
    match setting.derived().get(item.index as usize) {
        None => Ok(()),
        Some(row) => add_form(totals, item.weight, row.form().as_slice()),
    }
}

// The weight of a split more, times the form of the side taken.
fn add_split(totals: &mut [Frac], setting: &Setting, item: Item) -> Result<(), NoFit>
    ensures { OnOk result (with_form item.weight (form_at setting.now Kind.OfSplit item.index) totals.old ≡ Ok totals.new) }
{
    match setting.turn(item.index) {
        None => Ok(()),
        Some(turn) => add_side(totals, item.weight, turn.split, turn.side),
    }
}

// A weight more, times the form of a split's side.
fn add_side(totals: &mut [Frac], weight: Frac, split: &Split, side: Side) -> Result<(), NoFit>
    ensures { OnOk result (with_form weight (side_form (side_of split.now side)) totals.old ≡ Ok totals.new) }
{
    let form = split.form().as_slice();
    match side {
        Side::Low => add_negative_form(totals, weight, form),
        Side::High => add_form(totals, weight, form),
    }
}

// A weight more, times a form.
fn add_form(totals: &mut [Frac], weight: Frac, form: &[Entry]) -> Result<(), NoFit>
    ensures { OnOk result (with_form weight form.now totals.old ≡ Ok totals.new) }
{
    for entry in form {
        add_factor(totals, weight, entry.column, entry.coefficient)?;
    }
    Ok(())
}

// A weight more, times the negative of a form.
fn add_negative_form(totals: &mut [Frac], weight: Frac, form: &[Entry]) -> Result<(), NoFit>
    ensures { OnOk result (with_form weight (scaled (whole (negsuc 0)) form.now) totals.old ≡ Ok totals.new) }
{
    for entry in form {
        let factor = signed(Direction::Max, entry.coefficient);
        add_factor(totals, weight, entry.column, factor)?;
    }
    Ok(())
}

// A weight more, times a factor, at a column; nothing past the last one.
fn add_factor(totals: &mut [Frac], weight: Frac, column: u32, factor: Frac) -> Result<(), NoFit>
    ensures { OnOk result (with_factor weight column factor totals.old ≡ Ok totals.new) }
{
    let place = column as usize;
    if place < totals.len() {
        totals[place] = with_product(totals[place], weight, factor)?;
    }
    Ok(())
}
