// What weights add up to.
ghost use Rattle.std.specs.Prelude.{◌<◌, length, ◌≡◌, [], ◌∷◌, IsTrue, slice_get, negsuc};
ghost use Rattle.rational.specs.Rational.{zero_ℚ, one_ℚ, whole};
ghost use Rattle.verdicts.specs.WeightedSums.{scaled};
ghost use Rattle.verdicts.specs.Proves.{bound_used, side_form};
ghost use Rattle.certificate.specs.Written.{AreItemsFrom};
ghost use Rattle.certificate.specs.Ways.{side_of};
ghost use Rattle.cert_check.specs.Sums.{with_product, bound_of, row_bound, derived_bound, taken_bound, are_there, all_there, with_bound, with_bounds, bound_sum, products, form_at, item_products, weight_products, with_products};
ghost use Rattle.cert_check.specs.Parts.{ascending};

use crate::bounds::next;
use crate::kind::Kind;
use crate::lookup::{entry_of, with_index};
use crate::named::Named;
use crate::setting::Setting;
use certificate::{Derived, Item, Side, Split};
use fraction::{Frac, NoFit};
use instance::{Entry, signed};
use milp::Direction;

// A total plus a product.
pub(crate) fn with_product(total: Frac, a: Frac, b: Frac) -> Result<Frac, NoFit>
    ensures { result ≡ with_product total a b }
{
    let product = a.mul(b)?;
    total.add(product)
}

fn used(w: Frac, lower: Option<Frac>, upper: Option<Frac>) -> Option<Frac>
    ensures { result ≡ bound_used w lower upper }
{
    if w.is_positive() { lower } else { upper }
}

fn row_bound(setting: &Setting, item: Item) -> Option<Frac>
    ensures { result ≡ row_bound item.weight (slice_get setting.now.problem.rows item.index) }
{
    match setting.problem().rows().get(item.index as usize) {
        None => None,
        Some(row) => used(item.weight, row.lower(), row.upper()),
    }
}

fn column_bound(setting: &Setting, item: Item) -> Result<Option<Frac>, NoFit>
    ensures { result ≡ bound_of setting.now Kind.OfColumn item }
{
    if item.weight.is_positive() {
        setting.lower(item.index)
    } else {
        Ok(setting.upper(item.index))
    }
}

fn derived_bound(setting: &Setting, item: Item) -> Option<Frac>
    ensures { result ≡ derived_bound item.weight (slice_get setting.now.derived item.index) }
{
    match setting.derived().get(item.index as usize) {
        None => None,
        Some(row) => if item.weight.is_positive() {
            Some(row.bound())
        } else {
            None
        },
    }
}

// The bound of the side taken of a split.
#[tactic(auto, using(crate::proofs::Signs::whole_negative))]
fn taken_bound(split: &Split, side: Side) -> Result<Option<Frac>, NoFit>
    ensures { result ≡ taken_bound (side_of split.now side) }
{
    match side {
        Side::Low => Ok(Some(split.at().to_frac().neg())),
        Side::High => {
            let bound = next(split.at())?;
            Ok(Some(bound))
        }
    }
}

fn split_bound(setting: &Setting, item: Item) -> Result<Option<Frac>, NoFit>
    ensures { result ≡ bound_of setting.now Kind.OfSplit item }
{
    match setting.turn(item.index) {
        None => Ok(None),
        Some(turn) => if item.weight.is_positive() {
            taken_bound(turn.split, turn.side)
        } else {
            Ok(None)
        },
    }
}

// The bound that a weight uses.
fn bound_of(setting: &Setting, kind: Kind, item: Item) -> Result<Option<Frac>, NoFit>
    ensures { result ≡ bound_of setting.now kind item }
{
    match kind {
        Kind::OfRow => Ok(row_bound(setting, item)),
        Kind::OfColumn => column_bound(setting, item),
        Kind::OfDerived => Ok(derived_bound(setting, item)),
        Kind::OfSplit => split_bound(setting, item),
    }
}

// The bounds that the weights of one kind use are there.
fn are_there(setting: &Setting, kind: Kind, items: &[Item]) -> Result<bool, NoFit>
    ensures { result ≡ are_there (bound_of setting.now kind) items.now }
{
    for item in items {
        let bound = bound_of(setting, kind, *item)?;
        if bound.is_none() {
            return Ok(false);
        }
    }
    Ok(true)
}

// All bounds that the weights use are there.
pub(crate) fn all_there(setting: &Setting, weights: &Named) -> Result<bool, NoFit>
    ensures { result ≡ all_there setting.now weights.now }
{
    if !are_there(setting, Kind::OfRow, weights.rows())? {
        return Ok(false);
    }
    if !are_there(setting, Kind::OfColumn, weights.columns())? {
        return Ok(false);
    }
    if !are_there(setting, Kind::OfDerived, weights.derived())? {
        return Ok(false);
    }
    are_there(setting, Kind::OfSplit, weights.splits())
}

// A total plus a weight times its bound.
fn with_bound(setting: &Setting, kind: Kind, item: Item, total: Frac) -> Result<Frac, NoFit>
    ensures { result ≡ with_bounds (bound_of setting.now kind) total (item ∷ []) }
{
    match bound_of(setting, kind, item)? {
        None => Ok(total),
        Some(bound) => with_product(total, item.weight, bound),
    }
}

// A total plus each weight times its bound.
fn with_bounds(setting: &Setting, kind: Kind, items: &[Item], start: Frac) -> Result<Frac, NoFit>
    ensures { result ≡ with_bounds (bound_of setting.now kind) start items.now }
{
    let mut total = start;
    for item in items {
        total = with_bound(setting, kind, *item, total)?;
    }
    Ok(total)
}

// The sum of weight times bound, from a total on.
pub(crate) fn bound_sum(setting: &Setting, start: Frac, weights: &Named) -> Result<Frac, NoFit>
    ensures { result ≡ bound_sum setting.now start weights.now }
{
    let rows = with_bounds(setting, Kind::OfRow, weights.rows(), start)?;
    let columns = with_bounds(setting, Kind::OfColumn, weights.columns(), rows)?;
    let derived = with_bounds(setting, Kind::OfDerived, weights.derived(), columns)?;
    with_bounds(setting, Kind::OfSplit, weights.splits(), derived)
}

// A total plus the weights of rows, each times the row's coefficients of a column.
fn with_rows(setting: &Setting, items: &[Item], column: u32, start: Frac) -> Result<Frac, NoFit>
    requires column { column < length setting.now.problem.columns }
    requires items { AreItemsFrom 0 items.now }
    ensures { result ≡ with_products start (item_products (form_at setting.now Kind.OfRow) items.now column) }
{
    setting.by_column().with_rows(items, column, start)
}

// A total plus the weights of a column.
fn with_column(setting: &Setting, items: &[Item], column: u32, start: Frac) -> Result<Frac, NoFit>
    requires { AreItemsFrom 0 items.now }
    ensures { result ≡ with_products start (item_products (form_at setting.now Kind.OfColumn) items.now column) }
{
    with_index(start, items, column, Frac::one())
}

// A total plus a weight times the coefficient of a column in a form.
#[tactic(auto, using(crate::proofs::Ascending::products_none))]
pub(crate) fn with_coefficient(
    total: Frac,
    weight: Frac,
    form: &[Entry],
    column: u32,
) -> Result<Frac, NoFit>
    requires { IsTrue (ascending 0 form.now) }
    ensures { result ≡ with_products total (products weight form.now column) }
{
    match entry_of(form, column) {
        None => Ok(total),
        Some(coefficient) => with_product(total, weight, coefficient),
    }
}

// A total plus a weight times the negative of the coefficient of a column in a form.
#[tactic(auto, using(crate::proofs::Negatives::negative_none))]
pub(crate) fn with_negative_coefficient(
    total: Frac,
    weight: Frac,
    form: &[Entry],
    column: u32,
) -> Result<Frac, NoFit>
    requires { IsTrue (ascending 0 form.now) }
    ensures { result ≡ with_products total (products weight (scaled (whole (negsuc 0)) form.now) column) }
{
    match entry_of(form, column) {
        None => Ok(total),
        Some(coefficient) => { with_product(total, weight, signed(Direction::Max, coefficient)) }
    }
}

// A total plus a weight times the coefficient of a column in a derived row.
fn with_derived_row(total: Frac, weight: Frac, row: &Derived, column: u32) -> Result<Frac, NoFit>
    ensures { result ≡ with_products total (products weight row.now.form column) }
{
    let _bound = row.bound();
    with_coefficient(total, weight, row.form().as_slice(), column)
}

// A total plus a weight times the coefficient of a column in the derived row that it names.
fn with_derived_item(setting: &Setting, item: Item, column: u32, total: Frac) -> Result<Frac, NoFit>
    ensures { result ≡ with_products total (products item.weight (form_at setting.now Kind.OfDerived item.index) column) }
{
    match setting.derived().get(item.index as usize) {
        None => Ok(total),
        Some(row) => with_derived_row(total, item.weight, row, column),
    }
}

// A total plus the weights of derived rows, each times the row's coefficient of a column.
fn with_derived(setting: &Setting, items: &[Item], column: u32, start: Frac) -> Result<Frac, NoFit>
    ensures { result ≡ with_products start (item_products (form_at setting.now Kind.OfDerived) items.now column) }
{
    let mut total = start;
    for item in items {
        total = with_derived_item(setting, *item, column, total)?;
    }
    Ok(total)
}

// A total plus a weight times the coefficient of a column in the side taken of a split.
fn with_side(
    total: Frac,
    weight: Frac,
    split: &Split,
    side: Side,
    column: u32,
) -> Result<Frac, NoFit>
    ensures { result ≡ with_products total (products weight (side_form (side_of split.now side)) column) }
{
    let form = split.form().as_slice();
    match side {
        Side::Low => with_negative_coefficient(total, weight, form, column),
        Side::High => with_coefficient(total, weight, form, column),
    }
}

// A total plus a weight times the coefficient of a column in the side taken of the split that it names.
fn with_split_item(setting: &Setting, item: Item, column: u32, total: Frac) -> Result<Frac, NoFit>
    ensures { result ≡ with_products total (products item.weight (form_at setting.now Kind.OfSplit item.index) column) }
{
    match setting.turn(item.index) {
        None => Ok(total),
        Some(turn) => with_side(total, item.weight, turn.split, turn.side, column),
    }
}

// A total plus the weights of splits, each times the coefficient of a column in the side taken.
fn with_splits(setting: &Setting, items: &[Item], column: u32, start: Frac) -> Result<Frac, NoFit>
    ensures { result ≡ with_products start (item_products (form_at setting.now Kind.OfSplit) items.now column) }
{
    let mut total = start;
    for item in items {
        total = with_split_item(setting, *item, column, total)?;
    }
    Ok(total)
}

// The sum of weight times coefficient of a column, from a total on.
#[tactic(auto, using(crate::proofs::Products::products_then))]
pub(crate) fn column_sum(
    setting: &Setting,
    weights: &Named,
    column: u32,
    start: Frac,
) -> Result<Frac, NoFit>
    requires { column < length setting.now.problem.columns }
    ensures { result ≡ with_products start (weight_products setting.now weights.now column) }
{
    let rows = with_rows(setting, weights.rows(), column, start)?;
    let columns = with_column(setting, weights.columns(), column, rows)?;
    let derived = with_derived(setting, weights.derived(), column, columns)?;
    with_splits(setting, weights.splits(), column, derived)
}
