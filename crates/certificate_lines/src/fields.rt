// The fields of a line: words, numbers, forms and weights.
ghost use Rattle.std.specs.Prelude.{◌≡◌, ◌≢◌, ℕ, ◌+◌, ◌*◌, ◌<◌, ◌≤◌, ◌==◌, length, drop, map, pos, IfOk, IsTrue, min, [], Ok, Some, None, if◌then◌else◌};
ghost use Rattle.std.specs.Option.{option_map};
ghost use Rattle.std.specs.List.{before_first, after_first, position_or_len};
ghost use Rattle.fraction.specs.Literal.{digits_of};
ghost use Rattle.fraction.specs.Canonical.{plain_digits_of};
ghost use Rattle.rational.specs.Compare.{is_zero};
ghost use Rattle.instance.specs.WellFormed.{are_entries, are_entries_from};
ghost use Rattle.certificate.specs.Written.{count_max, rank_of, IsItem};
ghost use Rattle.certificate.specs.Values.{version_of};
ghost use Rattle.certificate_lines.specs.Fields.{count_of, index_of, numbered, number_of, some_number_of, is_some, whole_of, fields_of, is_colon, after_word as word_first, next_field, ended, numbers_of, entry_of, form_of, item_of, is_of as begins_with, items_of, row_weights_of, weights_of, splits_of, leaf_weights_of};
ghost use Rattle.certificate_lines.specs.Gives.{Takes, LineGives};

use crate::FaultKind;
use crate::fault::LineError;
use certificate::{Item, Items, LeafWeights, Version, Weights, WholeNumber, parts_fit};
use fraction::{Frac, ReadFault};
use instance::{Entries, Entry, Point};
use model_text::as_text;
use std::alloc::{AllocError, Global};

/// One past the greatest count or index.
const COUNT_END: u64 = 1 << 32;

/// The fields of a line: single blanks part them.
pub fn fields_in(alloc: Global, line: &[u8]) -> Result<Vec<&[u8]>, AllocError>
    ensures { IfOk result (λ fields. map (λ f. f.now) fields.items ≡ fields_of line.now) }
{
    line.split(|c| *c == b' ').collect(alloc)
}

// ---- numbers

// The number of at least one digit, up to the end of counts.
fn clipped_digits(field: &[u8]) -> Option<u64>
    ensures { result ≡ option_map (min COUNT_END) (digits_of field.now) }
{
    if field.is_empty() {
        return None;
    }
    let mut value: u64 = 0;
    for digit in field {
        if !digit.is_ascii_digit() {
            return None;
        }
        value = (10 * value + u64::from(*digit - b'0')).min(COUNT_END);
    }
    Some(value)
}

// The number of digits without a leading zero, up to the end of counts.
fn plain_digits(field: &[u8]) -> Option<u64>
    ensures { result ≡ option_map (min COUNT_END) (plain_digits_of field.now) }
{
    match field {
        [b'0', _, ..] => None,
        all => clipped_digits(all),
    }
}

/// A count: digits without a leading zero, within 32 bits.
pub fn count(field: &[u8]) -> Result<u32, FaultKind>
    ensures { result ≡ count_of field.now }
{
    match plain_digits(field) {
        None => Err(FaultKind::BadLine),
        Some(value) if value < COUNT_END => Ok(value as u32),
        Some(_) => Err(FaultKind::TooWide),
    }
}

/// An index from 0, written from 1.
pub fn index(field: &[u8]) -> Result<u32, FaultKind>
    ensures value { result ≡ index_of field.now }
    ensures small { IfOk result (λ i. i < count_max) }
{
    let written = count(field)?;
    if written == 0 {
        return Err(FaultKind::BadLine);
    }
    Ok(written - 1)
}

fn line_fault(read: Result<Frac, ReadFault>) -> Result<Frac, FaultKind>
    ensures { result ≡ numbered read }
{
    match read {
        Ok(value) => Ok(value),
        Err(ReadFault::NotANumber) => Err(FaultKind::BadLine),
        Err(ReadFault::TooWide) => Err(FaultKind::TooWide),
    }
}

/// A number in its one spelling.
pub fn number(field: &[u8]) -> Result<Frac, FaultKind>
    ensures { result ≡ number_of field.now }
{
    match as_text(field) {
        Some(text) => line_fault(Frac::read_canonical(text)),
        None => Err(FaultKind::BadLine),
    }
}

fn is_nonzero(value: Frac) -> bool
    ensures { result ≡ is_some value }
{
    let (numerator, _) = value.parts();
    numerator != 0
}

// A number that is not 0.
fn some_number(field: &[u8]) -> Result<Frac, FaultKind>
    ensures { result ≡ some_number_of field.now }
{
    let value = number(field)?;
    if is_nonzero(value) {
        Ok(value)
    } else {
        Err(FaultKind::BadLine)
    }
}

/// A number without a denominator.
pub fn whole(field: &[u8]) -> Result<WholeNumber, FaultKind>
    ensures { result ≡ whole_of field.now }
{
    let value = number(field)?;
    let (numerator, denominator) = value.parts();
    if denominator == 1 {
        parts_fit(value);
        Ok(WholeNumber::new(numerator))
    } else {
        Err(FaultKind::BadLine)
    }
}

// ---- words, and the fields after them

/// The fields after this word.
pub fn after_word<'a, 'b>(word: &str, fields: &'b [&'a [u8]]) -> Result<&'b [&'a [u8]], FaultKind>
    ensures { Takes (λ x. map (λ f. f.now) x.now) result (word_first word.now (map (λ f. f.now) fields.now)) }
{
    match fields {
        [first, rest @ ..] if *first == word.as_bytes() => Ok(rest),
        _ => Err(FaultKind::BadLine),
    }
}

/// The first field, and those after it.
pub fn first<'a, 'b>(fields: &'b [&'a [u8]]) -> Result<(&'a [u8], &'b [&'a [u8]]), FaultKind>
    ensures { Takes (λ x. (x.0.now, map (λ f. f.now) x.1.now)) result (next_field (map (λ f. f.now) fields.now)) }
{
    match fields {
        [first, rest @ ..] => Ok((*first, rest)),
        [] => Err(FaultKind::BadLine),
    }
}

/// No field is left.
pub fn end(fields: &[&[u8]]) -> Result<(), FaultKind>
    ensures { Takes (λ x. x) result (ended (map (λ f. f.now) fields.now)) }
{
    match fields {
        [] => Ok(()),
        _ => Err(FaultKind::BadLine),
    }
}

// ---- points

/// So many numbers, one a field.
pub fn numbers(alloc: Global, count: u32, fields: &[&[u8]]) -> Result<Point, LineError>
    ensures { LineGives (λ x. x) result (numbers_of count (map (λ f. f.now) fields.now)) }
{
    let mut numbers = Vec::new(alloc);
    for (i, field) in fields.iter().enumerate() {
        if i >= count as usize {
            return Err(LineError::Fault(FaultKind::BadLine));
        }
        numbers.push(number(field)?)?;
    }
    if fields.len() < count as usize {
        return Err(LineError::Fault(FaultKind::BadLine));
    }
    Ok(Point::from_vec(numbers))
}

// ---- forms

// The parts of a field before and after its first colon.
fn around_colon(field: &[u8]) -> (&[u8], &[u8])
    ensures before { result.0.now ≡ before_first is_colon field.now }
    ensures after { result.1.now ≡ after_first is_colon field.now }
{
    let at = colon_place(field);
    let after: &[u8] = if at < field.len() {
        &field[at + 1..]
    } else {
        &[]
    };
    (&field[..at], after)
}

// Where the first colon stands, or the field's length where there is none.
fn colon_place(field: &[u8]) -> usize
    ensures place { result ≡ position_or_len is_colon field.now }
    ensures inside { result ≤ length field.now }
{
    for (i, c) in field.iter().enumerate() {
        if *c == b':' {
            return i;
        }
    }
    field.len()
}

// An entry at a column from `least` on.
#[tactic(auto, unfolding(crate::specs::Fields::entry_of))]
fn entry(least: u64, field: &[u8]) -> Result<Entry, FaultKind>
    ensures { result ≡ entry_of least field.now }
{
    let (column, coefficient) = around_colon(field);
    let column = index(column)?;
    if u64::from(column) < least {
        return Err(FaultKind::BadLine);
    }
    let coefficient = some_number(coefficient)?;
    Ok(Entry {
        column,
        coefficient,
    })
}

/// The form of all of the fields.
pub fn form(alloc: Global, fields: &[&[u8]]) -> Result<Entries, LineError>
    ensures value { LineGives (λ x. x) result (form_of 0 (map (λ f. f.now) fields.now)) }
    ensures written { IfOk result (λ form. IsTrue (are_entries count_max form)) }
{
    let mut entries = Vec::new(alloc);
    let mut least: u64 = 0;
    for field in fields {
        let entry = entry(least, field)?;
        least = u64::from(entry.column) + 1;
        entries.push(entry)?;
    }
    Ok(Entries::from_vec(entries))
}

// ---- weights

fn rank_of(index: u32, weight: Frac) -> u64
    ensures { result ≡ rank_of (record { index = index; weight = weight }) }
{
    let (numerator, _) = weight.parts();
    let sign = if numerator < 0 { 1 } else { 0 };
    2 * u64::from(index) + sign
}

// An item of a rank from `least` on.
#[tactic(auto, unfolding(crate::specs::Fields::item_of))]
fn item(least: u64, field: &[u8]) -> Result<Item, FaultKind>
    ensures value { result ≡ item_of least field.now }
    ensures written { IfOk result (λ i. IsItem i × (least ≤ rank_of i)) }
{
    let (index_text, weight_text) = around_colon(field);
    let index = index(index_text)?;
    if 2 * u64::from(index) + 1 < least {
        return Err(FaultKind::BadLine);
    }
    let weight = some_number(weight_text)?;
    if rank_of(index, weight) < least {
        return Err(FaultKind::BadLine);
    }
    parts_fit(weight);
    Ok(Item { index, weight })
}

// A field is of a kind.
fn is_of(kind: u8, field: &[u8]) -> bool
    ensures value { result ≡ begins_with kind field.now }
    ensures some { IsTrue result → 0 < length field.now }
{
    match field {
        [first, ..] => *first == kind,
        [] => false,
    }
}

// A field after its kind.
fn after_kind(field: &[u8]) -> &[u8]
    requires { 0 < length field.now }
    ensures { result.now ≡ drop 1 field.now }
{
    &field[1..]
}

// The items of a kind at the front of the fields, and how many fields they are.
fn items(alloc: Global, kind: u8, fields: &[&[u8]]) -> Result<(Items, usize), LineError>
    ensures value { LineGives (λ x. (x.0, drop x.1 (map (λ f. f.now) fields.now))) result (items_of kind 0 (map (λ f. f.now) fields.now)) }
    ensures count { IfOk result (λ x. x.1 ≤ length fields.now) }
{
    let mut items = Items::new(alloc);
    let mut least: u64 = 0;
    for (i, field) in fields.iter().enumerate() {
        if !is_of(kind, field) {
            return Ok((items, i));
        }
        let item = item(least, after_kind(field))?;
        least = rank_of(item.index, item.weight) + 1;
        items.push(item)?;
    }
    Ok((items, fields.len()))
}

// The fields after so many.
fn after<'a, 'b>(fields: &'b [&'a [u8]], count: usize) -> &'b [&'a [u8]]
    requires { count ≤ length fields.now }
    ensures rest { map (λ f. f.now) result.now ≡ drop count (map (λ f. f.now) fields.now) }
    ensures size { count + length result.now ≡ length fields.now }
{
    let (_, rest) = fields.split_at(count);
    rest
}

// The weights of rows, columns and derived rows at the front of the fields, and how many fields they are.
#[tactic(auto, unfolding(crate::specs::Fields::row_weights_of))]
fn row_weights(alloc: Global, fields: &[&[u8]]) -> Result<(Weights, usize), LineError>
    ensures value { LineGives (λ x. (x.0, drop x.1 (map (λ f. f.now) fields.now))) result (row_weights_of (map (λ f. f.now) fields.now)) }
    ensures count { IfOk result (λ x. x.1 ≤ length fields.now) }
{
    let (rows, row_count) = items(alloc, b'r', fields)?;
    let rest = after(fields, row_count);
    let (columns, column_count) = items(alloc, b'c', rest)?;
    let rest = after(rest, column_count);
    let (derived, derived_count) = items(alloc, b'd', rest)?;
    let weights = Weights::new(rows, columns, derived);
    Ok((weights, row_count + column_count + derived_count))
}

/// The weights of all of the fields, none of them of a split.
#[tactic(auto, unfolding(crate::specs::Fields::weights_of))]
pub fn weights(alloc: Global, fields: &[&[u8]]) -> Result<Weights, LineError>
    ensures { LineGives (λ x. x) result (weights_of (map (λ f. f.now) fields.now)) }
{
    let (weights, count) = row_weights(alloc, fields)?;
    end(after(fields, count))?;
    Ok(weights)
}

// The weights of splits at the front of the fields, which version 2 alone has, and how many fields they are.
#[tactic(auto, unfolding(crate::specs::Fields::splits_of))]
fn splits(alloc: Global, version: Version, fields: &[&[u8]]) -> Result<(Items, usize), LineError>
    ensures value { LineGives (λ x. (x.0, drop x.1 (map (λ f. f.now) fields.now))) result (splits_of (version_of version) (map (λ f. f.now) fields.now)) }
    ensures count { IfOk result (λ x. x.1 ≤ length fields.now) }
{
    match version {
        Version::One => Ok((Items::new(alloc), 0)),
        Version::Two => items(alloc, b's', fields),
    }
}

/// The weights of a leaf, of all of the fields.
#[tactic(auto, unfolding(crate::specs::Fields::leaf_weights_of))]
pub fn leaf_weights(
    alloc: Global,
    version: Version,
    fields: &[&[u8]],
) -> Result<LeafWeights, LineError>
    ensures { LineGives (λ x. x) result (leaf_weights_of (version_of version) (map (λ f. f.now) fields.now)) }
{
    let (weights, count) = row_weights(alloc, fields)?;
    let rest = after(fields, count);
    let (splits, count) = splits(alloc, version, rest)?;
    end(after(rest, count))?;
    Ok(LeafWeights::new(weights, splits))
}
