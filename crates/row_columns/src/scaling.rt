// The whole form of a row.
ghost use Rattle.std.specs.Prelude.{◌≡◌, ◌≢◌, ◌<◌, ◌≤◌, [], true, false, pos, unsigned_abs, length, slice_get, IsTrue, IfOk, IfErr, IfSome, IfNone, ◌&&◌};
ghost use Rattle.integer.specs.Gcd.{gcd};
ghost use Rattle.rational.specs.Rational.{whole, ◌*ℚ◌};
ghost use Rattle.rational.specs.Compare.{is_whole};
ghost use Rattle.verdicts.specs.WeightedSums.{scaled};
ghost use Rattle.verdicts.specs.Proves.{is_integer, is_whole_form};
ghost use Rattle.fraction.specs.Fits.{part_max};
ghost use Rattle.fraction.specs.Answers.{mul_answer};
ghost use Rattle.instance.specs.WellFormed.{are_entries};
ghost use Rattle.certificate.specs.Written.{count_max};
ghost use Rattle.row_columns.specs.RowForms.{coefficients, common_numerator, scaled_form, IsRowForm};
ghost use Rattle.row_columns.specs.Scaling.{are_on_integers, scale_between, IsScaleFault, IsUnfitProduct, IsUnfitForm};

use fraction::{Frac, NoFit, common_denominator};
use instance::{Entries, Entry, Instance};
use std::alloc::{AllocError, Global};

// ---- tests of a form

fn is_integer(problem: &Instance, column: u32) -> bool
    ensures { result ≡ is_integer (slice_get problem.now.columns column) }
{
    match problem.columns().get(column as usize) {
        None => false,
        Some(column) => column.integer(),
    }
}

// Its columns are integer.
fn are_on_integers(problem: &Instance, form: &[Entry]) -> bool
    ensures { result ≡ are_on_integers problem.now form.now }
{
    for entry in form {
        if !is_integer(problem, entry.column) {
            return false;
        }
    }
    true
}

fn is_whole_entry(problem: &Instance, entry: Entry) -> bool
    ensures { result ≡ (is_whole entry.coefficient && is_integer (slice_get problem.now.columns entry.column)) }
{
    entry.coefficient.is_whole() && is_integer(problem, entry.column)
}

// Its coefficients are whole and its columns are integer.
fn is_whole_form(problem: &Instance, form: &[Entry]) -> bool
    ensures { result ≡ is_whole_form problem.now form.now }
{
    for entry in form {
        if !is_whole_entry(problem, *entry) {
            return false;
        }
    }
    true
}

// ---- the scale

// The greatest common divisor, by Euclid's algorithm.
fn gcd(a: u128, b: u128) -> u128
    ensures { result ≡ gcd a b }
{
    if b == 0 { a } else { gcd(b, a % b) }
}

// The numerator without its sign.
fn size(number: Frac) -> i128
    ensures { result ≡ pos (unsigned_abs number.numerator) }
{
    number.abs().parts().0
}

fn numerator(number: Frac) -> u128
    ensures size { result ≡ unsigned_abs number.numerator }
    ensures fits { result ≤ part_max }
{
    size(number) as u128
}

// The greatest common divisor of the numerators.
fn common_numerator(numbers: &[Frac]) -> u128
    ensures value { result ≡ common_numerator 0 numbers.now }
    ensures fits { result ≤ part_max }
{
    let mut common = 0;
    for number in numbers {
        common = gcd(common, numerator(*number));
    }
    common
}

// The whole number m.
fn whole(m: u128) -> Frac
    requires { m ≤ part_max }
    ensures { result ≡ whole (pos m) }
{
    Frac::whole(m as i128)
}

// The number whose product with each of these is whole, so that the products have no common factor.
fn scale(numbers: &[Frac]) -> Result<Frac, NoFit>
    requires { 0 < common_numerator 0 numbers.now }
    ensures ok { IfOk result (λ by. by ≡ scale_between numbers.now) }
    ensures err { IfErr result (IsScaleFault numbers.now) }
{
    let denominator = common_denominator(numbers)?;
    let numerator = common_numerator(numbers);
    whole(denominator).div(whole(numerator))
}

// ---- the scaled form

fn coefficients(alloc: Global, form: &[Entry]) -> Result<Vec<Frac>, AllocError>
    ensures { IfOk result (λ made. made.items ≡ coefficients form.now) }
{
    let mut made = Vec::new(alloc);
    for entry in form {
        made.push(entry.coefficient)?;
    }
    Ok(made)
}

// The form times `by`, or `None` where a product does not fit.
fn scaled(alloc: Global, by: Frac, form: &[Entry]) -> Result<Option<Vec<Entry>>, AllocError>
    ensures made { IfOk result (λ made. IfSome made (λ es. es.items ≡ scaled by form.now)) }
    ensures unfit { IfOk result (λ made. IfNone made (IsUnfitProduct by form.now)) }
{
    let mut made = Vec::new(alloc);
    for entry in form {
        match by.mul(entry.coefficient) {
            Ok(coefficient) => made.push(Entry {
                column: entry.column,
                coefficient,
            })?,
            Err(_) => return Ok(None),
        }
    }
    Ok(Some(made))
}

// The form times its scale, or `None` where an operation of the scaling does not fit.
fn scaled_form(alloc: Global, form: &[Entry]) -> Result<Option<Vec<Entry>>, AllocError>
    requires some { form.now ≢ [] }
    requires entries { IsTrue (are_entries count_max form.now) }
    ensures made { IfOk result (λ made. IfSome made (λ es. es.items ≡ scaled_form form.now)) }
    ensures unfit { IfOk result (λ made. IfNone made (IsUnfitForm form.now)) }
    ensures entries { IfOk result (λ made. IfSome made (λ es. IsTrue (are_entries count_max es.items))) }
{
    let numbers = coefficients(alloc, form)?;
    match scale(&numbers) {
        Ok(by) => scaled(alloc, by, form),
        Err(_) => Ok(None),
    }
}

// The form where it is whole.
fn where_whole(problem: &Instance, form: Vec<Entry>) -> Option<Entries>
    ensures whole { IfSome result (λ _. is_whole_form problem.now form.items ≡ true) }
    ensures same { IfSome result (λ made. made ≡ form.items) }
    ensures none { IfNone result (is_whole_form problem.now form.items ≡ false) }
{
    if is_whole_form(problem, &form) {
        Some(Entries::from_vec(form))
    } else {
        None
    }
}

/// The whole form of a row with these entries, if it has one.
pub(crate) fn whole_form(
    alloc: Global,
    problem: &Instance,
    form: &[Entry],
) -> Result<Option<Entries>, AllocError>
    requires { IsTrue (are_entries count_max form.now) }
    ensures form { IfOk result (IsRowForm problem.now form.now) }
    ensures entries { IfOk result (λ made. IfSome made (λ es. IsTrue (are_entries count_max es))) }
{
    if form.is_empty() {
        return Ok(None);
    }
    if !are_on_integers(problem, form) {
        return Ok(None);
    }
    match scaled_form(alloc, form)? {
        Some(made) => Ok(where_whole(problem, made)),
        None => Ok(None),
    }
}
