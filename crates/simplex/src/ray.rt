// The ray along which the problem improves without end.
ghost use Rattle.std.specs.Prelude.{length, pos, cond, ◌≡◌, ◌≤◌, IfOk, OnOk, IfErr};
ghost use Rattle.rational.specs.Rational.{zero_ℚ, whole, ◌*ℚ◌};
ghost use Rattle.milp.specs.Form.{number_at};
ghost use Rattle.fraction.specs.Fits.{part_max};
ghost use Rattle.basis.specs.Dictionary.{IsResting};
ghost use Rattle.basis.specs.Weights.{numbers_from};
ghost use Rattle.dictionary.specs.Faults.{IfNoFit};
ghost use Rattle.simplex.specs.Ratio.{along};
ghost use Rattle.simplex.specs.Rays.{IsRayFault, IsProduct, IsProductFault, AreScaled, numbers_to_be_whole, whole_ray};

use crate::ratio::{change, turned};
use dictionary::{Dictionary, Fault};
use fraction::{Frac, NoFit, common_denominator};
use instance::{Column, Point};
use std::alloc::{AllocError, Global};

/// How the columns move where the resting variable q rises, or falls, times the least common denominator of the numbers
/// on the integer columns.
pub(crate) fn ray(
    alloc: Global,
    columns: &[Column],
    dictionary: &Dictionary,
    q: usize,
    rises: bool,
) -> Result<Point, Fault>
    requires known { length columns.now ≤ length dictionary.now.places }
    requires resting { IsResting dictionary.now.places q }
    ensures ok { IfOk result (λ ray. ray ≡ whole_ray columns.now (along dictionary.now q rises)) }
    ensures err { IfErr result (IfNoFit (IsRayFault columns.now (along dictionary.now q rises))) }
{
    let mut numbers = direction(alloc, dictionary, q, rises, columns.len())?;
    let integers = to_be_whole(alloc, columns, &numbers)?;
    let common = common_denominator(&integers)?;
    scale(&mut numbers, whole(common))?;
    Ok(Point::from_vec(numbers))
}

// How the first variables move.
fn direction(
    alloc: Global,
    dictionary: &Dictionary,
    q: usize,
    rises: bool,
    count: usize,
) -> Result<Vec<Frac>, AllocError>
    requires known { count ≤ length dictionary.now.places }
    requires resting { IsResting dictionary.now.places q }
    ensures { IfOk result (λ numbers. numbers.items ≡ numbers_from 0 count (along dictionary.now q rises)) }
{
    let mut numbers = Vec::new(alloc);
    for v in 0..count {
        numbers.push(turned(rises, change(dictionary, q, v)))?;
    }
    Ok(numbers)
}

// The numbers on the integer columns, and 0 for the others.
fn to_be_whole(alloc: Global, columns: &[Column], numbers: &[Frac]) -> Result<Vec<Frac>, AllocError>
    requires { length numbers.now ≡ length columns.now }
    ensures { IfOk result (λ integers. integers.items ≡ numbers_to_be_whole columns.now (number_at numbers.now)) }
{
    let mut integers = Vec::new(alloc);
    for j in 0..columns.len() {
        integers.push(where_integer(&columns[j], numbers[j]))?;
    }
    Ok(integers)
}

fn where_integer(column: &Column, number: Frac) -> Frac
    ensures { result ≡ cond column.now.integer number zero_ℚ }
{
    if column.integer() {
        number
    } else {
        Frac::zero()
    }
}

// Each number times `by`.
fn scale(numbers: &mut [Frac], by: Frac) -> Result<(), NoFit>
    ensures ok { OnOk result (AreScaled numbers.old by numbers.new) }
    ensures err { IfErr result (IsProductFault numbers.old by) }
{
    for i in 0..numbers.len() {
        numbers[i] = product(numbers[i], by)?;
    }
    Ok(())
}

fn product(a: Frac, b: Frac) -> Result<Frac, NoFit>
    ensures ok { IfOk result (λ v. v ≡ a *ℚ b) }
    ensures err { IfErr result (IsProduct a b) }
{
    a.mul(b)
}

// The whole number m.
fn whole(m: u128) -> Frac
    requires { m ≤ part_max }
    ensures { result ≡ whole (pos m) }
{
    Frac::whole(m as i128)
}
