// Systems that are solved by a prime, digit after digit, so that only the numbers of the answer have to fit.
use crate::digits::{Long, fraction_of};
use crate::residues::{PRIME, inverse, negative, plus, residue, times};
use fraction::Frac;
use sparse_factors::{
    Entry, Matrix, Stop, add, add_to, at, copied, empty_lists, filled, number_at, product, put,
    quotient, whole,
};
use std::alloc::Global;

// So many digits are enough for any fraction that fits.
const DIGITS: u32 = 5;

// Larger systems are not tried.
const MOST_ROWS: usize = 120;

// A whole coefficient and its unknown.
#[derive(Clone, Copy)]
struct Coefficient {
    unknown: usize,
    number: i128,
}

// Equations with whole coefficients: their left sides, and what they amount to.
#[derive(Drop)]
struct Equations {
    left: Vec<Vec<Coefficient>>,
    right: Vec<i128>,
}

/// Solves B x = a, where a is given by rows and x comes by slots.
pub fn lifted_columns(
    alloc: Global,
    matrix: &Matrix,
    slots: &[usize],
    a: &[Frac],
) -> Result<Vec<Frac>, Stop> {
    let mut left = empty_lists(alloc, slots.len())?;
    for slot in 0..slots.len() {
        add_turned(&mut left, matrix, slots[slot], slot)?;
    }
    solved(alloc, &left, a)
}

/// Solves y B = c, where c is given by slots and y comes by rows.
pub fn lifted_rows(
    alloc: Global,
    matrix: &Matrix,
    slots: &[usize],
    c: &[Frac],
) -> Result<Vec<Frac>, Stop> {
    let mut left = empty_lists(alloc, slots.len())?;
    for slot in 0..slots.len() {
        add_straight(&mut left, matrix, slots[slot], slot)?;
    }
    solved(alloc, &left, c)
}

// A variable's column, each entry in its row's equation.
fn add_turned(left: &mut [Vec<Entry>], matrix: &Matrix, v: usize, slot: usize) -> Result<(), Stop> {
    match matrix.row_of(v) {
        Some(row) => add_to(left, row, entry(slot, Frac::one())),
        None => spread(left, matrix.by_column.list(v), slot),
    }
}

fn spread(left: &mut [Vec<Entry>], entries: &[Entry], slot: usize) -> Result<(), Stop> {
    for e in entries {
        add_to(left, e.at, entry(slot, e.number))?;
    }
    Ok(())
}

// A variable's column as one equation.
fn add_straight(
    left: &mut [Vec<Entry>],
    matrix: &Matrix,
    v: usize,
    slot: usize,
) -> Result<(), Stop> {
    match matrix.row_of(v) {
        Some(row) => add_to(left, slot, entry(row, Frac::one())),
        None => gather(left, matrix.by_column.list(v), slot),
    }
}

fn gather(left: &mut [Vec<Entry>], entries: &[Entry], slot: usize) -> Result<(), Stop> {
    for e in entries {
        add_to(left, slot, *e)?;
    }
    Ok(())
}

fn entry(at: usize, number: Frac) -> Entry {
    Entry { at, number }
}

// ---- equations with whole coefficients

fn solved(alloc: Global, left: &[Vec<Entry>], right: &[Frac]) -> Result<Vec<Frac>, Stop> {
    if left.len() > MOST_ROWS {
        return Err(Stop::NoFit);
    }
    let equations = whole_equations(alloc, left, right)?;
    let inverse = inverse_of(alloc, &equations.left)?;
    let digits = digits_of(alloc, &equations, &inverse)?;
    fractions_of(alloc, &digits, left.len())
}

fn whole_equations(alloc: Global, left: &[Vec<Entry>], right: &[Frac]) -> Result<Equations, Stop> {
    let mut equations = Equations {
        left: Vec::new(alloc),
        right: Vec::new(alloc),
    };
    for k in 0..left.len() {
        let number = number_at(right, k);
        let scale = common_denominator(&left[k], number)?;
        add(&mut equations.left, scaled(alloc, &left[k], scale)?)?;
        add(&mut equations.right, scaled_number(number, scale)?)?;
    }
    Ok(equations)
}

// The least common denominator of the numbers.
fn common_denominator(entries: &[Entry], number: Frac) -> Result<i128, Stop> {
    let mut common = number.parts().1;
    for entry in entries {
        let (factor, _) = quotient(whole(entry.number.parts().1)?, whole(common)?)?.parts();
        common = match common.checked_mul(factor) {
            Some(multiple) => multiple,
            None => return Err(Stop::NoFit),
        };
    }
    Ok(common)
}

fn scaled(alloc: Global, entries: &[Entry], scale: i128) -> Result<Vec<Coefficient>, Stop> {
    let mut coefficients = Vec::new(alloc);
    for entry in entries {
        let coefficient = Coefficient {
            unknown: entry.at,
            number: scaled_number(entry.number, scale)?,
        };
        add(&mut coefficients, coefficient)?;
    }
    Ok(coefficients)
}

fn scaled_number(number: Frac, scale: i128) -> Result<i128, Stop> {
    Ok(product(number, whole(scale)?)?.parts().0)
}

// ---- the inverse by the prime

// A line of the left side, and of the inverse so far.
#[derive(Drop)]
struct Line {
    left: Vec<u64>,
    right: Vec<u64>,
}

fn inverse_of(alloc: Global, left: &[Vec<Coefficient>]) -> Result<Vec<Line>, Stop> {
    let mut lines = lines_of(alloc, left)?;
    for k in 0..left.len() {
        bring_pivot(&mut lines, k)?;
        clear_others(alloc, &mut lines, k)?;
    }
    Ok(lines)
}

fn lines_of(alloc: Global, left: &[Vec<Coefficient>]) -> Result<Vec<Line>, Stop> {
    let mut lines = Vec::new(alloc);
    for k in 0..left.len() {
        add(&mut lines, line_of(alloc, &left[k], k, left.len())?)?;
    }
    Ok(lines)
}

fn line_of(
    alloc: Global,
    coefficients: &[Coefficient],
    k: usize,
    size: usize,
) -> Result<Line, Stop> {
    let mut left = filled(alloc, size, 0)?;
    for coefficient in coefficients {
        put(&mut left, coefficient.unknown, residue(coefficient.number));
    }
    let mut right = filled(alloc, size, 0)?;
    put(&mut right, k, 1);
    Ok(Line { left, right })
}

// A line with a pivot at k comes to the place k.
fn bring_pivot(lines: &mut [Line], k: usize) -> Result<(), Stop> {
    for other in k..lines.len() {
        if at(&lines[other].left, k, 0) % PRIME != 0 {
            lines.swap(k, other);
            return Ok(());
        }
    }
    Err(Stop::NoFit)
}

// Makes the pivot of the line k 1, and takes multiples of the line off the others.
fn clear_others(alloc: Global, lines: &mut [Line], k: usize) -> Result<(), Stop> {
    if k >= lines.len() {
        return Ok(());
    }
    let factor = inverse(at(&lines[k].left, k, 0));
    multiply(&mut lines[k].left, factor);
    multiply(&mut lines[k].right, factor);
    let left = copied(alloc, &lines[k].left)?;
    let right = copied(alloc, &lines[k].right)?;
    for other in 0..lines.len() {
        if other != k {
            clear(&mut lines[other], &left, &right, k);
        }
    }
    Ok(())
}

fn clear(line: &mut Line, left: &[u64], right: &[u64], k: usize) {
    let factor = negative(at(&line.left, k, 0));
    if factor != PRIME {
        add_multiple(&mut line.left, left, factor);
        add_multiple(&mut line.right, right, factor);
    }
}

fn multiply(numbers: &mut [u64], factor: u64) {
    for i in 0..numbers.len() {
        numbers[i] = times(numbers[i], factor);
    }
}

fn add_multiple(numbers: &mut [u64], others: &[u64], factor: u64) {
    for i in 0..numbers.len() {
        let other = at(others, i, 0);
        if other != 0 {
            numbers[i] = plus(numbers[i], times(other, factor));
        }
    }
}

// ---- digits

fn digits_of(
    alloc: Global,
    equations: &Equations,
    inverse: &[Line],
) -> Result<Vec<Vec<u64>>, Stop> {
    let mut rest = copied(alloc, &equations.right)?;
    let mut digits = Vec::new(alloc);
    for _ in 0..DIGITS {
        let next = next_digits(alloc, inverse, &rest)?;
        take_off(&mut rest, &equations.left, &next)?;
        add(&mut digits, next)?;
    }
    Ok(digits)
}

fn next_digits(alloc: Global, inverse: &[Line], rest: &[i128]) -> Result<Vec<u64>, Stop> {
    let residues = residues_of(alloc, rest)?;
    let mut digits = Vec::new(alloc);
    for line in inverse {
        add(&mut digits, inner_product(&line.right, &residues))?;
    }
    Ok(digits)
}

fn residues_of(alloc: Global, rest: &[i128]) -> Result<Vec<u64>, Stop> {
    let mut residues = Vec::new(alloc);
    for n in rest {
        add(&mut residues, residue(*n))?;
    }
    Ok(residues)
}

fn inner_product(a: &[u64], b: &[u64]) -> u64 {
    let mut sum = 0;
    for i in 0..a.len() {
        sum = plus(sum, times(a[i], at(b, i, 0)));
    }
    sum
}

// What the digits leave of each right side, divided by the prime.
fn take_off(rest: &mut [i128], left: &[Vec<Coefficient>], digits: &[u64]) -> Result<(), Stop> {
    for k in 0..rest.len() {
        if k < left.len() {
            let more = less_products(rest[k], &left[k], digits)?;
            rest[k] = more / (PRIME as i128);
        }
    }
    Ok(())
}

fn less_products(first: i128, left: &[Coefficient], digits: &[u64]) -> Result<i128, Stop> {
    let mut rest = first;
    for coefficient in left {
        let digit = i128::from(at(digits, coefficient.unknown, 0));
        rest = match coefficient.number.checked_mul(digit) {
            Some(product) => less(rest, product)?,
            None => return Err(Stop::NoFit),
        };
    }
    Ok(rest)
}

fn less(a: i128, b: i128) -> Result<i128, Stop> {
    match a.checked_sub(b) {
        Some(difference) => Ok(difference),
        None => Err(Stop::NoFit),
    }
}

fn fractions_of(alloc: Global, digits: &[Vec<u64>], size: usize) -> Result<Vec<Frac>, Stop> {
    let modulus = modulus();
    let mut fractions = Vec::new(alloc);
    for i in 0..size {
        let number = number_of(digits, i);
        match fraction_of(&number, &modulus) {
            Some(fraction) => add(&mut fractions, fraction)?,
            None => return Err(Stop::NoFit),
        }
    }
    Ok(fractions)
}

fn modulus() -> Long {
    let mut modulus = Long::of(1);
    for _ in 0..DIGITS {
        modulus = modulus.times_plus(PRIME, 0);
    }
    modulus
}

fn number_of(digits: &[Vec<u64>], i: usize) -> Long {
    let mut number = Long::of(0);
    for k in (0..digits.len()).rev() {
        if k < digits.len() {
            number = number.times_plus(PRIME, at(&digits[k], i, 0));
        }
    }
    number
}
