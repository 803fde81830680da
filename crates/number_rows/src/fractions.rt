// Fractions: their texts, their operations, and products with sums.
use fraction::{Frac, NoFit, Op, ReadFault};
use std::alloc::{AllocError, Global};
use std::cmp::Ordering;

// The one call of it, which is dear to prove.
fn read_canonical(text: &str) -> Result<Frac, ReadFault> {
    Frac::read_canonical(text)
}

/// A number that a row holds.
pub(crate) fn number(text: &str) -> Option<Frac> {
    read_canonical(text).ok()
}

/// What is found where a row asks for no number.
pub(crate) const NO_NUMBER: &str = "no number";

fn read_text(alloc: Global, read: Result<Frac, ReadFault>) -> Result<String, AllocError> {
    match read {
        Ok(value) => value.text(alloc),
        Err(ReadFault::TooWide) => "TooWide".to_string(alloc),
        Err(ReadFault::NotANumber) => "NotANumber".to_string(alloc),
    }
}

/// The number that a text writes, or the fault.
pub(crate) fn literal(alloc: Global, text: &str) -> Result<String, AllocError> {
    read_text(alloc, Frac::read(text))
}

/// The number that a text writes as each number is written once, or the fault.
pub(crate) fn canonical(alloc: Global, text: &str) -> Result<String, AllocError> {
    read_text(alloc, read_canonical(text))
}

// The text of a result, or the operation that does not fit.
fn result_text(alloc: Global, found: Result<Frac, NoFit>) -> Result<String, AllocError> {
    match found {
        Ok(value) => value.text(alloc),
        Err(fault) => op_word(fault.op).to_string(alloc),
    }
}

fn op_word(op: Op) -> &'static str {
    match op {
        Op::Add => "Add",
        Op::Sub => "Sub",
        Op::Mul => "Mul",
        Op::Div => "Div",
    }
}

// The two numbers of a text.
fn numbers(text: &str) -> Option<(Frac, Frac)> {
    let (a, b) = text.split_once(' ')?;
    Some((number(a)?, number(b)?))
}

fn fused_value(asked: &str) -> Option<Result<Frac, NoFit>> {
    let (q, rest) = asked.split_once(' ')?;
    let pair = numbers(rest)?;
    Some(number(q)?.mul_add(pair.0, pair.1))
}

/// The product of the first two numbers with the third added: `q a b`.
pub(crate) fn fused(alloc: Global, asked: &str) -> Result<String, AllocError> {
    match fused_value(asked) {
        Some(found) => result_text(alloc, found),
        None => NO_NUMBER.to_string(alloc),
    }
}

/// An operation on one number or two: `add a b`.
pub(crate) fn operation(alloc: Global, asked: &str) -> Result<String, AllocError> {
    let (operation, rest) = asked.split_once(' ').unwrap_or((asked, ""));
    match numbers(rest) {
        Some(pair) => of_two(alloc, operation, pair.0, pair.1),
        None => of_one(alloc, operation, rest),
    }
}

fn of_one(alloc: Global, operation: &str, text: &str) -> Result<String, AllocError> {
    let Some(a) = number(text) else {
        return NO_NUMBER.to_string(alloc);
    };
    match operation {
        "neg" => a.neg().text(alloc),
        "floor" => format!(in alloc; "{}", a.floor()),
        "parts" => parts_text(alloc, a),
        _ => "no such operation".to_string(alloc),
    }
}

fn parts_text(alloc: Global, value: Frac) -> Result<String, AllocError> {
    let (numerator, denominator) = value.parts();
    format!(in alloc; "{numerator} {denominator}")
}

fn of_two(alloc: Global, operation: &str, a: Frac, b: Frac) -> Result<String, AllocError> {
    match operation {
        "add" => result_text(alloc, a.add(b)),
        "sub" => result_text(alloc, a.sub(b)),
        "mul" => result_text(alloc, a.mul(b)),
        "div" if !b.is_zero() => result_text(alloc, a.div(b)),
        "cmp" => order_word(a.cmp(&b)).to_string(alloc),
        _ => "no such operation".to_string(alloc),
    }
}

fn order_word(order: Ordering) -> &'static str {
    match order {
        Ordering::Less => "Less",
        Ordering::Equal => "Equal",
        Ordering::Greater => "Greater",
    }
}
