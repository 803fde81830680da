// What the statements behind `solve` make and print at a point.
ghost use Rattle.std.specs.Prelude.{◌≡◌, IsTrue, length};
ghost use Rattle.gmpl_generate.specs.Solved.{RowsFit};

use crate::course::read;
use crate::words::{fault_word, push_files, with_end};
use fraction::Frac;
use gmpl_reader::{Afterwards, MathProgFault, ReadingEnd, Rest, after_solve};
use gmpl_solution::{Dual, Duals};
use instance::{Instance, Point, activity};
use sqlite_items::Boxed;
use std::alloc::{AllocError, Global};
use std::mem::{ManuallyDrop, forget};

// The value of each row's form fits.
fn all_fit(problem: &Instance, point: &Point) -> bool
    requires { length point.now ≡ length problem.now.columns }
    ensures { IsTrue result → RowsFit point.now problem.now.rows }
{
    problem.keeps_its_limits();
    for row in 0..problem.rows().len() {
        if activity(problem, row as u32, point).is_err() {
            return false;
        }
    }
    true
}

fn numbers_of(alloc: Global, text: &str) -> Result<Vec<Frac>, AllocError> {
    let mut numbers = Vec::new(alloc);
    for word in text.split(' ') {
        if let Ok(number) = Frac::read_canonical(word) {
            numbers.push(number)?;
        }
    }
    Ok(numbers)
}

// These dual values, and none behind them.
fn dual_list(alloc: Global, count: usize, text: &str) -> Result<Vec<Dual>, AllocError> {
    let numbers = numbers_of(alloc, text)?;
    let mut list = Vec::new(alloc);
    for place in 0..count {
        let dual = match numbers.get(place) {
            Some(number) => Dual::Number(*number),
            None => Dual::Missing,
        };
        list.push(dual)?;
    }
    Ok(list)
}

// The dual values of columns, and behind a bar those of rows.
fn duals_of(alloc: Global, problem: &Instance, text: &str) -> Result<Duals, AllocError> {
    let (columns, rows) = text.split_once(" | ").unwrap_or((text, ""));
    let elsewhere = match text {
        "" => Dual::Missing,
        _ => Dual::Number(Frac::zero()),
    };
    let columns = dual_list(alloc, problem.columns().len(), columns)?;
    let rows = dual_list(alloc, problem.rows().len(), rows)?;
    Ok(Duals::new(columns, rows, elsewhere))
}

// The files that are made, what is printed, and the fault behind them.
fn after_word(alloc: Global, after: &Afterwards) -> Result<String, AllocError> {
    let mut told = after.printed.as_str().to_string(alloc)?;
    push_files(alloc, &mut told, &after.files)?;
    let end = match after.fault {
        Some(fault) => fault_word(alloc, MathProgFault::Model(fault))?,
        None => String::new(alloc),
    };
    with_end(alloc, told.as_str(), end.as_str())
}

fn at_point(
    alloc: Global,
    problem: &Instance,
    rest: ManuallyDrop<Boxed<Rest>>,
    point: &Point,
    duals: &str,
) -> Result<String, AllocError> {
    if point.as_slice().len() != problem.columns().len() {
        return "another number of columns".to_string(alloc);
    }
    if !all_fit(problem, point) {
        return "a row that doesn't fit".to_string(alloc);
    }
    let rest = ManuallyDrop::into_inner(rest).into_inner();
    let duals = duals_of(alloc, problem, duals)?;
    let after = after_solve(alloc, rest, problem, point, &duals)?;
    after_word(alloc, &after)
}

fn behind_end(
    alloc: Global,
    end: ReadingEnd,
    point: &Point,
    duals: &str,
) -> Result<String, AllocError> {
    match end {
        ReadingEnd::Problem(problem, rest) => {
            let problem = ManuallyDrop::new(problem);
            at_point(alloc, &problem, ManuallyDrop::new(rest), point, duals)
        }
        end => {
            forget(end);
            "no problem".to_string(alloc)
        }
    }
}

/// What a text, with a point before it, and dual values behind the point or none, prints and makes there behind `solve`, and the fault
/// behind that.
pub(crate) fn behind_solve(alloc: Global, asked: &str) -> Result<String, AllocError> {
    let (point, text) = asked.split_once(" => ").unwrap_or((asked, ""));
    let (point, duals) = point.split_once(" with ").unwrap_or((point, ""));
    let point = Point::from_vec(numbers_of(alloc, point)?);
    match read(alloc, text) {
        Ok(reading) => behind_end(alloc, reading.end, &point, duals),
        Err(_) => "no model".to_string(alloc),
    }
}
