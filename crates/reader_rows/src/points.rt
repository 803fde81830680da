// Points of a problem, its entries by column, and its direction.
use crate::problems::{direction_word, push_entry, push_number};
use cplex_lp_reader::read_lp;
use fraction::{Frac, NoFit};
use instance::{Instance, Point, activity, meets, value};
use milp::Direction;
use std::alloc::{AllocError, Global};

// The greatest 3 x + y + 10, where x + 2 y is from 1 to 5 and x - y at most 2, x is whole and from 0 to 4, and y at least 0.
const PROBLEM: &str =
    "max\n profit: 3 x + y + 10\nst\n r: 1 <= x + 2 y <= 5\n s: x - y <= 2\nbounds\n x <= 4\ngeneral\n x\n";

fn problem(alloc: Global) -> Option<Instance> {
    read_lp(alloc, PROBLEM.as_bytes()).ok()
}

// The point of numbers between blanks, if they are numbers.
fn point_of(alloc: Global, text: &str) -> Result<Option<Point>, AllocError> {
    let mut numbers = Vec::new(alloc);
    for word in text.split(' ') {
        match Frac::read_canonical(word) {
            Ok(number) => numbers.push(number)?,
            Err(_) => return Ok(None),
        }
    }
    Ok(Some(Point::from_vec(numbers)))
}

/// The values of both rows and of the objective at x and y, and whether the point is feasible; or the product that does not fit.
pub(crate) fn values_at_point(alloc: Global, numbers: &str) -> Result<String, AllocError> {
    let point = point_of(alloc, numbers)?;
    match (problem(alloc), point) {
        (Some(problem), Some(point)) => values_text(alloc, &problem, &point),
        _ => "no problem or no point".to_string(alloc),
    }
}

fn values_text(alloc: Global, problem: &Instance, point: &Point) -> Result<String, AllocError> {
    match meets(problem, point) {
        Ok(feasible) => values_and_word(alloc, problem, point, feasible),
        Err(fault) => product(alloc, fault.a, fault.b),
    }
}

fn product(alloc: Global, a: Frac, b: Frac) -> Result<String, AllocError> {
    let mut text = a.text(alloc)?;
    text.push_str(" *")?;
    push_number(alloc, &mut text, ' ', b)?;
    Ok(text)
}

fn values_and_word(
    alloc: Global,
    problem: &Instance,
    point: &Point,
    feasible: bool,
) -> Result<String, AllocError> {
    if problem.rows().len() != 2 || problem.columns().len() != point.as_slice().len() {
        return "another shape".to_string(alloc);
    }
    let mut text = String::new(alloc);
    push_sum(alloc, &mut text, activity(problem, 0, point))?;
    push_sum(alloc, &mut text, activity(problem, 1, point))?;
    push_sum(alloc, &mut text, value(problem, point))?;
    text.push_str(if feasible { "feasible" } else { "infeasible" })?;
    Ok(text)
}

fn push_sum(alloc: Global, text: &mut String, sum: Result<Frac, NoFit>) -> Result<(), AllocError> {
    match sum {
        Ok(value) => write!(text, "{} ", value.text(alloc)?),
        Err(_) => text.push_str("no fit "),
    }
}

/// The entries of a column, row by row.
pub(crate) fn entries_of_column(alloc: Global, column: &str) -> Result<String, AllocError> {
    match (problem(alloc), column.parse::<u32>()) {
        (Some(problem), Ok(column)) => entries_text(alloc, &problem, column),
        _ => "no problem or no column".to_string(alloc),
    }
}

fn entries_text(alloc: Global, problem: &Instance, column: u32) -> Result<String, AllocError> {
    let mut text = "rows".to_string(alloc)?;
    if column as usize >= problem.columns().len() {
        return Ok(text);
    }
    let entries = problem.by_column()?;
    for entry in entries.get(column) {
        push_entry(alloc, &mut text, entry.row, entry.coefficient)?;
    }
    Ok(text)
}

/// The problem's direction and the one that it is given, with the number of rows.
pub(crate) fn with_direction(alloc: Global, asked: &str) -> Result<String, AllocError> {
    let direction = match asked {
        "min" => Direction::Min,
        _ => Direction::Max,
    };
    match problem(alloc) {
        Some(problem) => turned(alloc, problem, direction),
        None => "no problem".to_string(alloc),
    }
}

fn turned(alloc: Global, problem: Instance, direction: Direction) -> Result<String, AllocError> {
    let before = direction_word(problem.direction());
    let turned = problem.with_direction(direction);
    format!(in alloc;
        "{before} {} {}",
        direction_word(turned.direction()),
        turned.rows().len()
    )
}
