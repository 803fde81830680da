// How rows write problems: the objective with its constant, the rows with their bounds and forms, and behind `|` the columns with their
// bounds.
use fraction::Frac;
use instance::{Column, Direction, Entry, Instance, Row};
use std::alloc::{AllocError, Global};

fn column_name(columns: &[Column], place: u32) -> &str {
    match columns.get(place as usize) {
        Some(column) => column.name().as_str(),
        None => "?",
    }
}

// The entries of a form, each behind a blank.
fn push_form(
    alloc: Global,
    made: &mut String,
    columns: &[Column],
    entries: &[Entry],
) -> Result<(), AllocError> {
    for entry in entries {
        let coefficient = entry.coefficient.text(alloc)?;
        let name = column_name(columns, entry.column);
        made.push_str(format!(in alloc; " {coefficient}*{name}")?.as_str())?;
    }
    Ok(())
}

fn bound_word(alloc: Global, bound: Option<Frac>) -> Result<String, AllocError> {
    match bound {
        Some(number) => number.text(alloc),
        None => Ok(String::new(alloc)),
    }
}

fn bounds_word(
    alloc: Global,
    name: &str,
    lower: Option<Frac>,
    upper: Option<Frac>,
) -> Result<String, AllocError> {
    let lower = bound_word(alloc, lower)?;
    let upper = bound_word(alloc, upper)?;
    format!(in alloc; "; {name} {lower}..{upper}")
}

fn push_row(
    alloc: Global,
    made: &mut String,
    columns: &[Column],
    row: &Row,
) -> Result<(), AllocError> {
    let bounds = bounds_word(alloc, row.name().as_str(), row.lower(), row.upper())?;
    made.push_str(bounds.as_str())?;
    push_form(alloc, made, columns, row.entries().as_slice())
}

fn push_column(alloc: Global, made: &mut String, column: &Column) -> Result<(), AllocError> {
    let bounds = bounds_word(
        alloc,
        column.name().as_str(),
        column.lower(),
        column.upper(),
    )?;
    made.push_str(bounds.as_str())?;
    made.push_str(if column.integer() { " whole" } else { "" })
}

fn direction_word(direction: Direction) -> &'static str {
    match direction {
        Direction::Min => "min",
        Direction::Max => "max",
    }
}

// The objective with its constant.
fn objective_word(alloc: Global, problem: &Instance) -> Result<String, AllocError> {
    let direction = direction_word(problem.direction());
    let name = problem.objective_name().as_str();
    let constant = problem.constant().text(alloc)?;
    let mut made = format!(in alloc; "{direction} {name}")?;
    push_form(
        alloc,
        &mut made,
        problem.columns(),
        problem.objective().as_slice(),
    )?;
    made.push_str(format!(in alloc; " + {constant}")?.as_str())?;
    Ok(made)
}

/// A problem in one line.
pub(crate) fn problem_word(alloc: Global, problem: &Instance) -> Result<String, AllocError> {
    let mut made = objective_word(alloc, problem)?;
    for row in problem.rows() {
        push_row(alloc, &mut made, problem.columns(), row)?;
    }
    made.push_str(" |")?;
    push_columns(alloc, &mut made, problem.columns())?;
    Ok(made)
}

fn push_columns(alloc: Global, made: &mut String, columns: &[Column]) -> Result<(), AllocError> {
    for column in columns {
        push_column(alloc, made, column)?;
    }
    Ok(())
}
