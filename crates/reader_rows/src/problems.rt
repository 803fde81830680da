// Problems, and faults of their texts, in the words of rows.
use fraction::Frac;
use instance::{Column, Entry, Instance, Row};
use milp::Direction;
use model_text::{FileFault, ReadError};
use std::alloc::{AllocError, Global};

/// Of a problem: direction, name and constant of the objective, its entries by number of column; each row after `|`, with
/// its lower and upper bound and its entries; each column after `;`, with its bounds and `int` where it is integer. `-`
/// is no bound. Of a fault: its line and kind.
pub(crate) fn answer_text(
    alloc: Global,
    answer: Result<Instance, ReadError<FileFault>>,
) -> Result<String, AllocError> {
    match answer {
        Ok(problem) => problem_text(alloc, &problem),
        Err(ReadError::Fault(fault)) => {
            format!(in alloc; "{} {}", fault.line, fault.kind.as_str())
        }
        Err(ReadError::NoMemory) => Err(AllocError),
    }
}

fn problem_text(alloc: Global, problem: &Instance) -> Result<String, AllocError> {
    let mut text = String::new(alloc);
    push_objective(alloc, &mut text, problem)?;
    push_rows(alloc, &mut text, problem.rows())?;
    push_columns(alloc, &mut text, problem.columns())?;
    Ok(text)
}

fn push_objective(alloc: Global, text: &mut String, problem: &Instance) -> Result<(), AllocError> {
    text.push_str(direction_word(problem.direction()))?;
    push_word(text, problem.objective_name().as_str())?;
    push_bound(alloc, text, Some(problem.constant()))?;
    push_form(alloc, text, problem.objective().as_slice())
}

fn push_rows(alloc: Global, text: &mut String, rows: &[Row]) -> Result<(), AllocError> {
    for row in rows {
        text.push_str(" |")?;
        push_row(alloc, text, row)?;
    }
    Ok(())
}

fn push_row(alloc: Global, text: &mut String, row: &Row) -> Result<(), AllocError> {
    push_word(text, row.name().as_str())?;
    push_bound(alloc, text, row.lower())?;
    push_bound(alloc, text, row.upper())?;
    push_form(alloc, text, row.entries().as_slice())
}

fn push_columns(alloc: Global, text: &mut String, columns: &[Column]) -> Result<(), AllocError> {
    for column in columns {
        text.push(';')?;
        push_column(alloc, text, column)?;
    }
    Ok(())
}

fn push_column(alloc: Global, text: &mut String, column: &Column) -> Result<(), AllocError> {
    push_word(text, column.name().as_str())?;
    push_bound(alloc, text, column.lower())?;
    push_bound(alloc, text, column.upper())?;
    text.push_str(if column.integer() { " int" } else { "" })
}

fn push_word(text: &mut String, word: &str) -> Result<(), AllocError> {
    text.push(' ')?;
    text.push_str(word)
}

fn push_bound(alloc: Global, text: &mut String, bound: Option<Frac>) -> Result<(), AllocError> {
    match bound {
        Some(value) => push_number(alloc, text, ' ', value),
        None => text.push_str(" -"),
    }
}

/// Pushes a character and a number behind it.
pub(crate) fn push_number(
    alloc: Global,
    text: &mut String,
    before: char,
    value: Frac,
) -> Result<(), AllocError> {
    text.push(before)?;
    text.push_str(&value.text(alloc)?)
}

fn push_form(alloc: Global, text: &mut String, form: &[Entry]) -> Result<(), AllocError> {
    for entry in form {
        push_entry(alloc, text, entry.column, entry.coefficient)?;
    }
    Ok(())
}

/// Pushes the place of an entry and its coefficient.
pub(crate) fn push_entry(
    alloc: Global,
    text: &mut String,
    place: u32,
    coefficient: Frac,
) -> Result<(), AllocError> {
    write!(text, " {place}")?;
    push_number(alloc, text, ':', coefficient)
}

/// The word of a direction.
pub(crate) fn direction_word(direction: Direction) -> &'static str {
    match direction {
        Direction::Min => "min",
        Direction::Max => "max",
    }
}
