// The text of ranges.
ghost use Rattle.std.specs.Prelude.{◌≡◌, IfOk, string_bytes};
ghost use Rattle.exact_ranges.specs.Text.{end_text, range_line, line_if_there, cost_lines, row_lines, bound_lines, ranges_text};

use crate::{Range, Ranges, RowRanges};
use fraction::Frac;
use std::alloc::{AllocError, Global};

/// The text of ranges: a line `cost PLACE LOW HIGH` for each column, and then for each row a line `lower PLACE LOW HIGH`
/// and a line `upper PLACE LOW HIGH`, of the bounds that are there. Places count from 1, and an absent end is `none`.
pub fn ranges_text(alloc: Global, ranges: &Ranges) -> Result<String, AllocError>
    ensures { IfOk result (λ text. string_bytes text ≡ ranges_text ranges.now) }
{
    let costs = cost_lines(alloc, ranges.costs())?;
    let bounds = bound_lines(alloc, ranges.rows())?;
    format!(in alloc; "{costs}{bounds}")
}

fn cost_lines(alloc: Global, ranges: &[Range]) -> Result<String, AllocError>
    ensures { IfOk result (λ text. string_bytes text ≡ cost_lines 0 ranges.now) }
{
    let mut text = String::new(alloc);
    for (place, range) in ranges.iter().enumerate() {
        let line = range_line(alloc, "cost", place + 1, range)?;
        text.push_str(&line)?;
    }
    Ok(text)
}

fn bound_lines(alloc: Global, rows: &[RowRanges]) -> Result<String, AllocError>
    ensures { IfOk result (λ text. string_bytes text ≡ bound_lines 0 rows.now) }
{
    let mut text = String::new(alloc);
    for (place, row) in rows.iter().enumerate() {
        let lines = row_lines(alloc, place + 1, row)?;
        text.push_str(&lines)?;
    }
    Ok(text)
}

fn row_lines(alloc: Global, number: usize, row: &RowRanges) -> Result<String, AllocError>
    ensures { IfOk result (λ text. string_bytes text ≡ row_lines number row.now) }
{
    let lower = line_if_there(alloc, "lower", number, &row.lower)?;
    let upper = line_if_there(alloc, "upper", number, &row.upper)?;
    format!(in alloc; "{lower}{upper}")
}

fn line_if_there(
    alloc: Global,
    word: &str,
    number: usize,
    range: &Option<Range>,
) -> Result<String, AllocError>
    ensures { IfOk result (λ text. string_bytes text ≡ line_if_there word.now number range.now) }
{
    match range {
        None => Ok(String::new(alloc)),
        Some(range) => range_line(alloc, word, number, range),
    }
}

fn range_line(alloc: Global, word: &str, number: usize, range: &Range) -> Result<String, AllocError>
    ensures { IfOk result (λ text. string_bytes text ≡ range_line word.now number range.now) }
{
    let low = end_text(alloc, range.low)?;
    let high = end_text(alloc, range.high)?;
    format!(in alloc; "{word} {number} {low} {high}\n")
}

fn end_text(alloc: Global, end: Option<Frac>) -> Result<String, AllocError>
    ensures { IfOk result (λ text. string_bytes text ≡ end_text end) }
{
    match end {
        None => "none".to_string(alloc),
        Some(v) => v.text(alloc),
    }
}
