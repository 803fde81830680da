// The report of an irreducible infeasible subset.
ghost use Rattle.std.specs.Prelude.{◌≡◌, IfOk, slice_get, string_bytes};
ghost use Rattle.solution_writer.specs.Subset.{subset_report, witness_lines, witness_line, member_text, row_name, column_name, side_text, numbers_text};

use fraction::Frac;
use infeasible_subset::{Member, Side, Witness, Witnesses};
use instance::Instance;
use std::alloc::{AllocError, Global};

/// The report of a problem without feasible points, with an irreducible infeasible subset of its bounds: how many they are, and
/// a line for each, which shows its row or column, its side, and the numbers of a point that meets all the others.
pub fn subset_report(
    alloc: Global,
    problem: &Instance,
    witnesses: &Witnesses,
) -> Result<String, AllocError>
    ensures { IfOk result (λ text. string_bytes text ≡ subset_report problem.now witnesses.now) }
{
    let witnesses = witnesses.as_slice();
    let count = witnesses.len();
    let lines = witness_lines(alloc, problem, witnesses)?;
    format!(in alloc; "INFEASIBLE\niis {count}\n{lines}")
}

fn witness_lines(
    alloc: Global,
    problem: &Instance,
    witnesses: &[Witness],
) -> Result<String, AllocError>
    ensures { IfOk result (λ text. string_bytes text ≡ witness_lines problem.now witnesses.now) }
{
    let mut text = String::new(alloc);
    for witness in witnesses {
        let line = witness_line(alloc, problem, witness)?;
        text.push_str(&line)?;
    }
    Ok(text)
}

fn witness_line(alloc: Global, problem: &Instance, witness: &Witness) -> Result<String, AllocError>
    ensures { IfOk result (λ text. string_bytes text ≡ witness_line problem.now witness.now) }
{
    let member = member_text(alloc, problem, &witness.member)?;
    let numbers = numbers_text(alloc, witness.point.as_slice())?;
    format!(in alloc; "{member}{numbers}\n")
}

// `row NAME SIDE` or `column NAME SIDE`.
fn member_text(alloc: Global, problem: &Instance, member: &Member) -> Result<String, AllocError>
    ensures { IfOk result (λ text. string_bytes text ≡ member_text problem.now member.now) }
{
    match member {
        Member::OfRow(place, side) => {
            let name = row_name(problem, *place);
            let side = side_text(*side);
            format!(in alloc; "row {name} {side}")
        }
        Member::OfColumn(place, side) => {
            let name = column_name(problem, *place);
            let side = side_text(*side);
            format!(in alloc; "column {name} {side}")
        }
    }
}

// A row that is not there has no name.
fn row_name(problem: &Instance, place: usize) -> &str
    ensures { result.now ≡ row_name (slice_get problem.now.rows place) }
{
    match problem.rows().get(place) {
        Some(row) => row.name().as_str(),
        None => "",
    }
}

fn column_name(problem: &Instance, place: usize) -> &str
    ensures { result.now ≡ column_name (slice_get problem.now.columns place) }
{
    match problem.columns().get(place) {
        Some(column) => column.name().as_str(),
        None => "",
    }
}

fn side_text(side: Side) -> &'static str
    ensures { result.now ≡ side_text side }
{
    match side {
        Side::Lower => "lower",
        Side::Upper => "upper",
    }
}

// Each number behind a blank.
fn numbers_text(alloc: Global, numbers: &[Frac]) -> Result<String, AllocError>
    ensures { IfOk result (λ text. string_bytes text ≡ numbers_text numbers.now) }
{
    let mut text = String::new(alloc);
    for number in numbers {
        let word = number.text(alloc)?;
        text.push_str(" ")?;
        text.push_str(&word)?;
    }
    Ok(text)
}
