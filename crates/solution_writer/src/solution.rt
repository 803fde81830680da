// The raw solution of a solved problem.
ghost use Rattle.std.specs.Prelude.{◌≡◌, IfOk, IsSomeAnd, length, string_bytes};
ghost use Rattle.std.specs.Option.{option_map};
ghost use Rattle.solution_writer.specs.Report.{IsReportable, IsShownPoint};
ghost use Rattle.solution_writer.specs.Solution as spec;

use crate::values::row_values;
use certificate::{Certificate, Verdict};
use fraction::Frac;
use instance::{Instance, Point};
use std::alloc::{AllocError, Global};

/// The raw solution of a solved problem, for other programs to read: the verdict with the numbers of rows and columns, and for
/// OPTIMAL the objective; then for OPTIMAL each row with the value of its form and each column with its number, for UNBOUNDED
/// each column with its number and its step along the ray, by their places from 1 on; last a line `e`.
pub fn raw_solution(
    alloc: Global,
    problem: &Instance,
    certificate: &Certificate,
) -> Result<String, AllocError>
    requires parts { IsReportable problem.now certificate.now }
    ensures { IfOk result (λ text. string_bytes text ≡ spec.raw_solution problem.now certificate.now) }
{
    let first = first_line(alloc, problem, certificate)?;
    let lines = solution_lines(alloc, problem, certificate)?;
    format!(in alloc; "{first}{lines}e\n")
}

// ---- the first line

fn first_line(
    alloc: Global,
    problem: &Instance,
    certificate: &Certificate,
) -> Result<String, AllocError>
    ensures { IfOk result (λ text. string_bytes text ≡ spec.first_line problem.now certificate.now.verdict certificate.now.value) }
{
    match certificate.verdict() {
        Verdict::Optimal => optimal_line(alloc, problem, certificate.value()),
        Verdict::Infeasible => size_line(alloc, "INFEASIBLE", problem),
        Verdict::Unbounded => size_line(alloc, "UNBOUNDED", problem),
    }
}

fn optimal_line(
    alloc: Global,
    problem: &Instance,
    value: Option<Frac>,
) -> Result<String, AllocError>
    ensures { IfOk result (λ text. string_bytes text ≡ spec.optimal_line problem.now value) }
{
    let Some(value) = value else {
        return size_line(alloc, "OPTIMAL", problem);
    };
    let size = size_part(alloc, "OPTIMAL", problem)?;
    let value = value.text(alloc)?;
    format!(in alloc; "{size} {value}\n")
}

fn size_line(alloc: Global, verdict: &str, problem: &Instance) -> Result<String, AllocError>
    ensures { IfOk result (λ text. string_bytes text ≡ spec.size_line verdict.now problem.now) }
{
    let size = size_part(alloc, verdict, problem)?;
    format!(in alloc; "{size}\n")
}

fn size_part(alloc: Global, verdict: &str, problem: &Instance) -> Result<String, AllocError>
    ensures { IfOk result (λ text. string_bytes text ≡ spec.size_part verdict.now problem.now) }
{
    let rows = problem.rows().len();
    let columns = problem.columns().len();
    format!(in alloc; "s {verdict} {rows} {columns}")
}

// ---- the lines of numbers

fn solution_lines(
    alloc: Global,
    problem: &Instance,
    certificate: &Certificate,
) -> Result<String, AllocError>
    requires parts { IsReportable problem.now certificate.now }
    ensures { IfOk result (λ text. string_bytes text ≡ spec.solution_lines problem.now certificate.now.verdict certificate.now.point certificate.now.ray) }
{
    match certificate.verdict() {
        Verdict::Optimal => point_lines(alloc, problem, certificate.point()),
        Verdict::Infeasible => Ok(String::new(alloc)),
        Verdict::Unbounded => match (certificate.point(), certificate.ray()) {
            (Some(point), Some(ray)) => step_lines(alloc, point.as_slice(), ray.as_slice()),
            _ => Ok(String::new(alloc)),
        },
    }
}

// The rows and columns of a best point.
fn point_lines(
    alloc: Global,
    problem: &Instance,
    point: Option<&Point>,
) -> Result<String, AllocError>
    requires { IsSomeAnd (option_map (λ p. p.now) point) (IsShownPoint problem.now) }
    ensures { IfOk result (λ text. string_bytes text ≡ spec.point_lines problem.now (option_map (λ p. p.now) point.entry)) }
{
    let Some(point) = point else {
        return Ok(String::new(alloc));
    };
    let values = row_values(alloc, problem, point)?;
    let rows = number_lines(alloc, "i", &values)?;
    let columns = number_lines(alloc, "j", point.as_slice())?;
    format!(in alloc; "{rows}{columns}")
}

// A line for each number, behind its letter and its place from 1 on.
fn number_lines(alloc: Global, letter: &str, numbers: &[Frac]) -> Result<String, AllocError>
    ensures { IfOk result (λ text. string_bytes text ≡ spec.number_lines letter.now 0 numbers.now) }
{
    let mut text = String::new(alloc);
    for (i, number) in numbers.iter().enumerate() {
        let line = number_line(alloc, letter, i + 1, *number)?;
        text.push_str(&line)?;
    }
    Ok(text)
}

fn number_line(
    alloc: Global,
    letter: &str,
    place: usize,
    number: Frac,
) -> Result<String, AllocError>
    ensures { IfOk result (λ text. string_bytes text ≡ spec.number_line letter.now place number) }
{
    let number = number.text(alloc)?;
    format!(in alloc; "{letter} {place} {number}\n")
}

// Each column with its number and its step.
fn step_lines(alloc: Global, point: &[Frac], ray: &[Frac]) -> Result<String, AllocError>
    requires { length ray.now ≡ length point.now }
    ensures { IfOk result (λ text. string_bytes text ≡ spec.step_lines 0 point.now ray.now) }
{
    let mut text = String::new(alloc);
    for (i, number) in point.iter().enumerate() {
        let line = step_line(alloc, i + 1, *number, ray[i])?;
        text.push_str(&line)?;
    }
    Ok(text)
}

fn step_line(alloc: Global, place: usize, number: Frac, step: Frac) -> Result<String, AllocError>
    ensures { IfOk result (λ text. string_bytes text ≡ spec.step_line place number step) }
{
    let number = number.text(alloc)?;
    let step = step.text(alloc)?;
    format!(in alloc; "j {place} {number} {step}\n")
}
