// The reports.
ghost use Rattle.std.specs.Prelude.{◌≡◌, IfOk, IsSome, IsSomeAnd, Some, length, string_bytes};
ghost use Rattle.std.specs.Option.{option_map};
ghost use Rattle.milp.specs.Problem.{Problem};
ghost use Rattle.gmpl_generate.specs.Solved.{RowsFit};
ghost use Rattle.solution_writer.specs.Report.{optimal_at, unbounded_at, optimal_report, unbounded_report, solved_report, translated_report, accepted_report, IsShownPoint, IsReportable, summary_report, optimal_summary, size_lines};

use crate::lines::{column_lines, head_line, ray_lines, row_lines};
use crate::values::row_values;
use certificate::{Certificate, Verdict};
use fraction::Frac;
use instance::{Instance, Point};
use std::alloc::{AllocError, Global};

/// The report of a solved problem.
///
/// OPTIMAL: the objective with its value, each column with its number, each row with the value of its form.
/// UNBOUNDED: each column with its number and its step along the ray. INFEASIBLE: that word alone.
pub fn solved_report(
    alloc: Global,
    problem: &Instance,
    certificate: &Certificate,
) -> Result<String, AllocError>
    requires parts { IsReportable problem.now certificate.now }
    ensures { IfOk result (λ text. solved_report problem.now certificate.now ≡ Some (string_bytes text)) }
{
    match certificate.verdict() {
        Verdict::Optimal => optimal_at(alloc, problem, certificate.value(), certificate.point()),
        Verdict::Infeasible => "INFEASIBLE\n".to_string(alloc),
        Verdict::Unbounded => unbounded_at(alloc, problem, certificate.point(), certificate.ray()),
    }
}

fn optimal_at(
    alloc: Global,
    problem: &Instance,
    value: Option<Frac>,
    point: Option<&Point>,
) -> Result<String, AllocError>
    requires value { IsSome value }
    requires point { IsSomeAnd (option_map (λ p. p.now) point) (IsShownPoint problem.now) }
    ensures { IfOk result (λ text. optimal_at problem.now value (option_map (λ p. p.now) point.entry) ≡ Some (string_bytes text)) }
{
    let Some(value) = value else { unreachable!() };
    let Some(point) = point else { unreachable!() };
    optimal_report(alloc, problem, value, point)
}

fn optimal_report(
    alloc: Global,
    problem: &Instance,
    value: Frac,
    point: &Point,
) -> Result<String, AllocError>
    requires size { length point.now ≡ length problem.now.columns }
    requires rows { RowsFit point.now problem.now.rows }
    ensures { IfOk result (λ text. string_bytes text ≡ optimal_report problem.now value point.now) }
{
    let values = row_values(alloc, problem, point)?;
    let mut text = head_line(alloc, problem.objective_name(), value)?;
    let columns = column_lines(alloc, problem.columns(), point.as_slice())?;
    let rows = row_lines(alloc, problem.rows(), &values)?;
    text.push_str(&columns)?;
    text.push_str(&rows)?;
    Ok(text)
}

fn unbounded_at(
    alloc: Global,
    problem: &Instance,
    point: Option<&Point>,
    ray: Option<&Point>,
) -> Result<String, AllocError>
    requires point { IsSomeAnd (option_map (λ p. p.now) point) (λ x. length x ≡ length problem.now.columns) }
    requires ray { IsSomeAnd (option_map (λ r. r.now) ray) (λ r. length r ≡ length problem.now.columns) }
    ensures { IfOk result (λ text. unbounded_at problem.now (option_map (λ p. p.now) point.entry) (option_map (λ r. r.now) ray.entry) ≡ Some (string_bytes text)) }
{
    let Some(point) = point else { unreachable!() };
    let Some(ray) = ray else { unreachable!() };
    unbounded_report(alloc, problem, point, ray)
}

fn unbounded_report(
    alloc: Global,
    problem: &Instance,
    point: &Point,
    ray: &Point,
) -> Result<String, AllocError>
    requires point { length point.now ≡ length problem.now.columns }
    requires ray { length ray.now ≡ length problem.now.columns }
    ensures { IfOk result (λ text. string_bytes text ≡ unbounded_report problem.now point.now ray.now) }
{
    let mut text = "UNBOUNDED\n".to_string(alloc)?;
    let lines = ray_lines(alloc, problem.columns(), point.as_slice(), ray.as_slice())?;
    text.push_str(&lines)?;
    Ok(text)
}

/// The report of a solved problem without names and points: the verdict, the value of a best point, and the numbers of rows and columns.
pub fn summary_report(
    alloc: Global,
    problem: &Instance,
    certificate: &Certificate,
) -> Result<String, AllocError>
    requires parts { IsReportable problem.now certificate.now }
    ensures { IfOk result (λ text. summary_report problem.now certificate.now ≡ Some (string_bytes text)) }
{
    let size = size_lines(alloc, problem)?;
    match certificate.verdict() {
        Verdict::Optimal => optimal_summary(alloc, certificate.value(), &size),
        Verdict::Infeasible => format!(in alloc; "INFEASIBLE\n{size}"),
        Verdict::Unbounded => format!(in alloc; "UNBOUNDED\n{size}"),
    }
}

fn optimal_summary(alloc: Global, value: Option<Frac>, size: &str) -> Result<String, AllocError>
    requires { IsSome value }
    ensures { IfOk result (λ text. (p : Problem) → size_lines p ≡ size.now → optimal_summary p value ≡ Some (string_bytes text)) }
{
    let Some(value) = value else { unreachable!() };
    let value = value.text(alloc)?;
    format!(in alloc; "OPTIMAL\nobjective {value}\n{size}")
}

fn size_lines(alloc: Global, problem: &Instance) -> Result<String, AllocError>
    ensures { IfOk result (λ text. string_bytes text ≡ size_lines problem.now) }
{
    let rows = problem.rows().len();
    let columns = problem.columns().len();
    format!(in alloc; "rows {rows}\ncolumns {columns}\n")
}

/// The report of a problem that was only read: its numbers of rows and columns.
pub fn translated_report(alloc: Global, problem: &Instance) -> Result<String, AllocError>
    ensures { IfOk result (λ text. string_bytes text ≡ translated_report problem.now) }
{
    let size = size_lines(alloc, problem)?;
    format!(in alloc; "TRANSLATED\n{size}")
}

/// The report of a certificate that was accepted.
pub fn accepted_report(alloc: Global) -> Result<String, AllocError>
    ensures { IfOk result (λ text. string_bytes text ≡ accepted_report) }
{
    "ACCEPTED\n".to_string(alloc)
}
