// The lines of columns and rows.
ghost use Rattle.std.specs.Prelude.{◌≡◌, IfOk, length, string_bytes};
ghost use Rattle.solution_writer.specs.Report.{head_line, column_line, column_lines, ray_line, ray_lines, row_line, row_lines};

use fraction::Frac;
use instance::{Column, Name, Row};
use std::alloc::{AllocError, Global};

/// The word OPTIMAL, and the objective with its value.
pub fn head_line(alloc: Global, name: &Name, value: Frac) -> Result<String, AllocError>
    ensures { IfOk result (λ text. string_bytes text ≡ head_line name.now value) }
{
    let name = name.as_str();
    let value = value.text(alloc)?;
    format!(in alloc; "OPTIMAL\nobjective {name} {value}\n")
}

/// Each column with its number.
pub fn column_lines(alloc: Global, columns: &[Column], point: &[Frac]) -> Result<String, AllocError>
    requires { length point.now ≡ length columns.now }
    ensures { IfOk result (λ text. string_bytes text ≡ column_lines columns.now point.now) }
{
    let mut text = String::new(alloc);
    for (i, column) in columns.iter().enumerate() {
        let line = column_line(alloc, column.name(), point[i])?;
        text.push_str(&line)?;
    }
    Ok(text)
}

fn column_line(alloc: Global, name: &Name, number: Frac) -> Result<String, AllocError>
    ensures { IfOk result (λ text. string_bytes text ≡ column_line name.now number) }
{
    let name = name.as_str();
    let number = number.text(alloc)?;
    format!(in alloc; "column {name} {number}\n")
}

/// Each column with its number and its step along the ray.
pub fn ray_lines(
    alloc: Global,
    columns: &[Column],
    point: &[Frac],
    ray: &[Frac],
) -> Result<String, AllocError>
    requires point { length point.now ≡ length columns.now }
    requires ray { length ray.now ≡ length columns.now }
    ensures { IfOk result (λ text. string_bytes text ≡ ray_lines columns.now point.now ray.now) }
{
    let mut text = String::new(alloc);
    for (i, column) in columns.iter().enumerate() {
        let line = ray_line(alloc, column.name(), point[i], ray[i])?;
        text.push_str(&line)?;
    }
    Ok(text)
}

fn ray_line(alloc: Global, name: &Name, number: Frac, step: Frac) -> Result<String, AllocError>
    ensures { IfOk result (λ text. string_bytes text ≡ ray_line name.now number step) }
{
    let name = name.as_str();
    let number = number.text(alloc)?;
    let step = step.text(alloc)?;
    format!(in alloc; "column {name} {number} {step}\n")
}

/// Each row with the value of its form.
pub fn row_lines(alloc: Global, rows: &[Row], values: &[Frac]) -> Result<String, AllocError>
    requires { length values.now ≡ length rows.now }
    ensures { IfOk result (λ text. string_bytes text ≡ row_lines rows.now values.now) }
{
    let mut text = String::new(alloc);
    for (i, row) in rows.iter().enumerate() {
        let line = row_line(alloc, row.name(), values[i])?;
        text.push_str(&line)?;
    }
    Ok(text)
}

fn row_line(alloc: Global, name: &Name, value: Frac) -> Result<String, AllocError>
    ensures { IfOk result (λ text. string_bytes text ≡ row_line name.now value) }
{
    let name = name.as_str();
    let value = value.text(alloc)?;
    format!(in alloc; "row {name} {value}\n")
}
