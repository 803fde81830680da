// The values of rows at a point.
ghost use Rattle.std.specs.Prelude.{◌≡◌, IfOk, length};
ghost use Rattle.gmpl_generate.specs.Solved.{RowsFit};
ghost use Rattle.solution_writer.specs.Report.{row_values};

use fraction::Frac;
use gmpl_generate::row_value;
use instance::{Instance, Point};
use std::alloc::{AllocError, Global};

/// The value of each row's form.
pub fn row_values(alloc: Global, problem: &Instance, point: &Point) -> Result<Vec<Frac>, AllocError>
    requires size { length point.now ≡ length problem.now.columns }
    requires rows { RowsFit point.now problem.now.rows }
    ensures { IfOk result (λ values. values.items ≡ row_values point.now problem.now.rows) }
{
    problem.keeps_its_limits();
    let mut values = Vec::new(alloc);
    for i in 0..problem.rows().len() {
        values.push(row_value(problem, i as u32, point))?;
    }
    Ok(values)
}
