// The numbers of all variables at a point of the columns.
ghost use Rattle.std.specs.Prelude.{◌≡◌, ◌<◌, ◌+◌, length, IfOk, IfSome};
ghost use Rattle.basis.specs.Weights.{numbers_from};
ghost use Rattle.root_cuts.specs.RootBasis.{variable_number};

use fraction::{Frac, NoFit};
use instance::{Instance, Point, activity};
use std::alloc::{AllocError, Global};

// The number of one variable: that of a column, or the value of a row's form.
fn variable_number(problem: &Instance, point: &Point, v: usize) -> Result<Frac, NoFit>
    requires size { length point.now ≡ length problem.now.columns }
    requires known { v < length problem.now.columns + length problem.now.rows }
    ensures { IfOk result (λ n. n ≡ variable_number problem.now point.now v) }
{
    problem.keeps_its_limits();
    let columns = problem.columns().len();
    if v < columns {
        Ok(point.as_slice()[v])
    } else {
        activity(problem, (v - columns) as u32, point)
    }
}

/// The numbers of all variables, or `None` where a sum does not fit.
pub(crate) fn numbers_at(
    alloc: Global,
    problem: &Instance,
    point: &Point,
) -> Result<Option<Vec<Frac>>, AllocError>
    requires size { length point.now ≡ length problem.now.columns }
    ensures { IfOk result (λ o. IfSome o (λ numbers. numbers.items ≡ numbers_from 0 (length problem.now.columns + length problem.now.rows) (variable_number problem.now point.now))) }
{
    problem.keeps_its_limits();
    let mut numbers = Vec::new(alloc);
    for v in 0..problem.columns().len() + problem.rows().len() {
        match variable_number(problem, point, v) {
            Ok(number) => numbers.push(number)?,
            Err(_) => return Ok(None),
        }
    }
    Ok(Some(numbers))
}
