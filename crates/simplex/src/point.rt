// Points on the columns.
ghost use Rattle.std.specs.Prelude.{length, ◌≡◌, ◌≤◌, IfOk};
ghost use Rattle.milp.specs.Form.{number_at};
ghost use Rattle.basis.specs.Weights.{numbers_from};

use fraction::Frac;
use instance::Point;
use std::alloc::{AllocError, Global};

/// The numbers of the columns, which are the first variables.
#[tactic(auto, using(crate::proofs::PointNumbers::first_numbers))]
pub(crate) fn point_of(alloc: Global, values: &[Frac], columns: usize) -> Result<Point, AllocError>
    requires { columns ≤ length values.now }
    ensures { IfOk result (λ p. p ≡ numbers_from 0 columns (number_at values.now)) }
{
    Ok(Point::from_vec(values[..columns].to_vec(alloc)?))
}
