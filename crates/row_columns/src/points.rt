// Points without the values of the forms' columns.
ghost use Rattle.std.specs.Prelude.{◌≡◌, ◌≤◌, ◌+◌, drop, length, IfOk};

use crate::forms::Forms;
use fraction::Frac;
use instance::Point;
use std::alloc::{AllocError, Global};

// The numbers of a point behind those of the forms.
pub(crate) fn point_behind(alloc: Global, forms: &Forms, point: &Point) -> Result<Point, AllocError>
    requires { length forms.now ≤ length point.now }
    ensures numbers { IfOk result (λ rest. rest ≡ drop (length forms.now) point.now) }
    ensures size { IfOk result (λ rest. length forms.now + length rest ≡ length point.now) }
{
    let numbers = numbers_behind(forms.as_slice().len(), point.as_slice());
    Ok(Point::from_vec(numbers.to_vec(alloc)?))
}

fn numbers_behind(count: usize, numbers: &[Frac]) -> &[Frac]
    requires { count ≤ length numbers.now }
    ensures numbers { result.now ≡ drop count numbers.now }
    ensures size { count + length result.now ≡ length numbers.now }
{
    &numbers[count..]
}
