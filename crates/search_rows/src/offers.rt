// Whether points may be offered to a board.
ghost use Rattle.std.specs.Prelude.{◌≡◌, true, IfOk, Ok, is_ok};
ghost use Rattle.milp.specs.Points.{Feasible, objective_value};
ghost use Rattle.instance.specs.Sums.{meets_answer, value_answer};
ghost use Rattle.search_tree.specs.Kept.{HasSums};

use fraction::{Frac, NoFit};
use instance::{Instance, Point, meets, value};

/// The point may be offered: it is feasible, and its sums fit.
pub(crate) fn may_be_offered(problem: &Instance, point: &Point) -> bool
    ensures feasible { result ≡ true → Feasible problem.now point.now }
    ensures sums { result ≡ true → HasSums problem.now point.now }
{
    is_feasible(problem, point) && has_value(problem, point)
}

fn is_feasible(problem: &Instance, point: &Point) -> bool
    ensures feasible { result ≡ true → Feasible problem.now point.now }
    ensures met { result ≡ true → meets_answer problem.now point.now ≡ Ok true }
{
    passes(meets(problem, point))
}

fn has_value(problem: &Instance, point: &Point) -> bool
    requires { Feasible problem.now point.now }
    ensures { result ≡ true → value_answer problem.now point.now ≡ Ok (objective_value problem.now point.now) }
{
    fits(value(problem, point))
}

// The answer of a test; false where an operation does not fit.
fn passes(answer: Result<bool, NoFit>) -> bool
    ensures { result ≡ true → answer ≡ Ok true }
{
    match answer {
        Ok(passes) => passes,
        Err(_) => false,
    }
}

fn fits(answer: Result<Frac, NoFit>) -> bool
    ensures { result ≡ true → is_ok answer ≡ true }
{
    match answer {
        Ok(_) => true,
        Err(_) => false,
    }
}
