// Numbers turned so that less is better.
ghost use Rattle.std.specs.Prelude.{◌≡◌};
ghost use Rattle.rational.specs.Rational.{◌*ℚ◌};
ghost use Rattle.milp.specs.Points.{sign_of};

use fraction::Frac;
use milp::Direction;

/// The number where the least value is wanted, and its negative where the greatest is.
#[tactic(auto, using(crate::proofs::Directions::least, crate::proofs::Directions::greatest))]
pub fn signed(direction: Direction, v: Frac) -> Frac
    ensures { result ≡ sign_of direction *ℚ v }
{
    match direction {
        Direction::Min => v,
        Direction::Max => v.neg(),
    }
}
