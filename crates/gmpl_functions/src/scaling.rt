// Forms with each coefficient changed alike.
ghost use Rattle.std.specs.Prelude.{◌≡◌};
ghost use Rattle.gmpl_value.specs.Outcome.{Gives};
ghost use Rattle.gmpl_functions.specs.Scalings.{scaled_number};

use crate::quotient;
use crate::words::product;
use fraction::Frac;
use gmpl_value::EvalFault;

/// What is done to each coefficient of a form.
#[derive(Clone, Copy)]
pub enum Scaling {
    /// Times a number that stands to the right.
    By(Frac),
    /// Times a number that stands to the left.
    Of(Frac),
    /// Divided by a number.
    Over(Frac),
    /// With the other sign.
    Negated,
}

impl Scaling {
    // A number that is scaled.
    pub(crate) fn applied(&self, number: Frac) -> Result<Frac, EvalFault>
        ensures { Gives result (scaled_number self.now number) }
    {
        match self {
            Scaling::By(factor) => Ok(product(number, *factor)?),
            Scaling::Of(factor) => Ok(product(*factor, number)?),
            Scaling::Over(divisor) => quotient(number, *divisor),
            Scaling::Negated => Ok(number.neg()),
        }
    }
}
