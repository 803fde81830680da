// A product and a sum at once, exact where the value fits.
ghost use Rattle.std.specs.Prelude.{◌≡◌, IsTrue, SomeIff, IfErr, cond, false};
ghost use Rattle.rational.specs.Rational.{◌+ℚ◌, ◌*ℚ◌};
ghost use Rattle.fraction.specs.Fits.{fits};
ghost use Rattle.fraction.specs.Answers.{mul_add_answer, DoesNotFit};

use crate::frac::{Frac, NoFit, Op};

impl Frac {
    /// `self * a + b`. However large the product or the sum on the way, it is `Ok` exactly where the
    /// value in lowest terms fits. Else `NoFit` names `self * a` where that does not fit, and
    /// otherwise the sum of that product and `b`.
    pub fn mul_add(self, a: Frac, b: Frac) -> Result<Frac, NoFit>
        ensures value { result ≡ mul_add_answer self a b }
        ensures fault { IfErr result DoesNotFit }
    {
        match self.fused(a, b) {
            Some(value) => Ok(value),
            None => Err(self.fused_fault(a, b)),
        }
    }

    // What doesn't fit where the value doesn't.
    fn fused_fault(self, a: Frac, b: Frac) -> NoFit
        requires { fits (self *ℚ a +ℚ b) ≡ false }
        ensures value { result ≡ cond (fits (self *ℚ a)) (record { a = self *ℚ a; op = Op.Add; b = b }) (record { a = self; op = Op.Mul; b = a }) }
        ensures fault { DoesNotFit result }
    {
        match self.exact_product(a) {
            Some(product) => NoFit {
                a: product,
                op: Op::Add,
                b,
            },
            None => NoFit {
                a: self,
                op: Op::Mul,
                b: a,
            },
        }
    }

    fn fused(self, a: Frac, b: Frac) -> Option<Frac>
        ensures { SomeIff result (IsTrue (fits (self *ℚ a +ℚ b))) (self *ℚ a +ℚ b) }
    {
        match self.exact_product(a) {
            Some(product) => product.exact_sum(b),
            None => self.wide_fused(a, b),
        }
    }

    // The sum, where it fits.
    fn exact_sum(self, other: Frac) -> Option<Frac>
        ensures { SomeIff result (IsTrue (fits (self +ℚ other))) (self +ℚ other) }
    {
        match self.scaled_sum(other) {
            Some(total) => Some(total),
            None => self.widened().sum(other),
        }
    }

    // The value by wide numbers.
    fn wide_fused(self, a: Frac, b: Frac) -> Option<Frac>
        ensures { SomeIff result (IsTrue (fits (self *ℚ a +ℚ b))) (self *ℚ a +ℚ b) }
    {
        self.wide_product(a).sum(b)
    }
}
