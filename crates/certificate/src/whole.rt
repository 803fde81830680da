// Whole numbers as a text of 128 bits has them.
ghost use Rattle.std.specs.Prelude.{◌≡◌, ◌≢◌, IsTrue};
ghost use Rattle.rational.specs.Rational.{whole, floor_ℚ};
ghost use Rattle.fraction.specs.Fits.{num_fits, fits};

use fraction::Frac;
use std::marker::Model;

/// A whole number within plus or minus 2^127 - 1. Clauses see it as a whole number.
#[derive(Clone, Copy, Debug, PartialEq, Eq)]
pub struct WholeNumber {
    number: i128,
}

impl Model for WholeNumber {
    ghost use Rattle.std.specs.Prelude.{ℤ, IsTrue};
    ghost use Rattle.fraction.specs.Fits.{num_fits};

    ghost Value = { ℤ };

    ghost view = { λ w. w.number };

    ghost invariant = { λ w. IsTrue (num_fits w.number) };

    ghost inverse = { λ z. record { number = z } };
}

impl WholeNumber {
    /// The whole number `n`.
    pub fn new(n: i128) -> WholeNumber
        requires { n ≢ i128.MIN }
        ensures { result ≡ n }
    {
        WholeNumber { number: n }
    }

    /// The greatest whole number that is at most `value`.
    pub fn floor(value: Frac) -> WholeNumber
        ensures { result ≡ floor_ℚ value }
    {
        parts_fit(value);
        WholeNumber {
            number: value.floor(),
        }
    }

    /// The number.
    pub fn get(self) -> i128
        ensures value { result ≡ self }
        ensures fits { IsTrue (num_fits self) }
    {
        self.number
    }

    /// The number as a fraction.
    pub fn to_frac(self) -> Frac
        ensures { result ≡ whole self }
    {
        Frac::whole(self.number)
    }
}

/// Both parts of a fraction are within plus or minus 2^127 - 1.
pub fn parts_fit(value: Frac)
    ensures { IsTrue (fits value) }
{
    let (_numerator, _denominator) = value.parts();
    let (_negative, _) = value.neg().parts();
}
