// The best point that a search has found.
ghost use Rattle.std.specs.Prelude.{◌≡◌, IsTrue};
ghost use Rattle.std.specs.List.{AllByRecursion};
ghost use Rattle.fraction.specs.Fits.{fits};
ghost use Rattle.partial_certificate.specs.Written.{IsBest};

use certificate::parts_fit;
use fraction::Frac;
use instance::Point;
use std::marker::Model;

/// A point and its value, the best that was found. Their numbers have a text.
#[derive(Drop)]
pub struct Best {
    point: Point,
    value: Frac,
}

impl Model for Best {
    ghost use Rattle.partial_certificate.specs.Partial.{Best as BestOf};
    ghost use Rattle.partial_certificate.specs.Written.{IsBest};

    ghost Value = { BestOf };

    ghost view = { λ b. record { point = b.point; value = b.value } };

    ghost invariant = { λ b. IsBest (record { point = b.point; value = b.value }) };
}

// Each number is within 128 bits.
fn numbers_fit(numbers: &[Frac])
    ensures { AllByRecursion (λ v. IsTrue (fits v)) numbers.now }
{
    for number in numbers {
        parts_fit(*number);
    }
}

impl Best {
    /// This point and its value. It takes no memory.
    pub fn new(point: Point, value: Frac) -> Self
        ensures same { result ≡ record { point = point; value = value } }
    {
        numbers_fit(point.as_slice());
        parts_fit(value);
        Best { point, value }
    }

    /// The point. All of the numbers have a text.
    pub fn point(&self) -> &Point
        ensures point { result.now ≡ self.now.point }
        ensures written { IsBest self.now }
    {
        &self.point
    }

    /// The value.
    pub fn value(&self) -> Frac
        ensures value { result ≡ self.now.value }
    {
        self.value
    }
}
