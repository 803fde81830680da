// Points.
ghost use Rattle.std.specs.Prelude.{◌≡◌, IfOk, List};

use fraction::Frac;
use std::alloc::{AllocError, Global};
use std::marker::Model;

/// A number for each column.
#[derive(Drop)]
pub struct Point {
    numbers: Vec<Frac>,
}

impl Model for Point {
    ghost use Rattle.std.specs.Prelude.{List};
    ghost use Rattle.rational.specs.Rational.{Rational};

    ghost Value = { List Rational };

    ghost view = { λ p. p.numbers.items };
}

impl Point {
    /// The point with these numbers. It takes no memory.
    pub fn from_vec(numbers: Vec<Frac>) -> Self
        ensures { result ≡ numbers.items }
    {
        Point { numbers }
    }

    /// The same point.
    pub fn copy(&self, alloc: Global) -> Result<Self, AllocError>
        ensures { IfOk result (λ copy. copy ≡ self.now) }
    {
        let numbers = self.numbers.to_vec(alloc)?;
        Ok(Point { numbers })
    }

    /// Its numbers, for reading.
    pub fn as_slice(&self) -> &[Frac]
        ensures { result.now ≡ self.now }
    {
        &self.numbers
    }
}
