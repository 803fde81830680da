// Bounds together with one number more.
ghost use Rattle.std.specs.Prelude.{◌≡◌};
ghost use Rattle.verdicts.specs.Proves.{greater, lesser};

use fraction::Frac;

/// The greater of a lower bound and a number: the number where there is no bound.
pub fn greater(bound: Option<Frac>, b: Frac) -> Frac
    ensures { result ≡ greater bound b }
{
    match bound {
        None => b,
        Some(a) => if a <= b { b } else { a },
    }
}

/// The lesser of an upper bound and a number: the number where there is no bound.
pub fn lesser(bound: Option<Frac>, b: Frac) -> Frac
    ensures { result ≡ lesser bound b }
{
    match bound {
        None => b,
        Some(a) => if a <= b { a } else { b },
    }
}
