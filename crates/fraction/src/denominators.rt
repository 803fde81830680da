// Least common denominators.
ghost use Rattle.std.specs.Prelude.{ℕ, pos, ◌≡◌, ◌<◌, ◌≤◌, ◌*◌, ◌/◌, IfOk, IfErr};
ghost use Rattle.integer.specs.Gcd.{gcd};
ghost use Rattle.rational.specs.Rational.{over};
ghost use Rattle.rational.specs.Denominators.{common_denominator};
ghost use Rattle.fraction.specs.Fits.{part_max};
ghost use Rattle.fraction.specs.Denominators.{IsShareFault, IsDenominatorFault};

use crate::euclid::gcd;
use crate::frac::{Frac, NoFit, Op, den_product, divided};

/// The least common denominator, or the first sum of 1 over that of the numbers so far and 1 over the next number's
/// denominator that does not fit.
pub fn common_denominator(numbers: &[Frac]) -> Result<u128, NoFit>
    ensures ok { IfOk result (λ m. m ≡ common_denominator 1 numbers.now) }
    ensures fits { IfOk result (λ m. m ≤ part_max) }
    ensures err { IfErr result (IsDenominatorFault numbers.now) }
{
    let mut common = 1;
    for number in numbers {
        common = common_multiple(common, denominator(*number))?;
    }
    Ok(common)
}

fn denominator(number: Frac) -> u128
    ensures same { result ≡ number.denominator }
    ensures some { 0 < result }
    ensures fits { result ≤ part_max }
{
    number.parts().1 as u128
}

// The least common multiple.
#[tactic(auto, using(crate::proofs::Shares::multiple_some, crate::proofs::FracLemmas::gcd_some))]
fn common_multiple(m: u128, d: u128) -> Result<u128, NoFit>
    requires m_some { 0 < m }
    requires m_fits { m ≤ part_max }
    requires d_some { 0 < d }
    requires d_fits { d ≤ part_max }
    ensures ok { IfOk result (λ l. l ≡ m * (d / gcd m d)) }
    ensures some { IfOk result (λ l. 0 < l) }
    ensures fits { IfOk result (λ l. l ≤ part_max) }
    ensures err { IfErr result (IsShareFault m d) }
{
    match den_product(m, divided(d, gcd(m, d))) {
        Some(multiple) => Ok(multiple),
        None => Err(NoFit {
            a: share(m),
            op: Op::Add,
            b: share(d),
        }),
    }
}

// 1 / m
#[tactic(auto, using(crate::proofs::Shares::lowest_share))]
fn share(m: u128) -> Frac
    requires some { 0 < m }
    requires fits { m ≤ part_max }
    ensures { result ≡ over (pos 1) m }
{
    Frac::new(1, m)
}
