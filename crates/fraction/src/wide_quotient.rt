// Products that may be too large for a fraction, and their sums with fractions.
ghost use Rattle.std.specs.Prelude.{◌≡◌, ℕ, ℤ, pos, unsigned_abs, ◌+ℤ◌, ◌*ℤ◌, ◌*◌, ◌/◌, ◌+◌, ◌^◌, ◌<◌, ◌≤◌, IsTrue, SomeIff};
ghost use Rattle.integer.specs.Gcd.{gcd};
ghost use Rattle.integer.specs.Lowest.{IsLowest};
ghost use Rattle.rational.specs.Rational.{Rational, over, ◌+ℚ◌, ◌*ℚ◌};
ghost use Rattle.fraction.specs.Fits.{part_max, fits};
ghost use Rattle.fraction.specs.Canonical.{signed};
ghost use Rattle.fraction.specs.WideValue.{value_of, IsProduct};

use crate::euclid::gcd;
use crate::frac::{Frac, divided};
use wide::Wide;

const PART_MAX: u128 = i128::MAX as u128;

// A quotient, with a sign, of numbers as large as a product of two parts of fractions.
#[derive(Clone, Copy)]
pub struct WideQuotient {
    pub negative: bool,
    pub numerator: Wide,
    pub denominator: Wide,
}

impl Frac {
    // The sign and the size of the numerator, and the denominator.
    fn sizes(self) -> (bool, u128, u128)
        ensures numerator { signed result.0 result.1 ≡ self.numerator }
        ensures denominator { result.2 ≡ self.denominator }
        ensures num_fits { result.1 ≤ part_max }
        ensures den_fits { result.2 ≤ part_max }
    {
        let (numerator, denominator) = self.open();
        (
            is_negative(numerator),
            numerator.unsigned_abs(),
            denominator,
        )
    }

    // The number itself.
    pub(crate) fn widened(self) -> WideQuotient
        ensures value { value_of result ≡ self }
        ensures form { IsProduct result }
    {
        let (negative, numerator, denominator) = self.sizes();
        WideQuotient {
            negative,
            numerator: product(numerator, 1),
            denominator: product(denominator, 1),
        }
    }

    // The product, whatever its size.
    pub(crate) fn wide_product(self, other: Frac) -> WideQuotient
        ensures value { value_of result ≡ self *ℚ other }
        ensures form { IsProduct result }
    {
        let (a_negative, a, b) = self.sizes();
        let (c_negative, c, d) = other.sizes();
        let left = gcd(a, d);
        let right = gcd(c, b);
        WideQuotient {
            negative: a_negative != c_negative,
            numerator: product(divided(a, left), divided(c, right)),
            denominator: product(divided(b, right), divided(d, left)),
        }
    }
}

impl WideQuotient {
    // The sum of a product and a fraction, where it fits.
    pub fn sum(self, other: Frac) -> Option<Frac>
        requires { IsProduct self }
        ensures { SomeIff result (IsTrue (fits (value_of self +ℚ other))) (value_of self +ℚ other) }
    {
        let (negative, size, denominator) = other.sizes();
        let common = common_divisor(self.denominator, denominator);
        let scale = divided(denominator, common);
        let (other_scale, _) = self.denominator.divided_by(common);
        let left = scaled(self.numerator, scale);
        let right = scaled(other_scale, size);
        let (total_negative, total) = signed_sum(self.negative, left, negative, right);
        // the sum has nothing else in common with its denominator
        reduced(
            total_negative,
            total,
            scaled(self.denominator, scale),
            common,
        )
    }
}

fn is_negative(n: i128) -> bool
    ensures { n ≡ signed result (unsigned_abs n) }
{
    n < 0
}

// a * b, for two parts of fractions.
fn product(a: u128, b: u128) -> Wide
    requires first { a ≤ part_max }
    requires second { b ≤ part_max }
    ensures value { result ≡ a * b }
    ensures small { result < 2 ^ 254 }
{
    Wide::product(a, b)
}

// A product of two parts, times a third.
fn scaled(number: Wide, factor: u128) -> Wide
    requires number { number < 2 ^ 254 }
    requires factor { factor ≤ part_max }
    ensures value { result ≡ number * factor }
    ensures small { result < 2 ^ 382 }
{
    number.times(factor)
}

// The greatest common divisor of a wide number and a part.
fn common_divisor(number: Wide, other: u128) -> u128
    requires positive { 0 < other }
    requires small { other ≤ part_max }
    ensures value { result ≡ gcd number other }
    ensures positive { 0 < result }
    ensures small { result ≤ part_max }
{
    let (_, rest) = number.divided_by(other);
    gcd(rest, other)
}

// The sum of two numbers with signs.
fn signed_sum(left_negative: bool, left: Wide, right_negative: bool, right: Wide) -> (bool, Wide)
    requires { left + right < 2 ^ 384 }
    ensures { signed result.0 result.1 ≡ signed left_negative left +ℤ signed right_negative right }
{
    if left_negative == right_negative {
        (left_negative, left.add(right))
    } else if left.is_below(right) {
        (right_negative, right.sub(left))
    } else {
        (left_negative, left.sub(right))
    }
}

// A quotient whose parts share only what the numerator shares with `common`, in lowest terms, where
// it fits.
fn reduced(negative: bool, numerator: Wide, denominator: Wide, common: u128) -> Option<Frac>
    requires positive { 0 < common }
    requires small { common ≤ part_max }
    requires lowest { IsLowest (signed negative (numerator / gcd numerator common)) (denominator / gcd numerator common) }
    ensures { SomeIff result (IsTrue (fits (over (signed negative (numerator / gcd numerator common)) (denominator / gcd numerator common)))) (over (signed negative (numerator / gcd numerator common)) (denominator / gcd numerator common)) }
{
    let shared = common_divisor(numerator, common);
    let (size, _) = numerator.divided_by(shared);
    let (denominator, _) = denominator.divided_by(shared);
    narrowed(negative, size, denominator)
}

// A quotient in lowest terms, where it fits.
fn narrowed(negative: bool, numerator: Wide, denominator: Wide) -> Option<Frac>
    requires { IsLowest (signed negative numerator) denominator }
    ensures { SomeIff result (IsTrue (fits (over (signed negative numerator) denominator))) (over (signed negative numerator) denominator) }
{
    let size = part(numerator)?;
    let denominator = part(denominator)?;
    Some(Frac::new(with_minus(negative, size), denominator))
}

// The number, where it is at most 2^127 - 1.
fn part(number: Wide) -> Option<u128>
    ensures { SomeIff result (number ≤ part_max) number }
{
    match number.to_u128() {
        Some(n) if n <= PART_MAX => Some(n),
        _ => None,
    }
}

// The number, or its negative.
fn with_minus(negative: bool, size: u128) -> i128
    requires { size ≤ part_max }
    ensures { result ≡ signed negative size }
{
    if negative {
        -(size as i128)
    } else {
        size as i128
    }
}
