// The whole number nearest to a quotient.
ghost use Rattle.std.specs.Prelude.{◌≡◌, ◌≤◌, ◌<◌, ◌*◌, ◌^◌};
ghost use Rattle.wide.specs.Parts.{wide_end};
ghost use Rattle.decimals.specs.Rounding.{nearest, rounded};
ghost use Rattle.decimals.specs.Fits.{FitsScaled};

use std::cmp::Ordering;
use wide::Wide;

// The most tens that one factor holds.
const FACTOR_PLACES: u32 = 38;

// The number times 10^places.
pub fn scaled(number: Wide, places: u32) -> Wide
    requires { number * 10 ^ places < wide_end }
    ensures { result ≡ number * 10 ^ places }
{
    if places <= FACTOR_PLACES {
        number.times(10u128.pow(places))
    } else {
        scaled(
            number.times(10u128.pow(FACTOR_PLACES)),
            places - FACTOR_PLACES,
        )
    }
}

// The whole number nearest to the quotient, and of two that are as near the even one.
#[tactic(auto, unfolding(crate::specs::Rounding::nearest))]
pub fn nearest(number: Wide, divisor: u128) -> Wide
    requires positive { 0 < divisor }
    requires small { divisor < 2 ^ 127 }
    ensures { result ≡ nearest number divisor }
{
    let (quotient, rest) = number.divided_by(divisor);
    match (2 * rest).cmp(&divisor) {
        Ordering::Less => quotient,
        Ordering::Greater => quotient.add(Wide::product(1, 1)),
        Ordering::Equal => quotient.add(Wide::product(quotient.divided_by(2).1, 1)),
    }
}

// The whole number nearest to n / d times 10^places.
#[tactic(auto, unfolding(crate::specs::Rounding::rounded))]
pub fn rounded(n: u128, d: u128, places: i32) -> Wide
    requires positive { 0 < d }
    requires small { d < 2 ^ 127 }
    requires fits { FitsScaled n d places }
    ensures { result ≡ rounded n d places }
{
    let count = places.unsigned_abs();
    if places < 0 {
        nearest(Wide::product(n, 1), d * 10u128.pow(count))
    } else {
        nearest(scaled(Wide::product(n, 1), count), d)
    }
}
