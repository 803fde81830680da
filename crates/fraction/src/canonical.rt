// The fraction of a text in the form that `Frac::text` gives.
ghost use Rattle.std.specs.Prelude.{◌≡◌, ℕ, ◌+◌, ◌*◌, ◌^◌, ◌<◌, ◌≤◌, ◌↔◌, IsTrue, IfSome, Ok};
ghost use Rattle.std.specs.Option.{option_map, option_and_then};
ghost use Rattle.std.specs.List.{position};
ghost use Rattle.rational.specs.Rational.{Rational};
ghost use Rattle.fraction.specs.Fits.{fits};
ghost use Rattle.fraction.specs.Text.{text_of};
ghost use Rattle.fraction.specs.Reading.{clipped, significant_end};
ghost use Rattle.fraction.specs.Canonical.{is_slash, plain_digits_of, denominator_of, numerator_of, quotient_of, signed, fraction_of, read_canonical_of};
ghost use Rattle.fraction.specs.CanonicalReading.{kept_quotient};

use crate::digits::{after, digits_up_to};
use crate::euclid::gcd;
use crate::frac::Frac;
use crate::read::ReadFault;

const LIMIT: u128 = 1 << 127;

const PART_MAX: u128 = i128::MAX as u128;

// A sign, a numerator and a denominator as they are written, each number up to the limit.
#[derive(Clone, Copy)]
struct Quotient {
    negative: bool,
    numerator: u128,
    denominator: u128,
}

impl Frac {
    /// The fraction of a text that is exactly what [`Frac::text`] gives: `n`, or `n/d` in lowest
    /// terms with d above 1, without zeros at the front and without `-0`. `TooWide` exactly where the
    /// text is of this form, lowest terms aside, and a part passes 2^127 - 1; `NotANumber` exactly
    /// where it is not of this form, or its terms are not lowest.
    pub fn read_canonical(text: &str) -> Result<Frac, ReadFault>
        ensures value { result ≡ read_canonical_of text.now }
        ensures exact { (q : Rational) → (result ≡ Ok q) ↔ (IsTrue (fits q) × (text.now ≡ text_of q)) }
    {
        canonical_fraction(text.as_bytes())
    }
}

fn canonical_fraction(text: &[u8]) -> Result<Frac, ReadFault>
    ensures { result ≡ read_canonical_of text.now }
{
    match read_quotient(text) {
        Some(quotient) => quotient.fraction(),
        None => Err(ReadFault::NotANumber),
    }
}

impl Quotient {
    fn fraction(self) -> Result<Frac, ReadFault>
        requires { 0 < self.denominator }
        ensures { result ≡ fraction_of (record { negative = self.negative; numerator = self.numerator; denominator = self.denominator }) }
    {
        if self.numerator > PART_MAX || self.denominator > PART_MAX {
            return Err(ReadFault::TooWide);
        }
        if gcd(self.numerator, self.denominator) != 1 {
            return Err(ReadFault::NotANumber);
        }
        let size = self.numerator as i128;
        let numerator = if self.negative { -size } else { size };
        Ok(Frac::new(numerator, self.denominator))
    }
}

fn read_quotient(text: &[u8]) -> Option<Quotient>
    ensures value { result ≡ option_map kept_quotient (quotient_of text.now) }
    ensures positive { IfSome result (λ q. 0 < q.denominator) }
{
    match slash_place(text) {
        Some(slash) => numerator(&text[..slash], denominator(after(text, slash))?),
        None => numerator(text, 1),
    }
}

// Where the first slash stands.
fn slash_place(text: &[u8]) -> Option<usize>
    ensures { result ≡ position is_slash text.now }
{
    text.iter().position(|c| *c == b'/')
}

fn numerator(text: &[u8], denominator: u128) -> Option<Quotient>
    requires { denominator ≤ significant_end }
    ensures value { result ≡ option_map kept_quotient (numerator_of denominator text.now) }
    ensures denominator { IfSome result (λ q. q.denominator ≡ denominator) }
{
    match text {
        [b'-', rest @ ..] => match plain_digits(rest)? {
            0 => None,
            numerator => Some(Quotient {
                negative: true,
                numerator,
                denominator,
            }),
        },
        all => {
            let numerator = plain_digits(all)?;
            Some(Quotient {
                negative: false,
                numerator,
                denominator,
            })
        }
    }
}

fn denominator(text: &[u8]) -> Option<u128>
    ensures value { result ≡ option_map (clipped significant_end) (denominator_of text.now) }
    ensures large { IfSome result (λ n. 1 < n) }
    ensures small { IfSome result (λ n. n ≤ significant_end) }
{
    let number = plain_digits(text)?;
    if number > 1 { Some(number) } else { None }
}

fn plain_digits(text: &[u8]) -> Option<u128>
    ensures value { result ≡ option_map (clipped significant_end) (plain_digits_of text.now) }
    ensures small { IfSome result (λ n. n ≤ significant_end) }
{
    match text {
        [b'0', _, ..] => None,
        all => digits_up_to(all, LIMIT),
    }
}
