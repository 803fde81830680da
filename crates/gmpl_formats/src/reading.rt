// A conversion behind its per cent sign.
ghost use Rattle.std.specs.Prelude.{◌≡◌, ◌≤◌, ◌<◌, ◌+◌, ◌-◌, ◌*◌, not, [], length, take, drop, IfSome};
ghost use Rattle.std.specs.Char.{is_ascii_digit};
ghost use Rattle.std.specs.List.{position};
ghost use Rattle.gmpl_formats.specs.Conversions.{front_count, is_flag, number_on, number_in, point_precision, precision_of, style_of, letter_of, ending_of, sized_of, conversion_of};

use crate::conversion::{Conversion, Style};

const MOST_WIDTH: u32 = 255;

const MOST_PRECISION: u32 = 60;

/// A precision or none, and how many characters it has.
#[derive(Clone, Copy)]
pub struct Precision {
    pub value: Option<u32>,
    pub count: usize,
}

/// A conversion, and how many characters it has.
#[derive(Clone, Copy)]
pub struct Reading {
    pub conversion: Conversion,
    pub count: usize,
}

fn place_behind_flags(text: &[char]) -> Option<usize>
    ensures value { result ≡ position (λ c. not (is_flag c)) text.now }
    ensures bound { IfSome result (λ place. place < length text.now) }
{
    text.iter().position(|c| !(*c == '-' || *c == '0'))
}

fn place_behind_digits(text: &[char]) -> Option<usize>
    ensures value { result ≡ position (λ c. not (is_ascii_digit c)) text.now }
    ensures bound { IfSome result (λ place. place < length text.now) }
{
    text.iter().position(|c| !c.is_ascii_digit())
}

fn flag_count(text: &[char]) -> usize
    ensures value { result ≡ front_count is_flag text.now }
    ensures bound { result ≤ length text.now }
{
    place_behind_flags(text).unwrap_or(text.len())
}

fn digit_count(text: &[char]) -> usize
    ensures value { result ≡ front_count is_ascii_digit text.now }
    ensures bound { result ≤ length text.now }
{
    place_behind_digits(text).unwrap_or(text.len())
}

// 10 * number + digit.
fn with_digit(number: u32, digit: char) -> u32
    requires { number ≤ 255 }
    ensures { result ≡ 10 * number + (digit - 48) }
{
    10 * number + (digit as u32).saturating_sub(48)
}

// The number, where it is at most `most`.
#[tactic(auto, unfolding(crate::specs::Conversions::number_on))]
fn within(number: u32, most: u32) -> Option<u32>
    ensures { result ≡ number_on most number [] }
{
    if number <= most { Some(number) } else { None }
}

// The number of some digits, where it is at most `most`.
fn number_in(digits: &[char], most: u32) -> Option<u32>
    requires { most ≤ 255 }
    ensures { result ≡ number_in most digits.now }
{
    let mut number: u32 = 0;
    for digit in digits {
        if number > most {
            return None;
        }
        number = with_digit(number, *digit);
    }
    within(number, most)
}

// The first characters.
fn front(text: &[char], count: usize) -> &[char]
    requires { count ≤ length text.now }
    ensures { result.now ≡ take count text.now }
{
    &text[..count]
}

// The characters behind the first.
fn behind(text: &[char], count: usize) -> &[char]
    requires { count ≤ length text.now }
    ensures { result.now ≡ drop count text.now }
{
    &text[count..]
}

// The number of so many digits, at most 60, behind a point.
fn point_precision(count: usize, text: &[char]) -> Option<Precision>
    requires { count ≤ length text.now }
    ensures value { result ≡ point_precision count text.now }
    ensures bound { IfSome result (λ p. p.count ≤ length text.now + 1) }
{
    let value = number_in(front(text, count), MOST_PRECISION)?;
    Some(Precision {
        value: Some(value),
        count: 1 + count,
    })
}

// A point and digits, or nothing.
#[tactic(auto, unfolding(crate::specs::Conversions::precision_of))]
fn read_precision(text: &[char]) -> Option<Precision>
    ensures value { result ≡ precision_of text.now }
    ensures bound { IfSome result (λ p. p.count ≤ length text.now) }
{
    match text {
        [first, rest @ ..] => {
            if *first == '.' {
                point_precision(digit_count(rest), rest)
            } else {
                Some(Precision {
                    value: None,
                    count: 0,
                })
            }
        }
        [] => Some(Precision {
            value: None,
            count: 0,
        }),
    }
}

fn style_of(letter: char) -> Option<Style>
    ensures { result ≡ style_of letter }
{
    if letter == 's' {
        Some(Style::Bare)
    } else if letter == 'd' || letter == 'i' {
        Some(Style::Whole)
    } else if letter == 'f' {
        Some(Style::Fixed)
    } else if letter == 'g' {
        Some(Style::General)
    } else {
        None
    }
}

fn letter_of(text: &[char]) -> Option<Style>
    ensures { result ≡ letter_of text.now }
{
    match text {
        [letter, ..] => style_of(*letter),
        [] => None,
    }
}

// A precision and a letter.
#[tactic(auto, unfolding(crate::specs::Conversions::ending_of))]
fn read_ending(text: &[char]) -> Option<Reading>
    ensures value { result ≡ ending_of text.now }
    ensures bound { IfSome result (λ r. r.count ≤ length text.now + 1) }
{
    let precision = read_precision(text)?;
    let style = letter_of(behind(text, precision.count))?;
    let conversion = Conversion {
        style,
        left: false,
        zeros: false,
        width: 0,
        precision: precision.value,
    };
    Some(Reading {
        conversion,
        count: precision.count + 1,
    })
}

// A width of at most 255, and what stands behind it.
#[tactic(auto, unfolding(crate::specs::Conversions::sized_of))]
fn read_sized(text: &[char]) -> Option<Reading>
    ensures value { result ≡ sized_of text.now }
    ensures bound { IfSome result (λ r. r.count ≤ length text.now + 1) }
{
    let digits = digit_count(text);
    let width = number_in(front(text, digits), MOST_WIDTH)?;
    let ending = read_ending(behind(text, digits))?;
    let conversion = Conversion {
        style: ending.conversion.style,
        left: false,
        zeros: false,
        width,
        precision: ending.conversion.precision,
    };
    Some(Reading {
        conversion,
        count: digits + ending.count,
    })
}

/// Flags, a width of at most 255, a precision of at most 60 and a letter.
#[tactic(auto, unfolding(crate::specs::Conversions::conversion_of))]
pub fn read_conversion(text: &[char]) -> Option<Reading>
    ensures value { result ≡ conversion_of text.now }
    ensures bound { IfSome result (λ r. r.count ≤ length text.now + 1) }
{
    let count = flag_count(text);
    let flags = front(text, count);
    let sized = read_sized(behind(text, count))?;
    let conversion = Conversion {
        style: sized.conversion.style,
        left: flags.contains(&'-'),
        zeros: flags.contains(&'0'),
        width: sized.conversion.width,
        precision: sized.conversion.precision,
    };
    Some(Reading {
        conversion,
        count: flags.len() + sized.count,
    })
}
