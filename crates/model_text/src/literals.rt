// How long a number is that stands at the start of a text.
ghost use Rattle.std.specs.Prelude.{◌≡◌, ◌+◌, ◌^◌, ◌<◌, ◌≤◌, length, drop};
ghost use Rattle.std.specs.List.{position};
ghost use Rattle.model_text.specs.Literals.{is_no_digit, digits, is_sign, is_exponent_mark, raised, after_mark, exponent_length, point_length, places_length, with_exponent};

fn is_sign(b: u8) -> bool
    ensures { result ≡ is_sign b }
{
    b == b'+' || b == b'-'
}

fn is_exponent_mark(b: u8) -> bool
    ensures { result ≡ is_exponent_mark b }
{
    b == b'e' || b == b'E'
}

fn first_no_digit(text: &[u8]) -> Option<usize>
    ensures { result ≡ position is_no_digit text.now }
{
    text.iter().position(|b| !b.is_ascii_digit())
}

/// How many digits stand at the start.
pub fn digits(text: &[u8]) -> usize
    ensures value { result ≡ digits text.now }
    ensures within { result ≤ length text.now }
{
    match first_no_digit(text) {
        Some(place) => place,
        None => text.len(),
    }
}

/// What comes after so many bytes.
pub fn after(text: &[u8], count: usize) -> &[u8]
    requires { count ≤ length text.now }
    ensures { result.now ≡ drop count text.now }
{
    &text[count..]
}

// So many digits with what stands before them, where there are digits.
fn raised(before: usize, count: usize) -> usize
    requires { before + count < 2 ^ 64 }
    ensures { result ≡ raised before count }
{
    if count == 0 { 0 } else { before + count }
}

// The length of an exponent after its mark.
fn after_mark(text: &[u8]) -> usize
    ensures value { result ≡ after_mark text.now }
    ensures within { result ≤ length text.now + 1 }
{
    match text {
        [] => 0,
        [first, rest @ ..] => {
            if is_sign(*first) {
                raised(2, digits(rest))
            } else {
                raised(1, digits(text))
            }
        }
    }
}

fn exponent_length(text: &[u8]) -> usize
    ensures value { result ≡ exponent_length text.now }
    ensures within { result ≤ length text.now }
{
    match text {
        [] => 0,
        [first, rest @ ..] => {
            if is_exponent_mark(*first) {
                after_mark(rest)
            } else {
                0
            }
        }
    }
}

// The length of a point and so many digits after it: one side has a digit.
fn point_length(whole: usize, places: usize) -> usize
    requires { places < 2 ^ 63 }
    ensures { result ≡ point_length whole places }
{
    if whole == 0 && places == 0 {
        0
    } else {
        1 + places
    }
}

/// The length of a point with digits after it, where so many digits stand before it.
pub fn places_length(whole: usize, text: &[u8]) -> usize
    ensures value { result ≡ places_length whole text.now }
    ensures within { result ≤ length text.now }
{
    match text {
        [] => 0,
        [first, rest @ ..] => {
            if *first == b'.' {
                point_length(whole, digits(rest))
            } else {
                0
            }
        }
    }
}

/// The length with an exponent, where so much of the text is the number before it; 0 where there is none.
pub fn with_exponent(mantissa: usize, text: &[u8]) -> usize
    requires { mantissa ≤ length text.now }
    ensures value { result ≡ with_exponent mantissa text.now }
    ensures within { result ≤ length text.now }
{
    if mantissa == 0 {
        0
    } else {
        mantissa + exponent_length(after(text, mantissa))
    }
}
