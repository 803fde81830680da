// How long a number is.
ghost use Rattle.std.specs.Prelude.{◌≡◌, ◌≤◌, length};
ghost use Rattle.gmpl_lexer.specs.Numbers.{places_before_range, mantissa_length, literal_length};

use model_text::{after, digits, places_length, with_exponent};

// The length of a point with digits after it, where so many stand before it; two points are none of a number.
fn places_before_range(whole: usize, text: &[u8]) -> usize
    ensures value { result ≡ places_before_range whole text.now }
    ensures within { result ≤ length text.now }
{
    if text.starts_with(b"..") {
        0
    } else {
        places_length(whole, text)
    }
}

fn mantissa_length(text: &[u8]) -> usize
    ensures value { result ≡ mantissa_length text.now }
    ensures within { result ≤ length text.now }
{
    let whole = digits(text);
    whole + places_before_range(whole, after(text, whole))
}

// The length of the longest number at the start without sign; 0 where there is none.
pub(crate) fn literal_length(text: &[u8]) -> usize
    ensures value { result ≡ literal_length text.now }
    ensures within { result ≤ length text.now }
{
    with_exponent(mantissa_length(text), text)
}
