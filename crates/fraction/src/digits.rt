// Numbers of decimal digits, up to a limit.
ghost use Rattle.std.specs.Prelude.{◌≡◌, ◌+◌, ◌*◌, ◌^◌, ◌<◌, ◌≤◌, length, drop, min, IfSome};
ghost use Rattle.fraction.specs.Reading.{clipped, clipped_digits_of};

// The text after a place in it.
pub fn after(text: &[u8], place: usize) -> &[u8]
    requires { place < length text.now }
    ensures { result.now ≡ drop (place + 1) text.now }
{
    &text[place + 1..]
}

// The number of at least one digit, or the limit where that is less.
pub fn digits_up_to(text: &[u8], limit: u128) -> Option<u128>
    requires { limit ≤ 2 ^ 127 }
    ensures value { result ≡ clipped_digits_of limit text.now }
    ensures small { IfSome result (λ n. n ≤ limit) }
{
    if text.is_empty() {
        return None;
    }
    let mut number: u128 = 0;
    for c in text {
        if !c.is_ascii_digit() {
            return None;
        }
        number = with_digit(number, *c - b'0', limit);
    }
    Some(number)
}

// 10 * number + digit, or the limit where that is less.
fn with_digit(number: u128, digit: u8, limit: u128) -> u128
    requires limit { limit ≤ 2 ^ 127 }
    requires digit { digit < 10 }
    ensures { result ≡ clipped limit (10 * number + digit) }
{
    if number > limit / 10 {
        return limit;
    }
    (10 * number + u128::from(digit)).min(limit)
}
