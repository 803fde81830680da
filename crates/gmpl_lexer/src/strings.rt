// How long strings and comments are.
ghost use Rattle.std.specs.Prelude.{◌≡◌, ◌≤◌, IsTrue, length};
ghost use Rattle.gmpl_lexer.specs.Strings.{string_length, line_length, closes_comment, comment_length};
ghost use Rattle.gmpl_lexer.specs.Steps.{string_step};

use crate::bytes::{first_line_feed, next_is};
use model_text::after;

// How far a string goes on at a place: 0 at its end.
fn string_step(quote: u8, text: &[u8]) -> usize
    ensures value { result ≡ string_step quote text.now }
    ensures within { result ≤ length text.now }
{
    match text {
        [] => 0,
        [first] => {
            if *first == quote || *first == b'\n' {
                0
            } else {
                1
            }
        }
        [first, second, ..] => {
            if *first == b'\n' {
                0
            } else if *first == quote {
                if *second == quote { 2 } else { 0 }
            } else {
                1
            }
        }
    }
}

/// How many bytes stand behind an opening quote, before the closing one or the line's end.
pub(crate) fn string_length(quote: u8, text: &[u8]) -> usize
    ensures value { result ≡ string_length quote text.now }
    ensures within { result ≤ length text.now }
{
    let mut size = 0;
    let mut step = string_step(quote, text);
    while step != 0 {
        size += step;
        step = string_step(quote, after(text, size));
    }
    size
}

/// How many bytes stand before the end of the line.
pub(crate) fn line_length(text: &[u8]) -> usize
    ensures value { result ≡ line_length text.now }
    ensures within { result ≤ length text.now }
{
    match first_line_feed(text) {
        Some(place) => place,
        None => text.len(),
    }
}

/// `*/` comes next.
pub(crate) fn closes_comment(text: &[u8]) -> bool
    ensures value { result ≡ closes_comment text.now }
    ensures more { IsTrue result → 2 ≤ length text.now }
{
    match text {
        [] => false,
        [first, rest @ ..] => *first == b'*' && next_is(b'/', rest),
    }
}

/// How many bytes stand before the first `*/`.
pub(crate) fn comment_length(text: &[u8]) -> usize
    ensures value { result ≡ comment_length text.now }
    ensures within { result ≤ length text.now }
{
    let mut size = 0;
    while size < text.len() && !closes_comment(after(text, size)) {
        size += 1;
    }
    size
}
