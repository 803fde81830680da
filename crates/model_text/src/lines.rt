// The lines of a text.
ghost use Rattle.std.specs.Prelude.{◌≡◌, ◌+◌, ◌<◌, ◌≤◌, ◌==◌, [], ◌∷◌, length, if◌then◌else◌, Some, None, IfSome, IfNone};
ghost use Rattle.std.specs.Option.{option_map};
ghost use Rattle.std.specs.List.{position};
ghost use Rattle.std.specs.Str.{is_utf8};
ghost use Rattle.std.specs.Str.Lines.{strip_carriage_return};
ghost use Rattle.model_text.specs.Lines.{lines_of};

use crate::literals::after;

/// The first line of a text and what comes after it, or nothing where the text is empty. The lines of a text are its
/// first line, and then those of what comes after it.
pub fn first_line(text: &[u8]) -> Option<(&[u8], &[u8])>
    ensures some { IfSome result (λ parts. lines_of text.now ≡ parts.0.now ∷ lines_of parts.1.now) }
    ensures none { IfNone result (text.now ≡ []) }
    ensures shorter { IfSome result (λ parts. length parts.1.now < length text.now) }
    ensures within { IfSome result (λ parts. length parts.0.now + length parts.1.now ≤ length text.now) }
{
    match line_feed(text) {
        Some(place) => Some((without_return(&text[..place]), after(text, place + 1))),
        None => last_line(text),
    }
}

fn line_feed(text: &[u8]) -> Option<usize>
    ensures { result ≡ position (λ b. b == 10) text.now }
{
    text.iter().position(|b| *b == b'\n')
}

// The line of a text without a line feed, where it is not empty.
fn last_line(text: &[u8]) -> Option<(&[u8], &[u8])>
    requires { position (λ b. b == 10) text.now ≡ None }
    ensures some { IfSome result (λ parts. lines_of text.now ≡ parts.0.now ∷ lines_of parts.1.now) }
    ensures none { IfNone result (text.now ≡ []) }
    ensures shorter { IfSome result (λ parts. length parts.1.now < length text.now) }
    ensures within { IfSome result (λ parts. length parts.0.now + length parts.1.now ≤ length text.now) }
{
    if text.is_empty() {
        None
    } else {
        Some((text, after(text, text.len())))
    }
}

fn without_return(line: &[u8]) -> &[u8]
    ensures value { result.now ≡ strip_carriage_return line.now }
    ensures within { length result.now ≤ length line.now }
{
    let count = line.len();
    if count > 0 && line[count - 1] == b'\r' {
        &line[..count - 1]
    } else {
        line
    }
}

/// The bytes as text, if they are UTF-8.
pub fn as_text(line: &[u8]) -> Option<&str>
    ensures { option_map (λ t. t.now) result ≡ (if is_utf8 line.now then Some line.now else None) }
{
    match str::from_utf8(line) {
        Ok(text) => Some(text),
        Err(_) => None,
    }
}
