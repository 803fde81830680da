// Bytes of a model text.
ghost use Rattle.std.specs.Prelude.{◌≡◌, ◌≤◌, IsTrue, length};
ghost use Rattle.std.specs.List.{position};
ghost use Rattle.gmpl_lexer.specs.Bytes.{next_is, is_blank, is_quote, begins_name, is_no_name_byte, is_before_name, is_line_feed};

// The next byte is this one.
pub(crate) fn next_is(wanted: u8, text: &[u8]) -> bool
    ensures value { result ≡ next_is wanted text.now }
    ensures more { IsTrue result → 1 ≤ length text.now }
{
    match text {
        [] => false,
        [first, ..] => *first == wanted,
    }
}

// Blank, tab, line feed.
pub(crate) fn is_blank(b: u8) -> bool
    ensures { result ≡ is_blank b }
{
    b == b' ' || (b == b'\t' || b == b'\n')
}

// Either quote.
pub(crate) fn is_quote(b: u8) -> bool
    ensures { result ≡ is_quote b }
{
    b == b'"' || b == b'\''
}

// A letter or `_`.
pub(crate) fn begins_name(b: u8) -> bool
    ensures { result ≡ begins_name b }
{
    b.is_ascii_alphabetic() || b == b'_'
}

// A letter or `_` comes next.
pub(crate) fn is_before_name(text: &[u8]) -> bool
    ensures { result ≡ is_before_name text.now }
{
    match text {
        [] => false,
        [first, ..] => begins_name(*first),
    }
}

// The place of the first byte that is neither a letter nor a digit nor `_`.
pub(crate) fn first_no_name_byte(text: &[u8]) -> Option<usize>
    ensures { result ≡ position is_no_name_byte text.now }
{
    text.iter()
        .position(|b| !(b.is_ascii_alphanumeric() || *b == b'_'))
}

// The place of the first line feed.
pub(crate) fn first_line_feed(text: &[u8]) -> Option<usize>
    ensures { result ≡ position is_line_feed text.now }
{
    text.iter().position(|b| *b == b'\n')
}
