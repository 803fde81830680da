// Comments, and the text of bytes.
ghost use Rattle.std.specs.Prelude.{◌≡◌};
ghost use Rattle.std.specs.List.{position};
ghost use Rattle.cplex_lp_tokens.specs.Tokens.{is_comment_mark, without_comment, kept_text};

use model_text::as_text;

// A text; a byte that isn't UTF-8 is kept without text.
pub(crate) fn kept_text(bytes: &[u8]) -> &str
    ensures { result.now ≡ kept_text bytes.now }
{
    match as_text(bytes) {
        Some(text) => text,
        None => "",
    }
}

fn comment_mark(line: &[u8]) -> Option<usize>
    ensures { result ≡ position is_comment_mark line.now }
{
    line.iter().position(|b| *b == b'\\')
}

// What stands before a comment.
pub(crate) fn without_comment(line: &[u8]) -> &[u8]
    ensures { result.now ≡ without_comment line.now }
{
    match comment_mark(line) {
        Some(place) => &line[..place],
        None => line,
    }
}
