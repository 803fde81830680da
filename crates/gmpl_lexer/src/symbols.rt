// What stands at a place of a data section.
ghost use Rattle.std.specs.Prelude.{◌≡◌, ◌+◌, ◌<◌, ◌≤◌, ◌∷◌, length};
ghost use Rattle.std.specs.List.{position, position_or_len};
ghost use Rattle.gmpl_lexer.specs.Bytes as model;
ghost use Rattle.gmpl_lexer.specs.Lexemes.{gap, token, short_at};
ghost use Rattle.gmpl_lexer.specs.Symbols.{is_as_in_models, is_symbol_byte, is_no_symbol_byte, symbol_at, delimiter, delimiter_at, data_lexeme_at};

use crate::{Lexeme, LexemeKind, lexeme_at};
use gmpl_token::{LexFaultKind, TokenKind};

// Blank, tab, line feed.
fn is_blank(b: u8) -> bool
    ensures { result ≡ model.is_blank b }
{
    b == b' ' || (b == b'\t' || b == b'\n')
}

// Either quote.
fn is_quote(b: u8) -> bool
    ensures { result ≡ model.is_quote b }
{
    b == b'"' || b == b'\''
}

// Blanks, line ends, comments and strings are those of a model.
fn is_as_in_models(first: u8, text: &[u8]) -> bool
    ensures { result ≡ is_as_in_models first text.now }
{
    is_blank(first)
        || (first == b'\r' || (first == b'#' || (is_quote(first) || text.starts_with(b"/*"))))
}

// A letter, a digit or one of `+ - . _`.
fn is_symbol_byte(b: u8) -> bool
    ensures { result ≡ is_symbol_byte b }
{
    b.is_ascii_alphanumeric() || (b == b'+' || (b == b'-' || (b == b'.' || b == b'_')))
}

// The place of the first byte that is none of a bare symbol.
fn first_no_symbol_byte(text: &[u8]) -> Option<usize>
    ensures { result ≡ position is_no_symbol_byte text.now }
{
    text.iter().position(|b| !is_symbol_byte(*b))
}

// How many bytes of a bare symbol stand at the start.
fn symbol_bytes(text: &[u8]) -> usize
    ensures value { result ≡ position_or_len is_no_symbol_byte text.now }
    ensures within { result ≤ length text.now }
{
    match first_no_symbol_byte(text) {
        Some(place) => place,
        None => text.len(),
    }
}

fn token(size: usize, kind: TokenKind) -> Lexeme
    ensures value { result ≡ token size kind }
    ensures size { result.size ≡ size }
{
    Lexeme {
        size,
        kind: LexemeKind::Token(kind),
    }
}

// A bare symbol, behind its first byte.
fn symbol_at(rest: &[u8]) -> Lexeme
    ensures value { result ≡ symbol_at rest.now }
    ensures some { 0 < result.size }
    ensures within { result.size ≤ 1 + length rest.now }
{
    token(1 + symbol_bytes(rest), TokenKind::Name)
}

fn delimiter(b: u8) -> Option<TokenKind>
    ensures { result ≡ delimiter b }
{
    match b {
        b',' => Some(TokenKind::Comma),
        b':' => Some(TokenKind::Colon),
        b';' => Some(TokenKind::Semicolon),
        b'(' => Some(TokenKind::OpenParenthesis),
        b')' => Some(TokenKind::CloseParenthesis),
        b'[' => Some(TokenKind::OpenBracket),
        b']' => Some(TokenKind::CloseBracket),
        b'*' => Some(TokenKind::Times),
        _ => None,
    }
}

fn short_at(kind: Option<TokenKind>) -> Lexeme
    ensures value { result ≡ short_at kind }
    ensures size { result.size ≡ 1 }
{
    match kind {
        Some(kind) => token(1, kind),
        None => Lexeme {
            size: 1,
            kind: LexemeKind::Bad(LexFaultKind::BadByte),
        },
    }
}

// A delimiter of two bytes, or else of one.
fn delimiter_at(first: u8, text: &[u8]) -> Lexeme
    ensures value { result ≡ delimiter_at first text.now }
    ensures some { 0 < result.size }
    ensures within { 1 ≤ length text.now → result.size ≤ length text.now }
{
    if text.starts_with(b":=") {
        token(2, TokenKind::Assign)
    } else {
        short_at(delimiter(first))
    }
}

/// What stands at the start of a text.
pub(crate) fn data_lexeme_at(text: &[u8]) -> Lexeme
    ensures value { result ≡ data_lexeme_at text.now }
    ensures some { 0 < result.size }
    ensures within { 0 < length text.now → result.size ≤ length text.now }
{
    match text {
        [] => Lexeme {
            size: 1,
            kind: LexemeKind::Gap,
        },
        [first, rest @ ..] => {
            if is_as_in_models(*first, text) {
                lexeme_at(false, text)
            } else if is_symbol_byte(*first) {
                symbol_at(rest)
            } else {
                delimiter_at(*first, text)
            }
        }
    }
}
