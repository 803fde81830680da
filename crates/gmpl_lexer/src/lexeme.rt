// What stands at a place of a model text.
ghost use Rattle.std.specs.Prelude.{◌≡◌, ◌+◌, ◌<◌, ◌≤◌, ◌∷◌, length};
ghost use Rattle.std.specs.List.{position_or_len};
ghost use Rattle.std.specs.Str.{is_utf8};
ghost use Rattle.gmpl_lexer.specs.Bytes.{is_no_name_byte};
ghost use Rattle.gmpl_lexer.specs.Lexemes.{gap, token, bad, name_at, word_at, short_at, delimiter_at, literal_or_delimiter, string_of, string_at, comment_of, comment_or_other, line_end, lexeme_at};

use crate::bytes::{begins_name, first_no_name_byte, is_blank, is_quote, next_is};
use crate::numbers::literal_length;
use crate::strings::{closes_comment, comment_length, line_length, string_length};
use crate::words::{long_delimiter, name_kind, short_delimiter};
use gmpl_token::{LexFaultKind, TokenKind};
use model_text::after;

/// What stands at a place of a text: how many bytes it takes, and what it is.
#[derive(Clone, Copy)]
pub struct Lexeme {
    pub size: usize,
    pub kind: LexemeKind,
}

/// What a part of a text is.
#[derive(Clone, Copy)]
pub enum LexemeKind {
    /// Blanks, a line's end or a comment.
    Gap,
    /// A token of this kind.
    Token(TokenKind),
    /// No token can stand here.
    Bad(LexFaultKind),
}

fn gap(size: usize) -> Lexeme
    ensures value { result ≡ gap size }
    ensures size { result.size ≡ size }
{
    Lexeme {
        size,
        kind: LexemeKind::Gap,
    }
}

fn token(size: usize, kind: TokenKind) -> Lexeme
    ensures value { result ≡ token size kind }
    ensures size { result.size ≡ size }
{
    Lexeme {
        size,
        kind: LexemeKind::Token(kind),
    }
}

fn bad(kind: LexFaultKind) -> Lexeme
    ensures value { result ≡ bad kind }
    ensures size { result.size ≡ 1 }
{
    Lexeme {
        size: 1,
        kind: LexemeKind::Bad(kind),
    }
}

// ---- names

// How many letters, digits and `_` stand at the start.
fn name_bytes(text: &[u8]) -> usize
    ensures value { result ≡ position_or_len is_no_name_byte text.now }
    ensures within { result ≤ length text.now }
{
    match first_no_name_byte(text) {
        Some(place) => place,
        None => text.len(),
    }
}

// A name, of which the rest comes after its first byte.
fn name_at(first: u8, rest: &[u8], text: &[u8]) -> Lexeme
    requires { text.now ≡ first ∷ rest.now }
    ensures value { result ≡ name_at (first ∷ rest.now) rest.now }
    ensures some { 0 < result.size }
    ensures within { result.size ≤ 1 + length rest.now }
{
    let size = 1 + name_bytes(rest);
    token(size, name_kind(&text[..size]))
}

// A name, or `s.t.` where a statement begins.
fn word_at(begins: bool, first: u8, rest: &[u8], text: &[u8]) -> Lexeme
    requires { text.now ≡ first ∷ rest.now }
    ensures value { result ≡ word_at begins (first ∷ rest.now) rest.now }
    ensures some { 0 < result.size }
    ensures within { result.size ≤ 1 + length rest.now }
{
    if begins && text.starts_with(b"s.t.") {
        token(4, TokenKind::SubjectTo)
    } else {
        name_at(first, rest, text)
    }
}

// ---- delimiters

fn short_at(kind: Option<TokenKind>) -> Lexeme
    ensures value { result ≡ short_at kind }
    ensures size { result.size ≡ 1 }
{
    match kind {
        Some(kind) => token(1, kind),
        None => bad(LexFaultKind::BadByte),
    }
}

// A delimiter of two bytes, or else of one.
fn delimiter_at(first: u8, text: &[u8]) -> Lexeme
    ensures value { result ≡ delimiter_at text.now first }
    ensures some { 0 < result.size }
    ensures within { 1 ≤ length text.now → result.size ≤ length text.now }
{
    match long_delimiter(text) {
        Some(kind) => token(2, kind),
        None => short_at(short_delimiter(first)),
    }
}

// ---- literals and comments

fn literal_or_delimiter(first: u8, rest: &[u8], text: &[u8]) -> Lexeme
    requires { text.now ≡ first ∷ rest.now }
    ensures value { result ≡ literal_or_delimiter (first ∷ rest.now) first }
    ensures some { 0 < result.size }
    ensures within { result.size ≤ 1 + length rest.now }
{
    let size = literal_length(text);
    if size == 0 {
        delimiter_at(first, text)
    } else {
        token(size, TokenKind::NumericLiteral)
    }
}

// The bytes are UTF-8.
fn is_utf8(bytes: &[u8]) -> bool
    ensures { result ≡ is_utf8 bytes.now }
{
    match str::from_utf8(bytes) {
        Ok(_) => true,
        Err(_) => false,
    }
}

// A string behind its quote, before whose fellow so many bytes stand.
fn string_of(quote: u8, size: usize, text: &[u8]) -> Lexeme
    requires { size ≤ length text.now }
    ensures value { result ≡ string_of quote size text.now }
    ensures some { 0 < result.size }
    ensures within { result.size ≤ 1 + length text.now }
{
    if next_is(quote, after(text, size)) {
        token(size + 2, TokenKind::StringLiteral)
    } else if is_utf8(&text[..size]) {
        bad(LexFaultKind::UnendedString)
    } else {
        bad(LexFaultKind::BadByte)
    }
}

fn string_at(quote: u8, text: &[u8]) -> Lexeme
    ensures value { result ≡ string_at quote text.now }
    ensures some { 0 < result.size }
    ensures within { result.size ≤ 1 + length text.now }
{
    string_of(quote, string_length(quote, text), text)
}

// A comment behind `/*`, where so many bytes stand before `*/`.
fn comment_of(size: usize, text: &[u8]) -> Lexeme
    requires { size ≤ length text.now }
    ensures value { result ≡ comment_of size text.now }
    ensures some { 0 < result.size }
    ensures within { result.size ≤ 2 + length text.now }
{
    if closes_comment(after(text, size)) {
        gap(size + 4)
    } else {
        bad(LexFaultKind::UnendedComment)
    }
}

fn comment_or_other(first: u8, rest: &[u8], text: &[u8]) -> Lexeme
    requires { text.now ≡ first ∷ rest.now }
    ensures value { result ≡ comment_or_other (first ∷ rest.now) first }
    ensures some { 0 < result.size }
    ensures within { result.size ≤ 1 + length rest.now }
{
    if text.starts_with(b"/*") {
        let inner = after(text, 2);
        comment_of(comment_length(inner), inner)
    } else {
        literal_or_delimiter(first, rest, text)
    }
}

// ---- what stands at the start of a text

// Behind a carriage return, which a line feed must follow.
fn line_end(rest: &[u8]) -> Lexeme
    ensures value { result ≡ line_end rest.now }
    ensures some { 0 < result.size }
    ensures within { result.size ≤ 1 + length rest.now }
{
    if next_is(b'\n', rest) {
        gap(2)
    } else {
        bad(LexFaultKind::BadByte)
    }
}

/// What stands at the start of a text; `begins` tells whether a statement may begin there.
pub fn lexeme_at(begins: bool, text: &[u8]) -> Lexeme
    ensures value { result ≡ lexeme_at begins text.now }
    ensures some { 0 < result.size }
    ensures within { 0 < length text.now → result.size ≤ length text.now }
{
    match text {
        [] => gap(1),
        [first, rest @ ..] => {
            if is_blank(*first) {
                gap(1)
            } else if *first == b'\r' {
                line_end(rest)
            } else if *first == b'#' {
                gap(1 + line_length(rest))
            } else if is_quote(*first) {
                string_at(*first, rest)
            } else if begins_name(*first) {
                word_at(begins, *first, rest, text)
            } else {
                comment_or_other(*first, rest, text)
            }
        }
    }
}
