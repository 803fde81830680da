// The words and marks of a line.
ghost use Rattle.std.specs.Prelude.{◌≡◌, ℕ, IsTrue, ◌+◌, ◌<◌, ◌≤◌, [], ◌∷◌, length};
ghost use Rattle.std.specs.List.{position};
ghost use Rattle.cplex_lp_tokens.specs.Lexemes.{is_blank, is_name_mark, is_name_byte, begins_name, is_no_name_byte, name_bytes, mantissa_length, literal_length, relation_at, mark_at, lexeme_at, next_is, mark, compared, equality_at, literal_or_mark};

use crate::token::{Relation, TokenKind};
use model_text::{after, digits, places_length, with_exponent};

// What stands at a place of a line: how many bytes it takes, and the kind of token; a blank is none.
#[derive(Clone, Copy)]
pub(crate) struct Lexeme {
    pub(crate) size: usize,
    pub(crate) kind: Option<TokenKind>,
}

// ---- bytes

fn is_blank(b: u8) -> bool
    ensures { result ≡ is_blank b }
{
    b == b' ' || b == b'\t'
}

// The marks of names.
fn is_name_mark(b: u8) -> bool
    ensures { result ≡ is_name_mark b }
{
    b"!\"#$%&/(),.;?@_`'{}|~".as_slice().contains(&b)
}

fn is_name_byte(b: u8) -> bool
    ensures { result ≡ is_name_byte b }
{
    b.is_ascii_alphanumeric() || is_name_mark(b)
}

fn begins_name(b: u8) -> bool
    ensures { result ≡ begins_name b }
{
    is_name_byte(b) && !(b.is_ascii_digit() || b == b'.')
}

// ---- lengths

fn first_no_name_byte(text: &[u8]) -> Option<usize>
    ensures { result ≡ position is_no_name_byte text.now }
{
    text.iter().position(|b| !is_name_byte(*b))
}

// How many bytes of a name stand at the start.
fn name_bytes(text: &[u8]) -> usize
    ensures value { result ≡ name_bytes text.now }
    ensures within { result ≤ length text.now }
{
    match first_no_name_byte(text) {
        Some(place) => place,
        None => text.len(),
    }
}

fn mantissa_length(text: &[u8]) -> usize
    ensures value { result ≡ mantissa_length text.now }
    ensures within { result ≤ length text.now }
{
    let whole = digits(text);
    whole + places_length(whole, after(text, whole))
}

// The length of the longest number at the start without sign; 0 where there is none.
fn literal_length(text: &[u8]) -> usize
    ensures value { result ≡ literal_length text.now }
    ensures within { result ≤ length text.now }
{
    with_exponent(mantissa_length(text), text)
}

// ---- what stands at the start of a text

fn mark(size: usize, kind: TokenKind) -> Lexeme
    ensures value { result ≡ mark size kind }
    ensures size { result.size ≡ size }
{
    Lexeme {
        size,
        kind: Some(kind),
    }
}

fn next_is(wanted: u8, text: &[u8]) -> bool
    ensures value { result ≡ next_is (wanted ∷ []) text.now }
    ensures more { IsTrue result → 1 ≤ length text.now }
{
    match text {
        [] => false,
        [first, ..] => *first == wanted,
    }
}

// A relation, of one byte or of two.
fn compared(relation: Relation, two: bool) -> Lexeme
    ensures value { result ≡ compared relation two }
    ensures some { 0 < result.size }
    ensures within { (n : ℕ) → (IsTrue two → 1 ≤ n) → result.size ≤ 1 + n }
{
    mark(if two { 2 } else { 1 }, TokenKind::Compared(relation))
}

// `=`, `=<` and `=>`.
fn equality_at(rest: &[u8]) -> Lexeme
    ensures value { result ≡ equality_at rest.now }
    ensures some { 0 < result.size }
    ensures within { result.size ≤ 1 + length rest.now }
{
    if next_is(b'<', rest) {
        compared(Relation::AtMost, true)
    } else if next_is(b'>', rest) {
        compared(Relation::AtLeast, true)
    } else {
        compared(Relation::Exactly, false)
    }
}

// `<` and `<=`, `>` and `>=`, those of `=`, and a byte that begins nothing.
fn relation_at(first: u8, rest: &[u8]) -> Lexeme
    ensures value { result ≡ relation_at first rest.now }
    ensures some { 0 < result.size }
    ensures within { result.size ≤ 1 + length rest.now }
{
    if first == b'<' {
        compared(Relation::AtMost, next_is(b'=', rest))
    } else if first == b'>' {
        compared(Relation::AtLeast, next_is(b'=', rest))
    } else if first == b'=' {
        equality_at(rest)
    } else {
        mark(1, TokenKind::Stray)
    }
}

fn mark_at(first: u8, rest: &[u8]) -> Lexeme
    ensures value { result ≡ mark_at first rest.now }
    ensures some { 0 < result.size }
    ensures within { result.size ≤ 1 + length rest.now }
{
    if first == b'+' {
        mark(1, TokenKind::Plus)
    } else if first == b'-' {
        mark(1, TokenKind::Minus)
    } else if first == b':' {
        mark(1, TokenKind::Colon)
    } else {
        relation_at(first, rest)
    }
}

// A literal, or else a mark.
fn literal_or_mark(first: u8, rest: &[u8], text: &[u8]) -> Lexeme
    requires { text.now ≡ first ∷ rest.now }
    ensures value { result ≡ literal_or_mark (first ∷ rest.now) first rest.now }
    ensures some { 0 < result.size }
    ensures within { result.size ≤ 1 + length rest.now }
{
    let size = literal_length(text);
    if size == 0 {
        mark_at(first, rest)
    } else {
        mark(size, TokenKind::Literal)
    }
}

// What stands at the start of a text.
pub(crate) fn lexeme_at(text: &[u8]) -> Lexeme
    ensures value { result ≡ lexeme_at text.now }
    ensures some { 0 < result.size }
    ensures within { 0 < length text.now → result.size ≤ length text.now }
{
    match text {
        [] => Lexeme {
            size: 1,
            kind: None,
        },
        [first, rest @ ..] => {
            if is_blank(*first) {
                Lexeme {
                    size: 1,
                    kind: None,
                }
            } else if begins_name(*first) {
                mark(1 + name_bytes(rest), TokenKind::Word)
            } else {
                literal_or_mark(*first, rest, text)
            }
        }
    }
}
