// The pieces of a format.
ghost use Rattle.std.specs.Prelude.{◌≡◌, ◌<◌, ◌+◌, IfOk, length, drop};
ghost use Rattle.std.specs.Str.{chars};
ghost use Rattle.gmpl_formats.specs.Pieces.{escaped, escape_step, percent_step, step_of, pieces_of};

use crate::conversion::Piece;
use crate::reading::read_conversion;
use std::alloc::{AllocError, Global};

/// A piece, and how many characters it has.
#[derive(Clone, Copy)]
pub struct Step {
    pub piece: Piece,
    pub count: usize,
}

fn escaped(letter: char) -> char
    ensures { result ≡ escaped letter }
{
    match letter {
        'n' => '\n',
        't' => '\t',
        _ => letter,
    }
}

// Behind a backslash.
fn escape_step(text: &[char]) -> Step
    ensures { result ≡ escape_step text.now }
{
    match text {
        [letter, ..] => Step {
            piece: Piece::Character(escaped(*letter)),
            count: 2,
        },
        [] => Step {
            piece: Piece::Bad,
            count: 1,
        },
    }
}

// Behind a per cent sign.
fn percent_step(text: &[char]) -> Step
    ensures { result ≡ percent_step text.now }
{
    let [first, ..] = text else {
        return Step {
            piece: Piece::Bad,
            count: 1,
        };
    };
    if *first == '%' {
        return Step {
            piece: Piece::Character('%'),
            count: 2,
        };
    }
    match read_conversion(text) {
        Some(reading) => Step {
            piece: Piece::Value(reading.conversion),
            count: 1 + reading.count,
        },
        None => Step {
            piece: Piece::Bad,
            count: 1 + text.len(),
        },
    }
}

// The first piece.
#[tactic(auto, unfolding(crate::specs::Pieces::step_of))]
fn first_step(first: char, rest: &[char]) -> Step
    ensures { result ≡ step_of first rest.now }
{
    if first == '%' {
        percent_step(rest)
    } else if first == '\\' {
        escape_step(rest)
    } else {
        Step {
            piece: Piece::Character(first),
            count: 1,
        }
    }
}

/// The pieces of a format, up to the first bad one.
pub fn read_pieces(alloc: Global, format: &str) -> Result<Vec<Piece>, AllocError>
    ensures { IfOk result (λ made. made.items ≡ pieces_of (chars format.now)) }
{
    let text = characters_of(alloc, format)?;
    pieces_of(alloc, &text)
}

pub fn characters_of(alloc: Global, text: &str) -> Result<Vec<char>, AllocError>
    ensures { IfOk result (λ made. made.items ≡ chars text.now) }
{
    text.chars().collect(alloc)
}

// The characters after a place.
fn after(text: &[char], place: usize) -> &[char]
    requires { place < length text.now }
    ensures { result.now ≡ drop (place + 1) text.now }
{
    &text[place + 1..]
}

fn pieces_of(alloc: Global, text: &[char]) -> Result<Vec<Piece>, AllocError>
    ensures { IfOk result (λ made. made.items ≡ pieces_of text.now) }
{
    let mut pieces = Vec::new(alloc);
    let mut behind: usize = 0;
    for place in 0..text.len() {
        if behind > 0 {
            behind -= 1;
            continue;
        }
        let step = first_step(text[place], after(text, place));
        pieces.push(step.piece)?;
        behind = step.count.saturating_sub(1);
    }
    Ok(pieces)
}
