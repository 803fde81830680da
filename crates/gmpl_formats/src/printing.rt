// What a format makes of its arguments.
ghost use Rattle.std.specs.Prelude.{◌≡◌, string_bytes};
ghost use Rattle.gmpl_value.specs.Outcome.{Follows, GivesAs};
ghost use Rattle.gmpl_formats.specs.Printing.{piece_text, with_piece, left_behind, printed_onto, printed};

use crate::conversion::Piece;
use crate::pieces::read_pieces;
use crate::texts::conversion_text;
use gmpl_value::{EvalFault, Symbol};
use std::alloc::Global;

/// The text that a format makes of its arguments. From left to right, the first of these is the fault: `BadFormat` for
/// what is no conversion, or where an argument is wanting, and the faults of `conversion_text`.
pub fn printed(alloc: Global, format: &str, arguments: &[Symbol]) -> Result<String, EvalFault>
    ensures { GivesAs string_bytes result (printed format.now arguments.now) }
{
    let pieces = read_pieces(alloc, format)?;
    let mut text = String::new(alloc);
    print_pieces(alloc, &mut text, &pieces, arguments)?;
    Ok(text)
}

#[tactic(auto, unfolding(crate::specs::Printing::printed_onto))]
fn print_pieces(
    alloc: Global,
    text: &mut String,
    pieces: &[Piece],
    arguments: &[Symbol],
) -> Result<(), EvalFault>
    ensures { Follows result (string_bytes text.new) (printed_onto (string_bytes text.old) pieces.now arguments.now) }
{
    let mut rest = arguments;
    for piece in pieces {
        print_piece(alloc, text, piece, rest)?;
        rest = left_behind(piece, rest);
    }
    Ok(())
}

fn print_piece(
    alloc: Global,
    text: &mut String,
    piece: &Piece,
    arguments: &[Symbol],
) -> Result<(), EvalFault>
    ensures { Follows result (string_bytes text.new) (with_piece (string_bytes text.old) piece.now arguments.now) }
{
    let added = piece_text(alloc, piece, arguments)?;
    text.push_str(&added)?;
    Ok(())
}

fn piece_text(alloc: Global, piece: &Piece, arguments: &[Symbol]) -> Result<String, EvalFault>
    ensures { GivesAs string_bytes result (piece_text piece.now arguments.now) }
{
    match piece {
        Piece::Character(character) => Ok(character.to_string(alloc)?),
        Piece::Bad => Err(EvalFault::BadFormat),
        Piece::Value(conversion) => match arguments {
            [first, ..] => conversion_text(alloc, conversion, first),
            [] => Err(EvalFault::BadFormat),
        },
    }
}

// The arguments behind those that the piece takes.
fn left_behind<'a>(piece: &Piece, arguments: &'a [Symbol]) -> &'a [Symbol]
    ensures { result.now ≡ left_behind piece.now arguments.now }
{
    match piece {
        Piece::Value(_) => match arguments {
            [_, rest @ ..] => rest,
            [] => arguments,
        },
        _ => arguments,
    }
}
