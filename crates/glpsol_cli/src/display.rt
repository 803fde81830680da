// Where the texts of `display` and `printf` go.
ghost use Rattle.std.specs.Prelude.{◌≡◌, ◌++◌, IfOk};
ghost use Rattle.gmpl_generate.specs.Running.{file_of, files_of};
ghost use Rattle.glpsol_cli.specs.Meaning.{display_target, displayed, file_piece, file_pieces, with_earlier};
ghost use Rattle.glpsol_cli.specs.Stages.{piece_of, pieces_of};

use crate::Target;
use crate::publish::Piece;
use gmpl_reader::TableFile;
use instance::Name;
use std::alloc::{AllocError, Global};

/// A printed text as it is written: to the file, or on the output.
pub fn displayed(alloc: Global, file: &Option<Name>, text: &[u8]) -> Result<Vec<Piece>, AllocError>
    ensures { IfOk result (λ pieces. pieces_of pieces.items ≡ displayed file.now text.now) }
{
    let target = display_target(alloc, file)?;
    let text = text.to_vec(alloc)?;
    let mut pieces = Vec::new(alloc);
    pieces.push(Piece { target, text })?;
    Ok(pieces)
}

fn display_target(alloc: Global, file: &Option<Name>) -> Result<Target, AllocError>
    ensures { IfOk result (λ target. target ≡ display_target file.now) }
{
    match file {
        Some(name) => Ok(Target::File(name.copy(alloc)?)),
        None => Ok(Target::Out),
    }
}

/// The text that is written behind `solve`: the file is made anew, so that it needs the earlier text too.
pub fn with_earlier(
    alloc: Global,
    file: &Option<Name>,
    earlier: &str,
    text: &str,
) -> Result<Vec<u8>, AllocError>
    ensures { IfOk result (λ whole. whole.items ≡ with_earlier file.now earlier.now text.now) }
{
    match file {
        Some(_) => joined(alloc, earlier, text),
        None => text.as_bytes().to_vec(alloc),
    }
}

fn joined(alloc: Global, earlier: &str, text: &str) -> Result<Vec<u8>, AllocError>
    ensures { IfOk result (λ whole. whole.items ≡ earlier.now ++ text.now) }
{
    let mut whole = earlier.as_bytes().to_vec(alloc)?;
    whole.extend_from_slice(text.as_bytes())?;
    Ok(whole)
}

/// The files of tables as they are written.
pub fn file_pieces(alloc: Global, files: Vec<TableFile>) -> Result<Vec<Piece>, AllocError>
    ensures { IfOk result (λ pieces. pieces_of pieces.items ≡ file_pieces (files_of files.items)) }
{
    let mut pieces = Vec::new(alloc);
    for file in files {
        pieces.push(file_piece(alloc, file)?)?;
    }
    Ok(pieces)
}

fn file_piece(alloc: Global, file: TableFile) -> Result<Piece, AllocError>
    ensures { IfOk result (λ piece. piece_of piece ≡ file_piece (file_of file)) }
{
    let TableFile { name, text } = file;
    let name = Name::new(alloc, name.as_str())?;
    Ok(Piece {
        target: Target::File(name),
        text,
    })
}

/// A printed text as it is written behind files.
pub fn behind_files(
    alloc: Global,
    files: Vec<TableFile>,
    file: &Option<Name>,
    text: Vec<u8>,
) -> Result<Vec<Piece>, AllocError>
    ensures { IfOk result (λ pieces. pieces_of pieces.items ≡ file_pieces (files_of files.items) ++ displayed file.now text.items) }
{
    let target = display_target(alloc, file)?;
    let mut pieces = file_pieces(alloc, files)?;
    pieces.push(Piece { target, text })?;
    Ok(pieces)
}
