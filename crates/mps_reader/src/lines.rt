// The fields of lines.
ghost use Rattle.std.specs.Prelude.{◌≡◌, ◌++◌, false, map, codes, IfOk};
ghost use Rattle.std.specs.List.{list_any, slice_split};
ghost use Rattle.model_text.specs.Bytes.{is_one_of};
ghost use Rattle.mps_reader.specs.Lines.{fields_of, tabbed_fields, is_header};

use std::alloc::{AllocError, Global};

// Whether a line is a header.
pub(crate) fn is_header(line: &[u8]) -> bool
    ensures { result ≡ is_header line.now }
{
    match line {
        [] => false,
        [b' ', ..] | [b'\t', ..] => false,
        _ => true,
    }
}

// The fields of a line.
pub(crate) fn fields_in(alloc: Global, line: &str) -> Result<Vec<&str>, AllocError>
    ensures { IfOk result (λ fields. map (λ l. l.now) fields.items ≡ fields_of line.now) }
{
    let pieces = spaced(alloc, line)?;
    let mut fields = Vec::with_capacity(alloc, pieces.len())?;
    for piece in &pieces {
        add_fields(alloc, &mut fields, piece)?;
    }
    Ok(fields)
}

// The fields of a piece without spaces. Most have no tab either.
fn add_fields<'a>(
    alloc: Global,
    fields: &mut Vec<&'a str>,
    piece: &'a str,
) -> Result<(), AllocError>
    ensures { IfOk result (λ _. map (λ l. l.now) fields.new.items ≡ map (λ l. l.now) fields.old.items ++ tabbed_fields piece.now) }
{
    if has_tab(piece) {
        add_tabbed(alloc, fields, piece)
    } else {
        add_whole(fields, piece)
    }
}

fn has_tab(piece: &str) -> bool
    ensures { result ≡ list_any (is_one_of (codes "\t")) piece.now }
{
    piece.as_bytes().iter().any(|b| *b == b'\t')
}

// A piece without blanks is one field, and between two spaces none.
#[tactic(auto, using(crate::proofs::WholePieces::whole_piece))]
fn add_whole<'a>(fields: &mut Vec<&'a str>, piece: &'a str) -> Result<(), AllocError>
    requires { list_any (is_one_of (codes "\t")) piece.now ≡ false }
    ensures { IfOk result (λ _. map (λ l. l.now) fields.new.items ≡ map (λ l. l.now) fields.old.items ++ tabbed_fields piece.now) }
{
    if !piece.is_empty() {
        fields.push(piece)?;
    }
    Ok(())
}

fn add_tabbed<'a>(
    alloc: Global,
    fields: &mut Vec<&'a str>,
    piece: &'a str,
) -> Result<(), AllocError>
    ensures { IfOk result (λ _. map (λ l. l.now) fields.new.items ≡ map (λ l. l.now) fields.old.items ++ tabbed_fields piece.now) }
{
    let parts = tabbed(alloc, piece)?;
    for part in &parts {
        if !part.is_empty() {
            fields.push(*part)?;
        }
    }
    Ok(())
}

fn spaced(alloc: Global, line: &str) -> Result<Vec<&str>, AllocError>
    ensures { IfOk result (λ pieces. map (λ l. l.now) pieces.items ≡ slice_split (is_one_of (codes " ")) line.now) }
{
    line.split(' ').collect(alloc)
}

fn tabbed(alloc: Global, piece: &str) -> Result<Vec<&str>, AllocError>
    ensures { IfOk result (λ parts. map (λ l. l.now) parts.items ≡ slice_split (is_one_of (codes "\t")) piece.now) }
{
    piece.split('\t').collect(alloc)
}
