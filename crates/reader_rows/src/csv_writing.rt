// Rows of tables with their CSV texts.
use crate::csv_texts::{names, number, split};
use csv_tables::table_text;
use fraction::Frac;
use gmpl_text::Text;
use gmpl_value::{Symbol, Tuple};
use std::alloc::{AllocError, Global};

// A number, or a string; what is no number behind `#` is 0.
fn symbol(alloc: Global, text: &str) -> Result<Symbol, AllocError> {
    match text.strip_prefix('#') {
        Some(digits) => Ok(Symbol::Number(number(digits).unwrap_or(Frac::whole(0)))),
        None => Ok(Symbol::Word(Text::new(alloc, text)?)),
    }
}

fn row(alloc: Global, text: &str) -> Result<Tuple, AllocError> {
    let mut made = Tuple::new(alloc);
    for part in text.split('|') {
        made.push(symbol(alloc, part)?)?;
    }
    Ok(made)
}

fn rows(alloc: Global, text: &str) -> Result<Vec<Tuple>, AllocError> {
    let mut made = Vec::new(alloc);
    for part in text.split(';') {
        if let Some(symbols) = part.strip_prefix('|') {
            made.push(row(alloc, symbols)?)?;
        }
    }
    Ok(made)
}

// A text whose ends of lines are as rows write them, or as a file has them.
fn with_marks(alloc: Global, text: &str) -> Result<String, AllocError> {
    let marked = text.replace(alloc, "\n", "$")?;
    marked.replace(alloc, "\r", "^")
}

fn with_breaks(alloc: Global, text: &str) -> Result<String, AllocError> {
    let broken = text.replace(alloc, "$", "\n")?;
    broken.replace(alloc, "^", "\r")
}

fn table_of(alloc: Global, text: &str) -> Result<Vec<Tuple>, AllocError> {
    let text = with_breaks(alloc, text)?;
    rows(alloc, text.as_str())
}

fn bytes_written(alloc: Global, fields: &str, text: &str) -> Result<Vec<u8>, AllocError> {
    let fields = names(alloc, fields)?;
    let rows = table_of(alloc, text)?;
    table_text(alloc, &fields, &rows)
}

/// The text that is written of a table. Asked for are the names of its fields, and its rows, which end in `;`: each symbol stands
/// behind a bar, and a number behind `#`.
pub(crate) fn text_written(alloc: Global, asked: &str) -> Result<String, AllocError> {
    let (fields, text) = split(asked);
    let written = bytes_written(alloc, fields, text)?;
    with_marks(alloc, str::from_utf8(&written).unwrap_or("no text"))
}
