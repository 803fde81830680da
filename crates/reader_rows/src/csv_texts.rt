// What the rows of tables in CSV are written in.
use csv_tables::TableFault;
use fraction::Frac;
use gmpl_member_names::symbol_text;
use gmpl_text::Text;
use gmpl_value::Tuple;
use std::alloc::{AllocError, Global};

/// What stands in front of an arrow, and behind it.
pub(crate) fn split(row: &str) -> (&str, &str) {
    row.split_once(" => ").unwrap_or((row, ""))
}

/// Names between blanks, `-` for none.
pub(crate) fn names(alloc: Global, text: &str) -> Result<Vec<Text>, AllocError> {
    let mut made = Vec::new(alloc);
    if text == "-" {
        return Ok(made);
    }
    for name in text.split(' ') {
        made.push(Text::new(alloc, name)?)?;
    }
    Ok(made)
}

/// Symbols with a character between them.
pub(crate) fn push_tuple(
    alloc: Global,
    answer: &mut String,
    between: char,
    tuple: &Tuple,
) -> Result<(), AllocError> {
    let mut is_first = true;
    for symbol in tuple.symbols() {
        if !is_first {
            answer.push(between)?;
        }
        is_first = false;
        answer.push_str(symbol_text(alloc, symbol)?.as_str())?;
    }
    Ok(())
}

/// The word of a fault.
pub(crate) fn fault_text(fault: TableFault) -> &'static str {
    match fault {
        TableFault::NoField => "!NoField",
        TableFault::BadRecord => "!BadRecord",
        TableFault::TwiceKey => "!TwiceKey",
    }
}

/// The number that `n` or `n/d` writes.
pub(crate) fn number(digits: &str) -> Option<Frac> {
    Frac::read_canonical(digits).ok()
}
