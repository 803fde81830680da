// CSV texts with the tables that they give, or with their first fault.
use crate::csv_texts::{fault_text, names, push_tuple, split};
use crate::marks::bytes_of;
use csv_tables::{Table, TableError, read_table};
use gmpl_value::Tuple;
use std::alloc::{AllocError, Global};

fn push_row(
    alloc: Global,
    made: &mut String,
    key: &Tuple,
    values: &Tuple,
) -> Result<(), AllocError> {
    if !made.is_empty() {
        made.push(' ')?;
    }
    push_tuple(alloc, made, ',', key)?;
    made.push(':')?;
    push_tuple(alloc, made, ',', values)
}

fn rows_text(alloc: Global, table: &Table) -> Result<String, AllocError> {
    let mut made = String::new(alloc);
    for place in 0..table.len() {
        if let Some((key, values)) = table.row(place) {
            push_row(alloc, &mut made, key, values)?;
        }
    }
    if made.is_empty() {
        made.push('-')?;
    }
    Ok(made)
}

fn read(alloc: Global, keys: &str, values: &str, text: &str) -> Result<Table, TableError> {
    let keys = names(alloc, keys)?;
    let values = names(alloc, values)?;
    let bytes = bytes_of(alloc, text)?;
    read_table(alloc, &bytes, &keys, &values)
}

fn answer(alloc: Global, keys: &str, values: &str, text: &str) -> Result<String, AllocError> {
    match read(alloc, keys, values, text) {
        Ok(table) => rows_text(alloc, &table),
        Err(TableError::Fault(fault)) => fault_text(fault).to_string(alloc),
        Err(TableError::NoMemory) => Err(AllocError),
    }
}

/// The rows of the table that a text gives between blanks, each the parts of its key, a colon and its values, and `-` where there
/// are none; or the fault, behind `!`. Asked for are the fields of the key, the fields of the values and the text.
pub(crate) fn table_read(alloc: Global, asked: &str) -> Result<String, AllocError> {
    let (keys, rest) = split(asked);
    let (values, text) = split(rest);
    let found = answer(alloc, keys, values, text)?;
    found.replace(alloc, "\n", "$")
}
