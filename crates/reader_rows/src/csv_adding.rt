// CSV texts with what they add to the data of a model, or with their first fault.
use crate::csv_texts::{fault_text, names, number, push_tuple, split};
use crate::marks::bytes_of;
use csv_tables::TableError;
use fraction::Frac;
use gmpl_data::{DataTables, Given};
use gmpl_member_names::symbol_text;
use gmpl_members::{Members, Value};
use gmpl_resolved::{Expr, InputColumn, TableInput};
use gmpl_table_data::with_table;
use gmpl_text::Text;
use gmpl_value::{SetValue, Symbol, Tuple};
use sqlite_items::Items;
use std::alloc::{AllocError, Global};

// The objects are the sets S and A and the parameters p, q and c. Of any other name there are no data.
const NAMES: &str = "S A p q c";

// ---- data that are written in a row

fn symbol(alloc: Global, text: &str) -> Result<Symbol, AllocError> {
    match number(text) {
        Some(number) => Ok(Symbol::Number(number)),
        None => Ok(Symbol::Word(Text::new(alloc, text)?)),
    }
}

// Symbols between points, one before the first too.
fn tuple(alloc: Global, text: &str) -> Result<Tuple, AllocError> {
    let mut made = Tuple::new(alloc);
    for part in text.split('.') {
        if !part.is_empty() {
            made.push(symbol(alloc, part)?)?;
        }
    }
    Ok(made)
}

fn elements(alloc: Global, text: &str) -> Result<SetValue, AllocError> {
    let mut made = SetValue::new(alloc);
    for part in text.split(',') {
        if part != "}" {
            let element = tuple(alloc, part.trim_end_matches('}'))?;
            made.insert(element).ok();
        }
    }
    Ok(made)
}

fn value(alloc: Global, text: &str) -> Result<Value, AllocError> {
    match text.strip_prefix('{') {
        Some(inside) => Ok(Value::Elements(elements(alloc, inside)?)),
        None => Ok(Value::Scalar(symbol(alloc, text)?)),
    }
}

fn add_member(
    alloc: Global,
    values: &mut Members,
    subscripts: &str,
    text: &str,
) -> Result<(), AllocError> {
    let subscripts = tuple(alloc, subscripts)?;
    let value = value(alloc, text)?;
    values.insert(subscripts, value).ok();
    Ok(())
}

fn add_word(alloc: Global, given: &mut Given, word: &str) -> Result<(), AllocError> {
    match word.split_once('=') {
        Some((subscripts, text)) => add_member(alloc, &mut given.values, subscripts, text),
        None => {
            given.overfull.insert(Tuple::new(alloc)).ok();
            Ok(())
        }
    }
}

// What the words that begin with a name give.
fn given(alloc: Global, name: &str, words: &str) -> Result<Given, AllocError> {
    let mut made = Given {
        values: Members::new(alloc),
        overfull: SetValue::new(alloc),
        default: None,
    };
    for word in words.split(' ') {
        if let Some(rest) = word.strip_prefix(name) {
            add_word(alloc, &mut made, rest)?;
        }
    }
    Ok(made)
}

fn tables(alloc: Global, words: &str) -> Result<DataTables, AllocError> {
    let mut objects = Items::new(alloc);
    for name in NAMES.split(' ') {
        objects.push(given(alloc, name, words)?)?;
    }
    Ok(DataTables { objects })
}

// ---- the table

fn place(name: &str) -> usize {
    let mut place: usize = 0;
    for known in NAMES.split(' ') {
        if known == name {
            return place;
        }
        place = place.wrapping_add(1);
    }
    place
}

fn column(alloc: Global, name: &str, field: &str) -> Result<InputColumn, AllocError> {
    Ok(InputColumn {
        parameter: place(name),
        field: Text::new(alloc, field)?,
    })
}

fn columns(alloc: Global, text: &str) -> Result<Items<InputColumn>, AllocError> {
    let mut made = Items::new(alloc);
    for word in text.split(' ') {
        if let Some((name, field)) = word.split_once('=') {
            made.push(column(alloc, name, field)?)?;
        }
    }
    Ok(made)
}

// A table of any file.
fn input(set: &str, keys: Vec<Text>, columns: Items<InputColumn>) -> TableInput {
    TableInput {
        file: Expr::Number(Frac::whole(0)),
        set: if set == "-" { None } else { Some(place(set)) },
        keys: Items::from_vec(keys),
        columns,
    }
}

fn table(alloc: Global, text: &str) -> Result<TableInput, AllocError> {
    let (head, columns_text) = text.split_once(" :").unwrap_or((text, ""));
    let (set, keys) = head.split_once(' ').unwrap_or((head, "-"));
    let keys = names(alloc, keys)?;
    let columns = columns(alloc, columns_text)?;
    Ok(input(set, keys, columns))
}

// ---- answers

fn set_text(alloc: Global, set: &SetValue) -> Result<String, AllocError> {
    let mut made = String::new(alloc);
    for tuple in set.elements() {
        if !made.is_empty() {
            made.push(',')?;
        }
        push_tuple(alloc, &mut made, '.', tuple)?;
    }
    format!(in alloc; "{{{made}}}")
}

fn value_text(alloc: Global, value: &Value) -> Result<String, AllocError> {
    match value {
        Value::Scalar(symbol) => symbol_text(alloc, symbol),
        Value::Elements(set) => set_text(alloc, set),
    }
}

fn push_member(
    alloc: Global,
    answer: &mut String,
    name: &str,
    subscripts: &Tuple,
    value: &Value,
) -> Result<(), AllocError> {
    if !answer.is_empty() {
        answer.push(' ')?;
    }
    answer.push_str(name)?;
    if subscripts.len() > 0 {
        answer.push('.')?;
    }
    push_tuple(alloc, answer, '.', subscripts)?;
    answer.push('=')?;
    answer.push_str(value_text(alloc, value)?.as_str())
}

fn push_given(
    alloc: Global,
    answer: &mut String,
    name: &str,
    given: &Given,
) -> Result<(), AllocError> {
    for place in 0..given.values.len() {
        if let Some((subscripts, value)) = given.values.entry(place) {
            push_member(alloc, answer, name, subscripts, value)?;
        }
    }
    Ok(())
}

fn tables_text(alloc: Global, tables: &DataTables) -> Result<String, AllocError> {
    let mut answer = String::new(alloc);
    for name in NAMES.split(' ') {
        if let Some(given) = tables.objects.get(place(name)) {
            push_given(alloc, &mut answer, name, given)?;
        }
    }
    Ok(answer)
}

fn joined(
    alloc: Global,
    input: &TableInput,
    before: &str,
    text: &str,
) -> Result<DataTables, TableError> {
    let bytes = bytes_of(alloc, text)?;
    let before = tables(alloc, before)?;
    with_table(alloc, before, input, &bytes)
}

fn answer(
    alloc: Global,
    input: &TableInput,
    before: &str,
    text: &str,
) -> Result<String, AllocError> {
    match joined(alloc, input, before, text) {
        Ok(tables) => tables_text(alloc, &tables),
        Err(TableError::Fault(fault)) => fault_text(fault).to_string(alloc),
        Err(TableError::NoMemory) => Err(AllocError),
    }
}

/// The data that a text gives to those before, or its fault, behind `!`. Asked for are the table, the data before and the text. Of
/// data, each member stands with its subscripts behind points and its value behind `=`, and `S!` is a set to which too many elements
/// are given; `-` stands for none. A table has its set, or `-`, the fields of its key, a colon, and each parameter with its field.
pub(crate) fn data_added(alloc: Global, asked: &str) -> Result<String, AllocError> {
    let (head, rest) = split(asked);
    let (before, text) = split(rest);
    let input = table(alloc, head)?;
    answer(alloc, &input, before, text)
}
