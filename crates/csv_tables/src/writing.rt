// Tables that are written.
ghost use Rattle.std.specs.Prelude.{◌≡◌, ◌++◌, ◌∷◌, [], Some, map, IfOk, OnOk};
ghost use Rattle.csv.specs.Records.{fields_of, partial_of};
ghost use Rattle.csv.specs.Writing.{row_text};
ghost use Rattle.csv_tables.specs.Writing.{IsWriting, written, field_of, records_of, table_writer, text_of_table};

use csv::{ByteRecord, Writer, WriterBuilder};
use gmpl_text::Text;
use gmpl_value::{Symbol, Tuple};
use std::alloc::{AllocError, Global};

/// The CSV text of a table: the names of its fields, then a record for each row. Numbers are written as `n` or `n/d`, and a field
/// stands in quotes only where it has a comma, a quote or a line end, or would be all of a record and is empty (GNU MathProg
/// Language Reference, appendix on table drivers).
#[tactic(auto, unfolding(crate::specs::Writing::text_of_table))]
pub fn table_text(alloc: Global, names: &[Text], rows: &[Tuple]) -> Result<Vec<u8>, AllocError>
    ensures { IfOk result (λ text. text.items ≡ text_of_table names.now rows.now) }
{
    let mut writer = writer_of(alloc);
    let mut fields = names_record(alloc, names)?;
    write(&mut writer, &fields)?;
    write_rows(alloc, &mut writer, &mut fields, rows)?;
    text_written(writer)
}

fn writer_of(alloc: Global) -> Writer<Vec<u8>>
    ensures writing { IsWriting (λ v. Some v.items) result }
    ensures empty { written (λ v. Some v.items) result ≡ [] }
{
    WriterBuilder::new()
        .flexible(true)
        .from_writer(Vec::new(alloc))
}

fn text_written(writer: Writer<Vec<u8>>) -> Result<Vec<u8>, AllocError>
    requires { IsWriting (λ v. Some v.items) writer }
    ensures { IfOk result (λ text. text.items ≡ written (λ v. Some v.items) writer) }
{
    match writer.into_inner().ok() {
        Some(text) => Ok(text),
        None => Err(AllocError),
    }
}

fn write(writer: &mut Writer<Vec<u8>>, fields: &ByteRecord) -> Result<(), AllocError>
    requires { IsWriting (λ v. Some v.items) writer.old }
    ensures writing { OnOk result (IsWriting (λ v. Some v.items) writer.new) }
    ensures text { OnOk result (written (λ v. Some v.items) writer.new ≡ written (λ v. Some v.items) writer.old ++ row_text table_writer (fields_of fields.now)) }
{
    match writer.write_byte_record(fields).ok() {
        Some(()) => Ok(()),
        None => Err(AllocError),
    }
}

fn write_rows(
    alloc: Global,
    writer: &mut Writer<Vec<u8>>,
    fields: &mut ByteRecord,
    rows: &[Tuple],
) -> Result<(), AllocError>
    requires { IsWriting (λ v. Some v.items) writer.old }
    ensures writing { OnOk result (IsWriting (λ v. Some v.items) writer.new) }
    ensures text { OnOk result (written (λ v. Some v.items) writer.new ≡ written (λ v. Some v.items) writer.old ++ records_of rows.now) }
{
    for row in rows {
        fill(alloc, fields, row.symbols())?;
        write(writer, fields)?;
    }
    Ok(())
}

// ---- records

fn names_record(alloc: Global, names: &[Text]) -> Result<ByteRecord, AllocError>
    ensures { IfOk result (λ made. fields_of made ≡ names.now) }
{
    let mut fields = ByteRecord::new(alloc);
    for name in names {
        fields.push_field(name.as_str().as_bytes())?;
    }
    Ok(fields)
}

// Makes a record that of a row.
fn fill(alloc: Global, fields: &mut ByteRecord, row: &[Symbol]) -> Result<(), AllocError>
    ensures { OnOk result (fields_of fields.new ≡ map field_of row.now) }
{
    fields.clear();
    for symbol in row {
        push_symbol(alloc, fields, symbol)?;
    }
    Ok(())
}

fn push_symbol(alloc: Global, fields: &mut ByteRecord, symbol: &Symbol) -> Result<(), AllocError>
    requires { partial_of fields.old ≡ [] }
    ensures field { OnOk result (fields_of fields.new ≡ fields_of fields.old ++ field_of symbol.now ∷ []) }
    ensures whole { OnOk result (partial_of fields.new ≡ []) }
{
    match symbol {
        Symbol::Number(number) => {
            let text = number.text(alloc)?;
            fields.push_field(text.as_bytes())
        }
        Symbol::Word(text) => fields.push_field(text.as_str().as_bytes()),
    }
}
