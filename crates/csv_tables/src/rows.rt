// The rows that the records of a table give.
ghost use Rattle.std.specs.Prelude.{◌≡◌, [], Some, length, map, IfOk};
ghost use Rattle.csv.specs.Records.{fields_of};
ghost use Rattle.csv_tables.specs.Outcome.{Gives};
ghost use Rattle.csv_tables.specs.Reading.{symbol_of, value_of, with_record, with_records};
ghost use Rattle.csv_tables.specs.Records.{IsReading, rows_left};

use crate::columns::{Columns, Source};
use crate::fault::TableError;
use crate::records::{good_texts, next_record};
use crate::table::Table;
use csv::{ByteRecord, Reader};
use fraction::Frac;
use gmpl_text::Text;
use gmpl_value::{Symbol, Tuple};
use std::alloc::{AllocError, Global};

// The symbol that a field stands for.
#[tactic(auto, unfolding(crate::specs::Reading::symbol_of))]
fn symbol(alloc: Global, text: &str) -> Result<Symbol, AllocError>
    ensures { IfOk result (λ made. made ≡ symbol_of text.now) }
{
    match Frac::read(text) {
        Ok(number) => Ok(Symbol::Number(number)),
        Err(_) => Ok(Symbol::Word(Text::new(alloc, text)?)),
    }
}

// What a record with so many before it gives. A field that is not there counts as empty.
#[tactic(auto, unfolding(crate::specs::Reading::value_of))]
fn value(alloc: Global, before: usize, texts: &[&str], source: Source) -> Result<Symbol, AllocError>
    ensures { IfOk result (λ made. made ≡ value_of before (map (λ t. t.now) texts.now) source) }
{
    match source {
        Source::RecordNumber => Ok(Symbol::Number(Frac::whole(before as i128 + 1))),
        Source::Field(place) => match texts.get(place) {
            Some(text) => symbol(alloc, text),
            None => symbol(alloc, ""),
        },
    }
}

fn symbols(
    alloc: Global,
    before: usize,
    texts: &[&str],
    sources: &[Source],
) -> Result<Tuple, AllocError>
    ensures { IfOk result (λ made. made ≡ map (value_of before (map (λ t. t.now) texts.now)) sources.now) }
{
    let mut made = Tuple::with_capacity(alloc, sources.len())?;
    for source in sources {
        made.push(value(alloc, before, texts, *source)?)?;
    }
    Ok(made)
}

// The table with the row of one more record.
#[tactic(auto, unfolding(crate::specs::Reading::with_record))]
fn with_record(
    alloc: Global,
    columns: &Columns,
    table: Table,
    fields: &ByteRecord,
) -> Result<Table, TableError>
    ensures { Gives result (with_record columns.now table (fields_of fields.now)) }
{
    let texts = good_texts(alloc, columns.width(), fields)?;
    let key = symbols(alloc, table.len(), &texts, columns.keys())?;
    let values = symbols(alloc, table.len(), &texts, columns.values())?;
    table.with_row(key, values)
}

// The rows of the records that are left.
pub(crate) fn read_rows(
    alloc: Global,
    columns: &Columns,
    reader: &mut Reader<&[u8]>,
    fields: &mut ByteRecord,
) -> Result<Table, TableError>
    requires { IsReading (λ s. Some s.now) reader.old }
    ensures { Gives result (with_records columns.now [] (rows_left (λ s. Some s.now) reader.old)) }
{
    let mut table = Table::new(alloc);
    while next_record(reader, fields)? {
        table = with_record(alloc, columns, table, fields)?;
    }
    Ok(table)
}
