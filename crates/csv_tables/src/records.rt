// The records of a text, and their texts.
ghost use Rattle.std.specs.Prelude.{◌≡◌, ◌<◌, ◌∷◌, [], Some, map, length, get_or, true, if◌then◌else◌, IfOk, IfErr};
ghost use Rattle.std.specs.Str.{is_utf8};
ghost use Rattle.csv.specs.Records.{fields_of};
ghost use Rattle.csv_tables.specs.Outcome.{GivesAs};
ghost use Rattle.csv_tables.specs.Reading.{texts_of, text_of, records_of, good_record};
ghost use Rattle.csv_tables.specs.declared.fault.TableError.TheVariants.{NoMemory};
ghost use Rattle.csv_tables.specs.Records.{IsReading, rows_left};

use crate::fault::{TableError, TableFault};
use csv::{ByteRecord, Reader, ReaderBuilder};
use std::alloc::Global;

// A reader of all records of a text.
pub(crate) fn reader_of(alloc: Global, text: &[u8]) -> Reader<&[u8]>
    ensures reading { IsReading (λ s. Some s.now) result }
    ensures rows { rows_left (λ s. Some s.now) result ≡ records_of text.now }
{
    ReaderBuilder::new()
        .has_headers(false)
        .flexible(true)
        .from_reader(alloc, text)
}

// Reads the next record, if there is one. The reader tells of no other fault than want of memory.
pub(crate) fn next_record(
    reader: &mut Reader<&[u8]>,
    fields: &mut ByteRecord,
) -> Result<bool, TableError>
    requires { IsReading (λ s. Some s.now) reader.old }
    ensures rows { IfOk result (λ found. rows_left (λ s. Some s.now) reader.old ≡ (if found then fields_of fields.new ∷ rows_left (λ s. Some s.now) reader.new else [])) }
    ensures reading { IfOk result (λ found. found ≡ true → IsReading (λ s. Some s.now) reader.new) }
    ensures memory { IfErr result (λ error. error ≡ NoMemory) }
{
    match reader.read_byte_record(fields).ok() {
        Some(found) => Ok(found),
        None => Err(TableError::NoMemory),
    }
}

// The texts of a record's fields. `BadRecord` where one is not UTF-8.
pub(crate) fn texts<'r>(alloc: Global, fields: &'r ByteRecord) -> Result<Vec<&'r str>, TableError>
    ensures { GivesAs (λ v. map (λ t. t.now) v.items) result (texts_of (fields_of fields.now)) }
{
    let mut found = Vec::with_capacity(alloc, fields.len())?;
    for place in 0..fields.len() {
        found.push(text_at(fields, place)?)?;
    }
    Ok(found)
}

// The field at a place as a text. One that is not there counts as empty.
fn text_at(fields: &ByteRecord, place: usize) -> Result<&str, TableError>
    ensures { GivesAs (λ t. t.now) result (text_of (get_or (fields_of fields.now) place [])) }
{
    match fields.get(place) {
        Some(field) => text(field),
        None => text(&[]),
    }
}

fn text(field: &[u8]) -> Result<&str, TableError>
    ensures { GivesAs (λ t. t.now) result (text_of field.now) }
{
    match str::from_utf8(field) {
        Ok(text) => Ok(text),
        Err(_) => Err(TableError::Fault(TableFault::BadRecord)),
    }
}

// The texts of a record's fields. `BadRecord` where their number is not the width, or one is not UTF-8.
#[tactic(auto, unfolding(crate::specs::Reading::good_record))]
pub(crate) fn good_texts<'r>(
    alloc: Global,
    width: usize,
    fields: &'r ByteRecord,
) -> Result<Vec<&'r str>, TableError>
    ensures { GivesAs (λ v. map (λ t. t.now) v.items) result (good_record width (fields_of fields.now)) }
{
    if fields.len() == width {
        texts(alloc, fields)
    } else {
        Err(TableError::Fault(TableFault::BadRecord))
    }
}
