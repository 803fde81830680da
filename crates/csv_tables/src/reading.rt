// Tables that are read.
ghost use Rattle.std.specs.Prelude.{◌≡◌, [], map, length};
ghost use Rattle.csv_tables.specs.Outcome.{Gives};
ghost use Rattle.csv_tables.specs.Reading.{table_of, rows_in};

use crate::columns::Columns;
use crate::fault::TableError;
use crate::records::{next_record, reader_of};
use crate::rows::read_rows;
use crate::table::Table;
use csv::ByteRecord;
use gmpl_text::Text;
use std::alloc::Global;

/// The table that a CSV text gives, with these fields as the parts of the key and with the values of those (GNU MathProg
/// Language Reference, appendix on table drivers). Fields are parted by commas, may stand in double quotes and are not trimmed; a
/// byte order mark at the start is passed over. The first record names the fields, of two with one name the first counts, and
/// `RECNO` is the number of a record from 1. A field whose whole text is a literal with a sign or none, and fits, is a number,
/// with quotes or without, and any other is a string.
///
/// Faults come in this order: `BadRecord` for a header that is not UTF-8, `NoField`, and then, of the first record that has one,
/// `BadRecord` or `TwiceKey`.
#[tactic(auto, unfolding(crate::specs::Reading::table_of))]
pub fn read_table(
    alloc: Global,
    text: &[u8],
    keys: &[Text],
    values: &[Text],
) -> Result<Table, TableError>
    ensures { Gives result (table_of text.now keys.now values.now) }
{
    let mut reader = reader_of(alloc, text);
    let mut record = ByteRecord::new(alloc);
    if !next_record(&mut reader, &mut record)? {
        return without_record(alloc, keys, values);
    }
    let columns = Columns::under(alloc, &record, keys, values)?;
    read_rows(alloc, &columns, &mut reader, &mut record)
}

// The table of a text without a record.
fn without_record(alloc: Global, keys: &[Text], values: &[Text]) -> Result<Table, TableError>
    ensures { Gives result (rows_in keys.now values.now []) }
{
    let header = ByteRecord::new(alloc);
    Columns::under(alloc, &header, keys, values)?;
    Ok(Table::new(alloc))
}
