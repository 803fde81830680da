// Where the fields that a table asks for stand in its records.
ghost use Rattle.std.specs.Prelude.{◌≡◌, ◌<◌, List, map, length, get_or, []};
ghost use Rattle.std.specs.List.{position};
ghost use Rattle.std.specs.Str.{bytes_eq};
ghost use Rattle.csv.specs.Records.{fields_of};
ghost use Rattle.csv_tables.specs.Outcome.{Gives, GivesAs};
ghost use Rattle.csv_tables.specs.Reading.{texts_of, record_number, source_named, sources_of, columns_of};

use crate::fault::{TableError, TableFault};
use crate::records::texts;
use csv::ByteRecord;
use gmpl_text::Text;
use std::alloc::Global;
use std::marker::Model;

// What a symbol of a row is made of: the number of the record, or the field at a place.
#[derive(Clone, Copy)]
pub(crate) enum Source {
    RecordNumber,
    Field(usize),
}

// How many fields a record has, and where the parts of a key and the values stand.
#[derive(Drop)]
pub(crate) struct Columns {
    width: usize,
    keys: Vec<Source>,
    values: Vec<Source>,
}

impl Model for Columns {
    ghost use Rattle.csv_tables.specs.Reading.{Columns as Found};

    ghost Value = { Found };

    ghost view = { λ c. record { width = c.width; keys = c.keys.items; values = c.values.items } };
}

impl Columns {
    // The columns under a header. `BadRecord` where that is not UTF-8, `NoField` where a name is missing.
    #[tactic(auto, unfolding(crate::specs::Reading::columns_of))]
    pub(crate) fn under(
        alloc: Global,
        header: &ByteRecord,
        keys: &[Text],
        values: &[Text],
    ) -> Result<Columns, TableError>
        ensures { Gives result (columns_of keys.now values.now (fields_of header.now)) }
    {
        let names = texts(alloc, header)?;
        let keys = sources(alloc, &names, keys)?;
        let values = sources(alloc, &names, values)?;
        Ok(Columns {
            width: names.len(),
            keys,
            values,
        })
    }

    pub(crate) fn width(&self) -> usize
        ensures { result ≡ self.now.width }
    {
        self.width
    }

    pub(crate) fn keys(&self) -> &[Source]
        ensures { result.now ≡ self.now.keys }
    {
        &self.keys
    }

    pub(crate) fn values(&self) -> &[Source]
        ensures { result.now ≡ self.now.values }
    {
        &self.values
    }
}

fn sources(alloc: Global, header: &[&str], names: &[Text]) -> Result<Vec<Source>, TableError>
    ensures { GivesAs (λ v. v.items) result (sources_of (map (λ t. t.now) header.now) names.now) }
{
    let mut found = Vec::with_capacity(alloc, names.len())?;
    for name in names {
        found.push(source_named(header, name.as_str())?)?;
    }
    Ok(found)
}

#[tactic(auto, unfolding(crate::specs::Reading::source_named))]
fn source_named(header: &[&str], name: &str) -> Result<Source, TableError>
    ensures { Gives result (source_named (map (λ t. t.now) header.now) name.now) }
{
    if name == "RECNO" {
        return record_number(header);
    }
    match place(header, name) {
        Some(place) => Ok(Source::Field(place)),
        None => Err(TableError::Fault(TableFault::NoField)),
    }
}

// The number of a record, where there is a header.
#[tactic(auto, unfolding(crate::specs::Reading::record_number))]
fn record_number(header: &[&str]) -> Result<Source, TableError>
    ensures { Gives result (record_number (map (λ t. t.now) header.now)) }
{
    match header {
        [] => Err(TableError::Fault(TableFault::NoField)),
        [_, ..] => Ok(Source::RecordNumber),
    }
}

// Where the first text that is the name stands.
fn place(header: &[&str], name: &str) -> Option<usize>
    ensures { result ≡ position (bytes_eq name.now) (map (λ t. t.now) header.now) }
{
    header.iter().position(|text| name == *text)
}
