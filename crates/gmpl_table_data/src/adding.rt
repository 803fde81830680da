// What a table adds to the data of a model.
ghost use Rattle.std.specs.Prelude.{◌≡◌, map, IfOk};
ghost use Rattle.csv_tables.specs.Outcome.{Gives, GivesAs};
ghost use Rattle.gmpl_table_data.specs.TableData as spec;

use crate::columns::rows_given;
use crate::objects::Objects;
use crate::sets::keys_given;
use csv_tables::{Table, TableError, read_table};
use gmpl_data::DataTables;
use gmpl_resolved::{InputColumn, TableInput};
use gmpl_text::Text;
use std::alloc::{AllocError, Global};

fn fields_of(alloc: Global, columns: &[InputColumn]) -> Result<Vec<Text>, AllocError>
    ensures { IfOk result (λ fields. fields.items ≡ map (λ column. column.field) columns.now) }
{
    let mut fields = Vec::with_capacity(alloc, columns.len())?;
    for column in columns {
        fields.push(column.field.copied(alloc)?)?;
    }
    Ok(fields)
}

#[tactic(auto, unfolding(crate::specs::TableData::with_rows))]
fn with_rows(
    alloc: Global,
    input: &TableInput,
    objects: Objects,
    table: Table,
) -> Result<Objects, TableError>
    ensures { Gives result (spec.with_rows input.now objects table) }
{
    let objects = keys_given(alloc, input.set, &table, objects)?;
    rows_given(alloc, input.columns.as_slice(), table, objects)
}

/// The data with what a table gives to its set and its parameters. `NoField`, `BadRecord` and `TwiceKey` as the text has them;
/// `TwiceKey` also where the set, or a parameter's member, has data already.
#[tactic(auto, unfolding(crate::specs::TableData::with_table))]
pub fn with_table(
    alloc: Global,
    tables: DataTables,
    input: &TableInput,
    text: &[u8],
) -> Result<DataTables, TableError>
    ensures { GivesAs (λ tables. tables.objects) result (spec.with_table input.now text.now tables.objects) }
{
    let fields = fields_of(alloc, input.columns.as_slice())?;
    let table = read_table(alloc, text, input.keys.as_slice(), &fields)?;
    let objects = Objects::of(alloc, tables.objects)?;
    let objects = with_rows(alloc, input, objects, table)?;
    Ok(objects.into_data())
}
