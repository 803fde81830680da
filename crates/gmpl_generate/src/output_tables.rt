// `table OUT`.
ghost use Rattle.std.specs.Prelude.{◌≡◌, [], Ok, IfOk};
ghost use Rattle.gmpl_value.specs.Outcome.{Gives, GivesAs, Outcome};
ghost use Rattle.gmpl_generate.specs.OutputTables as spec;
ghost use Rattle.gmpl_generate.specs.Running.{File, Follows, file_of, made_of};
ghost use Rattle.gmpl_meaning.specs.Expressions.{unless};

use crate::evaluation::symbol_of;
use crate::fault::Stop;
use crate::progress::{Progress, TableFile};
use crate::scopes::{Scopes, scopes_over};
use csv_tables::table_text;
use gmpl_data::LoadedModel;
use gmpl_expr::Context;
use gmpl_functions::plain_text;
use gmpl_resolved::{Expr, OutputColumn, TableOutput};
use gmpl_text::Text;
use gmpl_value::{EvalFault, Tuple};
use std::alloc::{AllocError, Global};

/// The name of a table's file.
pub(crate) fn file_name(
    alloc: Global,
    model: &LoadedModel,
    context: &mut Context<'_>,
    file: &Expr,
    bindings: &Tuple,
) -> Result<Text, EvalFault>
    requires of { context.old ≡ model.now }
    ensures of { context.new ≡ model.now }
    ensures value { Gives result (spec.file_name model.now file.now bindings.now) }
{
    let symbol = symbol_of(alloc, model, context, bindings, file)?;
    let name = plain_text(alloc, &symbol)?;
    Ok(Text::new(alloc, &name)?)
}

fn fields_of(alloc: Global, columns: &[OutputColumn]) -> Result<Vec<Text>, AllocError>
    ensures { IfOk result (λ fields. fields.items ≡ spec.fields_of columns.now) }
{
    let mut fields = Vec::new(alloc);
    for column in columns {
        fields.push(column.field.copied(alloc)?)?;
    }
    Ok(fields)
}

// The fields of a record, from the left.
fn fields_at(
    alloc: Global,
    model: &LoadedModel,
    context: &mut Context<'_>,
    columns: &[OutputColumn],
    bindings: &Tuple,
) -> Result<Tuple, EvalFault>
    requires of { context.old ≡ model.now }
    ensures of { context.new ≡ model.now }
    ensures value { Gives result (spec.fields_at model.now bindings.now [] columns.now) }
{
    let mut found = Tuple::with_capacity(alloc, columns.len())?;
    for column in columns {
        found.push(symbol_of(alloc, model, context, bindings, &column.value)?)?;
    }
    Ok(found)
}

fn unless(fault: Option<EvalFault>, records: Vec<Tuple>) -> Result<Vec<Tuple>, EvalFault>
    ensures { GivesAs (λ records. records.items) result (unless fault (Ok records.items)) }
{
    match fault {
        None => Ok(records),
        Some(fault) => Err(fault),
    }
}

// The records of a domain's elements.
fn records_of(
    alloc: Global,
    model: &LoadedModel,
    context: &mut Context<'_>,
    columns: &[OutputColumn],
    scopes: &Scopes,
) -> Result<Vec<Tuple>, EvalFault>
    requires of { context.old ≡ model.now }
    ensures of { context.new ≡ model.now }
    ensures value { GivesAs (λ records. records.items) result (spec.records_of model.now columns.now [] scopes.now.all scopes.now.fault) }
{
    let mut found = Vec::new(alloc);
    for bindings in scopes.all.as_slice() {
        found.push(fields_at(alloc, model, context, columns, bindings)?)?;
    }
    unless(scopes.fault, found)
}

fn text_made(
    alloc: Global,
    model: &LoadedModel,
    context: &mut Context<'_>,
    columns: &[OutputColumn],
    scopes: &Scopes,
) -> Result<Vec<u8>, EvalFault>
    requires of { context.old ≡ model.now }
    ensures of { context.new ≡ model.now }
    ensures value { GivesAs (λ text. text.items) result (spec.text_made model.now columns.now scopes.now) }
{
    let records = records_of(alloc, model, context, columns, scopes)?;
    let fields = fields_of(alloc, columns)?;
    Ok(table_text(alloc, &fields, &records)?)
}

fn file_made(
    alloc: Global,
    model: &LoadedModel,
    context: &mut Context<'_>,
    table: &TableOutput,
    bindings: &Tuple,
) -> Result<TableFile, EvalFault>
    requires of { context.old ≡ model.now }
    ensures of { context.new ≡ model.now }
    ensures value { GivesAs file_of result (spec.file_made model.now table.now bindings.now) }
{
    let name = file_name(alloc, model, context, &table.file, bindings)?;
    let scopes = scopes_over(alloc, model, context, &table.domain, bindings)?;
    let text = text_made(alloc, model, context, table.columns.as_slice(), &scopes)?;
    Ok(TableFile { name, text })
}

// A file behind those made so far, or its fault.
fn add_file(
    so_far: &mut Progress,
    file: Result<TableFile, EvalFault>,
) -> Result<(), Stop<EvalFault>>
    ensures { (answer : Outcome File) → GivesAs file_of file answer → Follows (spec.add_file answer (made_of so_far.old)) result (made_of so_far.new) }
{
    match file {
        Ok(file) => match so_far.files.push(file) {
            Ok(()) => Ok(()),
            Err(_) => Err(Stop::NoMemory),
        },
        Err(EvalFault::NoMemory) => Err(Stop::NoMemory),
        Err(fault) => Err(Stop::Fault(fault)),
    }
}

/// A file with a record for each element of a table's domain. A fault makes no file.
pub(crate) fn write_table(
    alloc: Global,
    model: &LoadedModel,
    context: &mut Context<'_>,
    table: &TableOutput,
    bindings: &Tuple,
    so_far: &mut Progress,
) -> Result<(), Stop<EvalFault>>
    requires of { context.old ≡ model.now }
    ensures of { context.new ≡ model.now }
    ensures value { Follows (spec.write_table model.now table.now bindings.now (made_of so_far.old)) result (made_of so_far.new) }
{
    let file = file_made(alloc, model, context, table, bindings);
    add_file(so_far, file)
}
