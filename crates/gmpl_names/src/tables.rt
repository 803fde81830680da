// The names of tables' parts, resolved.
ghost use Rattle.std.specs.Prelude.{◌≡◌, IfOk};
ghost use Rattle.gmpl_names.specs.Expressions.{Follows, Gives};
ghost use Rattle.gmpl_names.specs.Statements as spec;

use crate::parts::{boxed_expr, boxed_indexing};
use crate::{Names, NamesError, room_for};
use gmpl_resolved as resolved;
use gmpl_syntax::{
    Expr, Indexing, InputColumn, OutputColumn, SyntaxFaultKind, TableInput, TableOutput,
};
use gmpl_text::Text;
use sqlite_items::{Boxed, Items};
use std::alloc::{AllocError, Global};

fn driver(scope: &Names, name: &Text) -> Result<(), NamesError>
    ensures { Follows (spec.driver name.now scope.now) result scope.now }
{
    if name.as_str() == "CSV" {
        Ok(())
    } else {
        Err(NamesError::Fault(SyntaxFaultKind::Unsupported))
    }
}

// ---- a table that is read

fn object(objects: &Names, scope: &Names, name: &Text) -> Result<usize, NamesError>
    ensures { Follows (spec.object objects.now name.now scope.now) result scope.now }
{
    match objects.place(name.as_str()) {
        None => Err(NamesError::Fault(SyntaxFaultKind::Undeclared)),
        Some(place) => Ok(place),
    }
}

fn optional_object(
    objects: &Names,
    scope: &Names,
    name: &Option<Text>,
) -> Result<Option<usize>, NamesError>
    ensures { Follows (spec.optional_object objects.now name.now scope.now) result scope.now }
{
    match name {
        None => Ok(None),
        Some(name) => Ok(Some(object(objects, scope, name)?)),
    }
}

fn read_field(alloc: Global, parameter: &Text, field: &Option<Text>) -> Result<Text, AllocError>
    ensures { IfOk result (λ made. made ≡ spec.read_field parameter.now field.now) }
{
    match field {
        None => parameter.copied(alloc),
        Some(field) => field.copied(alloc),
    }
}

#[tactic(auto, unfolding(crate::specs::Statements::input_column))]
fn input_column(
    alloc: Global,
    objects: &Names,
    scope: &Names,
    whole: &InputColumn,
) -> Result<resolved::InputColumn, NamesError>
    ensures { Follows (spec.input_column objects.now whole.now scope.now) result scope.now }
{
    let parameter = object(objects, scope, &whole.parameter)?;
    let field = read_field(alloc, &whole.parameter, &whole.field)?;
    Ok(resolved::InputColumn { parameter, field })
}

fn input_columns(
    alloc: Global,
    objects: &Names,
    scope: &Names,
    all: &[InputColumn],
) -> Result<Items<resolved::InputColumn>, NamesError>
    ensures { Follows (spec.input_columns objects.now all.now scope.now) result scope.now }
{
    let mut made = room_for(alloc, all.len())?;
    for one in all {
        made.push(input_column(alloc, objects, scope, one)?)?;
    }
    Ok(made)
}

fn copied(alloc: Global, all: &[Text]) -> Result<Items<Text>, AllocError>
    ensures { IfOk result (λ made. made ≡ all.now) }
{
    let mut made = room_for(alloc, all.len())?;
    for one in all {
        made.push(one.copied(alloc)?)?;
    }
    Ok(made)
}

/// A table that is read. No index is in scope there.
#[tactic(auto, unfolding(crate::specs::Statements::table_input))]
pub(crate) fn table_input(
    alloc: Global,
    objects: &Names,
    scope: &mut Names,
    whole: &TableInput,
) -> Result<resolved::TableInput, NamesError>
    ensures { Follows (spec.table_input objects.now whole.now scope.old) result scope.new }
{
    driver(scope, &whole.driver)?;
    let file = boxed_expr(alloc, objects, scope, &whole.file)?;
    let set = optional_object(objects, scope, &whole.set)?;
    let columns = input_columns(alloc, objects, scope, whole.columns.as_slice())?;
    let keys = copied(alloc, whole.keys.as_slice())?;
    Ok(resolved::TableInput {
        file: file.into_inner(),
        set,
        keys,
        columns,
    })
}

// ---- a table that is written

fn name_alone(alloc: Global, whole: &Expr) -> Result<Text, NamesError>
    ensures { Gives (spec.name_alone whole.now) result }
{
    match whole {
        Expr::Named(name, subscripts, None) => {
            if subscripts.len() == 0 {
                Ok(name.copied(alloc)?)
            } else {
                Err(NamesError::Fault(SyntaxFaultKind::Unsupported))
            }
        }
        _ => Err(NamesError::Fault(SyntaxFaultKind::Unsupported)),
    }
}

fn written_field(alloc: Global, value: &Expr, field: &Option<Text>) -> Result<Text, NamesError>
    ensures { Gives (spec.written_field value.now field.now) result }
{
    match field {
        None => name_alone(alloc, value),
        Some(field) => Ok(field.copied(alloc)?),
    }
}

#[tactic(auto, unfolding(crate::specs::Statements::output_column))]
fn output_column(
    alloc: Global,
    objects: &Names,
    scope: &mut Names,
    whole: &OutputColumn,
) -> Result<resolved::OutputColumn, NamesError>
    ensures { Follows (spec.output_column objects.now whole.now scope.old) result scope.new }
{
    let value = boxed_expr(alloc, objects, scope, &whole.value)?;
    let field = written_field(alloc, &whole.value, &whole.field)?;
    Ok(resolved::OutputColumn {
        value: value.into_inner(),
        field,
    })
}

fn output_columns(
    alloc: Global,
    objects: &Names,
    scope: &mut Names,
    all: &[OutputColumn],
) -> Result<Items<resolved::OutputColumn>, NamesError>
    ensures { Follows (spec.output_columns objects.now all.now scope.old) result scope.new }
{
    let mut made = room_for(alloc, all.len())?;
    for one in all {
        made.push(output_column(alloc, objects, scope, one)?)?;
    }
    Ok(made)
}

// The domain and the columns, behind the file.
#[tactic(auto, unfolding(crate::specs::Statements::records))]
fn records(
    alloc: Global,
    objects: &Names,
    scope: &mut Names,
    file: Boxed<resolved::Expr>,
    whole: &TableOutput,
) -> Result<resolved::Action, NamesError>
    ensures { Follows (spec.records objects.now file whole.now scope.old) result scope.new }
{
    let before = scope.len();
    let domain = boxed_indexing(alloc, objects, scope, &whole.domain)?;
    let columns = output_columns(alloc, objects, scope, whole.columns.as_slice())?;
    scope.truncate(before);
    Ok(resolved::Action::TableOutput(resolved::TableOutput {
        file: file.into_inner(),
        domain: domain.into_inner(),
        columns,
    }))
}

// The domain stands before the driver and the file, so its faults come first. Its indices are in scope in the columns alone.
#[tactic(auto, unfolding(crate::specs::Statements::domain_alone))]
fn domain_alone(
    alloc: Global,
    objects: &Names,
    scope: &mut Names,
    whole: &Indexing,
) -> Result<(), NamesError>
    ensures { Follows (spec.domain_alone objects.now whole.now scope.old) result scope.new }
{
    let before = scope.len();
    boxed_indexing(alloc, objects, scope, whole)?;
    scope.truncate(before);
    Ok(())
}

/// A table that is written.
#[tactic(auto, unfolding(crate::specs::Statements::table_output))]
pub(crate) fn table_output(
    alloc: Global,
    objects: &Names,
    scope: &mut Names,
    whole: &TableOutput,
) -> Result<resolved::Action, NamesError>
    ensures { Follows (spec.table_output objects.now whole.now scope.old) result scope.new }
{
    domain_alone(alloc, objects, scope, &whole.domain)?;
    driver(scope, &whole.driver)?;
    let file = boxed_expr(alloc, objects, scope, &whole.file)?;
    records(alloc, objects, scope, file, whole)
}
