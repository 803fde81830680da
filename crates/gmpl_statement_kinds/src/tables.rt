// Tables.
ghost use Rattle.std.specs.Prelude.{◌≡◌, slice_get};
ghost use Rattle.gmpl_statement_kinds.specs.StatementKinds as spec;

use crate::attributes::scalar_at;
use crate::sites::plain;
use gmpl_kinds::{Object, Site, Sort, indexing_dimension, same_dimension};
use gmpl_resolved::{InputColumn, OutputColumn, TableInput, TableOutput};
use gmpl_syntax::SyntaxFaultKind;

// ---- a table that is written

fn values(objects: &[Object], site: Site, all: &[OutputColumn]) -> Result<(), SyntaxFaultKind>
    ensures { result ≡ spec.values objects.now site all.now }
{
    for one in all {
        scalar_at(objects, site, &one.value)?;
    }
    Ok(())
}

#[tactic(auto, unfolding(crate::specs::StatementKinds::table_output))]
pub(crate) fn table_output(
    objects: &[Object],
    site: Site,
    whole: &TableOutput,
) -> Result<(), SyntaxFaultKind>
    ensures { result ≡ spec.table_output objects.now site whole.now }
{
    indexing_dimension(objects, site, &whole.domain)?;
    scalar_at(objects, site, &whole.file)?;
    values(objects, site, whole.columns.as_slice())
}

// ---- a table that is read

fn object_at(objects: &[Object], place: usize) -> Option<Object>
    ensures { result ≡ slice_get objects.now place }
{
    match objects.get(place) {
        None => None,
        Some(object) => Some(*object),
    }
}

fn is_set(sort: Sort) -> bool
    ensures { result ≡ spec.is_set sort }
{
    match sort {
        Sort::Set => true,
        _ => false,
    }
}

fn is_param(sort: Sort) -> bool
    ensures { result ≡ spec.is_param sort }
{
    match sort {
        Sort::Param => true,
        _ => false,
    }
}

fn takes(count: usize, subscripts: usize) -> Result<(), SyntaxFaultKind>
    ensures { result ≡ spec.takes count subscripts }
{
    if subscripts == count {
        Ok(())
    } else {
        Err(SyntaxFaultKind::WrongDimension)
    }
}

fn has_components(count: usize, elements: Option<usize>) -> Result<(), SyntaxFaultKind>
    ensures { result ≡ spec.has_components count elements }
{
    same_dimension(Some(count), elements)?;
    Ok(())
}

fn joined(count: usize, object: Option<Object>) -> Result<(), SyntaxFaultKind>
    ensures { result ≡ spec.joined count object }
{
    match object {
        None => Err(SyntaxFaultKind::WrongKind),
        Some(object) => {
            if is_set(object.sort) {
                takes(0, object.subscripts)?;
                has_components(count, object.elements)
            } else {
                Err(SyntaxFaultKind::WrongKind)
            }
        }
    }
}

fn optional_joined(
    objects: &[Object],
    count: usize,
    set: Option<usize>,
) -> Result<(), SyntaxFaultKind>
    ensures { result ≡ spec.optional_joined objects.now count set }
{
    match set {
        None => Ok(()),
        Some(place) => joined(count, object_at(objects, place)),
    }
}

fn parameter(count: usize, object: Option<Object>) -> Result<(), SyntaxFaultKind>
    ensures { result ≡ spec.parameter count object }
{
    match object {
        None => Err(SyntaxFaultKind::WrongKind),
        Some(object) => {
            if is_param(object.sort) {
                takes(count, object.subscripts)
            } else {
                Err(SyntaxFaultKind::WrongKind)
            }
        }
    }
}

fn parameters(objects: &[Object], count: usize, all: &[InputColumn]) -> Result<(), SyntaxFaultKind>
    ensures { result ≡ spec.parameters objects.now count all.now }
{
    for one in all {
        parameter(count, object_at(objects, one.parameter))?;
    }
    Ok(())
}

#[tactic(auto, unfolding(crate::specs::StatementKinds::table_input))]
pub(crate) fn table_input(
    objects: &[Object],
    solved: bool,
    whole: &TableInput,
) -> Result<(), SyntaxFaultKind>
    ensures { result ≡ spec.table_input objects.now solved whole.now }
{
    scalar_at(objects, plain(solved), &whole.file)?;
    optional_joined(objects, whole.keys.len(), whole.set)?;
    parameters(objects, whole.keys.len(), whole.columns.as_slice())
}
