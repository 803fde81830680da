// What data give to the objects of a model.
ghost use Rattle.std.specs.Prelude.{◌≡◌, ◌+◌, map, IfOk, IfErr, Ok};
ghost use Rattle.gmpl_lexer.specs.DataTokens.{data_tokens};
ghost use Rattle.gmpl_reader.specs.Names.{object_name, names_of};
ghost use Rattle.gmpl_rows.specs.Premises.{AreDifferent};
ghost use Rattle.gmpl_reader.specs.Data as spec;
ghost use Rattle.gmpl_reader.specs.Data.{IsNoData};

use crate::fault::MathProgFault;
use gmpl_data::DataTables;
use gmpl_kinds::{Object, Sort, or_one};
use gmpl_lexer::read_data_tokens;
use gmpl_load::{DataObject, DataSort, DataSource, LoadError, load};
use gmpl_parse::Model;
use gmpl_resolved::{Attribute, Declaration, Numbered, Statement};
use gmpl_token::Tokens;
use model_text::{Names, ReadError};
use std::alloc::{AllocError, Global};

// ---- the objects of a model, as data see them

fn assigns(attribute: &Attribute) -> bool
    ensures { result ≡ spec.assigns attribute.now }
{
    match attribute {
        Attribute::Assigned(_) => true,
        _ => false,
    }
}

fn is_assigned(attributes: &[Attribute]) -> bool
    ensures { result ≡ spec.is_assigned attributes.now }
{
    for attribute in attributes {
        if assigns(attribute) {
            return true;
        }
    }
    false
}

// Whether an expression of the model gives it its value.
fn has_expression(statement: &Statement) -> bool
    ensures { result ≡ spec.has_expression statement.now }
{
    match statement {
        Statement::Set(Declaration { attributes, .. })
        | Statement::Param(Declaration { attributes, .. }) => is_assigned(attributes.as_slice()),
        _ => false,
    }
}

fn data_sort(sort: Sort, elements: Option<usize>) -> DataSort
    ensures { result ≡ spec.data_sort sort elements }
{
    match sort {
        Sort::Set => DataSort::Set(or_one(elements)),
        Sort::Param => DataSort::Parameter,
        _ => DataSort::Other,
    }
}

fn data_object(numbered: &Numbered, object: Object) -> DataObject
    ensures { result ≡ spec.data_object numbered.now object }
{
    DataObject {
        sort: data_sort(object.sort, object.elements),
        subscripts: object.subscripts,
        has_expression: has_expression(&numbered.statement),
    }
}

// In order; each statement declares one.
fn data_objects(
    alloc: Global,
    statements: &[Numbered],
    objects: &[Object],
) -> Result<Vec<DataObject>, AllocError>
    ensures { IfOk result (λ made. made.items ≡ spec.data_objects statements.now objects.now) }
{
    let mut made = Vec::new(alloc);
    for (place, numbered) in statements.iter().enumerate() {
        match objects.get(place) {
            None => return Ok(made),
            Some(object) => made.push(data_object(numbered, *object))?,
        }
    }
    Ok(made)
}

// ---- their names

fn name_of(numbered: &Numbered) -> &str
    ensures { result.now ≡ object_name numbered.now }
{
    match &numbered.statement {
        Statement::Set(declaration) => declaration.head.name.as_str(),
        Statement::Param(declaration) => declaration.head.name.as_str(),
        Statement::Var(declaration) => declaration.head.name.as_str(),
        Statement::Constraint(constraint) => constraint.get().head.name.as_str(),
        Statement::Objective(objective) => objective.get().head.name.as_str(),
    }
}

fn names_of(alloc: Global, statements: &[Numbered]) -> Result<Names<'_>, AllocError>
    requires { AreDifferent (names_of statements.now) }
    ensures { IfOk result (λ names. names ≡ names_of statements.now) }
{
    let mut names = Names::new(alloc);
    for numbered in statements {
        names.push(name_of(numbered))?;
    }
    Ok(names)
}

// ---- the texts of the data

// The data behind a place of a text. Behind its end there are none.
#[tactic(auto, using(crate::proofs::Given::past_end))]
fn tokens_behind(alloc: Global, text: &[u8], at: usize) -> Result<Tokens<'_>, AllocError>
    ensures { IfOk result (λ tokens. tokens ≡ data_tokens (at + 1) text.now) }
{
    if at >= text.len() {
        return Ok(Tokens::from_vec(Vec::new(alloc), None));
    }
    read_data_tokens(alloc, text, at + 1)
}

// The data of a model's own section, which begins behind this place of its text.
fn section_tokens(
    alloc: Global,
    text: &[u8],
    section: Option<usize>,
) -> Result<Vec<Tokens<'_>>, AllocError>
    ensures { IfOk result (λ texts. texts.items ≡ spec.section_tokens text.now section) }
{
    let mut texts = Vec::new(alloc);
    if let Some(at) = section {
        texts.push(tokens_behind(alloc, text, at)?)?;
    }
    Ok(texts)
}

// The files in order.
fn files_tokens(alloc: Global, data_texts: &[Vec<u8>]) -> Result<Vec<Tokens<'_>>, AllocError>
    ensures { IfOk result (λ texts. texts.items ≡ map spec.file_tokens (map (λ file. file.items) data_texts.now)) }
{
    let mut texts = Vec::new(alloc);
    for file in data_texts {
        texts.push(read_data_tokens(alloc, file.as_slice(), 0)?)?;
    }
    Ok(texts)
}

// The files, or else the section behind the model.
fn texts_of_data<'a>(
    alloc: Global,
    text: &'a [u8],
    section: Option<usize>,
    data_texts: &'a [Vec<u8>],
) -> Result<Vec<Tokens<'a>>, AllocError>
    ensures { IfOk result (λ texts. texts.items ≡ spec.texts_of_data text.now section (map (λ file. file.items) data_texts.now)) }
{
    match data_texts {
        [] => section_tokens(alloc, text, section),
        [_, ..] => files_tokens(alloc, data_texts),
    }
}

fn source_of_data(data_texts: &[Vec<u8>]) -> DataSource
    ensures { result ≡ spec.source_of_data (map (λ file. file.items) data_texts.now) }
{
    match data_texts {
        [] => DataSource::Section,
        [_, ..] => DataSource::Files,
    }
}

// ---- what is given

// What these texts of a source give to the objects of a model.
fn given_by(
    alloc: Global,
    model: &Model,
    source: DataSource,
    texts: &[Tokens<'_>],
) -> Result<DataTables, ReadError<MathProgFault>>
    requires { AreDifferent (names_of model.now.statements) }
    ensures tables { IfOk result (λ given. spec.given_by model.now source texts.now ≡ Ok given.objects) }
    ensures fault { IfErr result (IsNoData (spec.given_by model.now source texts.now)) }
{
    let statements = model.statements.as_slice();
    let names = names_of(alloc, statements)?;
    let objects = data_objects(alloc, statements, model.objects.as_slice())?;
    match load(alloc, &names, &objects, source, texts) {
        Ok(given) => Ok(given),
        Err(LoadError::Fault(fault)) => Err(ReadError::Fault(MathProgFault::Data(fault))),
        Err(LoadError::NoMemory) => Err(ReadError::NoMemory),
    }
}

/// What the data give to the objects of a model, of which no two have the same name: the data files in order, or the section behind
/// the model where there are no files.
pub(crate) fn given(
    alloc: Global,
    text: &[u8],
    data_texts: &[Vec<u8>],
    model: &Model,
) -> Result<DataTables, ReadError<MathProgFault>>
    requires { AreDifferent (names_of model.now.statements) }
    ensures tables { IfOk result (λ given. spec.given text.now (map (λ file. file.items) data_texts.now) model.now ≡ Ok given.objects) }
    ensures fault { IfErr result (IsNoData (spec.given text.now (map (λ file. file.items) data_texts.now) model.now)) }
{
    let texts = texts_of_data(alloc, text, model.data_at, data_texts)?;
    given_by(alloc, model, source_of_data(data_texts), &texts)
}
