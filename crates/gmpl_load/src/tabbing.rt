// A block of several parameters.
ghost use Rattle.std.specs.Prelude.{◌≡◌, length};
ghost use Rattle.gmpl_blocks.specs.Rules.{Reads, Judges};
ghost use Rattle.gmpl_load.specs.Tabbing as spec;

use crate::objects::{DataObject, ParameterPlace, SetPlace, parameter, parameter_named, set_named};
use crate::tables::{Tables, take_set_data, with_set_data};
use gmpl_blocks::{
    Cursor, DataError, DataFaultKind, SetData, all_stars, cell, comma, default, given_default,
    given_element, given_value, tuple,
};
use gmpl_data::Given;
use gmpl_token::TokenKind;
use gmpl_value::{SetValue, Symbol, Tuple};
use model_text::Names;
use sqlite_items::Items;
use std::alloc::Global;

// A block between two items: the place of the set to which its tuples are given, with what is given to that, the dimension of
// all that it names, the places of the parameters, their default, the tables, and whether a row stands right before.
#[derive(Drop)]
pub(crate) struct TabbingBlock {
    pub(crate) set_place: Option<usize>,
    pub(crate) elements: SetData,
    pub(crate) dimension: Option<usize>,
    pub(crate) parameters: Items<usize>,
    pub(crate) default: Option<Symbol>,
    pub(crate) tables: Tables,
    pub(crate) is_behind_item: bool,
}

// ---- what is given to an object

fn valued(member: Tuple, value: Symbol, given: Given) -> Result<Given, DataError>
    ensures { Judges (spec.valued member value given) result }
{
    let values = given_value(member, value, given.values)?;
    Ok(Given {
        values,
        overfull: given.overfull,
        default: given.default,
    })
}

fn defaulted(value: Symbol, given: Given) -> Result<Given, DataError>
    ensures { Judges (spec.defaulted value given) result }
{
    let default = given_default(value, given.default)?;
    Ok(Given {
        values: given.values,
        overfull: given.overfull,
        default,
    })
}

// The default of the block to the parameter at a place.
#[tactic(auto, using(crate::proofs::Places::put_back), unfolding(crate::specs::Tabbing::default_given))]
fn default_given(
    alloc: Global,
    default: &Option<Symbol>,
    place: usize,
    mut tables: Tables,
) -> Result<Tables, DataError>
    ensures { Judges (spec.default_given default.now place tables) result }
{
    match default {
        None => Ok(tables),
        Some(value) => match tables.take(alloc, place) {
            None => Err(DataError::Fault(DataFaultKind::Unknown)),
            Some(given) => {
                let more = defaulted(value.copied(alloc)?, given)?;
                tables.put(place, more);
                Ok(tables)
            }
        },
    }
}

// A value of the block to a member of the parameter at a place.
#[tactic(auto, using(crate::proofs::Places::put_back), unfolding(crate::specs::Tabbing::cell_given))]
fn cell_given(
    alloc: Global,
    place: usize,
    member: &Tuple,
    value: Option<Symbol>,
    mut tables: Tables,
) -> Result<Tables, DataError>
    ensures { Judges (spec.cell_given place member.now value tables) result }
{
    match value {
        None => Ok(tables),
        Some(value) => match tables.take(alloc, place) {
            None => Err(DataError::Fault(DataFaultKind::Unknown)),
            Some(given) => {
                let more = valued(member.copied(alloc)?, value, given)?;
                tables.put(place, more);
                Ok(tables)
            }
        },
    }
}

// ---- the heading

// All that the block names have one dimension.
fn fits(known: Option<usize>, dimension: usize) -> bool
    ensures { result ≡ spec.fits known dimension }
{
    match known {
        None => true,
        Some(known) => known == dimension,
    }
}

// One more parameter, which is given the block's default.
#[tactic(auto, unfolding(crate::specs::Tabbing::with_parameter))]
fn with_parameter(
    alloc: Global,
    block: TabbingBlock,
    found: ParameterPlace,
) -> Result<TabbingBlock, DataError>
    ensures { Judges (spec.with_parameter block found) result }
{
    let TabbingBlock {
        set_place,
        elements,
        dimension,
        mut parameters,
        default,
        tables: before,
        ..
    } = block;
    if !fits(dimension, found.subscripts) {
        return Err(DataError::Fault(DataFaultKind::WrongDimension));
    }
    let tables = default_given(alloc, &default, found.place, before)?;
    parameters.push(found.place)?;
    Ok(TabbingBlock {
        set_place,
        elements,
        dimension: Some(found.subscripts),
        parameters,
        default,
        tables,
        is_behind_item: false,
    })
}

// The set to which the tuples are given, which has no subscripts.
#[tactic(auto, using(crate::proofs::Places::put_back), unfolding(crate::specs::Tabbing::with_set))]
fn with_set(alloc: Global, block: TabbingBlock, found: SetPlace) -> Result<TabbingBlock, DataError>
    ensures { Judges (spec.with_set block found) result }
{
    if found.subscripts != 0 {
        return Err(DataError::Fault(DataFaultKind::WrongDimension));
    }
    let TabbingBlock {
        parameters,
        default,
        mut tables,
        ..
    } = block;
    match tables.take(alloc, found.place) {
        None => Err(DataError::Fault(DataFaultKind::Unknown)),
        Some(given) => {
            let taken = take_set_data(alloc, given, &Tuple::new(alloc))?;
            tables.put(found.place, taken.left);
            Ok(TabbingBlock {
                set_place: Some(found.place),
                elements: taken.before,
                dimension: Some(found.dimension),
                parameters,
                default,
                tables,
                is_behind_item: false,
            })
        }
    }
}

#[tactic(auto, unfolding(crate::specs::Tabbing::set_heading))]
fn set_heading(
    alloc: Global,
    names: &Names<'_>,
    objects: &[DataObject],
    name: &str,
    block: TabbingBlock,
) -> Result<TabbingBlock, DataError>
    ensures { Judges (spec.set_heading names.now objects.now name.now block) result }
{
    let found = set_named(names, objects, name)?;
    with_set(alloc, block, found)
}

#[tactic(auto, unfolding(crate::specs::Tabbing::parameter_heading))]
fn parameter_heading(
    alloc: Global,
    names: &Names<'_>,
    objects: &[DataObject],
    block: TabbingBlock,
    tokens: &mut Cursor<'_, '_>,
) -> Result<TabbingBlock, DataError>
    ensures { Reads (spec.parameter_heading names.now objects.now block tokens.old) result tokens.new }
{
    let found = parameter(names, objects, tokens)?;
    with_parameter(alloc, block, found)
}

#[tactic(auto, unfolding(crate::specs::Tabbing::named_parameter))]
fn named_parameter(
    alloc: Global,
    names: &Names<'_>,
    objects: &[DataObject],
    name: &str,
    block: TabbingBlock,
) -> Result<TabbingBlock, DataError>
    ensures { Judges (spec.named_parameter names.now objects.now name.now block) result }
{
    let found = parameter_named(names, objects, name)?;
    with_parameter(alloc, block, found)
}

// A set where a colon stood behind the name, and then a parameter; else a parameter.
fn first_by(
    alloc: Global,
    names: &Names<'_>,
    objects: &[DataObject],
    name: &str,
    block: TabbingBlock,
    is_set: bool,
    tokens: &mut Cursor<'_, '_>,
) -> Result<TabbingBlock, DataError>
    ensures { Reads (spec.first_by names.now objects.now name.now block is_set tokens.old) result tokens.new }
{
    if is_set {
        let begun = set_heading(alloc, names, objects, name, block)?;
        parameter_heading(alloc, names, objects, begun, tokens)
    } else {
        named_parameter(alloc, names, objects, name, block)
    }
}

#[tactic(auto, unfolding(crate::specs::Tabbing::first_heading))]
fn first_heading(
    alloc: Global,
    names: &Names<'_>,
    objects: &[DataObject],
    block: TabbingBlock,
    tokens: &mut Cursor<'_, '_>,
) -> Result<TabbingBlock, DataError>
    ensures { Reads (spec.first_heading names.now objects.now block tokens.old) result tokens.new }
{
    match tokens.peek() {
        Some(TokenKind::Name) => {
            let name = tokens.take();
            let is_set = tokens.eat(TokenKind::Colon);
            first_by(alloc, names, objects, name, block, is_set, tokens)
        }
        _ => Err(tokens.refuse()),
    }
}

#[tactic(auto, unfolding(crate::specs::Tabbing::next_heading))]
fn next_heading(
    alloc: Global,
    names: &Names<'_>,
    objects: &[DataObject],
    block: TabbingBlock,
    tokens: &mut Cursor<'_, '_>,
) -> Result<TabbingBlock, DataError>
    ensures { Reads (spec.next_heading names.now objects.now block tokens.old) result tokens.new }
{
    tokens.eat(TokenKind::Comma);
    parameter_heading(alloc, names, objects, block, tokens)
}

fn further_headings(
    alloc: Global,
    names: &Names<'_>,
    objects: &[DataObject],
    mut block: TabbingBlock,
    tokens: &mut Cursor<'_, '_>,
) -> Result<TabbingBlock, DataError>
    ensures { Reads (spec.further_headings names.now objects.now block tokens.old) result tokens.new }
{
    for _turn in 0..tokens.left() {
        if tokens.eat(TokenKind::Assign) {
            return Ok(block);
        }
        block = next_heading(alloc, names, objects, block, tokens)?;
    }
    Err(tokens.refuse())
}

// ---- the rows

fn element_by(set_place: Option<usize>, tuple: Tuple, given: SetData) -> Result<SetData, DataError>
    ensures { Judges (spec.element_by set_place tuple given) result }
{
    match set_place {
        None => Ok(given),
        Some(_) => given_element(tuple, given),
    }
}

// A value of the parameter at a place.
#[tactic(auto, unfolding(crate::specs::Tabbing::one_cell))]
fn one_cell(
    alloc: Global,
    place: usize,
    member: &Tuple,
    tables: Tables,
    tokens: &mut Cursor<'_, '_>,
) -> Result<Tables, DataError>
    ensures { Reads (spec.one_cell place member.now tables tokens.old) result tokens.new }
{
    let value = cell(alloc, tokens)?;
    cell_given(alloc, place, member, value, tables)
}

// A value of each of these parameters.
fn cells(
    alloc: Global,
    parameters: &[usize],
    member: &Tuple,
    mut tables: Tables,
    tokens: &mut Cursor<'_, '_>,
) -> Result<Tables, DataError>
    ensures { Reads (spec.cells parameters.now member.now tables tokens.old) result tokens.new }
{
    for place in parameters {
        tables = one_cell(alloc, *place, member, tables, tokens)?;
    }
    Ok(tables)
}

// A tuple, and behind it the values of all parameters.
#[tactic(auto, unfolding(crate::specs::Tabbing::row))]
fn row(
    alloc: Global,
    slots: &[Option<Symbol>],
    block: TabbingBlock,
    tokens: &mut Cursor<'_, '_>,
) -> Result<TabbingBlock, DataError>
    ensures { Reads (spec.row slots.now block tokens.old) result tokens.new }
{
    let TabbingBlock {
        set_place,
        elements: given,
        dimension,
        parameters,
        default,
        tables: before,
        ..
    } = block;
    let member = tuple(alloc, slots, tokens)?;
    let elements = element_by(set_place, member.copied(alloc)?, given)?;
    let tables = cells(alloc, parameters.as_slice(), &member, before, tokens)?;
    Ok(TabbingBlock {
        set_place,
        elements,
        dimension,
        parameters,
        default,
        tables,
        is_behind_item: true,
    })
}

#[tactic(auto, unfolding(crate::specs::Tabbing::separator))]
fn separator(block: TabbingBlock, tokens: &mut Cursor<'_, '_>) -> Result<TabbingBlock, DataError>
    ensures { Reads (spec.separator block tokens.old) result tokens.new }
{
    comma(block.is_behind_item, tokens)?;
    Ok(TabbingBlock {
        set_place: block.set_place,
        elements: block.elements,
        dimension: block.dimension,
        parameters: block.parameters,
        default: block.default,
        tables: block.tables,
        is_behind_item: false,
    })
}

#[tactic(auto, unfolding(crate::specs::Tabbing::row_item))]
fn row_item(
    alloc: Global,
    slots: &[Option<Symbol>],
    block: TabbingBlock,
    tokens: &mut Cursor<'_, '_>,
) -> Result<TabbingBlock, DataError>
    ensures { Reads (spec.row_item slots.now block tokens.old) result tokens.new }
{
    match tokens.peek() {
        Some(TokenKind::Comma) => separator(block, tokens),
        Some(TokenKind::NumericLiteral) => row(alloc, slots, block, tokens),
        Some(TokenKind::Name) => row(alloc, slots, block, tokens),
        Some(TokenKind::StringLiteral) => row(alloc, slots, block, tokens),
        _ => Err(tokens.refuse()),
    }
}

fn rows(
    alloc: Global,
    slots: &[Option<Symbol>],
    mut block: TabbingBlock,
    tokens: &mut Cursor<'_, '_>,
) -> Result<TabbingBlock, DataError>
    ensures { Reads (spec.rows slots.now block tokens.old) result tokens.new }
{
    for _turn in 0..tokens.left() {
        if tokens.eat(TokenKind::Semicolon) {
            return Ok(block);
        }
        block = row_item(alloc, slots, block, tokens)?;
    }
    Err(tokens.refuse())
}

// ---- the block

fn known(dimension: Option<usize>) -> usize
    ensures { result ≡ spec.known dimension }
{
    match dimension {
        None => 0,
        Some(dimension) => dimension,
    }
}

// What the block gives, with the tuples to its set.
#[tactic(auto, using(crate::proofs::Places::put_back))]
fn given_by_place(
    alloc: Global,
    set_place: Option<usize>,
    now: SetData,
    mut tables: Tables,
) -> Result<Tables, DataError>
    ensures { Judges (spec.given_by_place set_place now tables) result }
{
    match set_place {
        None => Ok(tables),
        Some(place) => match tables.take(alloc, place) {
            None => Err(DataError::Fault(DataFaultKind::Unknown)),
            Some(given) => {
                let more = with_set_data(alloc, given, Tuple::new(alloc), now)?;
                tables.put(place, more);
                Ok(tables)
            }
        },
    }
}

#[tactic(auto, unfolding(crate::specs::Tabbing::all_given))]
fn all_given(alloc: Global, block: TabbingBlock) -> Result<Tables, DataError>
    ensures { Judges (spec.all_given block) result }
{
    given_by_place(alloc, block.set_place, block.elements, block.tables)
}

fn begun(alloc: Global, default: Option<Symbol>, tables: Tables) -> TabbingBlock
    ensures { result ≡ spec.begun default tables }
{
    TabbingBlock {
        set_place: None,
        elements: SetData {
            elements: SetValue::new(alloc),
            is_overfull: false,
        },
        dimension: None,
        parameters: Items::new(alloc),
        default,
        tables,
        is_behind_item: false,
    }
}

/// The block of several parameters, behind its word.
#[tactic(auto, unfolding(crate::specs::Tabbing::tabbing_statement))]
pub(crate) fn tabbing_statement(
    alloc: Global,
    names: &Names<'_>,
    objects: &[DataObject],
    tables: Tables,
    tokens: &mut Cursor<'_, '_>,
) -> Result<Tables, DataError>
    ensures { Reads (spec.tabbing_statement names.now objects.now tables tokens.old) result tokens.new }
{
    let value = default(alloc, None, tokens)?;
    tokens.expect(TokenKind::Colon)?;
    let first = first_heading(alloc, names, objects, begun(alloc, value, tables), tokens)?;
    let block = further_headings(alloc, names, objects, first, tokens)?;
    let slots = all_stars(alloc, known(block.dimension))?;
    let all = rows(alloc, slots.as_slice(), block, tokens)?;
    all_given(alloc, all)
}
