// The blocks of one parameter and of one set, behind their words.
ghost use Rattle.std.specs.Prelude.{◌≡◌};
ghost use Rattle.gmpl_blocks.specs.Rules.{Reads};
ghost use Rattle.gmpl_load.specs.Statements as spec;
ghost use Rattle.gmpl_load.specs.Tables.{at};

use crate::objects::{DataObject, ParameterPlace, SetPlace, parameter, set};
use crate::tables::{Tables, take_set_data, with_set_data};
use gmpl_blocks::{
    Cursor, DataError, DataFaultKind, ParameterData, parameter_block, set_block, subscripts,
};
use gmpl_data::Given;
use gmpl_value::Tuple;
use model_text::Names;
use std::alloc::Global;

// What a parameter's block gives to it.
#[tactic(auto, unfolding(crate::specs::Statements::parameter_given))]
fn parameter_given(
    alloc: Global,
    dimension: usize,
    given: Given,
    tokens: &mut Cursor<'_, '_>,
) -> Result<Given, DataError>
    ensures { Reads (spec.parameter_given dimension given tokens.old) result tokens.new }
{
    let before = ParameterData {
        values: given.values,
        default: given.default,
    };
    let now = parameter_block(alloc, dimension, before, tokens)?;
    Ok(Given {
        values: now.values,
        overfull: given.overfull,
        default: now.default,
    })
}

#[tactic(auto, using(crate::proofs::Places::put_back))]
fn give_to_parameter(
    alloc: Global,
    found: ParameterPlace,
    mut tables: Tables,
    tokens: &mut Cursor<'_, '_>,
) -> Result<Tables, DataError>
    ensures { Reads (at found.place (spec.parameter_given found.subscripts) tables tokens.old) result tokens.new }
{
    match tables.take(alloc, found.place) {
        None => Err(DataError::Fault(DataFaultKind::Unknown)),
        Some(given) => {
            let more = parameter_given(alloc, found.subscripts, given, tokens)?;
            tables.put(found.place, more);
            Ok(tables)
        }
    }
}

/// The block of a parameter behind its word.
#[tactic(auto, unfolding(crate::specs::Statements::parameter_statement))]
pub(crate) fn parameter_statement(
    alloc: Global,
    names: &Names<'_>,
    objects: &[DataObject],
    tables: Tables,
    tokens: &mut Cursor<'_, '_>,
) -> Result<Tables, DataError>
    ensures { Reads (spec.parameter_statement names.now objects.now tables tokens.old) result tokens.new }
{
    let found = parameter(names, objects, tokens)?;
    give_to_parameter(alloc, found, tables, tokens)
}

// What a set's block gives to one of its members.
#[tactic(auto, unfolding(crate::specs::Statements::set_given))]
fn set_given(
    alloc: Global,
    dimension: usize,
    member: Tuple,
    given: Given,
    tokens: &mut Cursor<'_, '_>,
) -> Result<Given, DataError>
    ensures { Reads (spec.set_given dimension member given tokens.old) result tokens.new }
{
    let taken = take_set_data(alloc, given, &member)?;
    let now = set_block(alloc, dimension, taken.before, tokens)?;
    with_set_data(alloc, taken.left, member, now)
}

#[tactic(auto, using(crate::proofs::Places::put_back))]
fn give_to_set(
    alloc: Global,
    found: SetPlace,
    member: Tuple,
    mut tables: Tables,
    tokens: &mut Cursor<'_, '_>,
) -> Result<Tables, DataError>
    ensures { Reads (at found.place (spec.set_given found.dimension member) tables tokens.old) result tokens.new }
{
    match tables.take(alloc, found.place) {
        None => Err(DataError::Fault(DataFaultKind::Unknown)),
        Some(given) => {
            let more = set_given(alloc, found.dimension, member, given, tokens)?;
            tables.put(found.place, more);
            Ok(tables)
        }
    }
}

/// The block of a set behind its word.
#[tactic(auto, unfolding(crate::specs::Statements::set_statement))]
pub(crate) fn set_statement(
    alloc: Global,
    names: &Names<'_>,
    objects: &[DataObject],
    tables: Tables,
    tokens: &mut Cursor<'_, '_>,
) -> Result<Tables, DataError>
    ensures { Reads (spec.set_statement names.now objects.now tables tokens.old) result tokens.new }
{
    let found = set(names, objects, tokens)?;
    let member = subscripts(alloc, found.subscripts, tokens)?;
    give_to_set(alloc, found, member, tables, tokens)
}
