// What members of variables come to, and their bounds.
ghost use Rattle.std.specs.Prelude.{◌≡◌};
ghost use Rattle.gmpl_value.specs.Outcome.{Gives};
ghost use Rattle.gmpl_meaning.specs.Restrictions as restrictions;
ghost use Rattle.gmpl_meaning.specs.Members as members;
ghost use Rattle.gmpl_data.specs.Given as given;
ghost use Rattle.gmpl_meaning.specs.Members.{member};
ghost use Rattle.gmpl_meaning.specs.Right.{AreRight};

use crate::attributes::{binary_bounds, bounds_with};
use crate::indexing::within_domain;
use crate::solved::{bounded_column, solved_asked, variable_asked};
use crate::values::number;
use gmpl_data::LoadedModel;
use gmpl_meaning::{Bounds, Kept};
use gmpl_operations::Value;
use gmpl_resolved::{Attribute, Declaration, Statement};
use gmpl_syntax::Suffix;
use gmpl_value::{EvalFault, Tuple};
use std::alloc::Global;

#[cycle(evaluation)]
pub(crate) fn variable_member(
    alloc: Global,
    model: &LoadedModel,
    kept: &mut Kept,
    height: u32,
    room: u32,
    place: usize,
    variable: &Declaration,
    asked: Option<Suffix>,
    subscripts: &Tuple,
) -> Result<Value, EvalFault>
    requires right { AreRight model.now kept.old }
    ensures right { AreRight model.now kept.new }
    ensures value { Gives result (members.variable_member model.now (member model.now height) place variable.now asked subscripts.now) }
{
    match bounded_column(alloc, &model.solution, place, asked, subscripts) {
        Err(fault) => Err(fault),
        Ok(None) => evaluated_variable(
            alloc, model, kept, height, room, place, variable, asked, subscripts,
        ),
        Ok(Some(column)) => solved_asked(asked, column),
    }
}

// What is asked of a member of a variable whose bounds are evaluated.
#[cycle(evaluation)]
fn evaluated_variable(
    alloc: Global,
    model: &LoadedModel,
    kept: &mut Kept,
    height: u32,
    room: u32,
    place: usize,
    variable: &Declaration,
    asked: Option<Suffix>,
    subscripts: &Tuple,
) -> Result<Value, EvalFault>
    requires right { AreRight model.now kept.old }
    ensures right { AreRight model.now kept.new }
    ensures value { Gives result (members.evaluated_variable model.now (member model.now height) place variable.now asked subscripts.now) }
{
    let bounds = variable_bounds(alloc, model, kept, height, room, variable, subscripts);
    variable_asked(alloc, place, subscripts, &model.solution, asked, bounds)
}

/// The bounds of a variable's member.
#[cycle(evaluation)]
fn variable_bounds(
    alloc: Global,
    model: &LoadedModel,
    kept: &mut Kept,
    height: u32,
    room: u32,
    variable: &Declaration,
    subscripts: &Tuple,
) -> Result<Bounds, EvalFault>
    requires right { AreRight model.now kept.old }
    ensures right { AreRight model.now kept.new }
    ensures value { Gives result (members.variable_bounds model.now (member model.now height) variable.now subscripts.now) }
{
    let attributes = variable.attributes.as_slice();
    let bindings = within_domain(
        alloc,
        model,
        kept,
        height,
        room,
        &variable.head.domain,
        subscripts,
    )?;
    let none = Bounds {
        lower: None,
        upper: None,
    };
    let found = bounded(
        alloc, model, kept, height, room, &bindings, none, attributes,
    );
    binary_bounds(attributes, found)
}

/// The bounds of a member of the object at this place.
pub(crate) fn bounds_by(
    alloc: Global,
    model: &LoadedModel,
    kept: &mut Kept,
    height: u32,
    room: u32,
    place: usize,
    subscripts: &Tuple,
) -> Result<Bounds, EvalFault>
    requires right { AreRight model.now kept.old }
    ensures right { AreRight model.now kept.new }
    ensures value { Gives result (members.declared_bounds model.now (member model.now height) (given.statement_at model.now place) subscripts.now) }
{
    match model.statement(place) {
        None => Err(EvalFault::NoValue),
        Some(found) => match &found.statement {
            Statement::Var(variable) => {
                variable_bounds(alloc, model, kept, height, room, variable, subscripts)
            }
            _ => Err(EvalFault::NoValue),
        },
    }
}

// Recursion over the attributes, which are few, since bounds can't be carried round a loop.
#[cycle(evaluation)]
fn bounded(
    alloc: Global,
    model: &LoadedModel,
    kept: &mut Kept,
    height: u32,
    room: u32,
    bindings: &Tuple,
    so_far: Bounds,
    attributes: &[Attribute],
) -> Result<Bounds, EvalFault>
    requires right { AreRight model.now kept.old }
    ensures right { AreRight model.now kept.new }
    ensures value { Gives result (restrictions.bounded model.now.statements (member model.now height) bindings.now so_far attributes.now) }
{
    if room == 0 {
        return Err(EvalFault::NoMemory);
    }
    match attributes {
        [] => Ok(so_far),
        [first, others @ ..] => {
            let more = bounded_by(alloc, model, kept, height, room, bindings, so_far, first)?;
            bounded(alloc, model, kept, height, room - 1, bindings, more, others)
        }
    }
}

#[cycle(evaluation)]
fn bounded_by(
    alloc: Global,
    model: &LoadedModel,
    kept: &mut Kept,
    height: u32,
    room: u32,
    bindings: &Tuple,
    so_far: Bounds,
    attribute: &Attribute,
) -> Result<Bounds, EvalFault>
    requires right { AreRight model.now kept.old }
    ensures right { AreRight model.now kept.new }
    ensures value { Gives result (restrictions.bounded_by model.now.statements (member model.now height) bindings.now so_far attribute.now) }
{
    match attribute {
        Attribute::Restriction(relation, whole) => {
            let bound = number(alloc, model, kept, height, room, whole, bindings);
            bounds_with(so_far, *relation, bound)
        }
        _ => Ok(so_far),
    }
}
