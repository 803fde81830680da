// The evaluators.
ghost use Rattle.std.specs.Prelude.{◌≡◌, Ok, Some};
ghost use Rattle.gmpl_value.specs.Outcome.{Gives, then_do};
ghost use Rattle.gmpl_functions.specs.Amounts.{form_in};
ghost use Rattle.gmpl_meaning.specs.Right.{AreRight};
ghost use Rattle.gmpl_meaning.specs.Members.{evaluated, elements_of, bounds_at, member_at};
ghost use Rattle.gmpl_operations.specs.Values.{number_in, symbol_in, set_in, truth_in, amount_in};

use crate::context::Context;
use crate::evaluate::eval;
use crate::indexing::walked;
use crate::members::demanded;
use crate::places::start;
use crate::room::ROOM;
use crate::variables::bounds_by;
use fraction::Frac;
use gmpl_data::LoadedModel;
use gmpl_functions::{Form, Variable};
use gmpl_meaning::{Bounds, Kept, Walk};
use gmpl_operations::Value;
use gmpl_resolved::{Expr, Indexing};
use gmpl_value::{EvalFault, SetValue, Symbol, Tuple};
use std::alloc::Global;

// The longest chain of members.
const MOST_HEIGHT: u32 = 400;

/// The value that an expression comes to, of whatever kind.
pub fn eval_value(
    alloc: Global,
    context: &mut Context<'_>,
    whole: &Expr,
    bindings: &Tuple,
) -> Result<Value, EvalFault>
    ensures value { Gives result (evaluated context.old whole.now bindings.now) }
    ensures same { context.new ≡ context.old }
{
    eval(
        alloc,
        context.model,
        &mut context.kept,
        MOST_HEIGHT,
        ROOM,
        whole,
        bindings,
    )
}

/// The number that an expression comes to. `Nonlinear` where before `solve` a variable stands in it.
pub fn eval_num(
    alloc: Global,
    context: &mut Context<'_>,
    whole: &Expr,
    bindings: &Tuple,
) -> Result<Frac, EvalFault>
    ensures value { Gives result (then_do number_in (evaluated context.old whole.now bindings.now)) }
    ensures same { context.new ≡ context.old }
{
    let value = eval_value(alloc, context, whole, bindings)?;
    value.as_number()
}

/// The symbol that an expression comes to.
pub fn eval_sym(
    alloc: Global,
    context: &mut Context<'_>,
    whole: &Expr,
    bindings: &Tuple,
) -> Result<Symbol, EvalFault>
    ensures value { Gives result (then_do symbol_in (evaluated context.old whole.now bindings.now)) }
    ensures same { context.new ≡ context.old }
{
    let value = eval_value(alloc, context, whole, bindings)?;
    value.into_symbol()
}

/// The set that an expression comes to.
pub fn eval_set(
    alloc: Global,
    context: &mut Context<'_>,
    whole: &Expr,
    bindings: &Tuple,
) -> Result<SetValue, EvalFault>
    ensures value { Gives result (then_do set_in (evaluated context.old whole.now bindings.now)) }
    ensures same { context.new ≡ context.old }
{
    let value = eval_value(alloc, context, whole, bindings)?;
    Ok(value.into_set()?.into_inner())
}

/// Whether an expression is true.
pub fn eval_bool(
    alloc: Global,
    context: &mut Context<'_>,
    whole: &Expr,
    bindings: &Tuple,
) -> Result<bool, EvalFault>
    ensures value { Gives result (then_do truth_in (evaluated context.old whole.now bindings.now)) }
    ensures same { context.new ≡ context.old }
{
    let value = eval_value(alloc, context, whole, bindings)?;
    value.as_truth()
}

/// The linear form that an expression comes to; a number is a form without terms.
pub fn eval_form(
    alloc: Global,
    context: &mut Context<'_>,
    whole: &Expr,
    bindings: &Tuple,
) -> Result<Form, EvalFault>
    ensures value { Gives result (then_do (λ a. Ok (form_in a)) (then_do amount_in (evaluated context.old whole.now bindings.now))) }
    ensures same { context.new ≡ context.old }
{
    let value = eval_value(alloc, context, whole, bindings)?;
    let amount = value.into_amount()?;
    Ok(amount.into_form(alloc)?)
}

fn elements_by(
    alloc: Global,
    model: &LoadedModel,
    kept: &mut Kept,
    domain: &Option<Indexing>,
    bindings: &Tuple,
) -> Result<Walk, EvalFault>
    requires right { AreRight model.now kept.old }
    ensures right { AreRight model.now kept.new }
    ensures value { Gives result (Ok (elements_of model.now domain.now bindings.now)) }
{
    match domain {
        None => Ok(start(alloc)?),
        Some(indexing) => { walked(alloc, model, kept, MOST_HEIGHT, ROOM, indexing, bindings) }
    }
}

fn elements_in(
    alloc: Global,
    model: &LoadedModel,
    kept: &mut Kept,
    indexing: &Indexing,
    bindings: &Tuple,
) -> Result<Walk, EvalFault>
    requires right { AreRight model.now kept.old }
    ensures right { AreRight model.now kept.new }
    ensures value { Gives result (Ok (elements_of model.now (Some indexing.now) bindings.now)) }
{
    walked(alloc, model, kept, MOST_HEIGHT, ROOM, indexing, bindings)
}

/// What an indexing expression goes over: its elements in order, up to the first fault. The only error is want of memory.
pub fn elements_over(
    alloc: Global,
    context: &mut Context<'_>,
    indexing: &Indexing,
    bindings: &Tuple,
) -> Result<Walk, EvalFault>
    ensures value { Gives result (Ok (elements_of context.old (Some indexing.now) bindings.now)) }
    ensures same { context.new ≡ context.old }
{
    elements_in(alloc, context.model, &mut context.kept, indexing, bindings)
}

/// What a domain goes over: its elements in order, up to the first fault; without a domain, one element without components. The
/// only error is want of memory.
pub fn elements_of(
    alloc: Global,
    context: &mut Context<'_>,
    domain: &Option<Indexing>,
    bindings: &Tuple,
) -> Result<Walk, EvalFault>
    ensures value { Gives result (Ok (elements_of context.old domain.now bindings.now)) }
    ensures same { context.new ≡ context.old }
{
    elements_by(alloc, context.model, &mut context.kept, domain, bindings)
}

// The bounds of a variable's member, which are kept.
fn bounds_in(
    alloc: Global,
    model: &LoadedModel,
    kept: &mut Kept,
    variable: &Variable,
) -> Result<Bounds, EvalFault>
    requires right { AreRight model.now kept.old }
    ensures right { AreRight model.now kept.new }
    ensures value { Gives result (bounds_at model.now variable.now.statement variable.now.subscripts) }
{
    match kept.bounds(variable) {
        Some(bounds) => Ok(*bounds),
        None => {
            let bounds = bounds_anew(alloc, model, kept, variable)?;
            kept.remember_bounds(alloc, variable, &bounds)?;
            Ok(bounds)
        }
    }
}

fn bounds_anew(
    alloc: Global,
    model: &LoadedModel,
    kept: &mut Kept,
    variable: &Variable,
) -> Result<Bounds, EvalFault>
    requires right { AreRight model.now kept.old }
    ensures right { AreRight model.now kept.new }
    ensures value { Gives result (bounds_at model.now variable.now.statement variable.now.subscripts) }
{
    bounds_by(
        alloc,
        model,
        kept,
        MOST_HEIGHT - 1,
        ROOM,
        variable.statement,
        &variable.subscripts,
    )
}

/// The bounds of a variable's member.
pub fn bounds_of(
    alloc: Global,
    context: &mut Context<'_>,
    variable: &Variable,
) -> Result<Bounds, EvalFault>
    ensures value { Gives result (bounds_at context.old variable.now.statement variable.now.subscripts) }
    ensures same { context.new ≡ context.old }
{
    bounds_in(alloc, context.model, &mut context.kept, variable)
}

fn member_by(
    alloc: Global,
    model: &LoadedModel,
    kept: &mut Kept,
    place: usize,
    subscripts: &Tuple,
) -> Result<Value, EvalFault>
    requires right { AreRight model.now kept.old }
    ensures right { AreRight model.now kept.new }
    ensures value { Gives result (member_at model.now place subscripts.now) }
{
    let value = demanded(
        alloc,
        model,
        kept,
        MOST_HEIGHT,
        ROOM,
        place,
        None,
        subscripts,
    )?;
    Ok(value.into_value(alloc)?)
}

/// What a member of the object at this place comes to: of a variable before `solve` its form, and behind it its number; of a
/// constraint or an objective the value of its row, which it has behind `solve` alone.
pub fn member_value(
    alloc: Global,
    context: &mut Context<'_>,
    place: usize,
    subscripts: &Tuple,
) -> Result<Value, EvalFault>
    ensures value { Gives result (member_at context.old place subscripts.now) }
    ensures same { context.new ≡ context.old }
{
    member_by(alloc, context.model, &mut context.kept, place, subscripts)
}
