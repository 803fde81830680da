// Checks: what has to hold.
ghost use Rattle.std.specs.Prelude.{◌≡◌};
ghost use Rattle.gmpl_generate.specs.Checks as spec;
ghost use Rattle.gmpl_generate.specs.Running.{Gives};

use crate::evaluation::truth_of;
use crate::fault::Stop;
use crate::scopes::{Scopes, behind};
use gmpl_data::LoadedModel;
use gmpl_expr::Context;
use gmpl_resolved::Expr;
use gmpl_value::{EvalFault, Tuple};
use std::alloc::Global;

fn check_at(
    alloc: Global,
    model: &LoadedModel,
    context: &mut Context<'_>,
    condition: &Expr,
    bindings: &Tuple,
) -> Result<(), Stop<EvalFault>>
    requires of { context.old ≡ model.now }
    ensures of { context.new ≡ model.now }
    ensures value { Gives (spec.check_at model.now condition.now bindings.now) result }
{
    match truth_of(alloc, model, context, bindings, condition) {
        Ok(true) => Ok(()),
        Ok(false) => Err(Stop::CheckFailed),
        Err(EvalFault::NoMemory) => Err(Stop::NoMemory),
        Err(fault) => Err(Stop::Fault(fault)),
    }
}

/// The condition is true at each element, up to the first at which it is not.
pub(crate) fn check_each(
    alloc: Global,
    model: &LoadedModel,
    context: &mut Context<'_>,
    condition: &Expr,
    scopes: &Scopes,
) -> Result<(), Stop<EvalFault>>
    requires of { context.old ≡ model.now }
    ensures of { context.new ≡ model.now }
    ensures value { Gives (spec.check_each model.now condition.now scopes.now.all scopes.now.fault) result }
{
    for bindings in scopes.all.as_slice() {
        check_at(alloc, model, context, condition, bindings)?;
    }
    behind(scopes.fault)
}
