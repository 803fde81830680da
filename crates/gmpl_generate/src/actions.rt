// Statements that are executed and declare nothing.
ghost use Rattle.std.specs.Prelude.{◌≡◌};
ghost use Rattle.gmpl_generate.specs.Running.{Follows, made_of};
ghost use Rattle.gmpl_generate.specs.Actions as spec;

use crate::checks::check_each;
use crate::display::show_each;
use crate::fault::Stop;
use crate::output_tables::write_table;
use crate::printing::print_each;
use crate::progress::Progress;
use crate::scopes::{Scopes, at_heads, behind, scopes_of};
use gmpl_data::LoadedModel;
use gmpl_expr::Context;
use gmpl_resolved::{Action, Expr, Indexing};
use gmpl_value::{EvalFault, Tuple};
use std::alloc::Global;

fn check(
    alloc: Global,
    model: &LoadedModel,
    context: &mut Context<'_>,
    domain: &Option<Indexing>,
    condition: &Expr,
    bindings: &Tuple,
    so_far: &mut Progress,
) -> Result<(), Stop<EvalFault>>
    requires of { context.old ≡ model.now }
    ensures of { context.new ≡ model.now }
    ensures value { Follows (spec.check model.now domain.now condition.now bindings.now (made_of so_far.old)) result (made_of so_far.new) }
{
    let scopes = scopes_of(alloc, model, context, domain, bindings)?;
    check_each(alloc, model, context, condition, &scopes)?;
    Ok(())
}

fn display(
    alloc: Global,
    model: &LoadedModel,
    context: &mut Context<'_>,
    domain: &Option<Indexing>,
    items: &[Expr],
    bindings: &Tuple,
    so_far: &mut Progress,
) -> Result<(), Stop<EvalFault>>
    requires of { context.old ≡ model.now }
    ensures of { context.new ≡ model.now }
    ensures value { Follows (spec.display model.now domain.now items.now bindings.now (made_of so_far.old)) result (made_of so_far.new) }
{
    let scopes = scopes_of(alloc, model, context, domain, bindings)?;
    show_each(alloc, model, context, items, &scopes, &mut so_far.printed)
}

fn printf(
    alloc: Global,
    model: &LoadedModel,
    context: &mut Context<'_>,
    domain: &Option<Indexing>,
    parts: &[Expr],
    bindings: &Tuple,
    so_far: &mut Progress,
) -> Result<(), Stop<EvalFault>>
    requires of { context.old ≡ model.now }
    ensures of { context.new ≡ model.now }
    ensures value { Follows (spec.printf model.now domain.now parts.now bindings.now (made_of so_far.old)) result (made_of so_far.new) }
{
    let scopes = scopes_of(alloc, model, context, domain, bindings)?;
    print_each(alloc, model, context, parts, &scopes, &mut so_far.printed)
}

/// A statement that may stand in a `for`, where the indices in scope have these values.
#[cycle(executing)]
pub(crate) fn action(
    alloc: Global,
    model: &LoadedModel,
    context: &mut Context<'_>,
    whole: &Action,
    bindings: &Tuple,
    so_far: &mut Progress,
) -> Result<(), Stop<EvalFault>>
    requires of { context.old ≡ model.now }
    ensures of { context.new ≡ model.now }
    ensures value { Follows (spec.action model.now whole.now bindings.now (made_of so_far.old)) result (made_of so_far.new) }
{
    match whole {
        Action::Check(domain, condition) => {
            check(alloc, model, context, domain, condition, bindings, so_far)
        }
        Action::Display(domain, items) => display(
            alloc,
            model,
            context,
            domain,
            items.as_slice(),
            bindings,
            so_far,
        ),
        Action::Printf(domain, parts) => printf(
            alloc,
            model,
            context,
            domain,
            parts.as_slice(),
            bindings,
            so_far,
        ),
        Action::TableOutput(table) => {
            write_table(alloc, model, context, table, bindings, so_far)
        }
        Action::For(heads, body) => {
            let scopes = at_heads(alloc, model, context, heads.as_slice(), bindings)?;
            actions_each(alloc, model, context, body.as_slice(), &scopes, so_far)
        }
    }
}

// The statements of a `for` in order, at each element.
#[cycle(executing)]
fn actions_each(
    alloc: Global,
    model: &LoadedModel,
    context: &mut Context<'_>,
    body: &[Action],
    scopes: &Scopes,
    so_far: &mut Progress,
) -> Result<(), Stop<EvalFault>>
    requires of { context.old ≡ model.now }
    ensures of { context.new ≡ model.now }
    ensures value { Follows (spec.actions_each model.now body.now scopes.now (made_of so_far.old)) result (made_of so_far.new) }
{
    for bindings in scopes.all.as_slice() {
        actions(alloc, model, context, body, bindings, so_far)?;
    }
    behind(scopes.fault)
}

#[cycle(executing)]
fn actions(
    alloc: Global,
    model: &LoadedModel,
    context: &mut Context<'_>,
    all: &[Action],
    bindings: &Tuple,
    so_far: &mut Progress,
) -> Result<(), Stop<EvalFault>>
    requires of { context.old ≡ model.now }
    ensures of { context.new ≡ model.now }
    ensures value { Follows (spec.actions model.now all.now bindings.now (made_of so_far.old)) result (made_of so_far.new) }
{
    for one in all {
        action(alloc, model, context, one, bindings, so_far)?;
    }
    Ok(())
}
