// What is printed.
ghost use Rattle.std.specs.Prelude.{◌≡◌, [], List, ℕ, string_bytes};
ghost use Rattle.gmpl_value.specs.Outcome.{Gives, GivesAs, Outcome};
ghost use Rattle.gmpl_generate.specs.Running.{Follows};
ghost use Rattle.gmpl_generate.specs.Printing as spec;

use crate::evaluation::symbol_of;
use crate::fault::Stop;
use crate::scopes::{Scopes, behind};
use gmpl_data::LoadedModel;
use gmpl_expr::Context;
use gmpl_formats::printed;
use gmpl_functions::plain_text;
use gmpl_resolved::Expr;
use gmpl_value::{EvalFault, Symbol, Tuple};
use std::alloc::Global;

/// A text behind what is printed so far, or its fault.
pub(crate) fn put(
    so_far: &mut String,
    text: Result<String, EvalFault>,
) -> Result<(), Stop<EvalFault>>
    ensures { (answer : Outcome (List ℕ)) → GivesAs string_bytes text answer → Follows (spec.put answer (string_bytes so_far.old)) result (string_bytes so_far.new) }
{
    match text {
        Ok(text) => {
            so_far.push_str(&text)?;
            Ok(())
        }
        Err(EvalFault::NoMemory) => Err(Stop::NoMemory),
        Err(fault) => Err(Stop::Fault(fault)),
    }
}

// A format and its arguments, from the left.
fn symbols_of(
    alloc: Global,
    model: &LoadedModel,
    context: &mut Context<'_>,
    parts: &[Expr],
    bindings: &Tuple,
) -> Result<Vec<Symbol>, EvalFault>
    requires of { context.old ≡ model.now }
    ensures of { context.new ≡ model.now }
    ensures value { GivesAs (λ symbols. symbols.items) result (spec.symbols_of model.now bindings.now [] parts.now) }
{
    let mut found = Vec::new(alloc);
    for part in parts {
        found.push(symbol_of(alloc, model, context, bindings, part)?)?;
    }
    Ok(found)
}

// What a format makes of its arguments.
fn formatted(alloc: Global, symbols: &[Symbol]) -> Result<String, EvalFault>
    ensures { GivesAs string_bytes result (spec.formatted symbols.now) }
{
    match symbols {
        [format, arguments @ ..] => {
            let format = plain_text(alloc, format)?;
            printed(alloc, &format, arguments)
        }
        [] => Err(EvalFault::BadFormat),
    }
}

fn text_at(
    alloc: Global,
    model: &LoadedModel,
    context: &mut Context<'_>,
    parts: &[Expr],
    bindings: &Tuple,
) -> Result<String, EvalFault>
    requires of { context.old ≡ model.now }
    ensures of { context.new ≡ model.now }
    ensures value { GivesAs string_bytes result (spec.text_at model.now parts.now bindings.now) }
{
    let symbols = symbols_of(alloc, model, context, parts, bindings)?;
    formatted(alloc, &symbols)
}

fn print_at(
    alloc: Global,
    model: &LoadedModel,
    context: &mut Context<'_>,
    parts: &[Expr],
    bindings: &Tuple,
    so_far: &mut String,
) -> Result<(), Stop<EvalFault>>
    requires of { context.old ≡ model.now }
    ensures of { context.new ≡ model.now }
    ensures value { Follows (spec.print_at model.now parts.now bindings.now (string_bytes so_far.old)) result (string_bytes so_far.new) }
{
    let text = text_at(alloc, model, context, parts, bindings);
    put(so_far, text)
}

/// A format with its arguments, printed at each element.
pub(crate) fn print_each(
    alloc: Global,
    model: &LoadedModel,
    context: &mut Context<'_>,
    parts: &[Expr],
    scopes: &Scopes,
    so_far: &mut String,
) -> Result<(), Stop<EvalFault>>
    requires of { context.old ≡ model.now }
    ensures of { context.new ≡ model.now }
    ensures value { Follows (spec.print_each model.now parts.now scopes.now (string_bytes so_far.old)) result (string_bytes so_far.new) }
{
    for bindings in scopes.all.as_slice() {
        print_at(alloc, model, context, parts, bindings, so_far)?;
    }
    behind(scopes.fault)
}
