// Iterations: they go over their elements one by one, and make no list of them.
ghost use Rattle.std.specs.Prelude.{◌≡◌};
ghost use Rattle.gmpl_value.specs.Outcome.{Gives, Follows};
ghost use Rattle.gmpl_expr.specs.At as at;
ghost use Rattle.gmpl_expr.specs.OneByOne as one_by_one;
ghost use Rattle.gmpl_meaning.specs.Expressions as spec;
ghost use Rattle.gmpl_meaning.specs.Walks as walks;
ghost use Rattle.gmpl_operations.specs.Patterns.{matched};
ghost use Rattle.gmpl_meaning.specs.Right.{AreRight};

use crate::entered::Entered;
use crate::evaluate::eval;
use crate::in_place::join_part;
use crate::indexing::entry_value;
use crate::parts::finished;
use crate::places::inner_of;
use crate::room::ENTRY;
use crate::values::holds;
use gmpl_data::LoadedModel;
use gmpl_meaning::Kept;
use gmpl_operations::{Value, is_decided};
use gmpl_resolved::{Entry, Expr, Indexing};
use gmpl_syntax::Iteration;
use gmpl_value::{EvalFault, Symbol, Tuple};
use sqlite_items::{Boxed, Items};
use std::alloc::Global;

/// What is done at each element.
#[derive(Clone, Copy)]
struct Each<'e> {
    iteration: Iteration,
    condition: &'e Option<Boxed<Expr>>,
    body: &'e Expr,
}

/// What an iteration comes to.
#[cycle(evaluation)]
pub(crate) fn iterated(
    alloc: Global,
    model: &LoadedModel,
    kept: &mut Kept,
    height: u32,
    room: u32,
    iteration: Iteration,
    indexing: &Indexing,
    body: &Expr,
    bindings: &Tuple,
) -> Result<Value, EvalFault>
    requires right { AreRight model.now kept.old }
    ensures right { AreRight model.now kept.new }
    ensures value { Gives result (spec.iterated iteration (at.expr model.now height body.now) bindings.now (walks.walked (at.indexing model.now height indexing.now) bindings.now)) }
{
    let each = Each {
        iteration,
        condition: &indexing.condition,
        body,
    };
    let mut total = None;
    let entries = indexing.entries.as_slice();
    let done = over_entries(
        alloc, model, kept, height, room, &each, entries, bindings, &mut total,
    );
    finished(alloc, iteration, total, done)
}

// The entries that are left.
#[cycle(evaluation)]
fn over_entries(
    alloc: Global,
    model: &LoadedModel,
    kept: &mut Kept,
    height: u32,
    room: u32,
    each: &Each<'_>,
    entries: &[Entry],
    bindings: &Tuple,
    total: &mut Option<Value>,
) -> Result<(), EvalFault>
    requires right { AreRight model.now kept.old }
    ensures right { AreRight model.now kept.new }
    ensures value { Follows result total.new (one_by_one.over_entries each.now.iteration (at.optional model.now height each.now.condition.now) (at.expr model.now height each.now.body.now) (at.entries model.now height entries.now) bindings.now total.old) }
{
    match entries {
        [] => at_element(alloc, model, kept, height, room, each, bindings, total),
        [entry, others @ ..] => {
            let value = entry_value(alloc, model, kept, height, room, entry, bindings)?;
            over_tuples(
                alloc, model, kept, height, room, each, others, &value, bindings, total,
            )
        }
    }
}

// The tuples of an entry's set, up to where the value is decided.
#[cycle(evaluation)]
fn over_tuples(
    alloc: Global,
    model: &LoadedModel,
    kept: &mut Kept,
    height: u32,
    room: u32,
    each: &Each<'_>,
    entries: &[Entry],
    value: &Entered,
    bindings: &Tuple,
    total: &mut Option<Value>,
) -> Result<(), EvalFault>
    requires right { AreRight model.now kept.old }
    ensures right { AreRight model.now kept.new }
    ensures value { Follows result total.new (one_by_one.over_tuples each.now.iteration (at.optional model.now height each.now.condition.now) (at.expr model.now height each.now.body.now) (one_by_one.over_entries each.now.iteration (at.optional model.now height each.now.condition.now) (at.expr model.now height each.now.body.now) (at.entries model.now height entries.now)) bindings.now value.now.pattern value.now.set.value total.old) }
{
    for tuple in value.set.as_ref().elements() {
        if is_decided(each.iteration, total) {
            return Ok(());
        }
        let pattern = &value.pattern;
        at_tuple(
            alloc, model, kept, height, room, each, entries, pattern, tuple, bindings, total,
        )?;
    }
    Ok(())
}

// The next entries, where a tuple matches.
#[cycle(evaluation)]
fn at_tuple(
    alloc: Global,
    model: &LoadedModel,
    kept: &mut Kept,
    height: u32,
    room: u32,
    each: &Each<'_>,
    entries: &[Entry],
    pattern: &Option<Items<Option<Symbol>>>,
    tuple: &Tuple,
    bindings: &Tuple,
    total: &mut Option<Value>,
) -> Result<(), EvalFault>
    requires right { AreRight model.now kept.old }
    ensures right { AreRight model.now kept.new }
    ensures value { Follows result total.new (one_by_one.at_inner each.now.iteration (at.optional model.now height each.now.condition.now) (at.expr model.now height each.now.body.now) (one_by_one.over_entries each.now.iteration (at.optional model.now height each.now.condition.now) (at.expr model.now height each.now.body.now) (at.entries model.now height entries.now)) (one_by_one.inner bindings.now (matched pattern.now tuple.now)) total.old) }
{
    match inner_of(alloc, bindings, pattern, tuple)? {
        None => Ok(()),
        Some(inner) => deeper(
            alloc, model, kept, height, room, each, entries, &inner, total,
        ),
    }
}

// Entries within one another take room.
#[cycle(evaluation)]
fn deeper(
    alloc: Global,
    model: &LoadedModel,
    kept: &mut Kept,
    height: u32,
    room: u32,
    each: &Each<'_>,
    entries: &[Entry],
    bindings: &Tuple,
    total: &mut Option<Value>,
) -> Result<(), EvalFault>
    requires right { AreRight model.now kept.old }
    ensures right { AreRight model.now kept.new }
    ensures value { Follows result total.new (one_by_one.over_entries each.now.iteration (at.optional model.now height each.now.condition.now) (at.expr model.now height each.now.body.now) (at.entries model.now height entries.now) bindings.now total.old) }
{
    if entries.is_empty() {
        return at_element(alloc, model, kept, height, room, each, bindings, total);
    }
    if room < ENTRY {
        return Err(EvalFault::NoMemory);
    }
    over_entries(
        alloc,
        model,
        kept,
        height,
        room - ENTRY,
        each,
        entries,
        bindings,
        total,
    )
}

// An element, where the condition holds.
#[cycle(evaluation)]
fn at_element(
    alloc: Global,
    model: &LoadedModel,
    kept: &mut Kept,
    height: u32,
    room: u32,
    each: &Each<'_>,
    bindings: &Tuple,
    total: &mut Option<Value>,
) -> Result<(), EvalFault>
    requires right { AreRight model.now kept.old }
    ensures right { AreRight model.now kept.new }
    ensures value { Follows result total.new (one_by_one.at_element each.now.iteration (at.optional model.now height each.now.condition.now) (at.expr model.now height each.now.body.now) bindings.now total.old) }
{
    match each.condition {
        None => with_body(alloc, model, kept, height, room, each, bindings, total),
        Some(condition) => {
            if holds(alloc, model, kept, height, room, condition.get(), bindings)? {
                with_body(alloc, model, kept, height, room, each, bindings, total)
            } else {
                Ok(())
            }
        }
    }
}

#[cycle(evaluation)]
fn with_body(
    alloc: Global,
    model: &LoadedModel,
    kept: &mut Kept,
    height: u32,
    room: u32,
    each: &Each<'_>,
    bindings: &Tuple,
    total: &mut Option<Value>,
) -> Result<(), EvalFault>
    requires right { AreRight model.now kept.old }
    ensures right { AreRight model.now kept.new }
    ensures value { Follows result total.new (one_by_one.with_body each.now.iteration (at.optional model.now height each.now.condition.now) (at.expr model.now height each.now.body.now) bindings.now total.old) }
{
    let value = eval(alloc, model, kept, height, room, each.body, bindings);
    join_part(alloc, each.iteration, total, value)
}
