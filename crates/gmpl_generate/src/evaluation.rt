// What is asked of the evaluators. The context is that of the model, and keeps the members that were evaluated.
ghost use Rattle.std.specs.Prelude.{◌≡◌, [], Ok, Some, IfOk};
ghost use Rattle.gmpl_value.specs.Outcome.{Gives};
ghost use Rattle.gmpl_generate.specs.Rows as spec;
ghost use Rattle.gmpl_generate.specs.Checks as checks;
ghost use Rattle.gmpl_generate.specs.Printing as printing;
ghost use Rattle.gmpl_meaning.specs.Members as members;

use fraction::Frac;
use gmpl_data::LoadedModel;
use gmpl_expr::{
    Context, elements_over, eval_bool, eval_form, eval_num, eval_sym, eval_value, member_value,
};
use gmpl_functions::{Form, Variable};
use gmpl_meaning::{Bounds, Walk};
use gmpl_operations::Value;
use gmpl_resolved::{Expr, Indexing};
use gmpl_value::{EvalFault, Symbol, Tuple};
use std::alloc::{AllocError, Global};

/// The number that an expression comes to, where the indices in scope have these values.
pub(crate) fn number_of(
    alloc: Global,
    model: &LoadedModel,
    context: &mut Context<'_>,
    bindings: &Tuple,
    whole: &Expr,
) -> Result<Frac, EvalFault>
    requires of { context.old ≡ model.now }
    ensures of { context.new ≡ model.now }
    ensures value { Gives result (spec.number_of model.now bindings.now whole.now) }
{
    eval_num(alloc, context, whole, bindings)
}

/// The linear form that an expression comes to, where the indices in scope have these values.
pub(crate) fn form_of(
    alloc: Global,
    model: &LoadedModel,
    context: &mut Context<'_>,
    bindings: &Tuple,
    whole: &Expr,
) -> Result<Form, EvalFault>
    requires of { context.old ≡ model.now }
    ensures of { context.new ≡ model.now }
    ensures value { Gives result (spec.form_of model.now bindings.now whole.now) }
{
    eval_form(alloc, context, whole, bindings)
}

/// Whether what has to hold holds, where the indices in scope have these values.
pub(crate) fn truth_of(
    alloc: Global,
    model: &LoadedModel,
    context: &mut Context<'_>,
    bindings: &Tuple,
    whole: &Expr,
) -> Result<bool, EvalFault>
    requires of { context.old ≡ model.now }
    ensures of { context.new ≡ model.now }
    ensures value { Gives result (checks.truth_of model.now bindings.now whole.now) }
{
    eval_bool(alloc, context, whole, bindings)
}

/// What the domain of a statement goes over.
pub(crate) fn elements_of(
    alloc: Global,
    model: &LoadedModel,
    context: &mut Context<'_>,
    domain: &Option<Indexing>,
) -> Result<Walk, EvalFault>
    requires of { context.old ≡ model.now }
    ensures of { context.new ≡ model.now }
    ensures value { Gives result (Ok (members.elements_of model.now domain.now [])) }
{
    gmpl_expr::elements_of(alloc, context, domain, &Tuple::new(alloc))
}

/// The bounds of a variable's member.
pub(crate) fn bounds_of(
    alloc: Global,
    model: &LoadedModel,
    context: &mut Context<'_>,
    variable: &Variable,
) -> Result<Bounds, EvalFault>
    requires of { context.old ≡ model.now }
    ensures of { context.new ≡ model.now }
    ensures value { Gives result (members.bounds_at model.now variable.now.statement variable.now.subscripts) }
{
    gmpl_expr::bounds_of(alloc, context, variable)
}

/// The symbol that an expression comes to, where the indices in scope have these values.
pub(crate) fn symbol_of(
    alloc: Global,
    model: &LoadedModel,
    context: &mut Context<'_>,
    bindings: &Tuple,
    whole: &Expr,
) -> Result<Symbol, EvalFault>
    requires of { context.old ≡ model.now }
    ensures of { context.new ≡ model.now }
    ensures value { Gives result (printing.symbol_of model.now bindings.now whole.now) }
{
    eval_sym(alloc, context, whole, bindings)
}

/// What an expression comes to, where the indices in scope have these values.
pub(crate) fn value_of(
    alloc: Global,
    model: &LoadedModel,
    context: &mut Context<'_>,
    bindings: &Tuple,
    whole: &Expr,
) -> Result<Value, EvalFault>
    requires of { context.old ≡ model.now }
    ensures of { context.new ≡ model.now }
    ensures value { Gives result (members.evaluated model.now whole.now bindings.now) }
{
    eval_value(alloc, context, whole, bindings)
}

/// What a member of an object comes to.
pub(crate) fn member_value_of(
    alloc: Global,
    model: &LoadedModel,
    context: &mut Context<'_>,
    place: usize,
    subscripts: &Tuple,
) -> Result<Value, EvalFault>
    requires of { context.old ≡ model.now }
    ensures of { context.new ≡ model.now }
    ensures value { Gives result (members.member_at model.now place subscripts.now) }
{
    member_value(alloc, context, place, subscripts)
}

// The only error of what goes over elements.
fn want_of_memory(_fault: EvalFault) -> AllocError
    requires { _fault ≡ EvalFault.NoMemory }
{
    AllocError
}

/// What a domain goes over, where the indices in scope have these values.
pub(crate) fn over_domain(
    alloc: Global,
    model: &LoadedModel,
    context: &mut Context<'_>,
    domain: &Option<Indexing>,
    bindings: &Tuple,
) -> Result<Walk, AllocError>
    requires of { context.old ≡ model.now }
    ensures of { context.new ≡ model.now }
    ensures value { IfOk result (λ walk. walk ≡ members.elements_of model.now domain.now bindings.now) }
{
    match gmpl_expr::elements_of(alloc, context, domain, bindings) {
        Ok(walk) => Ok(walk),
        Err(fault) => Err(want_of_memory(fault)),
    }
}

/// What an indexing expression goes over, where the indices in scope have these values.
pub(crate) fn over_head(
    alloc: Global,
    model: &LoadedModel,
    context: &mut Context<'_>,
    head: &Indexing,
    bindings: &Tuple,
) -> Result<Walk, AllocError>
    requires of { context.old ≡ model.now }
    ensures of { context.new ≡ model.now }
    ensures value { IfOk result (λ walk. walk ≡ members.elements_of model.now (Some head.now) bindings.now) }
{
    match elements_over(alloc, context, head, bindings) {
        Ok(walk) => Ok(walk),
        Err(fault) => Err(want_of_memory(fault)),
    }
}
