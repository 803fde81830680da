// The elements of domains.
ghost use Rattle.std.specs.Prelude.{◌≡◌, [], List, ℕ, Some, IfOk, OnOk};
ghost use Rattle.gmpl_generate.specs.Running.{Follows, Gives, Made};
ghost use Rattle.gmpl_generate.specs.Scopes as spec;
ghost use Rattle.gmpl_meaning.specs.Members as members;

use crate::evaluation::{over_domain, over_head};
use crate::fault::Stop;
use gmpl_data::LoadedModel;
use gmpl_expr::Context;
use gmpl_meaning::{Element, Walk};
use gmpl_resolved::Indexing;
use gmpl_value::{EvalFault, Tuple};
use sqlite_items::Items;
use std::alloc::{AllocError, Global};

/// The values of the indices in scope at each element of a domain in order, and the fault behind the last of them.
#[derive(Drop)]
pub struct Scopes {
    pub all: Items<Tuple>,
    pub fault: Option<EvalFault>,
}

/// Behind the last element.
pub(crate) fn behind(fault: Option<EvalFault>) -> Result<(), Stop<EvalFault>>
    ensures value { Gives (spec.ended fault) result }
    ensures text { (text : List ℕ) → Follows (spec.behind fault text) result text }
    ensures made { (made : Made) → Follows (spec.behind fault made) result made }
{
    match fault {
        None => Ok(()),
        Some(EvalFault::NoMemory) => Err(Stop::NoMemory),
        Some(fault) => Err(Stop::Fault(fault)),
    }
}

// The indices of each element stand behind those in scope.
fn add_elements(
    alloc: Global,
    found: &mut Items<Tuple>,
    bindings: &Tuple,
    elements: &[Element],
) -> Result<(), AllocError>
    ensures { OnOk result (found.new ≡ spec.with_elements found.old bindings.now elements.now) }
{
    for element in elements {
        found.push(bindings.joined(alloc, &element.indices)?)?;
    }
    Ok(())
}

/// The elements of a domain.
pub(crate) fn scopes_of(
    alloc: Global,
    model: &LoadedModel,
    context: &mut Context<'_>,
    domain: &Option<Indexing>,
    bindings: &Tuple,
) -> Result<Scopes, AllocError>
    requires of { context.old ≡ model.now }
    ensures of { context.new ≡ model.now }
    ensures value { IfOk result (λ made. made ≡ spec.scopes_of model.now domain.now bindings.now) }
{
    let Walk { elements, fault } = over_domain(alloc, model, context, domain, bindings)?;
    let mut all = Items::new(alloc);
    add_elements(alloc, &mut all, bindings, elements.as_slice())?;
    Ok(Scopes { all, fault })
}

/// The elements of an indexing expression.
pub(crate) fn scopes_over(
    alloc: Global,
    model: &LoadedModel,
    context: &mut Context<'_>,
    domain: &Indexing,
    bindings: &Tuple,
) -> Result<Scopes, AllocError>
    requires of { context.old ≡ model.now }
    ensures of { context.new ≡ model.now }
    ensures value { IfOk result (λ made. made ≡ spec.scopes_of model.now (Some domain.now) bindings.now) }
{
    let Walk { elements, fault } = over_head(alloc, model, context, domain, bindings)?;
    let mut all = Items::new(alloc);
    add_elements(alloc, &mut all, bindings, elements.as_slice())?;
    Ok(Scopes { all, fault })
}

// The elements of a head are found behind others; the fault behind them.
fn add_head(
    alloc: Global,
    model: &LoadedModel,
    context: &mut Context<'_>,
    head: &Indexing,
    bindings: &Tuple,
    found: &mut Items<Tuple>,
) -> Result<Option<EvalFault>, AllocError>
    requires of { context.old ≡ model.now }
    ensures of { context.new ≡ model.now }
    ensures found { OnOk result (found.new ≡ spec.with_elements found.old bindings.now (members.elements_of model.now (Some head.now) bindings.now).elements) }
    ensures fault { IfOk result (λ fault. fault ≡ (members.elements_of model.now (Some head.now) bindings.now).fault) }
{
    let walk = over_head(alloc, model, context, head, bindings)?;
    add_elements(alloc, found, bindings, walk.elements.as_slice())?;
    Ok(walk.fault)
}

// Each element with those of one more head, up to the first fault.
fn at_head(
    alloc: Global,
    model: &LoadedModel,
    context: &mut Context<'_>,
    head: &Indexing,
    scopes: &Scopes,
) -> Result<Scopes, AllocError>
    requires of { context.old ≡ model.now }
    ensures of { context.new ≡ model.now }
    ensures value { IfOk result (λ made. made ≡ spec.at_head model.now head.now [] scopes.now.all scopes.now.fault) }
{
    let mut found = Items::new(alloc);
    for bindings in scopes.all.as_slice() {
        match add_head(alloc, model, context, head, bindings, &mut found)? {
            None => {}
            Some(fault) => {
                return Ok(Scopes {
                    all: found,
                    fault: Some(fault),
                });
            }
        }
    }
    Ok(Scopes {
        all: found,
        fault: scopes.fault,
    })
}

// Before the first head.
fn alone(alloc: Global, bindings: &Tuple) -> Result<Scopes, AllocError>
    ensures { IfOk result (λ made. made ≡ spec.alone bindings.now) }
{
    let mut all = Items::new(alloc);
    all.push(bindings.copied(alloc)?)?;
    Ok(Scopes { all, fault: None })
}

/// The elements of the heads of a `for`, the outer first.
pub(crate) fn at_heads(
    alloc: Global,
    model: &LoadedModel,
    context: &mut Context<'_>,
    heads: &[Indexing],
    bindings: &Tuple,
) -> Result<Scopes, AllocError>
    requires of { context.old ≡ model.now }
    ensures of { context.new ≡ model.now }
    ensures value { IfOk result (λ made. made ≡ spec.at_heads model.now heads.now (spec.alone bindings.now)) }
{
    let mut scopes = alone(alloc, bindings)?;
    for head in heads {
        scopes = at_head(alloc, model, context, head, &scopes)?;
    }
    Ok(scopes)
}
