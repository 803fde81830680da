// What the statements of a model declare.
ghost use Rattle.std.specs.Prelude.{◌≡◌, IfOk};
ghost use Rattle.gmpl_generate.specs.Problem as spec;

use gmpl_data::LoadedModel;
use gmpl_resolved::{Attribute, Declaration, Head, Numbered, Statement};
use gmpl_rows::Declared;
use std::alloc::{AllocError, Global};

fn is_whole_by(attribute: &Attribute) -> bool
    ensures { result ≡ spec.is_whole_by attribute.now }
{
    match attribute {
        Attribute::Integer | Attribute::Binary => true,
        _ => false,
    }
}

// Whether a variable's members are whole numbers.
fn is_whole(attributes: &[Attribute]) -> bool
    ensures { result ≡ spec.is_whole attributes.now }
{
    for attribute in attributes {
        if is_whole_by(attribute) {
            return true;
        }
    }
    false
}

fn declared_as(alloc: Global, head: &Head, integer: bool) -> Result<Declared, AllocError>
    ensures { IfOk result (λ made. made ≡ spec.declared_as head.now.name integer) }
{
    Ok(Declared {
        name: head.name.copied(alloc)?,
        integer,
    })
}

fn declared_by(alloc: Global, statement: &Statement) -> Result<Declared, AllocError>
    ensures { IfOk result (λ made. made ≡ spec.declared_by statement.now) }
{
    match statement {
        Statement::Set(set) => declared_as(alloc, &set.head, false),
        Statement::Param(param) => declared_as(alloc, &param.head, false),
        Statement::Var(var) => declared_as(alloc, &var.head, is_whole(var.attributes.as_slice())),
        Statement::Constraint(constraint) => declared_as(alloc, &constraint.get().head, false),
        Statement::Objective(objective) => declared_as(alloc, &objective.get().head, false),
    }
}

/// What the statements of a model declare, in order: the name of each object, and whether it is a variable whose members are whole
/// numbers.
pub fn all_declared(alloc: Global, model: &LoadedModel) -> Result<Vec<Declared>, AllocError>
    ensures { IfOk result (λ made. made.items ≡ spec.all_declared model.now) }
{
    let mut all = Vec::new(alloc);
    for numbered in model.statements.as_slice() {
        all.push(declared_by(alloc, &numbered.statement)?)?;
    }
    Ok(all)
}
