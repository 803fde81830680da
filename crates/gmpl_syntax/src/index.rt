// The components of an index, told apart.
ghost use Rattle.std.specs.Prelude.{◌≡◌, IfOk};
ghost use Rattle.gmpl_syntax.specs.Index as spec;
ghost use Rattle.gmpl_syntax.specs.declared.expression.Expr.{out-Expr};

use crate::expression::{Component, Expr};
use sqlite_items::Items;
use std::alloc::{AllocError, Global};

fn component(part: Expr) -> Component
    ensures { result ≡ spec.component part }
{
    match part {
        Expr::Named(name, subscripts, None) => {
            if subscripts.len() == 0 {
                Component::Name(name)
            } else {
                Component::Value(Expr::Named(name, subscripts, None))
            }
        }
        other => Component::Value(other),
    }
}

fn all_components(alloc: Global, parts: Items<Expr>) -> Result<Items<Component>, AllocError>
    ensures { IfOk result (λ made. made ≡ spec.all_components parts) }
{
    let mut left = parts;
    let mut made = Vec::new(alloc);
    while let Some(part) = left.pop() {
        made.push(component(part))?;
    }
    made.reverse();
    Ok(Items::from_vec(made))
}

/// The components of an index that is written so: the parts of a group, or the expression alone.
pub fn index_components(alloc: Global, index: Expr) -> Result<Items<Component>, AllocError>
    ensures { IfOk result (λ made. made ≡ spec.components index) }
{
    match index {
        Expr::Group(parts) => all_components(alloc, parts),
        other => {
            let mut made = Items::new(alloc);
            made.push(component(other))?;
            Ok(made)
        }
    }
}
