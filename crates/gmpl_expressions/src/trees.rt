// What a tree is at its root.
ghost use Rattle.std.specs.Prelude.{◌≡◌};
ghost use Rattle.gmpl_syntax.specs.declared.expression.Expr.{out-Expr};
ghost use Rattle.gmpl_expressions.specs.Trees as spec;

use gmpl_syntax::{Expr, Link, Operator};

fn is_logical_operator(operator: Operator) -> bool
    ensures { result ≡ spec.is_logical_operator operator }
{
    match operator {
        Operator::Or | Operator::And => true,
        _ => false,
    }
}

fn is_logical_chain(links: &[Link]) -> bool
    ensures { result ≡ spec.is_logical_chain links.now }
{
    match links {
        [] => false,
        [link, ..] => is_logical_operator(link.operator),
    }
}

fn is_logical(expr: &Expr) -> bool
    ensures { result ≡ spec.is_logical (out-Expr expr.now) }
{
    match expr {
        Expr::Chain(_, links) => is_logical_chain(links.as_slice()),
        Expr::Compared(_, _, _) => true,
        Expr::Not(_) => true,
        _ => false,
    }
}

fn begins_logical(parts: &[Expr]) -> bool
    ensures { result ≡ spec.begins_logical parts.now }
{
    match parts {
        [] => false,
        [first, ..] => is_logical(first),
    }
}

fn is_unsubscripted(subscripts: &[Expr]) -> bool
    ensures { result ≡ spec.is_unsubscripted subscripts.now }
{
    match subscripts {
        [] => true,
        [_, ..] => false,
    }
}

/// A name alone.
pub fn is_name(expr: &Expr) -> bool
    ensures { result ≡ spec.is_name (out-Expr expr.now) }
{
    match expr {
        Expr::Named(_, subscripts, None) => is_unsubscripted(subscripts.as_slice()),
        _ => false,
    }
}

/// What may stand before `in` between braces.
pub(crate) fn is_index(expr: &Expr) -> bool
    ensures { result ≡ spec.is_index (out-Expr expr.now) }
{
    match expr {
        Expr::Named(_, subscripts, None) => is_unsubscripted(subscripts.as_slice()),
        Expr::Group(parts) => !begins_logical(parts.as_slice()),
        _ => false,
    }
}
