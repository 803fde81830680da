// The names of statements that may stand in a `for`, resolved.
ghost use Rattle.std.specs.Prelude.{◌≡◌};
ghost use Rattle.gmpl_names.specs.Expressions.{Follows, Gives};
ghost use Rattle.gmpl_names.specs.Statements as spec;
ghost use Rattle.gmpl_names.specs.Statements.{JudgesBoth};

use crate::parts::{boxed_expr, optional_indexing, optional_side, unboxed};
use crate::table_names::declare_table;
use crate::tables::table_output;
use crate::{Names, NamesError, resolve_exprs, resolve_indexing, room_for};
use gmpl_resolved as resolved;
use gmpl_syntax::{Action, Expr, Indexing, SyntaxFaultKind, TableOutput};
use sqlite_items::{Boxed, Items};
use std::alloc::Global;

#[tactic(auto, unfolding(crate::specs::Statements::check))]
fn check(
    alloc: Global,
    objects: &Names,
    scope: &mut Names,
    domain: &Option<Indexing>,
    condition: &Expr,
) -> Result<resolved::Action, NamesError>
    ensures { Follows (spec.check objects.now domain.now condition.now scope.old) result scope.new }
{
    let before = scope.len();
    let domain = optional_indexing(alloc, objects, scope, domain)?;
    let condition = boxed_expr(alloc, objects, scope, condition)?;
    scope.truncate(before);
    Ok(resolved::Action::Check(unboxed(domain), condition.into_inner()))
}

#[tactic(auto, unfolding(crate::specs::Statements::display))]
fn display(
    alloc: Global,
    objects: &Names,
    scope: &mut Names,
    domain: &Option<Indexing>,
    items: &[Expr],
) -> Result<resolved::Action, NamesError>
    ensures { Follows (spec.display objects.now domain.now items.now scope.old) result scope.new }
{
    let before = scope.len();
    let domain = optional_indexing(alloc, objects, scope, domain)?;
    let items = resolve_exprs(alloc, objects, scope, items)?;
    scope.truncate(before);
    Ok(resolved::Action::Display(unboxed(domain), items))
}

// The format with its arguments, where they stand in parentheses too.
fn listed(arguments: &[Expr]) -> &[Expr]
    ensures { result.now ≡ spec.listed arguments.now }
{
    match arguments {
        [Expr::Group(parts)] => parts.as_slice(),
        _ => arguments,
    }
}

fn printed(
    domain: Option<Boxed<resolved::Indexing>>,
    arguments: Items<resolved::Expr>,
    file: Option<Boxed<resolved::Expr>>,
) -> Result<resolved::Action, NamesError>
    ensures { Gives (spec.printed domain arguments file) result }
{
    match file {
        None => Ok(resolved::Action::Printf(unboxed(domain), arguments)),
        Some(_) => Err(NamesError::Fault(SyntaxFaultKind::Unsupported)),
    }
}

#[tactic(auto, unfolding(crate::specs::Statements::printf))]
fn printf(
    alloc: Global,
    objects: &Names,
    scope: &mut Names,
    domain: &Option<Indexing>,
    arguments: &[Expr],
    file: &Option<Expr>,
) -> Result<resolved::Action, NamesError>
    ensures { Follows (spec.printf objects.now domain.now arguments.now file.now scope.old) result scope.new }
{
    let before = scope.len();
    let domain = optional_indexing(alloc, objects, scope, domain)?;
    let arguments = resolve_exprs(alloc, objects, scope, listed(arguments))?;
    let file = optional_side(alloc, objects, scope, file)?;
    scope.truncate(before);
    printed(domain, arguments, file)
}

fn indexings(
    alloc: Global,
    objects: &Names,
    scope: &mut Names,
    all: &[Indexing],
) -> Result<Items<resolved::Indexing>, NamesError>
    ensures { Follows (spec.indexings objects.now all.now scope.old) result scope.new }
{
    let mut made = room_for(alloc, all.len())?;
    for one in all {
        made.push(resolve_indexing(alloc, objects, scope, one)?)?;
    }
    Ok(made)
}

// A table that is written, behind its name.
fn tabled(
    alloc: Global,
    objects: &Names,
    scope: &mut Names,
    tables: &mut Names,
    whole: &TableOutput,
) -> Result<resolved::Action, NamesError>
    ensures { JudgesBoth (spec.tabled objects.now whole.now scope.old tables.old) result scope.new tables.new }
{
    declare_table(alloc, objects, tables, &whole.name)?;
    table_output(alloc, objects, scope, whole)
}

/// A statement that may stand in a `for`. The indices of its domain are in scope within it alone; the names of its tables are added.
#[cycle(actions)]
pub(crate) fn action(
    alloc: Global,
    objects: &Names,
    scope: &mut Names,
    tables: &mut Names,
    whole: &Action,
) -> Result<resolved::Action, NamesError>
    ensures { JudgesBoth (spec.action objects.now whole.now scope.old tables.old) result scope.new tables.new }
{
    match whole {
        Action::Check(domain, condition) => check(alloc, objects, scope, domain, condition),
        Action::Display(domain, items) => display(alloc, objects, scope, domain, items.as_slice()),
        Action::Printf(domain, arguments, file) => {
            printf(alloc, objects, scope, domain, arguments.as_slice(), file)
        }
        Action::TableOutput(table) => tabled(alloc, objects, scope, tables, table),
        Action::For(heads, body) => {
            let before = scope.len();
            let heads = indexings(alloc, objects, scope, heads.as_slice())?;
            let body = actions(alloc, objects, scope, tables, body.as_slice())?;
            scope.truncate(before);
            Ok(resolved::Action::For(heads, body))
        }
    }
}

#[cycle(actions)]
fn actions(
    alloc: Global,
    objects: &Names,
    scope: &mut Names,
    tables: &mut Names,
    all: &[Action],
) -> Result<Items<resolved::Action>, NamesError>
    ensures { JudgesBoth (spec.actions objects.now all.now scope.old tables.old) result scope.new tables.new }
{
    let mut made = room_for(alloc, all.len())?;
    for one in all {
        made.push(action(alloc, objects, scope, tables, one)?)?;
    }
    Ok(made)
}
