// Statements that may stand in a `for`.
ghost use Rattle.std.specs.Prelude.{◌≡◌};
ghost use Rattle.gmpl_statement_kinds.specs.StatementKinds as spec;

use crate::attributes::{logic_at, subscripts};
use crate::tables::table_output;
use gmpl_kinds::{
    Object, Shape, Site, all_scalars, as_branch, indexing_dimension, shape_of, whole_object,
};
use gmpl_resolved::{Action, Expr, Indexing, Meaning};
use gmpl_syntax::SyntaxFaultKind;

#[tactic(auto, unfolding(crate::specs::StatementKinds::check))]
fn check(
    objects: &[Object],
    site: Site,
    domain: &Option<Indexing>,
    condition: &Expr,
) -> Result<(), SyntaxFaultKind>
    ensures { result ≡ spec.check objects.now site domain.now condition.now }
{
    subscripts(objects, site, domain)?;
    logic_at(objects, site, condition)?;
    Ok(())
}

// The place of the object whose name stands alone.
fn object_alone(whole: &Expr) -> Option<usize>
    ensures { result ≡ spec.object_alone whole.now }
{
    match whole {
        Expr::Named(Meaning::Object(place), subscripts, None) => {
            if subscripts.len() == 0 {
                Some(*place)
            } else {
                None
            }
        }
        _ => None,
    }
}

// An item of a `display`.
fn item(objects: &[Object], site: Site, whole: &Expr) -> Result<Shape, SyntaxFaultKind>
    ensures { result ≡ spec.item objects.now site whole.now }
{
    match object_alone(whole) {
        Some(place) => whole_object(objects, site, place),
        None => as_branch(shape_of(objects, site, whole)?),
    }
}

fn items(objects: &[Object], site: Site, all: &[Expr]) -> Result<(), SyntaxFaultKind>
    ensures { result ≡ spec.items objects.now site all.now }
{
    for one in all {
        item(objects, site, one)?;
    }
    Ok(())
}

#[tactic(auto, unfolding(crate::specs::StatementKinds::display))]
fn display(
    objects: &[Object],
    site: Site,
    domain: &Option<Indexing>,
    shown: &[Expr],
) -> Result<(), SyntaxFaultKind>
    ensures { result ≡ spec.display objects.now site domain.now shown.now }
{
    subscripts(objects, site, domain)?;
    items(objects, site, shown)
}

#[tactic(auto, unfolding(crate::specs::StatementKinds::printf))]
fn printf(
    objects: &[Object],
    site: Site,
    domain: &Option<Indexing>,
    arguments: &[Expr],
) -> Result<(), SyntaxFaultKind>
    ensures { result ≡ spec.printf objects.now site domain.now arguments.now }
{
    subscripts(objects, site, domain)?;
    all_scalars(objects, site, arguments)?;
    Ok(())
}

fn heads(objects: &[Object], site: Site, all: &[Indexing]) -> Result<(), SyntaxFaultKind>
    ensures { result ≡ spec.heads objects.now site all.now }
{
    for one in all {
        indexing_dimension(objects, site, one)?;
    }
    Ok(())
}

/// A statement that may stand in a `for`, at this site.
#[cycle(actions)]
pub(crate) fn action(objects: &[Object], site: Site, whole: &Action) -> Result<(), SyntaxFaultKind>
    ensures { result ≡ spec.action objects.now site whole.now }
{
    match whole {
        Action::Check(domain, condition) => check(objects, site, domain, condition),
        Action::Display(domain, items) => display(objects, site, domain, items.as_slice()),
        Action::Printf(domain, arguments) => printf(objects, site, domain, arguments.as_slice()),
        Action::TableOutput(table) => table_output(objects, site, table),
        Action::For(over, body) => {
            heads(objects, site, over.as_slice())?;
            actions(objects, site, body.as_slice())
        }
    }
}

#[cycle(actions)]
fn actions(objects: &[Object], site: Site, all: &[Action]) -> Result<(), SyntaxFaultKind>
    ensures { result ≡ spec.actions objects.now site all.now }
{
    for one in all {
        action(objects, site, one)?;
    }
    Ok(())
}
