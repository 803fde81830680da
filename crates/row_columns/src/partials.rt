// Partial certificates of problems with columns for forms, as ones of the problems without them.
ghost use Rattle.std.specs.Prelude.{◌≡◌, ◌+◌, ◌++◌, [], ◌∷◌, map, length, option_map, IsTrue, IfOk, IfSome, OnOk};
ghost use Rattle.std.specs.List.{AllByRecursion};
ghost use Rattle.partial_certificate.specs.Written.{is_whole, HasSize};
ghost use Rattle.partial_certificate.specs.Columns.{IsOfColumns, IsBySplitsOfColumns};
ghost use Rattle.partial_certificate.specs.Values.{partial_of};
ghost use Rattle.row_columns.specs.Restored.{restored_node};
ghost use Rattle.row_columns.specs.Partials.{on_done, restored_best, restored_partial};

use crate::forms::Forms;
use crate::nodes::restored_node;
use crate::points::point_behind;
use crate::restoring::{column_count, row_count};
use certificate::DerivedRows;
use instance::Instance;
use partial_certificate::{Best, PartialCertificate, PartialNode, PartialTree};
use std::alloc::{AllocError, Global};

/// The partial certificate of a problem with columns for these forms, before its own, as one of the problem without them.
pub fn restore_partial(
    alloc: Global,
    problem: &Instance,
    forms: &Forms,
    certificate: &PartialCertificate,
) -> Result<PartialCertificate, AllocError>
    requires splits { IsBySplitsOfColumns certificate.now }
    requires size { certificate.now.columns ≡ length forms.now + length problem.now.columns }
    ensures { IfOk result (λ made. made ≡ restored_partial problem.now forms.now certificate.now) }
{
    let _rows = certificate.rows();
    let rows = row_count(problem);
    let columns = column_count(problem);
    let best = best_behind(alloc, forms, certificate, columns)?;
    let tree = restored_tree(alloc, problem, forms, certificate.tree())?;
    let derived = DerivedRows::new(alloc);
    Ok(PartialCertificate::new(rows, columns, best, derived, tree))
}

// The best point without the numbers of the forms' columns.
fn best_behind(
    alloc: Global,
    forms: &Forms,
    certificate: &PartialCertificate,
    columns: u32,
) -> Result<Option<Best>, AllocError>
    requires { certificate.now.columns ≡ length forms.now + columns }
    ensures best { IfOk result (λ best. best ≡ option_map (restored_best forms.now) certificate.now.best) }
    ensures size { IfOk result (λ best. IfSome best (HasSize columns)) }
{
    let _rows = certificate.rows();
    match certificate.best() {
        None => Ok(None),
        Some(best) => Ok(Some(restored_best(alloc, forms, best, columns)?)),
    }
}

fn restored_best(
    alloc: Global,
    forms: &Forms,
    best: &Best,
    columns: u32,
) -> Result<Best, AllocError>
    requires { length best.now.point ≡ length forms.now + columns }
    ensures best { IfOk result (λ made. made ≡ restored_best forms.now best.now) }
    ensures size { IfOk result (HasSize columns) }
{
    let point = point_behind(alloc, forms, best.point())?;
    Ok(Best::new(point, best.value()))
}

// The tree whose branches split the forms in place of their columns.
fn restored_tree(
    alloc: Global,
    problem: &Instance,
    forms: &Forms,
    tree: &PartialTree,
) -> Result<PartialTree, AllocError>
    requires whole { IsTrue (is_whole tree.now) }
    requires nodes { AllByRecursion IsOfColumns tree.now }
    ensures exact { IfOk result (λ made. made ≡ map (on_done (restored_node problem.now forms.now)) tree.now) }
    ensures whole { IfOk result (λ made. IsTrue (is_whole made)) }
{
    let mut made = PartialTree::new(alloc);
    for place in 0..tree.len() {
        let node = tree.node(place);
        add_restored(alloc, problem, forms, &mut made, &node)?;
    }
    Ok(made)
}

// Adds the node as one of the problem without columns for the forms.
fn add_restored(
    alloc: Global,
    problem: &Instance,
    forms: &Forms,
    made: &mut PartialTree,
    node: &PartialNode,
) -> Result<(), AllocError>
    requires { IsOfColumns (partial_of node.now) }
    ensures { OnOk result (made.new ≡ made.old ++ on_done (restored_node problem.now forms.now) (partial_of node.now) ∷ []) }
{
    match node {
        PartialNode::Todo => made.push_todo(alloc),
        PartialNode::Done(node) => {
            let node = restored_node(alloc, problem, forms, node)?;
            made.push_node(node)?;
            Ok(())
        }
    }
}
