// Partial certificates of problems with cuts as rows, as ones of the problems without them.
ghost use Rattle.std.specs.Prelude.{◌≡◌, ◌++◌, [], ◌∷◌, map, IsTrue, IfOk, OnOk};
ghost use Rattle.partial_certificate.specs.Written.{is_whole};
ghost use Rattle.partial_certificate.specs.Values.{partial_of};
ghost use Rattle.row_columns.specs.Partials.{on_done};
ghost use Rattle.cut_rows.specs.Restored.{restored_node};
ghost use Rattle.cut_rows.specs.Partials.{restored_partial};

use crate::nodes::restored_node;
use crate::restoring::row_count;
use certificate::DerivedRows;
use instance::Instance;
use partial_certificate::{Best, PartialCertificate, PartialNode, PartialTree};
use std::alloc::{AllocError, Global};

/// The partial certificate of a problem with these cuts as rows, behind its own, as one of the problem itself: each cut is a derived
/// row, and a weight of its row is one of the derived row.
pub fn restore_partial(
    alloc: Global,
    problem: &Instance,
    cuts: &DerivedRows,
    certificate: &PartialCertificate,
) -> Result<PartialCertificate, AllocError>
    ensures { IfOk result (λ made. made ≡ restored_partial problem.now cuts.now certificate.now) }
{
    let _rows = certificate.rows();
    let rows = row_count(problem);
    let columns = certificate.columns();
    let best = best_copy(alloc, certificate)?;
    let tree = restored_tree(alloc, problem, certificate.tree())?;
    let derived = cuts.copy(alloc)?;
    Ok(PartialCertificate::new(rows, columns, best, derived, tree))
}

fn best_copy(alloc: Global, certificate: &PartialCertificate) -> Result<Option<Best>, AllocError>
    ensures { IfOk result (λ best. best ≡ certificate.now.best) }
{
    match certificate.best() {
        None => Ok(None),
        Some(best) => {
            let point = best.point().copy(alloc)?;
            Ok(Some(Best::new(point, best.value())))
        }
    }
}

// The tree whose leaves weigh derived rows in place of the cuts' rows.
fn restored_tree(
    alloc: Global,
    problem: &Instance,
    tree: &PartialTree,
) -> Result<PartialTree, AllocError>
    requires { IsTrue (is_whole tree.now) }
    ensures exact { IfOk result (λ made. made ≡ map (on_done (restored_node problem.now)) tree.now) }
    ensures whole { IfOk result (λ made. IsTrue (is_whole made)) }
{
    let mut made = PartialTree::new(alloc);
    for place in 0..tree.len() {
        let node = tree.node(place);
        add_restored(alloc, problem, &mut made, &node)?;
    }
    Ok(made)
}

// Adds the node as one of the problem without cuts as rows.
fn add_restored(
    alloc: Global,
    problem: &Instance,
    made: &mut PartialTree,
    node: &PartialNode,
) -> Result<(), AllocError>
    ensures { OnOk result (made.new ≡ made.old ++ on_done (restored_node problem.now) (partial_of node.now) ∷ []) }
{
    match node {
        PartialNode::Todo => made.push_todo(alloc),
        PartialNode::Done(node) => {
            let node = restored_node(alloc, problem, node)?;
            made.push_node(node)?;
            Ok(())
        }
    }
}
