// The dual values of a problem.
ghost use Rattle.std.specs.Prelude.{◌≡◌, map, IfOk, Some, None};
ghost use Rattle.std.specs.Option.{option_map};
ghost use Rattle.certificate.specs.Values.{node_of};
ghost use Rattle.dual_values.specs.Duals as spec;

use crate::sums::{dual_list, missing_list};
use certificate::{Certificate, LeafWeights, TreeNode};
use fraction::Frac;
use gmpl_solution::{Dual, Duals};
use instance::{Column, Instance};
use std::alloc::{AllocError, Global};

fn has_integer(columns: &[Column]) -> bool
    ensures { result ≡ spec.has_integer columns.now }
{
    for column in columns {
        if column.integer() {
            return true;
        }
    }
    false
}

// The weights of a tree that is one leaf.
fn of_leaf(nodes: &[TreeNode]) -> Option<&LeafWeights>
    ensures { option_map (λ w. w.now) result ≡ spec.of_leaf (map node_of nodes.now) }
{
    match nodes {
        [TreeNode::Empty(weights)] => Some(weights),
        [TreeNode::Bound(weights)] => Some(weights),
        _ => None,
    }
}

// The only weights of a certificate of a problem without integer columns.
fn only_weights<'a>(problem: &Instance, certificate: &'a Certificate) -> Option<&'a LeafWeights>
    ensures { option_map (λ w. w.now) result ≡ spec.only_weights problem.now certificate.now }
{
    if has_integer(problem.columns()) || !certificate.derived().as_slice().is_empty() {
        return None;
    }
    of_leaf(certificate.tree().as_slice())
}

fn without_values(alloc: Global, problem: &Instance) -> Result<Duals, AllocError>
    ensures { IfOk result (λ made. made ≡ spec.duals_by problem.now None) }
{
    let columns = missing_list(alloc, problem.columns())?;
    let rows = missing_list(alloc, problem.rows())?;
    Ok(Duals::new(columns, rows, Dual::Missing))
}

fn by_weights(alloc: Global, problem: &Instance, weights: &LeafWeights) -> Result<Duals, AllocError>
    ensures { IfOk result (λ made. made ≡ spec.duals_by problem.now (Some weights.now)) }
{
    let weights = weights.weights();
    let direction = problem.direction();
    let of_columns = weights.columns().as_slice();
    let columns = dual_list(alloc, direction, of_columns, problem.columns())?;
    let of_rows = weights.rows().as_slice();
    let rows = dual_list(alloc, direction, of_rows, problem.rows())?;
    Ok(Duals::new(columns, rows, Dual::Number(Frac::zero())))
}

/// The dual values of a problem by a certificate of its best point: the sign of the direction times the sum of the weights on each
/// column and each row. There are none where a column is integer, or the certificate has a derived row or more than one leaf.
/// Errors: want of memory.
pub fn dual_values(
    alloc: Global,
    problem: &Instance,
    certificate: &Certificate,
) -> Result<Duals, AllocError>
    ensures { IfOk result (λ made. made ≡ spec.duals_of problem.now certificate.now) }
{
    match only_weights(problem, certificate) {
        Some(weights) => by_weights(alloc, problem, weights),
        None => without_values(alloc, problem),
    }
}
