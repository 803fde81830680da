// The test of an optimal point of a node's relaxation.
ghost use Rattle.std.specs.Prelude.{◌≡◌, true, false, IfOk, IfErr};
ghost use Rattle.search_node.specs.Sides.{sides_of};
ghost use Rattle.search_tree.specs.Nodes.{IsRelaxedOptimum};
ghost use Rattle.search_tree.specs.Optimum.{IsShownOptimum};
ghost use Rattle.search_tree.specs.Faults.{IsOptimumFault};

use crate::optimal_points;
use crate::path::Path;
use crate::points::{form_value, is_node_point};
use certificate::{DerivedRows, LeafWeights};
use fraction::NoFit;
use instance::{Instance, Point};
use search_node::SplitsTaken;
use std::alloc::Global;

/// Whether the point is one of the relaxation of the node below these splits, and the weights show that none is better: it
/// is then an optimal one. A fault is the first operation on the way that does not fit: of the test of the point, of the
/// sum of the objective's form there, or of the test of the weights. Memory is taken as in `check` of cert_check: without
/// it the answer is the same, and takes longer.
pub fn is_optimal(
    alloc: Global,
    problem: &Instance,
    cuts: &DerivedRows,
    splits: &SplitsTaken,
    path: &Path,
    point: &Point,
    weights: &LeafWeights,
) -> Result<bool, NoFit>
    requires { path.now ≡ sides_of splits.now }
    ensures yes { IfOk result (λ b. b ≡ true → IsShownOptimum problem.now cuts.now path.now point.now weights.now) }
    ensures optimum { IfOk result (λ b. b ≡ true → IsRelaxedOptimum problem.now cuts.now path.now point.now) }
    ensures no { IfOk result (λ b. b ≡ false → ¬ (IsShownOptimum problem.now cuts.now path.now point.now weights.now)) }
    ensures fault { IfErr result (IsOptimumFault problem.now cuts.now splits.now point.now weights.now) }
{
    optimal_points();
    path.is_of_columns();
    if !is_node_point(problem, cuts, splits, point)? {
        return Ok(false);
    }
    let value = form_value(problem.objective().as_slice(), point.as_slice())?;
    path.shows_none_better(alloc, problem, cuts, weights, value)
}
