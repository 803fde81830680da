// The weights of a certificate of one leaf.
ghost use Rattle.std.specs.Prelude.{◌≡◌, [], None, IfOk};
ghost use Rattle.verdicts.specs.Certificate.{Infeasible as is_infeasible};
ghost use Rattle.certificate.specs.Values.{node_of};
ghost use Rattle.cert_check.specs.Outcome.{Acceptance, outcome, trials};
ghost use Rattle.search_tree.specs.Nodes.{NodePasses};
ghost use Rattle.branch_search.specs.Plain.{IsPlainCertificate};
ghost use Rattle.infeasible_subset.specs.Subsets.{IsEmptyLeaf, AreAccepted};

use certificate::{Certificate, LeafWeights, TreeNode};
use instance::Instance;
use std::alloc::{AllocError, Global};

/// The weights of the problem's certificate.
pub(crate) fn refuting(
    alloc: Global,
    problem: &Instance,
    certificate: &Certificate,
) -> Result<LeafWeights, AllocError>
    requires infeasible { certificate.now.verdict ≡ is_infeasible }
    requires plain { IsPlainCertificate problem.now certificate.now }
    requires accepted { outcome (trials problem.now certificate.now) ≡ Acceptance }
    ensures { IfOk result (λ weights. AreAccepted problem.now weights) }
{
    let nodes = certificate.tree().as_slice();
    weights_of(alloc, problem, &nodes[0])
}

fn weights_of(alloc: Global, problem: &Instance, node: &TreeNode) -> Result<LeafWeights, AllocError>
    requires leaf { IsEmptyLeaf (node_of node.now) }
    requires passes { NodePasses problem.now None [] [] (node_of node.now) }
    ensures { IfOk result (λ weights. AreAccepted problem.now weights) }
{
    match node {
        TreeNode::Empty(weights) => weights.copy(alloc),
        TreeNode::Branch(_) => unreachable!(),
        TreeNode::Bound(_) => unreachable!(),
    }
}
