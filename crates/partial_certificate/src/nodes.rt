// The test of the nodes of a tree with leaves that are left to do.
ghost use Rattle.std.specs.Prelude.{◌≡◌, ◌+◌, ◌-◌, ◌≤◌, [], ◌∷◌, map};
ghost use Rattle.verdicts.specs.Certificate.{Two};
ghost use Rattle.certificate.specs.Values.{node_of};
ghost use Rattle.certificate.specs.Written.{open_after};
ghost use Rattle.cert_check.specs.Outcome.{outcome, outcome_of};
ghost use Rattle.cert_check.specs.Walk.{sides_to};
ghost use Rattle.partial_certificate.specs.Partial.{shape};
ghost use Rattle.partial_certificate.specs.Values.{partial_of};
ghost use Rattle.partial_certificate.specs.Outcome.{partial_answer, node_trials};

use crate::tree::{PartialNode, PartialTree};
use cert_check::{ByColumn, CheckFault, Checked, Part, Way, place_passes};
use certificate::{Derived, TreeNode, Version};
use fraction::{Frac, NoFit};

// Whether a node passes under the splits on its way.
fn node_passes(
    problem: &ByColumn,
    goal: &Option<Frac>,
    derived: &[Derived],
    way: &Way,
    node: &PartialNode,
) -> Result<bool, NoFit>
    ensures { result ≡ partial_answer (record { version = Two; problem = problem.now; derived = derived.now; sides = sides_to way.now }) goal.now (partial_of node.now) }
{
    match node {
        PartialNode::Todo => Ok(true),
        PartialNode::Done(node) => place_passes(Version::Two, problem, goal, derived, way, node),
    }
}

// How many places are open once a node of a certificate fills one of these and more.
fn opened_by(node: &TreeNode, more: usize) -> usize
    requires { more + 2 ≤ usize.MAX }
    ensures { result ≡ open_after (node_of node.now) more }
{
    match node {
        TreeNode::Branch(_) => more + 2,
        _ => more,
    }
}

// How many places are open after a node that fills one.
fn opened(node: &PartialNode, places: usize) -> usize
    requires { places + 1 ≤ usize.MAX }
    ensures { result ≡ open_after (shape (partial_of node.now)) (places - 1) }
{
    let more = places.saturating_sub(1);
    match node {
        PartialNode::Todo => more,
        PartialNode::Done(node) => opened_by(node, more),
    }
}

// The first node that does not pass, if there is one, in preorder from the root on.
pub(crate) fn check_nodes(
    problem: &ByColumn,
    goal: &Option<Frac>,
    derived: &[Derived],
    tree: &PartialTree,
    way: &mut Way,
) -> Result<Checked, CheckFault>
    requires { way.old ≡ record { nodes = map shape tree.now; place = 0 } }
    ensures { outcome_of result ≡ outcome (node_trials problem.now goal.now derived.now 1 ([] ∷ []) tree.now) }
{
    let nodes = tree.shapes().as_slice();
    let mut places = 1;
    let mut k = 0;
    while k < nodes.len() {
        let part = Part::Node(k + 1);
        if places == 0 {
            return Ok(Checked::Refused(part));
        }
        let node = tree.node(k);
        match node_passes(problem, goal, derived, way, &node) {
            Err(fault) => return Err(CheckFault { part, fault }),
            Ok(false) => return Ok(Checked::Refused(part)),
            Ok(true) => {}
        }
        places = opened(&node, places);
        way.advance();
        k += 1;
    }
    if places == 0 {
        Ok(Checked::Accepted)
    } else {
        Ok(Checked::Refused(Part::Node(k + 1)))
    }
}
