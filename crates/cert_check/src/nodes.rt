// The test of the nodes of a tree.
ghost use Rattle.std.specs.Prelude.{◌≡◌, ◌+◌, ◌-◌, ◌≤◌, ◌&&◌, [], ◌∷◌, length, Some};
ghost use Rattle.rational.specs.Rational.{zero_ℚ, ◌*ℚ◌};
ghost use Rattle.milp.specs.Points.{sign_of};
ghost use Rattle.verdicts.specs.WeightedSums.{coefficient_of};
ghost use Rattle.rational.specs.Compare.{is_less};
ghost use Rattle.verdicts.specs.Proves.{is_whole_form, may_split};
ghost use Rattle.certificate.specs.Values.{node_of, version_of};
ghost use Rattle.certificate.specs.Written.{open_after};
ghost use Rattle.cert_check.specs.Sums.{weight_products, are_forms};
ghost use Rattle.cert_check.specs.Parts.{shown_answer, bound_answer, node_answer};
ghost use Rattle.cert_check.specs.Outcome.{outcome, outcome_of, node_trials};
ghost use Rattle.cert_check.specs.Walk.{sides_to};

use crate::bounds::unit_column;
use crate::by_column::ByColumn;
use crate::derived::is_whole_form;
use crate::forms::is_form;
use crate::named::Named;
use crate::part::{CheckFault, Checked, Part};
use crate::setting::Setting;
use crate::sums::{all_there, bound_sum};
use crate::way::Way;
use certificate::{Derived, TreeNode, Version};
use fraction::{Frac, NoFit};
use instance::{Entry, signed};

// F is zero, and R above 0.
pub(crate) fn empty_passes(setting: &Setting, weights: &Named) -> Result<bool, NoFit>
    ensures { result ≡ shown_answer setting.now weights.now (λ j. zero_ℚ) (is_less zero_ℚ) }
{
    if !all_there(setting, weights)? {
        return Ok(false);
    }
    if !is_form(setting, weights, &[], None)? {
        return Ok(false);
    }
    let sum = bound_sum(setting, Frac::zero(), weights)?;
    Ok(sum.is_positive())
}

// F is the objective's form with the direction's sign, and R at least the value with that sign.
pub(crate) fn bound_passes(setting: &Setting, weights: &Named, value: Frac) -> Result<bool, NoFit>
    ensures { result ≡ bound_answer setting.now (Some value) weights.now }
{
    let problem = setting.problem();
    let direction = problem.direction();
    if !all_there(setting, weights)? {
        return Ok(false);
    }
    if !is_objective(setting, weights)? {
        return Ok(false);
    }
    let sum = bound_sum(setting, Frac::zero(), weights)?;
    Ok(signed(direction, value) <= sum)
}

// F is the objective's form with the direction's sign.
fn is_objective(setting: &Setting, weights: &Named) -> Result<bool, NoFit>
    ensures { result ≡ are_forms (weight_products setting.now weights.now) (λ j. sign_of setting.now.problem.direction *ℚ coefficient_of setting.now.problem.objective j) 0 setting.now.problem.columns }
{
    let problem = setting.problem();
    problem.keeps_its_limits();
    let form = problem.objective().as_slice();
    is_form(setting, weights, form, Some(problem.direction()))
}

// A version splits on the form.
fn may_split(version: Version, form: &[Entry]) -> bool
    ensures { result ≡ may_split (version_of version) form.now }
{
    match version {
        Version::One => unit_column(form).is_some(),
        Version::Two => true,
    }
}

// The version splits on the form, and the form is whole.
fn is_split(setting: &Setting, form: &[Entry]) -> bool
    ensures { result ≡ (may_split setting.now.version form.now && is_whole_form setting.now.problem form.now) }
{
    may_split(setting.version(), form) && is_whole_form(setting.problem(), form)
}

// A node passes under the splits on its way.
fn node_passes(setting: &Setting, goal: Option<Frac>, node: &TreeNode) -> Result<bool, NoFit>
    ensures { result ≡ node_answer setting.now goal (node_of node.now) }
{
    match node {
        TreeNode::Branch(split) => Ok(is_split(setting, split.form().as_slice())),
        TreeNode::Empty(weights) => empty_passes(setting, &Named::of_leaf(weights)),
        TreeNode::Bound(weights) => match goal {
            None => Ok(false),
            Some(value) => bound_passes(setting, &Named::of_leaf(weights), value),
        },
    }
}

/// Whether a node at a place passes: as the leaf that it is, or as a split that the version allows.
pub fn place_passes(
    version: Version,
    problem: &ByColumn,
    goal: &Option<Frac>,
    derived: &[Derived],
    way: &Way,
    node: &TreeNode,
) -> Result<bool, NoFit>
    ensures exact { result ≡ node_answer (record { version = version_of version; problem = problem.now; derived = derived.now; sides = sides_to way.now }) goal.now (node_of node.now) }
{
    let setting = Setting::of_node(version, problem, derived, way);
    node_passes(&setting, *goal, node)
}

// How many places are open after a node that fills one.
fn opened(node: &TreeNode, places: usize) -> usize
    requires { places + 1 ≤ usize.MAX }
    ensures { result ≡ open_after (node_of node.now) (places - 1) }
{
    let more = places.saturating_sub(1);
    match node {
        TreeNode::Branch(_) => more + 2,
        _ => more,
    }
}

// The first node that does not pass, if there is one, in preorder from the root on.
pub(crate) fn check_nodes(
    version: Version,
    problem: &ByColumn,
    goal: &Option<Frac>,
    derived: &[Derived],
    way: &mut Way,
) -> Result<Checked, CheckFault>
    requires { way.old.place ≡ 0 }
    ensures { outcome_of result ≡ outcome (node_trials problem.now (version_of version) goal.now derived.now 1 ([] ∷ []) way.old.nodes) }
{
    let nodes = way.tree().as_slice();
    let mut places = 1;
    let mut k = 0;
    while k < nodes.len() {
        let part = Part::Node(k + 1);
        if places == 0 {
            return Ok(Checked::Refused(part));
        }
        let node = &nodes[k];
        match place_passes(version, problem, goal, derived, way, node) {
            Err(fault) => return Err(CheckFault { part, fault }),
            Ok(false) => return Ok(Checked::Refused(part)),
            Ok(true) => {}
        }
        places = opened(node, places);
        way.advance();
        k += 1;
    }
    if places == 0 {
        Ok(Checked::Accepted)
    } else {
        Ok(Checked::Refused(Part::Node(k + 1)))
    }
}
