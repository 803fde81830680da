// The check of a partial certificate, part by part.
ghost use Rattle.std.specs.Prelude.{◌≡◌, ◌==◌, ◌&&◌, length, Some, IfOk, IfErr};
ghost use Rattle.fraction.specs.Answers.{DoesNotFit};
ghost use Rattle.verdicts.specs.Proves.{first_failing};
ghost use Rattle.cert_check.specs.Outcome.{outcome, outcome_of, part_of, IfRefused, HoldsUpTo};
ghost use Rattle.partial_certificate.specs.Outcome.{trials, best_trials, value_trials, tree_trials};
ghost use Rattle.partial_certificate.specs.Shown.{tests, Shows};

use crate::best::Best;
use crate::nodes::check_nodes;
use crate::partial::PartialCertificate;
use cert_check::{ByColumn, CheckFault, Checked, Part, Way, check_derived, form_value};
use certificate::Version;
use fraction::Frac;
use instance::{Instance, meets};
use std::alloc::Global;

/// Whether a partial certificate shows what it says of a problem: the first part that does not hold, if there is one. A
/// fault is the first operation on the way, in the order of the parts and of the tests of each, whose result does not fit.
/// Where it is accepted, the best point is feasible and has the value, and each feasible point that is better, or each
/// feasible point where there is no best one, lies at a leaf that is left to do. Memory is taken as in `check` of
/// `cert_check`.
pub fn check_partial(
    alloc: Global,
    problem: &Instance,
    certificate: &PartialCertificate,
) -> Result<Checked, CheckFault>
    ensures exact { outcome_of result ≡ outcome (trials problem.now certificate.now) }
    ensures accepted { IfOk result (λ r. r ≡ Checked.Accepted → Shows problem.now certificate.now) }
    ensures refused { IfOk result (λ r. IfRefused r (λ part. first_failing (tests problem.now certificate.now) ≡ Some part)) }
    ensures no_fit { IfErr result (λ e. HoldsUpTo (part_of e.part) (tests problem.now certificate.now)) }
    ensures operation { IfErr result (λ e. DoesNotFit e.fault) }
{
    check_parts(alloc, problem, certificate)
}

// The parts, up to the first that decides.
fn check_parts(
    alloc: Global,
    problem: &Instance,
    certificate: &PartialCertificate,
) -> Result<Checked, CheckFault>
    ensures { outcome_of result ≡ outcome (trials problem.now certificate.now) }
{
    if !has_size(problem, certificate) {
        return Ok(Checked::Refused(Part::Size));
    }
    match certificate.best() {
        None => check_tree(alloc, problem, &None, certificate),
        Some(best) => check_best(alloc, problem, certificate, best),
    }
}

// The certificate's numbers of rows and columns are the problem's.
fn has_size(problem: &Instance, certificate: &PartialCertificate) -> bool
    ensures { result ≡ ((certificate.now.rows == length problem.now.rows) && (certificate.now.columns == length problem.now.columns)) }
{
    certificate.rows() as usize == problem.rows().len()
        && certificate.columns() as usize == problem.columns().len()
}

// The parts point, value and tree.
fn check_best(
    alloc: Global,
    problem: &Instance,
    certificate: &PartialCertificate,
    best: &Best,
) -> Result<Checked, CheckFault>
    ensures { outcome_of result ≡ outcome (best_trials problem.now certificate.now (Some best.now)) }
{
    match meets(problem, best.point()) {
        Err(fault) => Err(CheckFault {
            part: Part::Point,
            fault,
        }),
        Ok(false) => Ok(Checked::Refused(Part::Point)),
        Ok(true) => check_value(alloc, problem, certificate, best),
    }
}

// The parts value and tree. A leaf without better points is tested against the value of the objective's form.
fn check_value(
    alloc: Global,
    problem: &Instance,
    certificate: &PartialCertificate,
    best: &Best,
) -> Result<Checked, CheckFault>
    ensures { outcome_of result ≡ outcome (value_trials problem.now certificate.now best.now) }
{
    match form_value(problem, best.point(), best.value()) {
        Err(fault) => Err(CheckFault {
            part: Part::Value,
            fault,
        }),
        Ok(None) => Ok(Checked::Refused(Part::Value)),
        Ok(Some(goal)) => check_tree(alloc, problem, &Some(goal), certificate),
    }
}

// The derived rows, and then the nodes.
#[tactic(auto, using(crate::proofs::Trials::trials_then))]
fn check_tree(
    alloc: Global,
    problem: &Instance,
    goal: &Option<Frac>,
    certificate: &PartialCertificate,
) -> Result<Checked, CheckFault>
    ensures { outcome_of result ≡ outcome (tree_trials problem.now goal.now certificate.now) }
{
    let derived = certificate.derived().as_slice();
    let tree = certificate.tree();
    let mut way = Way::root(alloc, tree.shapes());
    let problem = ByColumn::new(alloc, problem);
    match check_derived(&problem, Version::Two, &way, derived)? {
        Checked::Accepted => check_nodes(&problem, goal, derived, tree, &mut way),
        Checked::Refused(part) => Ok(Checked::Refused(part)),
    }
}
