// The check of a certificate, part by part.
ghost use Rattle.std.specs.Prelude.{◌≡◌, ◌==◌, ◌&&◌, length, Some, IfOk, IfErr};
ghost use Rattle.verdicts.specs.Certificate.{Optimal, Unbounded};
ghost use Rattle.verdicts.specs.Proves.{Proves, Holds, tests, first_failing};
ghost use Rattle.fraction.specs.Answers.{DoesNotFit};
ghost use Rattle.cert_check.specs.Outcome.{outcome, outcome_of, part_of, IfRefused, HoldsUpTo, trials, value_trials, ray_trials, verdict_trials, tree_trials};

use crate::by_column::ByColumn;
use crate::derived::check_derived;
use crate::nodes::check_nodes;
use crate::part::{CheckFault, Checked, Part};
use crate::points::{goal_of, point_passes, ray_passes};
use crate::way::Way;
use certificate::{Certificate, Verdict};
use fraction::Frac;
use instance::Instance;
use std::alloc::Global;

/// Whether a certificate proves its verdict for a problem: the first part that does not hold, if there is one. A fault is
/// the first operation on the way, in the order of the parts and of the tests of each, whose result does not fit. It takes
/// memory for the problem's entries by column, for a total for each column, and for the splits on the way to a node; where
/// that is not there it answers the same, and takes longer.
pub fn check(
    alloc: Global,
    problem: &Instance,
    certificate: &Certificate,
) -> Result<Checked, CheckFault>
    ensures exact { outcome_of result ≡ outcome (trials problem.now certificate.now) }
    ensures accepted { IfOk result (λ r. r ≡ Checked.Accepted → Proves problem.now certificate.now) }
    ensures verdict { IfOk result (λ r. r ≡ Checked.Accepted → Holds problem.now certificate.now certificate.now.verdict) }
    ensures refused { IfOk result (λ r. IfRefused r (λ part. first_failing (tests problem.now certificate.now) ≡ Some part)) }
    ensures no_fit { IfErr result (λ e. HoldsUpTo (part_of e.part) (tests problem.now certificate.now)) }
    ensures operation { IfErr result (λ e. DoesNotFit e.fault) }
{
    let _rows = certificate.rows();
    check_parts(alloc, problem, certificate)
}

// The parts, up to the first that decides.
fn check_parts(
    alloc: Global,
    problem: &Instance,
    certificate: &Certificate,
) -> Result<Checked, CheckFault>
    ensures { outcome_of result ≡ outcome (trials problem.now certificate.now) }
{
    if !has_size(problem, certificate) {
        return Ok(Checked::Refused(Part::Size));
    }
    match certificate.verdict() {
        Verdict::Optimal => check_optimal(alloc, problem, certificate),
        Verdict::Infeasible => check_tree(alloc, problem, &None, certificate),
        Verdict::Unbounded => check_unbounded(problem, certificate),
    }
}

// The certificate's numbers of rows and columns are the problem's.
fn has_size(problem: &Instance, certificate: &Certificate) -> bool
    ensures { result ≡ ((certificate.now.rows == length problem.now.rows) && (certificate.now.columns == length problem.now.columns)) }
{
    certificate.rows() as usize == problem.rows().len()
        && certificate.columns() as usize == problem.columns().len()
}

// The parts point, value and tree.
fn check_optimal(
    alloc: Global,
    problem: &Instance,
    certificate: &Certificate,
) -> Result<Checked, CheckFault>
    ensures { outcome_of result ≡ outcome (verdict_trials problem.now certificate.now Optimal) }
{
    let point = certificate.point();
    match point_passes(problem, point) {
        Err(fault) => Err(CheckFault {
            part: Part::Point,
            fault,
        }),
        Ok(false) => Ok(Checked::Refused(Part::Point)),
        Ok(true) => check_value(alloc, problem, certificate),
    }
}

// The parts value and tree. A leaf without better points is tested against the value of the objective's form.
fn check_value(
    alloc: Global,
    problem: &Instance,
    certificate: &Certificate,
) -> Result<Checked, CheckFault>
    ensures { outcome_of result ≡ outcome (value_trials problem.now certificate.now) }
{
    let point = certificate.point();
    match goal_of(problem, point, certificate.value()) {
        Err(fault) => Err(CheckFault {
            part: Part::Value,
            fault,
        }),
        Ok(None) => Ok(Checked::Refused(Part::Value)),
        Ok(Some(goal)) => check_tree(alloc, problem, &Some(goal), certificate),
    }
}

// The parts point and ray.
fn check_unbounded(problem: &Instance, certificate: &Certificate) -> Result<Checked, CheckFault>
    ensures { outcome_of result ≡ outcome (verdict_trials problem.now certificate.now Unbounded) }
{
    let point = certificate.point();
    match point_passes(problem, point) {
        Err(fault) => Err(CheckFault {
            part: Part::Point,
            fault,
        }),
        Ok(false) => Ok(Checked::Refused(Part::Point)),
        Ok(true) => check_ray(problem, certificate),
    }
}

// The part ray.
fn check_ray(problem: &Instance, certificate: &Certificate) -> Result<Checked, CheckFault>
    ensures { outcome_of result ≡ outcome (ray_trials problem.now certificate.now) }
{
    let ray = certificate.ray();
    match ray_passes(problem, ray) {
        Err(fault) => Err(CheckFault {
            part: Part::Ray,
            fault,
        }),
        Ok(false) => Ok(Checked::Refused(Part::Ray)),
        Ok(true) => Ok(Checked::Accepted),
    }
}

// The derived rows, and then the nodes.
#[tactic(auto, using(crate::proofs::Trials::trials_then))]
fn check_tree(
    alloc: Global,
    problem: &Instance,
    goal: &Option<Frac>,
    certificate: &Certificate,
) -> Result<Checked, CheckFault>
    ensures { outcome_of result ≡ outcome (tree_trials problem.now goal.now certificate.now) }
{
    let version = certificate.version();
    let derived = certificate.derived().as_slice();
    let mut way = Way::root(alloc, certificate.tree());
    let problem = ByColumn::new(alloc, problem);
    match check_derived(&problem, version, &way, derived)? {
        Checked::Accepted => check_nodes(version, &problem, goal, derived, &mut way),
        Checked::Refused(part) => Ok(Checked::Refused(part)),
    }
}
