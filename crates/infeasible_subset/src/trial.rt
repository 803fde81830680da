// Whether a point meets some of a problem's bounds.
ghost use Rattle.std.specs.Prelude.{◌≡◌, [], None, IfOk, IfSome};
ghost use Rattle.milp.specs.Points.{Feasible};
ghost use Rattle.branch_search.specs.Plain.{NoneInteger};
ghost use Rattle.branch_search.specs.Treatment.{IsTreatment};
ghost use Rattle.infeasible_subset.specs.Members.{has};
ghost use Rattle.infeasible_subset.specs.Subsets.{sub};
ghost use Rattle.infeasible_subset.specs.Trials.{IsTrial};

use crate::Member;
use crate::meeting::meets;
use crate::parts::sub_problem;
use branch_search::{Found, Treatment, treat};
use candidate::Proposer;
use certificate::{DerivedRows, LeafWeights};
use fraction::{Frac, NoFit};
use instance::{Instance, Point};
use search_node::{Bases, Node};
use search_tree::Hint;
use simplex::root_is_over_columns;
use std::alloc::{AllocError, Global};

/// What a trial tells.
#[derive(Drop)]
pub(crate) enum Trial {
    /// No point meets the bounds, as the weights show.
    Refuted(LeafWeights),
    /// This point meets them.
    Met(Point),
    /// An operation of the work does not fit.
    NotFitting(NoFit),
    /// Bland's run is longer than the limit of steps: the bases of the first steps.
    AtLimit(Bases),
}

/// Tries whether a point meets these members: the proposed one, and where it doesn't, any.
pub(crate) fn try_proposed(
    alloc: Global,
    problem: &Instance,
    members: &[Member],
    pivot_limit: u32,
    proposed: Option<Point>,
) -> Result<Trial, AllocError>
    requires { NoneInteger problem.now.columns }
    ensures { IfOk result (IsTrial (sub problem.now (has members.now)) pivot_limit) }
{
    match if_met(problem, members, proposed) {
        Some(point) => Ok(Trial::Met(point)),
        None => try_alone(alloc, problem, members, pivot_limit),
    }
}

// The point, where it meets the members.
fn if_met(problem: &Instance, members: &[Member], proposed: Option<Point>) -> Option<Point>
    requires { NoneInteger problem.now.columns }
    ensures { IfSome result (Feasible (sub problem.now (has members.now))) }
{
    let point = proposed?;
    if meets(problem, members, &point) {
        Some(point)
    } else {
        None
    }
}

// Tries whether a point meets these members alone.
fn try_alone(
    alloc: Global,
    problem: &Instance,
    members: &[Member],
    pivot_limit: u32,
) -> Result<Trial, AllocError>
    requires { NoneInteger problem.now.columns }
    ensures { IfOk result (IsTrial (sub problem.now (has members.now)) pivot_limit) }
{
    let part = sub_problem(alloc, problem, members)?;
    tried(alloc, &part, pivot_limit)
}

fn tried(alloc: Global, part: &Instance, pivot_limit: u32) -> Result<Trial, AllocError>
    requires continuous { NoneInteger part.now.columns }
    requires no_objective { part.now.objective ≡ [] }
    ensures { IfOk result (IsTrial part.now pivot_limit) }
{
    let treatment = treated(alloc, part, pivot_limit)?;
    Ok(told(part, pivot_limit, treatment))
}

// What becomes of the root.
fn treated(alloc: Global, part: &Instance, pivot_limit: u32) -> Result<Treatment, AllocError>
    ensures { IfOk result (IsTreatment part.now [] pivot_limit [] None) }
{
    let mut proposer = Proposer::new(alloc, pivot_limit, 0);
    let treatment = treated_by(alloc, part, pivot_limit, &mut proposer);
    std::mem::drop(proposer);
    treatment
}

// The same, with what proposes.
fn treated_by(
    alloc: Global,
    part: &Instance,
    pivot_limit: u32,
    proposer: &mut Proposer,
) -> Result<Treatment, AllocError>
    ensures { IfOk result (IsTreatment part.now [] pivot_limit [] None) }
{
    root_is_over_columns(part);
    let cuts = DerivedRows::new(alloc);
    let node = Node::root(alloc);
    let best: Option<Frac> = None;
    let hint = Hint::new(None, None);
    treat(
        alloc,
        part,
        &cuts,
        &node,
        &best,
        pivot_limit,
        &hint,
        proposer,
    )
}

// Of a problem without an objective and without integer columns nothing else can become.
fn told(part: &Instance, pivot_limit: u32, treatment: Treatment) -> Trial
    requires continuous { NoneInteger part.now.columns }
    requires no_objective { part.now.objective ≡ [] }
    requires treatment { IsTreatment part.now [] pivot_limit [] None treatment }
    ensures { IsTrial part.now pivot_limit result }
{
    part.keeps_its_limits();
    match treatment {
        Treatment::Refuted(weights) => Trial::Refuted(weights),
        Treatment::Bounded(_) => unreachable!(),
        Treatment::Feasible(found) => Trial::Met(point_of(found)),
        Treatment::ToSplit(_) => unreachable!(),
        Treatment::Unbounded(_) => unreachable!(),
        Treatment::NotFitting(fault) => Trial::NotFitting(fault),
        Treatment::AtLimit(bases) => Trial::AtLimit(bases),
    }
}

fn point_of(found: Found) -> Point
    ensures { result ≡ found.point }
{
    let Found { point, .. } = found;
    point
}
