// What a trial makes of the members.
ghost use Rattle.std.specs.Prelude.{◌≡◌, ◌≤◌, ◌∷◌, ◌++◌, length, map, IfOk, IfErr};
ghost use Rattle.milp.specs.Points.{Feasible};
ghost use Rattle.infeasible_subset.specs.Members.{has, both};
ghost use Rattle.infeasible_subset.specs.Subsets.{sub, row_used, column_used, AreAccepted};
ghost use Rattle.infeasible_subset.specs.Underway.{members_of, IsUnderway};
ghost use Rattle.infeasible_subset.specs.Trials.{IsTrial};
ghost use Rattle.infeasible_subset.specs.Faults.{IsFault};

use crate::bounds::used;
use crate::fault::{StuckAt, SubsetFault, TooLong};
use crate::member::both;
use crate::trial::Trial;
use crate::{Member, Members, Witness, Witnesses};
use certificate::LeafWeights;
use instance::{Instance, Point};
use std::alloc::{AllocError, Global};

/// What is known while one member after the other is tried: those that are done, those that are left, and weights that
/// refute the problem by these alone.
#[derive(Drop)]
pub(crate) struct Underway {
    pub(crate) done: Witnesses,
    pub(crate) left: Members,
    pub(crate) weights: LeafWeights,
}

/// Those of the members that the weights use.
pub(crate) fn left_of(
    alloc: Global,
    members: &[Member],
    weights: &LeafWeights,
) -> Result<Members, AllocError>
    ensures { IfOk result (λ left. left ≡ both members.now (map row_used weights.now.rows ++ map column_used weights.now.columns)) }
{
    let used = used(alloc, weights)?;
    Ok(Members::from_vec(both(alloc, members, &used)?))
}

/// The member was tried without which these others are left of all.
pub(crate) fn settle(
    alloc: Global,
    problem: &Instance,
    underway: &mut Underway,
    member: Member,
    others: Members,
    pivot_limit: u32,
    trial: Trial,
) -> Result<(), SubsetFault>
    requires underway { IsUnderway problem.now underway.old.done (member ∷ underway.old.left) underway.old.weights }
    requires others { others ≡ members_of underway.old.done ++ underway.old.left }
    requires trial { IsTrial (sub problem.now (has others)) pivot_limit trial }
    ensures underway { IfOk result (λ _. IsUnderway problem.now underway.new.done underway.new.left underway.new.weights) }
    ensures fewer { IfOk result (λ _. length underway.new.left ≤ length underway.old.left) }
    ensures fault { IfErr result (IsFault problem.now pivot_limit) }
{
    match trial {
        Trial::Refuted(weights) => Ok(refuted(alloc, problem, underway, &member, weights)?),
        Trial::Met(point) => Ok(met(problem, underway, member, point)?),
        Trial::NotFitting(fault) => Err(SubsetFault::NoFit(StuckAt {
            members: others,
            fault,
        })),
        Trial::AtLimit(bases) => Err(SubsetFault::PivotLimit(TooLong {
            members: others,
            bases,
        })),
    }
}

// The others are refuted: the members that the weights use go on.
fn refuted(
    alloc: Global,
    problem: &Instance,
    underway: &mut Underway,
    member: &Member,
    weights: LeafWeights,
) -> Result<(), AllocError>
    requires underway { IsUnderway problem.now underway.old.done (member.now ∷ underway.old.left) underway.old.weights }
    requires refuted { AreAccepted (sub problem.now (has (members_of underway.old.done ++ underway.old.left))) weights }
    ensures underway { IfOk result (λ _. IsUnderway problem.now underway.new.done underway.new.left underway.new.weights) }
    ensures fewer { IfOk result (λ _. length underway.new.left ≤ length underway.old.left) }
{
    let left = left_of(alloc, underway.left.as_slice(), &weights)?;
    underway.left = left;
    underway.weights = weights;
    Ok(())
}

// A point meets the others: the member is done.
fn met(
    problem: &Instance,
    underway: &mut Underway,
    member: Member,
    point: Point,
) -> Result<(), AllocError>
    requires underway { IsUnderway problem.now underway.old.done (member ∷ underway.old.left) underway.old.weights }
    requires met { Feasible (sub problem.now (has (members_of underway.old.done ++ underway.old.left))) point }
    ensures underway { IfOk result (λ _. IsUnderway problem.now underway.new.done underway.new.left underway.new.weights) }
    ensures fewer { IfOk result (λ _. length underway.new.left ≤ length underway.old.left) }
{
    underway.done.push(Witness { member, point })
}
