// One member after the other.
ghost use Rattle.std.specs.Prelude.{◌≡◌, ◌<◌, [], ◌++◌, length, IfOk, IfErr};
ghost use Rattle.branch_search.specs.Plain.{NoneInteger};
ghost use Rattle.infeasible_subset.specs.Subsets.{AreAccepted};
ghost use Rattle.infeasible_subset.specs.Underway.{members_of, IsUnderway};
ghost use Rattle.infeasible_subset.specs.Faults.{IsFault};

use crate::bounds::all_bounds;
use crate::proposed::{Proposals, proposed};
use crate::settling::{Underway, left_of, settle};
use crate::trial::try_proposed;
use crate::{Members, SubsetFault, Witnesses};
use certificate::LeafWeights;
use instance::Instance;
use std::alloc::{AllocError, Global};

/// The members that weights use, which the checker accepts; none of them is done.
pub(crate) fn begin(
    alloc: Global,
    problem: &Instance,
    weights: LeafWeights,
) -> Result<Underway, AllocError>
    requires { AreAccepted problem.now weights }
    ensures { IfOk result (λ underway. IsUnderway problem.now underway.done underway.left underway.weights) }
{
    let all = all_bounds(alloc, problem)?;
    let left = left_of(alloc, &all, &weights)?;
    Ok(Underway {
        done: Witnesses::new(alloc),
        left,
        weights,
    })
}

/// Tries one member after the other, until none is left, with what points are proposed for them.
pub(crate) fn run(
    alloc: Global,
    problem: &Instance,
    underway: &mut Underway,
    proposals: &Option<Proposals>,
    pivot_limit: u32,
) -> Result<(), SubsetFault>
    requires continuous { NoneInteger problem.now.columns }
    requires underway { IsUnderway problem.now underway.old.done underway.old.left underway.old.weights }
    ensures ended { IfOk result (λ _. IsUnderway problem.now underway.new.done [] underway.new.weights) }
    ensures fault { IfErr result (IsFault problem.now pivot_limit) }
{
    while !underway.left.as_slice().is_empty() {
        turn(alloc, problem, underway, proposals, pivot_limit)?;
    }
    Ok(())
}

// Tries the first of the members that are left.
fn turn(
    alloc: Global,
    problem: &Instance,
    underway: &mut Underway,
    proposals: &Option<Proposals>,
    pivot_limit: u32,
) -> Result<(), SubsetFault>
    requires continuous { NoneInteger problem.now.columns }
    requires some { 0 < length underway.old.left }
    requires underway { IsUnderway problem.now underway.old.done underway.old.left underway.old.weights }
    ensures underway { IfOk result (λ _. IsUnderway problem.now underway.new.done underway.new.left underway.new.weights) }
    ensures fewer { IfOk result (λ _. length underway.new.left < length underway.old.left) }
    ensures fault { IfErr result (IsFault problem.now pivot_limit) }
{
    let member = underway.left.take_first();
    let others = others(alloc, &underway.done, &underway.left)?;
    let point = proposed(alloc, proposals, &member);
    let trial = try_proposed(alloc, problem, others.as_slice(), pivot_limit, point)?;
    settle(alloc, problem, underway, member, others, pivot_limit, trial)
}

// The members that are done, and then those that are left.
fn others(alloc: Global, done: &Witnesses, left: &Members) -> Result<Members, AllocError>
    ensures { IfOk result (λ others. others ≡ members_of done.now ++ left.now) }
{
    let mut others = Vec::new(alloc);
    for witness in done.as_slice() {
        others.push(witness.member)?;
    }
    others.extend_from_slice(left.as_slice())?;
    Ok(Members::from_vec(others))
}
