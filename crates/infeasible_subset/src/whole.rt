// Irreducible infeasible subsets.
ghost use Rattle.std.specs.Prelude.{◌≡◌, IfOk, IfErr, []};
ghost use Rattle.verdicts.specs.Certificate.{Infeasible as is_infeasible};
ghost use Rattle.cert_check.specs.Outcome.{Acceptance, outcome, trials};
ghost use Rattle.branch_search.specs.Plain.{NoneInteger, IsPlainCertificate};
ghost use Rattle.infeasible_subset.specs.Members.{has};
ghost use Rattle.infeasible_subset.specs.Subsets.{IsIrreducible, UsesOnly, Refutes, AreAccepted};
ghost use Rattle.infeasible_subset.specs.Listed.{AreAmong, all_bounds};
ghost use Rattle.infeasible_subset.specs.Underway.{members_of, AllMeet, IsUnderway};
ghost use Rattle.infeasible_subset.specs.Faults.{IsFault};

use crate::leaf::refuting;
use crate::proposed::{Proposals, proposing};
use crate::settling::Underway;
use crate::turns::{begin, run};
use crate::{Subset, SubsetFault};
use certificate::{Certificate, LeafWeights};
use instance::Instance;
use std::alloc::Global;

/// An irreducible infeasible subset of a problem's bounds: no point meets its members, and without any one of them a point
/// does. The certificate, which the checker accepts, shows that the problem, in which no column is integer, has no feasible
/// point.
///
/// The members are bounds that are there, rows first, by place, the lower bound before the upper one, and none comes twice.
/// Beside each stands a point that meets all the others, and the weights refute the problem by the members alone: those of
/// a certificate that the checker accepts, too.
///
/// A fault tells with which bounds alone the problem was searched, and there an operation that does not fit, or a run of
/// more than `pivot_limit` steps.
pub fn subset(
    alloc: Global,
    problem: &Instance,
    certificate: &Certificate,
    pivot_limit: u32,
) -> Result<Subset, SubsetFault>
    requires continuous { NoneInteger problem.now.columns }
    requires infeasible { certificate.now.verdict ≡ is_infeasible }
    requires plain { IsPlainCertificate problem.now certificate.now }
    requires accepted { outcome (trials problem.now certificate.now) ≡ Acceptance }
    ensures irreducible { IfOk result (λ s. IsIrreducible problem.now (members_of s.witnesses)) }
    ensures listed { IfOk result (λ s. AreAmong (members_of s.witnesses) (all_bounds problem.now)) }
    ensures points { IfOk result (λ s. AllMeet problem.now (members_of s.witnesses) s.witnesses) }
    ensures uses { IfOk result (λ s. UsesOnly (has (members_of s.witnesses)) s.weights) }
    ensures refutes { IfOk result (λ s. Refutes problem.now s.weights) }
    ensures accepted { IfOk result (λ s. AreAccepted problem.now s.weights) }
    ensures fault { IfErr result (IsFault problem.now pivot_limit) }
{
    let weights = refuting(alloc, problem, certificate)?;
    let proposals = proposing(alloc, problem, &weights);
    found(alloc, problem, weights, &proposals, pivot_limit)
}

// The subset that is found from these weights on.
fn found(
    alloc: Global,
    problem: &Instance,
    weights: LeafWeights,
    proposals: &Option<Proposals>,
    pivot_limit: u32,
) -> Result<Subset, SubsetFault>
    requires continuous { NoneInteger problem.now.columns }
    requires accepted { AreAccepted problem.now weights }
    ensures irreducible { IfOk result (λ s. IsIrreducible problem.now (members_of s.witnesses)) }
    ensures listed { IfOk result (λ s. AreAmong (members_of s.witnesses) (all_bounds problem.now)) }
    ensures points { IfOk result (λ s. AllMeet problem.now (members_of s.witnesses) s.witnesses) }
    ensures uses { IfOk result (λ s. UsesOnly (has (members_of s.witnesses)) s.weights) }
    ensures refutes { IfOk result (λ s. Refutes problem.now s.weights) }
    ensures accepted { IfOk result (λ s. AreAccepted problem.now s.weights) }
    ensures fault { IfErr result (IsFault problem.now pivot_limit) }
{
    let mut underway = begin(alloc, problem, weights)?;
    run(alloc, problem, &mut underway, proposals, pivot_limit)?;
    Ok(finished(problem, underway))
}

// When no member is left, they are a subset.
fn finished(problem: &Instance, underway: Underway) -> Subset
    requires { IsUnderway problem.now underway.done [] underway.weights }
    ensures irreducible { IsIrreducible problem.now (members_of result.witnesses) }
    ensures listed { AreAmong (members_of result.witnesses) (all_bounds problem.now) }
    ensures points { AllMeet problem.now (members_of result.witnesses) result.witnesses }
    ensures uses { UsesOnly (has (members_of result.witnesses)) result.weights }
    ensures refutes { Refutes problem.now result.weights }
    ensures accepted { AreAccepted problem.now result.weights }
{
    let Underway {
        done,
        left: _,
        weights,
    } = underway;
    Subset {
        witnesses: done,
        weights,
    }
}
