// The work at one node.
ghost use Rattle.std.specs.Prelude.{ℕ, ◌≡◌, true, IfOk, IfSome, Option, Some};
ghost use Rattle.rational.specs.Rational.{Rational};
ghost use Rattle.basis.specs.Node.{IsOverColumns, IsNodePoint};
ghost use Rattle.basis.specs.Relaxation.{IsOptimalRelaxation, IsInfeasibleRelaxation};
ghost use Rattle.dictionary.specs.Table.{dictionary_of};
ghost use Rattle.search_node.specs.Sides.{sides_of};
ghost use Rattle.search_tree.specs.Nodes.{NodePasses};
ghost use Rattle.verdicts.specs.Certificate.{Bound};
ghost use Rattle.branch_search.specs.Treatment.{IsTreatment};

use crate::testing::{Verdict, test_optimum};
use crate::treatment::Treatment;
use candidate::{Candidate, ProposedOptimum, ProposedRay, Proposer};
use cert_check::is_improving_ray;
use certificate::{DerivedRows, LeafWeights, Weights};
use fraction::{Frac, NoFit};
use instance::{Instance, signed};
use search_node::{Basis, Node, Site, SplitsTaken, Stuck};
use search_tree::{Hint, Path, is_node_point, named_leaves, optimal_points};
use simplex::{Best, Dictionary, Endless, Relaxed, relax};
use std::alloc::{AllocError, Global};

/// The work at a node, given the best value so far: it has no point, none better than the best, a better feasible one that
/// bounds it, or is to be split; or a ray improves the problem, from a point of the node's relaxation. A search that begins at the hint's basis proposes,
/// within as many steps as the run may have, and what it proposes is taken where its tests pass. Else the simplex method
/// by Bland's rule decides, and an operation of it that does not fit, or a run of more than `pivot_limit` steps, is what
/// becomes of the node.
pub fn treat(
    alloc: Global,
    problem: &Instance,
    cuts: &DerivedRows,
    node: &Node,
    best: &Option<Frac>,
    pivot_limit: u32,
    hint: &Hint,
    proposer: &mut Proposer,
) -> Result<Treatment, AllocError>
    requires columns { IsOverColumns problem.now cuts.now (sides_of node.now.splits) }
    ensures { IfOk result (IsTreatment problem.now cuts.now pivot_limit (sides_of node.now.splits) best.now) }
{
    let cutoff = cutoff_of(problem, best);
    let candidate = proposer.propose(alloc, problem, &node.splits, hint.basis(), cutoff)?;
    treat_with(alloc, problem, cuts, node, best, pivot_limit, candidate)
}

// The best value of the objective's form, as the search for a least value sees it.
fn cutoff_of(problem: &Instance, best: &Option<Frac>) -> Option<Frac> {
    match *best {
        None => None,
        Some(best) => match best.sub(problem.constant()) {
            Ok(form) => Some(signed(problem.direction(), form)),
            Err(_) => None,
        },
    }
}

/// The same with this candidate, if there is one, in place of what the search proposes.
pub fn treat_with(
    alloc: Global,
    problem: &Instance,
    cuts: &DerivedRows,
    node: &Node,
    best: &Option<Frac>,
    pivot_limit: u32,
    candidate: Option<Candidate>,
) -> Result<Treatment, AllocError>
    requires columns { IsOverColumns problem.now cuts.now (sides_of node.now.splits) }
    ensures { IfOk result (IsTreatment problem.now cuts.now pivot_limit (sides_of node.now.splits) best.now) }
{
    let path = Path::below(alloc, &node.splits)?;
    treat_at(
        alloc,
        problem,
        cuts,
        node,
        &path,
        best,
        pivot_limit,
        candidate,
    )
}

// The same at the node's path.
fn treat_at(
    alloc: Global,
    problem: &Instance,
    cuts: &DerivedRows,
    node: &Node,
    path: &Path,
    best: &Option<Frac>,
    pivot_limit: u32,
    candidate: Option<Candidate>,
) -> Result<Treatment, AllocError>
    requires columns { IsOverColumns problem.now cuts.now (sides_of node.now.splits) }
    requires path { path.now ≡ sides_of node.now.splits }
    ensures { IfOk result (IsTreatment problem.now cuts.now pivot_limit (sides_of node.now.splits) best.now) }
{
    match proposed(alloc, problem, cuts, &node.splits, path, best, candidate)? {
        Some(treatment) => Ok(treatment),
        None => relaxed(alloc, problem, cuts, node, path, best, pivot_limit),
    }
}

// What is proposed, where its tests pass. Weights name the splits on the way before they are tested.
fn proposed(
    alloc: Global,
    problem: &Instance,
    cuts: &DerivedRows,
    splits: &SplitsTaken,
    path: &Path,
    best: &Option<Frac>,
    candidate: Option<Candidate>,
) -> Result<Option<Treatment>, AllocError>
    requires columns { IsOverColumns problem.now cuts.now (sides_of splits.now) }
    requires path { path.now ≡ sides_of splits.now }
    ensures { IfOk result (λ o. IfSome o (λ t. (limit : ℕ) → IsTreatment problem.now cuts.now limit (sides_of splits.now) best.now t)) }
{
    match candidate {
        None => Ok(None),
        Some(Candidate::Unbounded(endless)) => Ok(proposed_ray(problem, cuts, splits, endless)),
        Some(Candidate::Bounded(weights)) => {
            proposed_bound(alloc, problem, cuts, splits, path, best, &weights)
        }
        Some(Candidate::Infeasible(weights)) => {
            proposed_weights(alloc, problem, cuts, splits, path, best, &weights)
        }
        Some(Candidate::Optimal(found)) => {
            proposed_optimum(alloc, problem, cuts, splits, path, best, found)
        }
    }
}

// The weights are to show that the node has no point that is better than the best.
fn proposed_bound(
    alloc: Global,
    problem: &Instance,
    cuts: &DerivedRows,
    splits: &SplitsTaken,
    path: &Path,
    best: &Option<Frac>,
    weights: &Weights,
) -> Result<Option<Treatment>, AllocError>
    requires { path.now ≡ sides_of splits.now }
    ensures { IfOk result (λ o. IfSome o (λ t. (limit : ℕ) → IsTreatment problem.now cuts.now limit (sides_of splits.now) best.now t)) }
{
    match *best {
        None => Ok(None),
        Some(best) => {
            let named = path.named(alloc, problem, weights)?;
            if shows_bound(alloc, problem, cuts, path, best, &named) {
                Ok(Some(Treatment::Bounded(named)))
            } else {
                Ok(None)
            }
        }
    }
}

// Whether the weights show that the node has no point that is better than this value; not where an operation does not fit.
fn shows_bound(
    alloc: Global,
    problem: &Instance,
    cuts: &DerivedRows,
    path: &Path,
    best: Frac,
    weights: &LeafWeights,
) -> bool
    ensures { result ≡ true → NodePasses problem.now (Some best) cuts.now path.now (Bound weights.now) }
{
    match best.sub(problem.constant()) {
        Ok(form) => passes(path.shows_none_better(alloc, problem, cuts, weights, form)),
        Err(_) => false,
    }
}

// The weights are to show that the node has no point.
fn proposed_weights(
    alloc: Global,
    problem: &Instance,
    cuts: &DerivedRows,
    splits: &SplitsTaken,
    path: &Path,
    best: &Option<Frac>,
    weights: &Weights,
) -> Result<Option<Treatment>, AllocError>
    requires { path.now ≡ sides_of splits.now }
    ensures { IfOk result (λ o. IfSome o (λ t. (limit : ℕ) → IsTreatment problem.now cuts.now limit (sides_of splits.now) best.now t)) }
{
    let named = path.named(alloc, problem, weights)?;
    if passes(path.shows_no_point(alloc, problem, cuts, &named)) {
        Ok(Some(Treatment::Refuted(named)))
    } else {
        Ok(None)
    }
}

// The ray is to improve the problem, from a point of the node's relaxation.
fn proposed_ray(
    problem: &Instance,
    cuts: &DerivedRows,
    splits: &SplitsTaken,
    found: ProposedRay,
) -> Option<Treatment>
    ensures { (best : Option Rational) → IfSome result (λ t. (limit : ℕ) → IsTreatment problem.now cuts.now limit (sides_of splits.now) best t) }
{
    if passes(is_improving_ray(problem, &found.ray))
        && passes(is_node_point(problem, cuts, splits, &found.point))
    {
        Some(Treatment::Unbounded(Endless {
            point: found.point,
            ray: found.ray,
        }))
    } else {
        None
    }
}

// A test that is passed, with no operation that does not fit.
fn passes(answer: Result<bool, NoFit>) -> bool
    ensures { result ≡ true → answer ≡ Ok true }
{
    match answer {
        Ok(passed) => passed,
        Err(_) => false,
    }
}

// The point is to be an optimal one of the node's relaxation.
fn proposed_optimum(
    alloc: Global,
    problem: &Instance,
    cuts: &DerivedRows,
    splits: &SplitsTaken,
    path: &Path,
    best: &Option<Frac>,
    found: ProposedOptimum,
) -> Result<Option<Treatment>, AllocError>
    requires columns { IsOverColumns problem.now cuts.now (sides_of splits.now) }
    requires path { path.now ≡ sides_of splits.now }
    ensures { IfOk result (λ o. IfSome o (λ t. (limit : ℕ) → IsTreatment problem.now cuts.now limit (sides_of splits.now) best.now t)) }
{
    if passes(is_node_point(problem, cuts, splits, &found.point)) {
        proposed_point(alloc, problem, cuts, splits, path, best, found)
    } else {
        Ok(None)
    }
}

// The point is one of the node's relaxation.
fn proposed_point(
    alloc: Global,
    problem: &Instance,
    cuts: &DerivedRows,
    splits: &SplitsTaken,
    path: &Path,
    best: &Option<Frac>,
    found: ProposedOptimum,
) -> Result<Option<Treatment>, AllocError>
    requires columns { IsOverColumns problem.now cuts.now (sides_of splits.now) }
    requires path { path.now ≡ sides_of splits.now }
    requires point { IsNodePoint problem.now cuts.now (sides_of splits.now) found.point }
    ensures { IfOk result (λ o. IfSome o (λ t. (limit : ℕ) → IsTreatment problem.now cuts.now limit (sides_of splits.now) best.now t)) }
{
    match test_optimum(alloc, problem, cuts, path, best, found, false)? {
        Verdict::Passed(treatment) => Ok(Some(treatment)),
        Verdict::NotTold => Ok(None),
        Verdict::Failed => Ok(None),
        Verdict::NoFit(_) => Ok(None),
    }
}

// What the simplex method finds, tested. None of its tests fails.
fn relaxed(
    alloc: Global,
    problem: &Instance,
    cuts: &DerivedRows,
    node: &Node,
    path: &Path,
    best: &Option<Frac>,
    pivot_limit: u32,
) -> Result<Treatment, AllocError>
    requires columns { IsOverColumns problem.now cuts.now (sides_of node.now.splits) }
    requires path { path.now ≡ sides_of node.now.splits }
    ensures { IfOk result (IsTreatment problem.now cuts.now pivot_limit (sides_of node.now.splits) best.now) }
{
    match relax(alloc, problem, node, cuts, pivot_limit) {
        Ok(Relaxed::Infeasible(weights)) => infeasible(
            alloc,
            problem,
            cuts,
            node,
            path,
            best,
            pivot_limit,
            &weights,
        ),
        Ok(Relaxed::Optimal(found)) => optimal(
            alloc,
            problem,
            cuts,
            node,
            path,
            best,
            pivot_limit,
            found,
        ),
        Ok(Relaxed::Unbounded(endless)) => Ok(Treatment::Unbounded(endless)),
        Err(Stuck::NoFit(site)) => Ok(Treatment::NotFitting(fault_at(site))),
        Err(Stuck::PivotLimit(bases)) => Ok(Treatment::AtLimit(bases)),
        Err(Stuck::NoMemory) => Err(AllocError),
    }
}

fn fault_at(site: Site) -> NoFit
    ensures { result ≡ site.fault }
{
    site.fault
}

// The relaxation has no point.
fn infeasible(
    alloc: Global,
    problem: &Instance,
    cuts: &DerivedRows,
    node: &Node,
    path: &Path,
    best: &Option<Frac>,
    pivot_limit: u32,
    weights: &Weights,
) -> Result<Treatment, AllocError>
    requires columns { IsOverColumns problem.now cuts.now (sides_of node.now.splits) }
    requires path { path.now ≡ sides_of node.now.splits }
    requires infeasible { IsInfeasibleRelaxation problem.now cuts.now (sides_of node.now.splits) weights.now }
    ensures { IfOk result (IsTreatment problem.now cuts.now pivot_limit (sides_of node.now.splits) best.now) }
{
    let named = path.named(alloc, problem, weights)?;
    named_leaves();
    match path.shows_no_point(alloc, problem, cuts, &named) {
        Ok(true) => Ok(Treatment::Refuted(named)),
        Ok(false) => unreachable!(),
        Err(fault) => Ok(Treatment::NotFitting(fault)),
    }
}

// The relaxation has an optimal point.
fn optimal(
    alloc: Global,
    problem: &Instance,
    cuts: &DerivedRows,
    node: &Node,
    path: &Path,
    best: &Option<Frac>,
    pivot_limit: u32,
    found: Best,
) -> Result<Treatment, AllocError>
    requires columns { IsOverColumns problem.now cuts.now (sides_of node.now.splits) }
    requires path { path.now ≡ sides_of node.now.splits }
    requires optimal { IsOptimalRelaxation problem.now cuts.now (sides_of node.now.splits) found.point found.weights found.dictionary.places (dictionary_of found.dictionary) }
    ensures { IfOk result (IsTreatment problem.now cuts.now pivot_limit (sides_of node.now.splits) best.now) }
{
    let basis = basis_of(alloc, &found.dictionary)?;
    let optimum = ProposedOptimum {
        point: found.point,
        weights: found.weights,
        basis,
        column: None,
        told: None,
    };
    optimal_points();
    named_leaves();
    match test_optimum(alloc, problem, cuts, path, best, optimum, true)? {
        Verdict::Passed(treatment) => Ok(treatment),
        Verdict::Failed => unreachable!(),
        Verdict::NotTold => unreachable!(),
        Verdict::NoFit(fault) => Ok(Treatment::NotFitting(fault)),
    }
}

// The basis of a dictionary.
fn basis_of(alloc: Global, dictionary: &Dictionary) -> Result<Basis, AllocError>
    ensures { IfOk result (λ b. b ≡ dictionary.now.places) }
{
    Ok(Basis::from_vec(dictionary.places().to_vec(alloc)?))
}
