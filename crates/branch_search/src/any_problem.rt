// The verdict of a problem.
ghost use Rattle.std.specs.Prelude.{◌≡◌, IfOk, IfErr};
ghost use Rattle.verdicts.specs.Certificate.{Two};
ghost use Rattle.verdicts.specs.Proves.{Proves};
ghost use Rattle.cert_check.specs.Outcome.{Acceptance, outcome, trials};
ghost use Rattle.branch_search.specs.Columns.{IsBySplitsOfColumns};
ghost use Rattle.branch_search.specs.Plain.{NoneInteger, IsPlainCertificate};
ghost use Rattle.branch_search.specs.WholeFaults.{IsFault, IsNotByPivots};

use crate::endless::beyond;
use crate::search_by;
use crate::told::ray_or_fault;
use crate::whole_fault::{VerdictFault, Wanted};
use candidate::Proposer;
use certificate::Certificate;
use instance::Instance;
use std::alloc::Global;

/// The verdict of a problem, with its certificate of version 2, which proves it and which the checker accepts; it has no derived
/// rows, and its splits are of columns. Each search makes at most `split_limit` splits, and at each node the simplex method, where
/// nothing else decides, takes at most `pivot_limit` steps. Of the columns that may be split, those before `first_columns` come
/// first, in their order.
///
/// Where no column is integer, the search is of one node, and the certificate has one leaf at most.
///
/// Where a ray improves the problem from a feasible point, it is unbounded. Where the ray comes from another point, a second
/// search looks for any feasible point: with one the problem is unbounded, and without it infeasible.
///
/// A fault tells of which search it is, and there an operation that does not fit, one in the test of the ray at the node
/// where it was found included, a run that is too long, with the board on which the search stops, or the board on which all splits
/// are made.
pub fn solve(
    alloc: Global,
    problem: &Instance,
    first_columns: usize,
    split_limit: usize,
    pivot_limit: u32,
) -> Result<Certificate, VerdictFault>
    ensures proves { IfOk result (λ c. Proves problem.now c) }
    ensures accepted { IfOk result (λ c. outcome (trials problem.now c) ≡ Acceptance) }
    ensures version { IfOk result (λ c. c.version ≡ Two) }
    ensures splits { IfOk result IsBySplitsOfColumns }
    ensures plain { NoneInteger problem.now.columns → IfOk result (λ c. IsPlainCertificate problem.now c) }
    ensures fault { IfErr result (IsFault problem.now split_limit pivot_limit) }
    ensures unlimited { pivot_limit ≡ 0 → IfErr result IsNotByPivots }
{
    let mut proposer = Proposer::new(alloc, pivot_limit, first_columns);
    let done = solve_by(
        alloc,
        problem,
        first_columns,
        split_limit,
        pivot_limit,
        &mut proposer,
    );
    std::mem::drop(proposer);
    done
}

/// The same, with what proposes at the nodes of the first search: it takes up this problem, behind others.
pub fn solve_by(
    alloc: Global,
    problem: &Instance,
    first_columns: usize,
    split_limit: usize,
    pivot_limit: u32,
    proposer: &mut Proposer,
) -> Result<Certificate, VerdictFault>
    ensures proves { IfOk result (λ c. Proves problem.now c) }
    ensures accepted { IfOk result (λ c. outcome (trials problem.now c) ≡ Acceptance) }
    ensures version { IfOk result (λ c. c.version ≡ Two) }
    ensures splits { IfOk result IsBySplitsOfColumns }
    ensures plain { NoneInteger problem.now.columns → IfOk result (λ c. IsPlainCertificate problem.now c) }
    ensures fault { IfErr result (IsFault problem.now split_limit pivot_limit) }
    ensures unlimited { pivot_limit ≡ 0 → IfErr result IsNotByPivots }
{
    match search_by(alloc, problem, split_limit, pivot_limit, proposer) {
        Ok(certificate) => Ok(certificate),
        Err(fault) => match ray_or_fault(Wanted::Best, fault) {
            Ok(ray) => beyond(alloc, problem, ray, first_columns, split_limit, pivot_limit),
            Err(fault) => Err(fault),
        },
    }
}
