// The ranges of costs and bounds.
ghost use Rattle.std.specs.Prelude.{◌≡◌, length, IfOk, IfErr};
ghost use Rattle.verdicts.specs.Certificate.{Optimal as is_optimal};
ghost use Rattle.cert_check.specs.Outcome.{Acceptance, outcome, trials};
ghost use Rattle.branch_search.specs.Plain.{NoneInteger, IsPlainCertificate};
ghost use Rattle.exact_ranges.specs.ShownBest.{best_point, best_weights, IsShownBest};
ghost use Rattle.exact_ranges.specs.Ranges.{AreCostRanges, AreBoundRanges};
ghost use Rattle.exact_ranges.specs.Faults.{IsFault, IsNotByPivots};

use crate::bounds::bound_ranges;
use crate::costs::cost_ranges;
use crate::{Range, RangeFault, Ranges, RowRanges};
use candidate::Proposer;
use certificate::Certificate;
use instance::Instance;
use std::alloc::Global;

/// The exact ranges of a problem without integer columns, at the best point of a certificate that the checker accepts.
///
/// Of each column's cost: the numbers with which, in its place, the point stays best. Of each bound of a row: the numbers
/// with which, in its place, the value goes on as the weights of the certificate promise. A range has no end on a side
/// where all numbers there are in it.
///
/// Each end is searched for as the least or greatest number of an auxiliary problem. A fault tells of which end it is,
/// and of the search of its auxiliary problem, in which Bland's run takes at most `pivot_limit` steps, without a limit at
/// 0; or that this problem is too large; or a sum of the weights that use a bound, or of a bound and its distance, that
/// does not fit.
pub fn ranges(
    alloc: Global,
    problem: &Instance,
    certificate: &Certificate,
    pivot_limit: u32,
) -> Result<Ranges, RangeFault>
    requires continuous { NoneInteger problem.now.columns }
    requires optimal { certificate.now.verdict ≡ is_optimal }
    requires plain { IsPlainCertificate problem.now certificate.now }
    requires accepted { outcome (trials problem.now certificate.now) ≡ Acceptance }
    ensures each_cost { IfOk result (λ ranges. length ranges.costs ≡ length problem.now.columns) }
    ensures costs { IfOk result (λ ranges. AreCostRanges problem.now (best_point certificate.now) ranges.costs) }
    ensures each_row { IfOk result (λ ranges. length ranges.rows ≡ length problem.now.rows) }
    ensures bounds { IfOk result (λ ranges. AreBoundRanges problem.now (best_point certificate.now) (best_weights certificate.now) ranges.rows) }
    ensures fault { IfErr result (IsFault problem.now (best_point certificate.now) (best_weights certificate.now) pivot_limit) }
    ensures unlimited { pivot_limit ≡ 0 → IfErr result IsNotByPivots }
{
    found(alloc, problem, certificate, pivot_limit)
}

fn found(
    alloc: Global,
    problem: &Instance,
    certificate: &Certificate,
    pivot_limit: u32,
) -> Result<Ranges, RangeFault>
    requires continuous { NoneInteger problem.now.columns }
    requires best { IsShownBest problem.now (best_point certificate.now) (best_weights certificate.now) }
    ensures each_cost { IfOk result (λ ranges. length ranges.costs ≡ length problem.now.columns) }
    ensures costs { IfOk result (λ ranges. AreCostRanges problem.now (best_point certificate.now) ranges.costs) }
    ensures each_row { IfOk result (λ ranges. length ranges.rows ≡ length problem.now.rows) }
    ensures bounds { IfOk result (λ ranges. AreBoundRanges problem.now (best_point certificate.now) (best_weights certificate.now) ranges.rows) }
    ensures fault { IfErr result (IsFault problem.now (best_point certificate.now) (best_weights certificate.now) pivot_limit) }
    ensures unlimited { pivot_limit ≡ 0 → IfErr result IsNotByPivots }
{
    let costs = all_costs(alloc, problem, certificate, pivot_limit)?;
    let rows = all_bounds(alloc, problem, certificate, pivot_limit)?;
    Ok(Ranges::new(costs, rows))
}

// Each search begins where the one before it ended.
fn all_costs(
    alloc: Global,
    problem: &Instance,
    certificate: &Certificate,
    pivot_limit: u32,
) -> Result<Vec<Range>, RangeFault>
    requires continuous { NoneInteger problem.now.columns }
    requires best { IsShownBest problem.now (best_point certificate.now) (best_weights certificate.now) }
    ensures count { IfOk result (λ ranges. length ranges.items ≡ length problem.now.columns) }
    ensures ranges { IfOk result (λ ranges. AreCostRanges problem.now (best_point certificate.now) ranges.items) }
    ensures fault { IfErr result (IsFault problem.now (best_point certificate.now) (best_weights certificate.now) pivot_limit) }
    ensures unlimited { pivot_limit ≡ 0 → IfErr result IsNotByPivots }
{
    let mut proposer = Proposer::new(alloc, pivot_limit, 0);
    let done = cost_ranges(alloc, problem, certificate, pivot_limit, &mut proposer);
    std::mem::drop(proposer);
    done
}

fn all_bounds(
    alloc: Global,
    problem: &Instance,
    certificate: &Certificate,
    pivot_limit: u32,
) -> Result<Vec<RowRanges>, RangeFault>
    requires continuous { NoneInteger problem.now.columns }
    requires best { IsShownBest problem.now (best_point certificate.now) (best_weights certificate.now) }
    ensures count { IfOk result (λ ranges. length ranges.items ≡ length problem.now.rows) }
    ensures ranges { IfOk result (λ ranges. AreBoundRanges problem.now (best_point certificate.now) (best_weights certificate.now) ranges.items) }
    ensures fault { IfErr result (IsFault problem.now (best_point certificate.now) (best_weights certificate.now) pivot_limit) }
    ensures unlimited { pivot_limit ≡ 0 → IfErr result IsNotByPivots }
{
    let mut proposer = Proposer::new(alloc, pivot_limit, 0);
    let done = bound_ranges(alloc, problem, certificate, pivot_limit, &mut proposer);
    std::mem::drop(proposer);
    done
}
