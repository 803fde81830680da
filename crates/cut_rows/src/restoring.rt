// Certificates of problems with cuts as rows, as certificates of the problems without them.
ghost use Rattle.std.specs.Prelude.{◌≡◌, [], length, IfOk};
ghost use Rattle.verdicts.specs.Certificate.{Optimal, Infeasible, Unbounded};
ghost use Rattle.cut_rows.specs.Restored.{restored};

use crate::nodes::restored_tree;
use certificate::{Certificate, DerivedRows, Verdict, Version};
use instance::Instance;
use std::alloc::{AllocError, Global};

/// The certificate of a problem with these cuts as rows, behind its own, as one of the problem itself: each cut is a derived
/// row, and a weight of its row is one of the derived row.
pub fn restore(
    alloc: Global,
    problem: &Instance,
    cuts: &DerivedRows,
    certificate: &Certificate,
) -> Result<Certificate, AllocError>
    ensures { IfOk result (λ made. made ≡ restored problem.now cuts.now certificate.now) }
{
    match certificate.verdict() {
        Verdict::Optimal => restored_optimal(alloc, problem, cuts, certificate),
        Verdict::Infeasible => restored_infeasible(alloc, problem, cuts, certificate),
        Verdict::Unbounded => restored_unbounded(alloc, problem, certificate),
    }
}

fn restored_optimal(
    alloc: Global,
    problem: &Instance,
    cuts: &DerivedRows,
    certificate: &Certificate,
) -> Result<Certificate, AllocError>
    requires { certificate.now.verdict ≡ Optimal }
    ensures { IfOk result (λ made. made ≡ restored problem.now cuts.now certificate.now) }
{
    let _rows = certificate.rows();
    let value = certificate.optimal_value();
    let point = certificate.shown_point().copy(alloc)?;
    let derived = cuts.copy(alloc)?;
    let tree = restored_tree(alloc, problem, certificate.tree())?;
    let rows = row_count(problem);
    let columns = certificate.columns();
    Ok(Certificate::optimal(Version::Two, rows, columns, value, point, derived, tree))
}

fn restored_infeasible(
    alloc: Global,
    problem: &Instance,
    cuts: &DerivedRows,
    certificate: &Certificate,
) -> Result<Certificate, AllocError>
    requires { certificate.now.verdict ≡ Infeasible }
    ensures { IfOk result (λ made. made ≡ restored problem.now cuts.now certificate.now) }
{
    let _rows = certificate.rows();
    let derived = cuts.copy(alloc)?;
    let tree = restored_tree(alloc, problem, certificate.tree())?;
    let rows = row_count(problem);
    let columns = certificate.columns();
    Ok(Certificate::infeasible(Version::Two, rows, columns, derived, tree))
}

fn restored_unbounded(
    alloc: Global,
    problem: &Instance,
    certificate: &Certificate,
) -> Result<Certificate, AllocError>
    requires { certificate.now.verdict ≡ Unbounded }
    ensures { IfOk result (λ made. made ≡ restored problem.now [] certificate.now) }
{
    let _rows = certificate.rows();
    let point = certificate.shown_point().copy(alloc)?;
    let ray = certificate.improving_ray().copy(alloc)?;
    let rows = row_count(problem);
    let columns = certificate.columns();
    Ok(Certificate::unbounded(alloc, Version::Two, rows, columns, point, ray))
}

pub(crate) fn row_count(problem: &Instance) -> u32
    ensures { result ≡ length problem.now.rows }
{
    problem.keeps_its_limits();
    problem.rows().len() as u32
}
