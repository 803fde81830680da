// Certificates of version 1 as certificates of version 2.
ghost use Rattle.std.specs.Prelude.{◌≡◌, IfOk};
ghost use Rattle.milp.specs.Problem.{Problem};
ghost use Rattle.verdicts.specs.Certificate.{One, Optimal, Infeasible, Unbounded};
ghost use Rattle.verdicts.specs.Proves.{Proves};
ghost use Rattle.verdicts.specs.Migrated.{migrated};

use crate::nodes::migrated_tree;
use certificate::{Certificate, Verdict, Version};
use instance::Instance;
use std::alloc::{AllocError, Global};

/// The same certificate in version 2: each branch is the split of its column, and each weight of a column at a leaf whose
/// bound a branch gives is a weight of that split; a bound as good that the column has itself, or that a split nearer the
/// root gives, is preferred. Its numbers are those given, and negatives of weights. Where more splits stand on the way to a
/// leaf than a text can count, 2^32 - 1, memory counts as wanting.
pub fn migrate(
    alloc: Global,
    problem: &Instance,
    certificate: &Certificate,
) -> Result<Certificate, AllocError>
    requires version { certificate.now.version ≡ One }
    requires proves { Proves problem.now certificate.now }
    ensures exact { IfOk result (λ d. d ≡ migrated problem.now certificate.now) }
    ensures proves { IfOk result (λ d. Proves problem.now d) }
{
    verdicts::migrations_prove();
    migrated(alloc, problem, certificate)
}

fn migrated(
    alloc: Global,
    problem: &Instance,
    certificate: &Certificate,
) -> Result<Certificate, AllocError>
    requires { certificate.now.version ≡ One }
    ensures { IfOk result (λ d. d ≡ migrated problem.now certificate.now) }
{
    match certificate.verdict() {
        Verdict::Optimal => migrated_optimal(alloc, problem, certificate),
        Verdict::Infeasible => migrated_infeasible(alloc, problem, certificate),
        Verdict::Unbounded => migrated_unbounded(alloc, certificate),
    }
}

fn migrated_optimal(
    alloc: Global,
    problem: &Instance,
    certificate: &Certificate,
) -> Result<Certificate, AllocError>
    requires version { certificate.now.version ≡ One }
    requires verdict { certificate.now.verdict ≡ Optimal }
    ensures { IfOk result (λ d. d ≡ migrated problem.now certificate.now) }
{
    let rows = certificate.rows();
    let value = certificate.optimal_value();
    let point = certificate.shown_point().copy(alloc)?;
    let derived = certificate.derived().copy(alloc)?;
    let tree = migrated_tree(alloc, problem, certificate.tree())?;
    let columns = certificate.columns();
    Ok(Certificate::optimal(Version::Two, rows, columns, value, point, derived, tree))
}

fn migrated_infeasible(
    alloc: Global,
    problem: &Instance,
    certificate: &Certificate,
) -> Result<Certificate, AllocError>
    requires version { certificate.now.version ≡ One }
    requires verdict { certificate.now.verdict ≡ Infeasible }
    ensures { IfOk result (λ d. d ≡ migrated problem.now certificate.now) }
{
    let rows = certificate.rows();
    let derived = certificate.derived().copy(alloc)?;
    let tree = migrated_tree(alloc, problem, certificate.tree())?;
    let columns = certificate.columns();
    Ok(Certificate::infeasible(Version::Two, rows, columns, derived, tree))
}

fn migrated_unbounded(alloc: Global, certificate: &Certificate) -> Result<Certificate, AllocError>
    requires { certificate.now.verdict ≡ Unbounded }
    ensures { (problem : Problem) → IfOk result (λ d. d ≡ migrated problem certificate.now) }
{
    let rows = certificate.rows();
    let point = certificate.shown_point().copy(alloc)?;
    let ray = certificate.improving_ray().copy(alloc)?;
    let columns = certificate.columns();
    Ok(Certificate::unbounded(alloc, Version::Two, rows, columns, point, ray))
}
