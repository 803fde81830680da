// Certificates of problems with columns for forms, as certificates of the problems without them.
ghost use Rattle.std.specs.Prelude.{◌≡◌, ◌+◌, length, IfOk};
ghost use Rattle.verdicts.specs.Certificate.{Optimal, Infeasible, Unbounded};
ghost use Rattle.row_columns.specs.Restored.{restored, IsBySplitsOfColumns};

use crate::forms::Forms;
use crate::nodes::restored_tree;
use crate::points::point_behind;
use certificate::{Certificate, DerivedRows, Verdict, Version};
use instance::Instance;
use std::alloc::{AllocError, Global};

/// The certificate of a problem with columns for these forms, before its own, as one of the problem without them.
pub fn restore(
    alloc: Global,
    problem: &Instance,
    forms: &Forms,
    certificate: &Certificate,
) -> Result<Certificate, AllocError>
    requires splits { IsBySplitsOfColumns certificate.now }
    requires size { certificate.now.columns ≡ length forms.now + length problem.now.columns }
    ensures { IfOk result (λ made. made ≡ restored problem.now forms.now certificate.now) }
{
    match certificate.verdict() {
        Verdict::Optimal => restored_optimal(alloc, problem, forms, certificate),
        Verdict::Infeasible => restored_infeasible(alloc, problem, forms, certificate),
        Verdict::Unbounded => restored_unbounded(alloc, problem, forms, certificate),
    }
}

fn restored_optimal(
    alloc: Global,
    problem: &Instance,
    forms: &Forms,
    certificate: &Certificate,
) -> Result<Certificate, AllocError>
    requires splits { IsBySplitsOfColumns certificate.now }
    requires size { certificate.now.columns ≡ length forms.now + length problem.now.columns }
    requires verdict { certificate.now.verdict ≡ Optimal }
    ensures { IfOk result (λ made. made ≡ restored problem.now forms.now certificate.now) }
{
    let _rows = certificate.rows();
    let value = certificate.optimal_value();
    let point = point_behind(alloc, forms, certificate.shown_point())?;
    let tree = restored_tree(alloc, problem, forms, certificate.tree())?;
    let rows = row_count(problem);
    let columns = column_count(problem);
    let derived = DerivedRows::new(alloc);
    Ok(Certificate::optimal(Version::Two, rows, columns, value, point, derived, tree))
}

fn restored_infeasible(
    alloc: Global,
    problem: &Instance,
    forms: &Forms,
    certificate: &Certificate,
) -> Result<Certificate, AllocError>
    requires splits { IsBySplitsOfColumns certificate.now }
    requires verdict { certificate.now.verdict ≡ Infeasible }
    ensures { IfOk result (λ made. made ≡ restored problem.now forms.now certificate.now) }
{
    let _rows = certificate.rows();
    let tree = restored_tree(alloc, problem, forms, certificate.tree())?;
    let rows = row_count(problem);
    let columns = column_count(problem);
    let derived = DerivedRows::new(alloc);
    Ok(Certificate::infeasible(Version::Two, rows, columns, derived, tree))
}

fn restored_unbounded(
    alloc: Global,
    problem: &Instance,
    forms: &Forms,
    certificate: &Certificate,
) -> Result<Certificate, AllocError>
    requires size { certificate.now.columns ≡ length forms.now + length problem.now.columns }
    requires verdict { certificate.now.verdict ≡ Unbounded }
    ensures { IfOk result (λ made. made ≡ restored problem.now forms.now certificate.now) }
{
    let _rows = certificate.rows();
    let point = point_behind(alloc, forms, certificate.shown_point())?;
    let ray = point_behind(alloc, forms, certificate.improving_ray())?;
    let rows = row_count(problem);
    let columns = column_count(problem);
    Ok(Certificate::unbounded(alloc, Version::Two, rows, columns, point, ray))
}

pub(crate) fn row_count(problem: &Instance) -> u32
    ensures { result ≡ length problem.now.rows }
{
    problem.keeps_its_limits();
    problem.rows().len() as u32
}

pub(crate) fn column_count(problem: &Instance) -> u32
    ensures { result ≡ length problem.now.columns }
{
    problem.keeps_its_limits();
    problem.columns().len() as u32
}
