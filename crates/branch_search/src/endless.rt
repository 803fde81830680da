// Problems that a ray improves: unbounded with a feasible point, and infeasible without one.
ghost use Rattle.std.specs.Prelude.{◌≡◌, [], length, IfOk, IfErr};
ghost use Rattle.verdicts.specs.Certificate.{Two};
ghost use Rattle.verdicts.specs.Proves.{Proves};
ghost use Rattle.basis.specs.Relaxation.{point_certificate};
ghost use Rattle.cert_check.specs.Outcome.{Acceptance, outcome, trials};
ghost use Rattle.branch_search.specs.Faults.{IsEndlessAt};
ghost use Rattle.branch_search.specs.Columns.{IsBySplitsOfColumns};
ghost use Rattle.branch_search.specs.Plain.{NoneInteger, IsPlainCertificate};
ghost use Rattle.branch_search.specs.Points.{IsTestedPoint, HasPoint};
ghost use Rattle.branch_search.specs.WholeFaults.{without_objective, IsFault, IsAfterSearch};

use crate::told::ray_or_fault;
use crate::whole_fault::{VerdictFault, Wanted};
use crate::{EndlessAt, search};
use cert_check::{CheckFault, Checked, check};
use certificate::{Certificate, Verdict, Version};
use instance::{Instance, Point, meets};
use search_node::Site;
use std::alloc::Global;

/// The verdict of a problem that a ray improves, with its certificate: at once where the ray's own point is feasible, and else by a
/// search for any feasible point. The ray is one that a search of the problem has found, within these limits.
pub fn beyond(
    alloc: Global,
    problem: &Instance,
    ray: EndlessAt,
    first_columns: usize,
    split_limit: usize,
    pivot_limit: u32,
) -> Result<Certificate, VerdictFault>
    requires { IsEndlessAt problem.now [] split_limit ray }
    ensures proves { IfOk result (λ c. Proves problem.now c) }
    ensures accepted { IfOk result (λ c. outcome (trials problem.now c) ≡ Acceptance) }
    ensures version { IfOk result (λ c. c.version ≡ Two) }
    ensures splits { IfOk result IsBySplitsOfColumns }
    ensures plain { NoneInteger problem.now.columns → IfOk result (λ c. IsPlainCertificate problem.now c) }
    ensures fault { IfErr result (IsFault problem.now split_limit pivot_limit) }
{
    match meets(problem, &ray.endless.point) {
        Ok(true) => at_once(alloc, problem, ray, split_limit),
        Ok(false) => searched(alloc, problem, ray, first_columns, split_limit, pivot_limit),
        Err(_) => searched(alloc, problem, ray, first_columns, split_limit, pivot_limit),
    }
}

// The ray with its own point.
fn at_once(
    alloc: Global,
    problem: &Instance,
    ray: EndlessAt,
    split_limit: usize,
) -> Result<Certificate, VerdictFault>
    requires point { IsTestedPoint problem.now ray.endless.point }
    requires ray { IsEndlessAt problem.now [] split_limit ray }
    ensures proves { IfOk result (λ c. Proves problem.now c) }
    ensures accepted { IfOk result (λ c. outcome (trials problem.now c) ≡ Acceptance) }
    ensures version { IfOk result (λ c. c.version ≡ Two) }
    ensures splits { IfOk result IsBySplitsOfColumns }
    ensures plain { NoneInteger problem.now.columns → IfOk result (λ c. IsPlainCertificate problem.now c) }
    ensures fault { IfErr result (IsAfterSearch problem.now split_limit) }
{
    let point = ray.endless.point.copy(alloc)?;
    checked(alloc, problem, point, ray, split_limit)
}

// The verdict by a search for any feasible point.
fn searched(
    alloc: Global,
    problem: &Instance,
    ray: EndlessAt,
    first_columns: usize,
    split_limit: usize,
    pivot_limit: u32,
) -> Result<Certificate, VerdictFault>
    requires { IsEndlessAt problem.now [] split_limit ray }
    ensures proves { IfOk result (λ c. Proves problem.now c) }
    ensures accepted { IfOk result (λ c. outcome (trials problem.now c) ≡ Acceptance) }
    ensures version { IfOk result (λ c. c.version ≡ Two) }
    ensures splits { IfOk result IsBySplitsOfColumns }
    ensures plain { NoneInteger problem.now.columns → IfOk result (λ c. IsPlainCertificate problem.now c) }
    ensures fault { IfErr result (IsFault problem.now split_limit pivot_limit) }
{
    let feasibility = problem.copy(alloc)?.without_objective(alloc);
    match search(alloc, &feasibility, first_columns, split_limit, pivot_limit) {
        Ok(certificate) => decided(alloc, problem, certificate, ray, split_limit),
        Err(fault) => match ray_or_fault(Wanted::Any, fault) {
            Ok(_) => unreachable!(),
            Err(fault) => Err(fault),
        },
    }
}

// The certificate of the problem, from that of the problem without its objective.
fn decided(
    alloc: Global,
    problem: &Instance,
    certificate: Certificate,
    ray: EndlessAt,
    split_limit: usize,
) -> Result<Certificate, VerdictFault>
    requires proves { Proves (without_objective problem.now) certificate }
    requires accepted { outcome (trials (without_objective problem.now) certificate) ≡ Acceptance }
    requires version { certificate.version ≡ Two }
    requires splits { IsBySplitsOfColumns certificate }
    requires plain { NoneInteger problem.now.columns → IsPlainCertificate (without_objective problem.now) certificate }
    requires ray { IsEndlessAt problem.now [] split_limit ray }
    ensures proves { IfOk result (λ c. Proves problem.now c) }
    ensures accepted { IfOk result (λ c. outcome (trials problem.now c) ≡ Acceptance) }
    ensures version { IfOk result (λ c. c.version ≡ Two) }
    ensures splits { IfOk result IsBySplitsOfColumns }
    ensures plain { NoneInteger problem.now.columns → IfOk result (λ c. IsPlainCertificate problem.now c) }
    ensures fault { IfErr result (IsAfterSearch problem.now split_limit) }
{
    match certificate.verdict() {
        Verdict::Optimal => improved(alloc, problem, &certificate, ray, split_limit),
        Verdict::Infeasible => Ok(certificate),
        Verdict::Unbounded => unreachable!(),
    }
}

// The point of a certificate, with the ray.
fn improved(
    alloc: Global,
    problem: &Instance,
    certificate: &Certificate,
    ray: EndlessAt,
    split_limit: usize,
) -> Result<Certificate, VerdictFault>
    requires point { HasPoint problem.now certificate.now }
    requires ray { IsEndlessAt problem.now [] split_limit ray }
    ensures proves { IfOk result (λ c. Proves problem.now c) }
    ensures accepted { IfOk result (λ c. outcome (trials problem.now c) ≡ Acceptance) }
    ensures version { IfOk result (λ c. c.version ≡ Two) }
    ensures splits { IfOk result IsBySplitsOfColumns }
    ensures plain { NoneInteger problem.now.columns → IfOk result (λ c. IsPlainCertificate problem.now c) }
    ensures fault { IfErr result (IsAfterSearch problem.now split_limit) }
{
    match certificate.point() {
        Some(point) => {
            let point = point.copy(alloc)?;
            checked(alloc, problem, point, ray, split_limit)
        }
        None => unreachable!(),
    }
}

// The certificate of a feasible point and a ray, where all operations in the test of the ray fit.
fn checked(
    alloc: Global,
    problem: &Instance,
    point: Point,
    ray: EndlessAt,
    split_limit: usize,
) -> Result<Certificate, VerdictFault>
    requires point { IsTestedPoint problem.now point }
    requires ray { IsEndlessAt problem.now [] split_limit ray }
    ensures proves { IfOk result (λ c. Proves problem.now c) }
    ensures accepted { IfOk result (λ c. outcome (trials problem.now c) ≡ Acceptance) }
    ensures version { IfOk result (λ c. c.version ≡ Two) }
    ensures splits { IfOk result IsBySplitsOfColumns }
    ensures plain { NoneInteger problem.now.columns → IfOk result (λ c. IsPlainCertificate problem.now c) }
    ensures fault { IfErr result (IsAfterSearch problem.now split_limit) }
{
    problem.keeps_its_limits();
    let EndlessAt { node, endless } = ray;
    let certificate = of_ray(alloc, problem, point, endless.ray);
    match check(alloc, problem, &certificate) {
        Ok(Checked::Accepted) => Ok(certificate),
        Ok(Checked::Refused(_)) => unreachable!(),
        Err(CheckFault { fault, .. }) => {
            Err(VerdictFault::NoFit(Wanted::Best, Site { node, fault }))
        }
    }
}

// A point and a ray. It takes no memory.
fn of_ray(alloc: Global, problem: &Instance, point: Point, ray: Point) -> Certificate
    requires point { length point ≡ length problem.now.columns }
    requires ray { length ray ≡ length problem.now.columns }
    ensures { result ≡ point_certificate problem.now point ray }
{
    problem.keeps_its_limits();
    let columns = problem.columns().len() as u32;
    let rows = problem.rows().len() as u32;
    Certificate::unbounded(alloc, Version::Two, rows, columns, point, ray)
}
