// The verdict of an auxiliary problem.
ghost use Rattle.std.specs.Prelude.{ℕ, ◌≡◌, ◌<◌, List, length, IfOk, IfErr};
ghost use Rattle.rational.specs.Rational.{Rational};
ghost use Rattle.milp.specs.Problem.{Problem};
ghost use Rattle.milp.specs.Points.{Feasible};
ghost use Rattle.verdicts.specs.Certificate.{Weights};
ghost use Rattle.verdicts.specs.Proves.{Proves};
ghost use Rattle.branch_search.specs.Plain.{NoneInteger, IsPlainCertificate};
ghost use Rattle.branch_search.specs.WholeFaults as search;
ghost use Rattle.exact_ranges.specs.Ends.{IsBestOrNone};
ghost use Rattle.exact_ranges.specs.Sought.{wanted_by, IsAuxiliary};
ghost use Rattle.exact_ranges.specs.Parts.{AreForms, problem_of};
ghost use Rattle.exact_ranges.specs.Faults.{IsFault, IsNotByPivots};

use crate::best::best_point;
use crate::forms::number;
use crate::parts::problem_of;
use crate::sought::wanted_by;
use crate::{RangeFault, Sought};
use branch_search::{VerdictFault, solve_by};
use candidate::Proposer;
use certificate::{Certificate, Verdict};
use fraction::Frac;
use instance::{BuildFault, Column, Instance, Row};
use std::alloc::Global;

/// The number of a column at a best point of the auxiliary problem of these columns and rows, which has a point; none
/// where a ray improves it without end.
pub(crate) fn best_number(
    alloc: Global,
    columns: &[Column],
    rows: &[Row],
    column: u32,
    sought: &Sought,
    pivot_limit: u32,
    proposer: &mut Proposer,
) -> Result<Option<Frac>, RangeFault>
    requires forms { AreForms (length columns.now) rows.now }
    requires column { column < length columns.now }
    requires continuous { NoneInteger (problem_of columns.now rows.now (wanted_by sought.now) column).columns }
    requires some { (z : List Rational) × Feasible (problem_of columns.now rows.now (wanted_by sought.now) column) z }
    ensures best { IfOk result (IsBestOrNone (problem_of columns.now rows.now (wanted_by sought.now) column) column) }
    ensures fault { IfErr result (λ fault. (p : Problem) (x : List Rational) (w : Weights)
        → IsAuxiliary p x w sought.now (problem_of columns.now rows.now (wanted_by sought.now) column) → IsFault p x w pivot_limit fault) }
    ensures unlimited { pivot_limit ≡ 0 → IfErr result IsNotByPivots }
{
    let auxiliary = auxiliary(alloc, columns, rows, column, sought, pivot_limit)?;
    match solved(alloc, &auxiliary, column, pivot_limit, proposer) {
        Ok(number) => Ok(number),
        Err(fault) => Err(RangeFault::Search(*sought, fault)),
    }
}

// The limit of steps has no part in its faults, and stands in what is said of them.
fn auxiliary(
    alloc: Global,
    columns: &[Column],
    rows: &[Row],
    column: u32,
    sought: &Sought,
    _pivot_limit: u32,
) -> Result<Instance, RangeFault>
    requires forms { AreForms (length columns.now) rows.now }
    requires column { column < length columns.now }
    ensures made { IfOk result (λ made. made ≡ problem_of columns.now rows.now (wanted_by sought.now) column) }
    ensures fault { IfErr result (λ fault. (p : Problem) (x : List Rational) (w : Weights)
        → IsAuxiliary p x w sought.now (problem_of columns.now rows.now (wanted_by sought.now) column) → IsFault p x w _pivot_limit fault) }
    ensures unlimited { IfErr result IsNotByPivots }
{
    match problem_of(alloc, columns, rows, wanted_by(sought), column) {
        Ok(made) => Ok(made),
        Err(BuildFault::TooMany) => Err(RangeFault::TooLarge(*sought)),
        Err(BuildFault::NoMemory) => Err(RangeFault::NoMemory),
    }
}

fn solved(
    alloc: Global,
    auxiliary: &Instance,
    column: u32,
    pivot_limit: u32,
    proposer: &mut Proposer,
) -> Result<Option<Frac>, VerdictFault>
    requires continuous { NoneInteger auxiliary.now.columns }
    requires some { (z : List Rational) × Feasible auxiliary.now z }
    ensures best { IfOk result (IsBestOrNone auxiliary.now column) }
    ensures fault { IfErr result (search.IsFault auxiliary.now 0 pivot_limit) }
    ensures unlimited { pivot_limit ≡ 0 → IfErr result search.IsNotByPivots }
{
    let certificate = solve_by(alloc, auxiliary, 0, 0, pivot_limit, proposer)?;
    Ok(told(auxiliary, &certificate, column))
}

// What the certificate tells of the column.
fn told(auxiliary: &Instance, certificate: &Certificate, column: u32) -> Option<Frac>
    requires proves { Proves auxiliary.now certificate.now }
    requires plain { IsPlainCertificate auxiliary.now certificate.now }
    requires some { (z : List Rational) × Feasible auxiliary.now z }
    ensures { IsBestOrNone auxiliary.now column result }
{
    match certificate.verdict() {
        Verdict::Optimal => Some(number(best_point(certificate), column)),
        Verdict::Infeasible => unreachable!(),
        Verdict::Unbounded => None,
    }
}
