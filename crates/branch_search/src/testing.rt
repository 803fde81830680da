// Tests of a point of a node's relaxation and of its weights.
ghost use Rattle.std.specs.Prelude.{ℕ, ◌≡◌, ◌<◌, length, IfSome, IfOk, IfErr, true, false, Some, None, Ok, Err, MatchOption};
ghost use Rattle.rational.specs.Rational.{◌*ℚ◌};
ghost use Rattle.rational.specs.Compare.{is_less};
ghost use Rattle.milp.specs.Form.{sum_at};
ghost use Rattle.milp.specs.Points.{AreWhole, objective_value, sign_of};
ghost use Rattle.instance.specs.Sums.{value_answer};
ghost use Rattle.verdicts.specs.Certificate.{Bound};
ghost use Rattle.verdicts.specs.Migrated.{named};
ghost use Rattle.basis.specs.Node.{system_of, IsOverColumns, IsNodePoint};
ghost use Rattle.search_tree.specs.Nodes.{NodePasses, IsRelaxedOptimum, Beats};
ghost use Rattle.search_tree.specs.Pinned.{IsPinned};
ghost use Rattle.branch_search.specs.Treatment.{IsTreatment};
ghost use Rattle.branch_search.specs.Tests.{AllPinned, IsVerdict};
ghost use Rattle.branch_search.specs.Fractions.{IsFraction};

use crate::treatment::{Found, Fractional, Treatment};
use candidate::ProposedOptimum;
use certificate::{ColumnSplit, DerivedRows, LeafWeights, WholeNumber};
use fraction::{Frac, NoFit};
use instance::{Column, Instance, Point, meets, signed};
use milp::Direction;
use search_tree::{Path, bounded_leaves, form_value, optimal_points, shows_told};
use std::alloc::{AllocError, Global};

/// What comes of a test.
#[derive(Drop)]
pub(crate) enum Verdict {
    /// What becomes of the node.
    Passed(Treatment),
    /// The weights do not show that no point is better.
    Failed,
    /// What rests at the point may not tell the number of the column that is to be split.
    NotTold,
    /// An operation does not fit.
    NoFit(NoFit),
}

// The value of the objective's form, and that of the objective.
#[derive(Clone, Copy)]
struct Values {
    form: Frac,
    objective: Frac,
}

/// The test of a point of the node's relaxation and of its weights, which name the splits on the way for it, and what becomes
/// of the node where they pass: it has none better than the best, the point is a better one, or the node is to be split. A
/// node is split only where what rests at the point tells the column's number: so it is where the point is `basic`, that of a
/// basis, and else by a test of its own.
pub(crate) fn test_optimum(
    alloc: Global,
    problem: &Instance,
    cuts: &DerivedRows,
    path: &Path,
    best: &Option<Frac>,
    found: ProposedOptimum,
    basic: bool,
) -> Result<Verdict, AllocError>
    requires over { IsOverColumns problem.now cuts.now path.now }
    requires point { IsNodePoint problem.now cuts.now path.now found.point }
    requires basic { basic ≡ true → AllPinned problem.now cuts.now path.now found.point }
    ensures { IfOk result (IsVerdict problem.now cuts.now path.now best.now found.point found.weights basic) }
{
    let weights = path.named(alloc, problem, &found.weights)?;
    Ok(tested(alloc, problem, cuts, path, best, found, weights, basic))
}

// The test of the weights that name the splits.
fn tested(
    alloc: Global,
    problem: &Instance,
    cuts: &DerivedRows,
    path: &Path,
    best: &Option<Frac>,
    found: ProposedOptimum,
    weights: LeafWeights,
    basic: bool,
) -> Verdict
    requires over { IsOverColumns problem.now cuts.now path.now }
    requires point { IsNodePoint problem.now cuts.now path.now found.point }
    requires basic { basic ≡ true → AllPinned problem.now cuts.now path.now found.point }
    requires named { weights ≡ named problem.now path.now found.weights }
    ensures { IsVerdict problem.now cuts.now path.now best.now found.point found.weights basic result }
{
    let values = match values_at(problem, &found.point) {
        Ok(values) => values,
        Err(fault) => return Verdict::NoFit(fault),
    };
    optimal_points();
    path.is_of_columns();
    match path.shows_none_better(alloc, problem, cuts, &weights, values.form) {
        Err(fault) => Verdict::NoFit(fault),
        Ok(false) => Verdict::Failed,
        Ok(true) => optimal(
            problem,
            cuts,
            path,
            best,
            values.objective,
            found,
            weights,
            basic,
        ),
    }
}

// The values of the objective's form and of the objective at a point.
fn values_at(problem: &Instance, point: &Point) -> Result<Values, NoFit>
    ensures form { IfOk result (λ v. v.form ≡ sum_at point.now problem.now.objective) }
    ensures objective { IfOk result (λ v. v.objective ≡ objective_value problem.now point.now) }
    ensures sum { IfOk result (λ v. value_answer problem.now point.now ≡ Ok v.objective) }
    ensures fault { IfErr result (λ e. value_answer problem.now point.now ≡ Err e) }
{
    let form = form_value(problem.objective().as_slice(), point.as_slice())?;
    let objective = form.add(problem.constant())?;
    Ok(Values { form, objective })
}

// The point is optimal.
fn optimal(
    problem: &Instance,
    cuts: &DerivedRows,
    path: &Path,
    best: &Option<Frac>,
    objective: Frac,
    found: ProposedOptimum,
    weights: LeafWeights,
    basic: bool,
) -> Verdict
    requires relaxed { IsRelaxedOptimum problem.now cuts.now path.now found.point }
    requires passes { NodePasses problem.now (Some (objective_value problem.now found.point)) cuts.now path.now (Bound weights) }
    requires value { objective ≡ objective_value problem.now found.point }
    requires sum { value_answer problem.now found.point ≡ Ok objective }
    requires over { IsOverColumns problem.now cuts.now path.now }
    requires basic { basic ≡ true → AllPinned problem.now cuts.now path.now found.point }
    ensures { IsVerdict problem.now cuts.now path.now best.now found.point found.weights basic result }
{
    bounded_leaves();
    if !is_better(problem.direction(), objective, best) {
        return Verdict::Passed(Treatment::Bounded(weights));
    }
    match fraction(problem.columns(), &found.point, found.column) {
        Some(j) => told(problem, cuts, path, best, objective, found, basic, j),
        None => whole(problem, cuts, path, best, objective, found, weights, basic),
    }
}

// The value is better than the best, where there is one.
fn is_better(direction: Direction, value: Frac, best: &Option<Frac>) -> bool
    ensures { MatchOption best.now (result ≡ true) (λ b. result ≡ is_less (sign_of direction *ℚ value) (sign_of direction *ℚ b)) }
{
    match *best {
        None => true,
        Some(best) => signed(direction, value) < signed(direction, best),
    }
}

// The numbers of all integer columns are whole.
fn whole(
    problem: &Instance,
    cuts: &DerivedRows,
    path: &Path,
    best: &Option<Frac>,
    objective: Frac,
    found: ProposedOptimum,
    weights: LeafWeights,
    basic: bool,
) -> Verdict
    requires relaxed { IsRelaxedOptimum problem.now cuts.now path.now found.point }
    requires passes { NodePasses problem.now (Some (objective_value problem.now found.point)) cuts.now path.now (Bound weights) }
    requires value { objective ≡ objective_value problem.now found.point }
    requires sum { value_answer problem.now found.point ≡ Ok objective }
    requires whole { AreWhole problem.now found.point }
    requires better { Beats problem.now best.now found.point }
    ensures { IsVerdict problem.now cuts.now path.now best.now found.point found.weights basic result }
{
    match meets(problem, &found.point) {
        Err(fault) => Verdict::NoFit(fault),
        Ok(false) => unreachable!(),
        Ok(true) => Verdict::Passed(Treatment::Feasible(Found {
            point: found.point,
            value: objective,
            weights,
        })),
    }
}

// The number of the integer column j is not whole: the node is to be split there, where what rests at the point tells the
// number.
fn told(
    problem: &Instance,
    cuts: &DerivedRows,
    path: &Path,
    best: &Option<Frac>,
    objective: Frac,
    found: ProposedOptimum,
    basic: bool,
    j: usize,
) -> Verdict
    requires over { IsOverColumns problem.now cuts.now path.now }
    requires relaxed { IsRelaxedOptimum problem.now cuts.now path.now found.point }
    requires basic { basic ≡ true → AllPinned problem.now cuts.now path.now found.point }
    requires column { j < length problem.now.columns }
    requires fraction { IsFraction problem.now.columns found.point (Some j) }
    requires better { Beats problem.now best.now found.point }
    ensures { IsVerdict problem.now cuts.now path.now best.now found.point found.weights basic result }
{
    if basic || is_told(problem, cuts, path, &found, j) {
        Verdict::Passed(fractional(problem, cuts, path, best, objective, found, j))
    } else {
        Verdict::NotTold
    }
}

// Whether what rests at the point tells the number of column j.
fn is_told(
    problem: &Instance,
    cuts: &DerivedRows,
    path: &Path,
    found: &ProposedOptimum,
    j: usize,
) -> bool
    requires over { IsOverColumns problem.now cuts.now path.now }
    requires column { j < length problem.now.columns }
    ensures { result ≡ true → IsPinned (system_of problem.now cuts.now path.now) found.now.point j }
{
    problem.keeps_its_limits();
    match &found.told {
        None => false,
        Some(weights) => shows_told(problem, cuts, path, &found.point, weights, j as u32),
    }
}

// The number of the integer column j is not whole, and is told.
fn fractional(
    problem: &Instance,
    cuts: &DerivedRows,
    path: &Path,
    best: &Option<Frac>,
    objective: Frac,
    found: ProposedOptimum,
    j: usize,
) -> Treatment
    requires relaxed { IsRelaxedOptimum problem.now cuts.now path.now found.point }
    requires column { j < length problem.now.columns }
    requires fraction { IsFraction problem.now.columns found.point (Some j) }
    requires pinned { IsPinned (system_of problem.now cuts.now path.now) found.point j }
    requires better { Beats problem.now best.now found.point }
    ensures { (limit : ℕ) → IsTreatment problem.now cuts.now limit path.now best.now result }
{
    problem.keeps_its_limits();
    let numbers = found.point.as_slice();
    let split = ColumnSplit::new(j as u32, WholeNumber::floor(numbers[j]));
    Treatment::ToSplit(Fractional {
        split,
        value: objective,
        basis: found.basis,
    })
}

// An integer column whose number is not whole: the one that is advised, where it is so, else the first.
fn fraction(columns: &[Column], point: &Point, advice: Option<usize>) -> Option<usize>
    requires { length point.now ≡ length columns.now }
    ensures known { IfSome result (λ j. j < length columns.now) }
    ensures fraction { IsFraction columns.now point.now result }
{
    match advice {
        Some(j) if is_fraction(columns, point, j) => Some(j),
        _ => first_fraction(columns, point),
    }
}

// Whether there is such a column, it is integer, and its number is not whole.
fn is_fraction(columns: &[Column], point: &Point, j: usize) -> bool
    requires { length point.now ≡ length columns.now }
    ensures known { result ≡ true → j < length columns.now }
    ensures fraction { result ≡ true → IsFraction columns.now point.now (Some j) }
{
    let numbers = point.as_slice();
    j < columns.len() && columns[j].integer() && !numbers[j].is_whole()
}

// The first integer column whose number is not whole.
fn first_fraction(columns: &[Column], point: &Point) -> Option<usize>
    requires { length point.now ≡ length columns.now }
    ensures known { IfSome result (λ j. j < length columns.now) }
    ensures fraction { IsFraction columns.now point.now result }
{
    let numbers = point.as_slice();
    let mut j = 0;
    while j < columns.len() {
        if columns[j].integer() && !numbers[j].is_whole() {
            return Some(j);
        }
        j += 1;
    }
    None
}
