// Behind `solve`.
ghost use Rattle.std.specs.Prelude.{◌≡◌, ◌<◌, false, IfOk, IsOk, OnOk, length, slice_get};
ghost use Rattle.instance.specs.Sums.{sum_answer, form_of};
ghost use Rattle.milp.specs.Form.{sum_at};
ghost use Rattle.rational.specs.Rational.{zero_ℚ};
ghost use Rattle.gmpl_generate.specs.Running.{Runs, made_of};
ghost use Rattle.gmpl_generate.specs.Solved as spec;
ghost use Rattle.gmpl_generate.specs.Solved.{RowsFit, made_after};
ghost use Rattle.gmpl_rows.specs.Draft.{Draft};
ghost use Rattle.gmpl_rows.specs.Problem.{column_members, problem_of, row_members};

use crate::fault::{Halt, ModelFault, ModelFaultKind, fault_at};
use crate::progress::{Progress, TableFile};
use crate::steps::steps_after;
use fraction::Frac;
use gmpl_data::LoadedModel;
use gmpl_expr::Context;
use gmpl_resolved::Numbered;
use gmpl_rows::ColumnMember;
use gmpl_solution::{Dual, Duals, Member, Solution, SolvedMember};
use gmpl_value::EvalFault;
use instance::{Instance, Point, Row, activity};
use sqlite_items::Boxed;
use std::alloc::{AllocError, Global};

/// What the statements behind `solve` come to.
#[derive(Drop)]
pub struct Afterwards {
    /// What they print.
    pub printed: String,
    /// The files that they make, in order.
    pub files: Vec<TableFile>,
    /// The first that cannot be executed.
    pub fault: Option<ModelFault>,
}

// ---- the numbers of members at a point

/// The value of a row's form, which fits.
pub fn row_value(problem: &Instance, row: u32, point: &Point) -> Frac
    requires row { row < length problem.now.rows }
    requires size { length point.now ≡ length problem.now.columns }
    requires fits { IsOk (sum_answer point.now zero_ℚ (form_of (slice_get problem.now.rows row))) }
    ensures { result ≡ sum_at point.now (form_of (slice_get problem.now.rows row)) }
{
    match activity(problem, row, point) {
        Ok(value) => value,
        Err(_) => unreachable!(),
    }
}

fn add_column(
    alloc: Global,
    solution: &mut Solution,
    column: &ColumnMember,
    value: Frac,
    dual: Dual,
) -> Result<(), AllocError>
    ensures { OnOk result (solution.new ≡ spec.with_solved_column column.now value dual solution.old) }
{
    let solved = SolvedMember {
        value,
        lower: column.bounds.lower,
        upper: column.bounds.upper,
        dual,
    };
    solution.add_column(column.member.copied(alloc)?, solved)
}

fn add_columns(
    alloc: Global,
    solution: &mut Solution,
    columns: &[ColumnMember],
    point: &[Frac],
    duals: &[Dual],
) -> Result<(), AllocError>
    ensures { OnOk result (solution.new ≡ spec.with_columns columns.now point.now duals.now solution.old) }
{
    let mut left = point;
    let mut duals_left = duals;
    for column in columns {
        let Some((value, rest)) = left.split_first() else {
            return Ok(());
        };
        let Some((dual, duals_rest)) = duals_left.split_first() else {
            return Ok(());
        };
        add_column(alloc, solution, column, *value, *dual)?;
        left = rest;
        duals_left = duals_rest;
    }
    Ok(())
}

fn add_row(
    alloc: Global,
    solution: &mut Solution,
    member: &Member,
    row: &Row,
    value: Frac,
    dual: Dual,
) -> Result<(), AllocError>
    ensures { OnOk result (solution.new ≡ spec.with_solved_row member.now row.now value dual solution.old) }
{
    let solved = SolvedMember {
        value,
        lower: row.lower(),
        upper: row.upper(),
        dual,
    };
    solution.add_row(member.copied(alloc)?, solved)
}

fn add_rows(
    alloc: Global,
    solution: &mut Solution,
    members: &[Member],
    problem: &Instance,
    point: &Point,
    duals: &[Dual],
) -> Result<(), AllocError>
    requires size { length point.now ≡ length problem.now.columns }
    requires rows { RowsFit point.now problem.now.rows }
    ensures { OnOk result (solution.new ≡ spec.with_rows point.now members.now problem.now.rows duals.now solution.old) }
{
    problem.keeps_its_limits();
    let rows = problem.rows();
    let mut left = members;
    let mut duals_left = duals;
    for (i, row) in rows.iter().enumerate() {
        let Some((member, rest)) = left.split_first() else {
            return Ok(());
        };
        let Some((dual, duals_rest)) = duals_left.split_first() else {
            return Ok(());
        };
        let value = row_value(problem, i as u32, point);
        add_row(alloc, solution, member, row, value, *dual)?;
        left = rest;
        duals_left = duals_rest;
    }
    Ok(())
}

fn solution_by(
    alloc: Global,
    columns: &[ColumnMember],
    rows: &[Member],
    problem: &Instance,
    point: &Point,
    duals: &Duals,
) -> Result<Solution, AllocError>
    requires size { length point.now ≡ length problem.now.columns }
    requires rows { RowsFit point.now problem.now.rows }
    ensures { IfOk result (λ made. made ≡ spec.solution_by columns.now rows.now problem.now.rows point.now duals.now) }
{
    let mut solution = Solution::new(alloc, duals.elsewhere());
    let numbers = point.as_slice();
    add_columns(alloc, &mut solution, columns, numbers, duals.columns())?;
    add_rows(alloc, &mut solution, rows, problem, point, duals.rows())?;
    Ok(solution)
}

fn with_solution(model: LoadedModel, solution: Solution) -> LoadedModel
    ensures { result ≡ spec.with_solution model solution }
{
    let LoadedModel {
        statements,
        steps,
        tables,
        solution: _,
    } = model;
    LoadedModel {
        statements,
        steps,
        tables,
        solution: Some(solution),
    }
}

// ---- the statements

fn statements_after(
    alloc: Global,
    model: &LoadedModel,
    context: &mut Context<'_>,
    statements: &[Numbered],
    so_far: &mut Progress,
) -> Result<bool, Halt<EvalFault>>
    requires of { context.old ≡ model.now }
    ensures of { context.new ≡ model.now }
    ensures value { Runs (spec.statements_after model.now false statements.now (made_of so_far.old)) result (made_of so_far.new) }
{
    let mut solved = false;
    for numbered in statements {
        let steps = numbered.steps.as_slice();
        solved = steps_after(alloc, model, context, steps, solved, so_far)?;
    }
    Ok(solved)
}

fn all_after_in(
    alloc: Global,
    model: &LoadedModel,
    context: &mut Context<'_>,
    so_far: &mut Progress,
) -> Result<bool, Halt<EvalFault>>
    requires { context.old ≡ model.now }
    ensures { Runs (spec.all_after model.now (made_of so_far.old)) result (made_of so_far.new) }
{
    let statements = model.statements.as_slice();
    let solved = statements_after(alloc, model, context, statements, so_far)?;
    let steps = model.steps.as_slice();
    steps_after(alloc, model, context, steps, solved, so_far)
}

fn all_after(
    alloc: Global,
    model: &LoadedModel,
    so_far: &mut Progress,
) -> Result<bool, Halt<EvalFault>>
    ensures { Runs (spec.all_after model.now (made_of so_far.old)) result (made_of so_far.new) }
{
    let mut context = Context::new(alloc, model);
    all_after_in(alloc, model, &mut context, so_far)
}

fn behind_solve(alloc: Global, model: &LoadedModel) -> Result<Afterwards, AllocError>
    ensures { IfOk result (λ after. spec.behind_solve model.now ≡ (made_after after, after.fault)) }
{
    let mut so_far = Progress::new(alloc);
    let fault = match all_after(alloc, model, &mut so_far) {
        Ok(_) => None,
        Err(Halt::Fault(number, line, fault)) => {
            Some(fault_at(number, line, ModelFaultKind::Evaluation(fault)))
        }
        Err(Halt::CheckFailed(number, line)) => {
            Some(fault_at(number, line, ModelFaultKind::CheckFailed))
        }
        Err(Halt::NoMemory) => return Err(AllocError),
    };
    let Progress { printed, files } = so_far;
    Ok(Afterwards {
        printed,
        files,
        fault,
    })
}

/// The statements behind `solve`, in order, up to the first fault, where the members that the columns and rows of the problem come
/// from have these numbers and dual values, and the columns' members those bounds: what they print and write, and the fault.
/// Errors: want of memory.
#[tactic(auto, unfolding(crate::specs::Solved::after_by))]
pub fn after_solve(
    alloc: Global,
    model: Boxed<LoadedModel>,
    columns: &[ColumnMember],
    rows: &[Member],
    problem: &Instance,
    point: &Point,
    duals: &Duals,
) -> Result<Afterwards, AllocError>
    requires size { length point.now ≡ length problem.now.columns }
    requires rows { RowsFit point.now problem.now.rows }
    ensures { IfOk result (λ after. (d : Draft) → columns.now ≡ column_members d → rows.now ≡ row_members d → problem.now.rows ≡ (problem_of d).rows
        → spec.after_by model d point.now duals.now ≡ (made_after after, after.fault)) }
{
    let solution = solution_by(alloc, columns, rows, problem, point, duals)?;
    behind_solve(alloc, &with_solution(model.into_inner(), solution))
}
