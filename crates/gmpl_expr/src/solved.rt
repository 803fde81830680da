// What members of variables, constraints and objectives come to: before `solve` a form, and behind it the numbers of the solution.
ghost use Rattle.std.specs.Prelude.{◌≡◌, [], ◌∷◌, Some, Ok};
ghost use Rattle.rational.specs.Rational.{one_ℚ, zero_ℚ};
ghost use Rattle.gmpl_value.specs.Outcome.{Gives, Outcome, then_do};
ghost use Rattle.gmpl_meaning.specs.declared.bounds.Bounds.{Bounds as AnyBounds};
ghost use Rattle.gmpl_functions.specs.Linear.{linear};
ghost use Rattle.gmpl_solution.specs.Solution as solutions;
ghost use Rattle.gmpl_meaning.specs.Members as members;
ghost use Rattle.gmpl_operations.specs.Values.{of_number};
ghost use Rattle.gmpl_operations.specs.declared.value.Value.TheVariants as values;

use fraction::Frac;
use gmpl_functions::{Form, Variable};
use gmpl_meaning::Bounds;
use gmpl_operations::Value;
use gmpl_solution::{Dual, Member, Solution, SolvedMember};
use gmpl_syntax::Suffix;
use gmpl_value::{EvalFault, Tuple};
use std::alloc::Global;

// The form of a variable's member.
fn variable_form(alloc: Global, place: usize, subscripts: &Tuple) -> Result<Value, EvalFault>
    ensures { Gives result (Ok (values.Linear (linear ((members.variable place subscripts.now, one_ℚ) ∷ []) zero_ℚ))) }
{
    let variable = Variable {
        statement: place,
        subscripts: subscripts.copied(alloc)?,
    };
    Ok(Value::Linear(Form::variable(alloc, variable)?))
}

// A member as the solution names it.
fn member(alloc: Global, place: usize, subscripts: &Tuple) -> Result<Member, EvalFault>
    ensures { Gives result (Ok (solutions.member place subscripts.now)) }
{
    Ok(Member {
        statement: place,
        subscripts: subscripts.copied(alloc)?,
    })
}

fn solved_value(
    alloc: Global,
    place: usize,
    subscripts: &Tuple,
    solution: &Solution,
) -> Result<Value, EvalFault>
    ensures { Gives result (Ok (of_number (solutions.value_of solution.now (solutions.member place subscripts.now)))) }
{
    let member = member(alloc, place, subscripts)?;
    Ok(Value::number(solution.value(&member)))
}

// A bound, where there is one.
fn bound_value(bound: Option<Frac>) -> Result<Value, EvalFault>
    ensures { result ≡ members.bound_value bound }
{
    let Some(number) = bound else {
        return Err(EvalFault::NoValue);
    };
    Ok(Value::number(number))
}

// A dual value, where there is one.
fn dual_value(dual: Dual) -> Result<Value, EvalFault>
    ensures { result ≡ members.dual_value dual }
{
    match dual {
        Dual::Number(number) => Ok(Value::number(number)),
        Dual::NoFit(no_fit) => Err(EvalFault::NoFit(no_fit)),
        Dual::Missing => Err(EvalFault::NoDual),
    }
}

fn solved_dual(
    alloc: Global,
    place: usize,
    subscripts: &Tuple,
    solution: &Solution,
) -> Result<Value, EvalFault>
    ensures { Gives result (members.dual_value (solutions.dual_of solution.now (solutions.member place subscripts.now))) }
{
    let member = member(alloc, place, subscripts)?;
    dual_value(solution.dual(&member))
}

// What is asked of a member of a variable behind `solve`.
fn solved_variable(
    alloc: Global,
    place: usize,
    subscripts: &Tuple,
    solution: &Solution,
    asked: Option<Suffix>,
    bounds: Bounds,
) -> Result<Value, EvalFault>
    ensures { Gives result (members.variable_asked place subscripts.now (Some solution.now) asked bounds) }
{
    match asked {
        None => solved_value(alloc, place, subscripts, solution),
        Some(suffix) => match suffix {
            Suffix::Value => solved_value(alloc, place, subscripts, solution),
            Suffix::LowerBound => bound_value(bounds.lower),
            Suffix::UpperBound => bound_value(bounds.upper),
            Suffix::Dual => solved_dual(alloc, place, subscripts, solution),
            Suffix::LeftOut => Err(EvalFault::NoValue),
        },
    }
}

/// What is asked of a member of a variable, its bounds handed as they were evaluated.
pub(crate) fn variable_asked(
    alloc: Global,
    place: usize,
    subscripts: &Tuple,
    solution: &Option<Solution>,
    asked: Option<Suffix>,
    bounds: Result<Bounds, EvalFault>,
) -> Result<Value, EvalFault>
    ensures { (answer : Outcome AnyBounds) → Gives bounds answer → Gives result (then_do (members.variable_asked place subscripts.now solution.now asked) answer) }
{
    match bounds {
        Ok(bounds) => variable_value(alloc, place, subscripts, solution, asked, bounds),
        Err(fault) => Err(fault),
    }
}

// What is asked of a member of a variable with these bounds: without a solution it is its form, and has no suffix.
fn variable_value(
    alloc: Global,
    place: usize,
    subscripts: &Tuple,
    solution: &Option<Solution>,
    asked: Option<Suffix>,
    bounds: Bounds,
) -> Result<Value, EvalFault>
    ensures { Gives result (members.variable_asked place subscripts.now solution.now asked bounds) }
{
    match solution {
        None => match asked {
            None => variable_form(alloc, place, subscripts),
            Some(_) => Err(EvalFault::NoValue),
        },
        Some(solution) => solved_variable(alloc, place, subscripts, solution, asked, bounds),
    }
}

// What is asked of a column or of a row.
pub(crate) fn solved_asked(asked: Option<Suffix>, member: SolvedMember) -> Result<Value, EvalFault>
    ensures { result ≡ members.solved_asked asked member }
{
    match asked {
        None => Ok(Value::number(member.value)),
        Some(suffix) => match suffix {
            Suffix::Value => Ok(Value::number(member.value)),
            Suffix::LowerBound => bound_value(member.lower),
            Suffix::UpperBound => bound_value(member.upper),
            Suffix::Dual => dual_value(member.dual),
            Suffix::LeftOut => Err(EvalFault::NoValue),
        },
    }
}

fn asks_bound(asked: Option<Suffix>) -> bool
    ensures { result ≡ members.asks_bound asked }
{
    match asked {
        None => false,
        Some(suffix) => match suffix {
            Suffix::Value => false,
            Suffix::LowerBound => true,
            Suffix::UpperBound => true,
            Suffix::Dual => false,
            Suffix::LeftOut => false,
        },
    }
}

fn solved_column(
    alloc: Global,
    place: usize,
    subscripts: &Tuple,
    solution: &Solution,
) -> Result<Option<SolvedMember>, EvalFault>
    ensures { Gives result (Ok (solutions.column_of solution.now (solutions.member place subscripts.now))) }
{
    let member = member(alloc, place, subscripts)?;
    Ok(solution.column(&member))
}

/// The column behind `solve` whose own bounds are asked for.
pub(crate) fn bounded_column(
    alloc: Global,
    solution: &Option<Solution>,
    place: usize,
    asked: Option<Suffix>,
    subscripts: &Tuple,
) -> Result<Option<SolvedMember>, EvalFault>
    ensures { Gives result (Ok (members.bounded_column solution.now place asked subscripts.now)) }
{
    match solution {
        None => Ok(None),
        Some(solution) => {
            if asks_bound(asked) {
                solved_column(alloc, place, subscripts, solution)
            } else {
                Ok(None)
            }
        }
    }
}

fn row_found(asked: Option<Suffix>, row: Option<SolvedMember>) -> Result<Value, EvalFault>
    ensures { result ≡ members.row_found asked row }
{
    match row {
        None => Err(EvalFault::OutOfDomain),
        Some(row) => solved_asked(asked, row),
    }
}

/// What is asked of a member of a constraint or of an objective: the numbers of its row, and without a solution none.
pub(crate) fn row_member(
    alloc: Global,
    solution: &Option<Solution>,
    place: usize,
    asked: Option<Suffix>,
    subscripts: &Tuple,
) -> Result<Value, EvalFault>
    ensures { Gives result (members.row_member solution.now place asked subscripts.now) }
{
    match solution {
        None => Err(EvalFault::NoValue),
        Some(solution) => {
            let member = member(alloc, place, subscripts)?;
            row_found(asked, solution.row(&member))
        }
    }
}
