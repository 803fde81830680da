// Members behind `solve`, at a solution that is written by hand.
use crate::models::{asked, statements_of, tuple_of};
use crate::rows::{Subject, check, cut, split};
use crate::texts::{fault_word, form_word, set_word, symbol_word, tuple_word};
use fraction::{Frac, NoFit, Op};
use gmpl_data::{DataTables, LoadedModel};
use gmpl_expr::{Context, eval_value, member_value};
use gmpl_operations::Value;
use gmpl_resolved::Expr;
use gmpl_solution::{Dual, Member, Solution, SolvedMember};
use gmpl_value::{EvalFault, Tuple};
use sqlite_items::Items;
use std::alloc::{AllocError, Global};
use std::test::Fail;

// The members x[3] and y are no columns.
const MODEL: &str = "\
var x{1..3} >= 0, <= 5; var y; s.t. r{i in 1..2}: x[i] <= 4; maximize total: sum{i in 1..2} i * x[i]; solve; \
param p{i in 1..3} := x[i] ** 2; ";

// By hand after the language reference, where x[1] is 4 and x[2] is 3, and at its first demand x[1] was at most 7, and x[2] from 1 to 6;
// x[1] has the dual value 2 and r has 1/2, x[2] has none, and the sum of total does not fit.
const SOLVED: &str = "\
4 => x[1]
4 => x[1].val
3 => x[2].val
!NoValue => x[1].lb
7 => x[1].ub
1 => x[2].lb
6 => x[2].ub
0 => x[3]
0 => x[3].val
0 => x[3].lb
5 => x[3].ub
0 => y
0 => y.val
!NoValue => y.lb
!NoValue => y.ub
!OutOfDomain => x[4]
!OutOfDomain => x[4].val
!OutOfDomain => x[4].ub
!DivZero => x[1/0].ub
2 => x[1].dual
!NoDual => x[2].dual
0 => x[3].dual
0 => y.dual
!OutOfDomain => x[4].dual
!DivZero => x[1/0].dual
16 => x[1] * x[1]
7 => sum{i in 1..3} x[i]
9 => p[2]
4 => r[1]
4 => r[1].val
3 => r[2].val
4 => r[2].ub
!NoValue => r[2].lb
!OutOfDomain => r[3]
!OutOfDomain => r[3].lb
1/2 => r[1].dual
!OutOfDomain => r[3].dual
10 => total
10 => total.val
!NoValue => total.lb
!NoValue => total.ub
!NoFit 1 + 2 => total.dual
";

// The same without a solution.
const UNSOLVED: &str = "\
1v.1+0 => x[1]
1v+0 => y
!OutOfDomain => x[4]
!NoValue => x[1].val
!NoValue => x[1].ub
!NoValue => x[1].dual
!OutOfDomain => x[4].val
!NoValue => r[1]
!NoValue => r[1].ub
!NoValue => r[1].dual
!NoValue => total
";

// The place of an object, and the subscripts of its member.
const MEMBERS: &str = "\
4 => 0 1
0 => 0 3
!OutOfDomain => 0 4
4 => 2 1
3 => 2 2
!OutOfDomain => 2 3
16 => 4 1
!NoValue => 6 1
";

fn member(alloc: Global, statement: usize, subscript: &str) -> Result<Member, AllocError> {
    Ok(Member {
        statement,
        subscripts: tuple_of(alloc, subscript)?,
    })
}

// With a column of `x`.
fn with_column(
    alloc: Global,
    solution: Solution,
    subscript: &str,
    column: SolvedMember,
) -> Result<Solution, AllocError> {
    let mut made = solution;
    let member = member(alloc, 0, subscript)?;
    made.add_column(member, column)?;
    Ok(made)
}

fn half() -> Frac {
    match Frac::whole(1).div(Frac::whole(2)) {
        Ok(half) => half,
        Err(_) => Frac::zero(),
    }
}

// A row of `r`.
fn row(value: Frac) -> SolvedMember {
    SolvedMember {
        value,
        lower: None,
        upper: Some(Frac::whole(4)),
        dual: Dual::Number(half()),
    }
}

fn with_row(
    alloc: Global,
    solution: Solution,
    subscript: &str,
    value: Frac,
) -> Result<Solution, AllocError> {
    let mut made = solution;
    let member = member(alloc, 2, subscript)?;
    made.add_row(member, row(value))?;
    Ok(made)
}

fn with_objective(alloc: Global, solution: Solution) -> Result<Solution, AllocError> {
    let mut made = solution;
    let total = Member {
        statement: 3,
        subscripts: Tuple::new(alloc),
    };
    let free = SolvedMember {
        value: Frac::whole(10),
        lower: None,
        upper: None,
        dual: Dual::NoFit(NoFit {
            a: Frac::whole(1),
            op: Op::Add,
            b: Frac::whole(2),
        }),
    };
    made.add_row(total, free)?;
    Ok(made)
}

fn solution(alloc: Global) -> Result<Solution, AllocError> {
    let first = SolvedMember {
        value: Frac::whole(4),
        lower: None,
        upper: Some(Frac::whole(7)),
        dual: Dual::Number(Frac::whole(2)),
    };
    let second = SolvedMember {
        value: Frac::whole(3),
        lower: Some(Frac::whole(1)),
        upper: Some(Frac::whole(6)),
        dual: Dual::Missing,
    };
    let made = Solution::new(alloc, Dual::Number(Frac::zero()));
    let made = with_column(alloc, made, "1", first)?;
    let made = with_column(alloc, made, "2", second)?;
    let made = with_row(alloc, made, "1", Frac::whole(4))?;
    let made = with_row(alloc, made, "2", Frac::whole(3))?;
    with_objective(alloc, made)
}

fn value_word(alloc: Global, value: &Value) -> Result<String, AllocError> {
    match value {
        Value::Scalar(symbol) => symbol_word(alloc, symbol),
        Value::Truth(truth) => (if *truth { "1" } else { "0" }).to_string(alloc),
        Value::Group(tuple) => tuple_word(alloc, tuple),
        Value::Elements(set) => set_word(alloc, set.get()),
        Value::Linear(form) => form_word(alloc, form),
    }
}

fn result_word(alloc: Global, found: Result<Value, EvalFault>) -> Result<String, AllocError> {
    match found {
        Ok(value) => value_word(alloc, &value),
        Err(fault) => fault_word(alloc, fault),
    }
}

// The model in which an expression is asked for.
fn model(
    alloc: Global,
    expression: &str,
    solution: Option<Solution>,
) -> Result<Option<LoadedModel>, AllocError> {
    let text = format!(in alloc; "{MODEL}param answer := {expression}; end;")?;
    let Some(statements) = statements_of(alloc, &text)? else {
        return Ok(None);
    };
    Ok(Some(LoadedModel {
        statements,
        steps: Items::new(alloc),
        tables: DataTables::empty(alloc),
        solution,
    }))
}

fn value(alloc: Global, model: &LoadedModel, whole: &Expr) -> Result<Value, EvalFault> {
    let mut context = Context::new(alloc, model);
    let bindings = Tuple::new(alloc);
    eval_value(alloc, &mut context, whole, &bindings)
}

fn asked_value(alloc: Global, model: &LoadedModel) -> Result<String, AllocError> {
    match asked(model.statements.as_slice()) {
        Some(whole) => result_word(alloc, value(alloc, model, whole)),
        None => "no expression".to_string(alloc),
    }
}

fn answer(
    alloc: Global,
    expression: &str,
    solution: Option<Solution>,
) -> Result<String, AllocError> {
    match model(alloc, expression, solution)? {
        Some(model) => asked_value(alloc, &model),
        None => "no model".to_string(alloc),
    }
}

fn place(word: &str) -> usize {
    word.parse::<usize>().unwrap_or(99)
}

fn member_of(
    alloc: Global,
    model: &LoadedModel,
    place: usize,
    subscripts: &Tuple,
) -> Result<Value, EvalFault> {
    let mut context = Context::new(alloc, model);
    member_value(alloc, &mut context, place, subscripts)
}

fn member_word(
    alloc: Global,
    model: &LoadedModel,
    place: usize,
    subscript: &str,
) -> Result<String, AllocError> {
    let subscripts = tuple_of(alloc, subscript)?;
    result_word(alloc, member_of(alloc, model, place, &subscripts))
}

fn member_answer(alloc: Global, word: &str, subscript: &str) -> Result<String, AllocError> {
    let solution = solution(alloc)?;
    match model(alloc, "0", Some(solution))? {
        Some(model) => member_word(alloc, &model, place(word), subscript),
        None => "no model".to_string(alloc),
    }
}

pub(crate) fn solved_row(alloc: Global, row: &str) -> Result<String, AllocError> {
    let (_, expression) = split(row);
    let solution = solution(alloc)?;
    let found = answer(alloc, expression, Some(solution))?;
    format!(in alloc; "{found} => {expression}")
}

#[test]
fn behind_solve(rt: HostRuntime) -> Result<(), Fail> {
    check(&rt, rt.alloc(), &Subject::Solved, SOLVED)
}

pub(crate) fn unsolved_row(alloc: Global, row: &str) -> Result<String, AllocError> {
    let (_, expression) = split(row);
    let found = answer(alloc, expression, None)?;
    format!(in alloc; "{found} => {expression}")
}

#[test]
fn without_a_solution(rt: HostRuntime) -> Result<(), Fail> {
    check(&rt, rt.alloc(), &Subject::Unsolved, UNSOLVED)
}

pub(crate) fn solved_member_row(alloc: Global, row: &str) -> Result<String, AllocError> {
    let (_, asked) = split(row);
    let (place, subscript) = cut(asked);
    let found = member_answer(alloc, place, subscript)?;
    format!(in alloc; "{found} => {asked}")
}

#[test]
fn members_behind_solve(rt: HostRuntime) -> Result<(), Fail> {
    check(&rt, rt.alloc(), &Subject::SolvedMembers, MEMBERS)
}
