// The objects that statements declare.
ghost use Rattle.std.specs.Prelude.{◌≡◌, IfOk};
ghost use Rattle.gmpl_statement_kinds.specs.StatementKinds as spec;

use crate::actions::action;
use crate::attributes::{scalar_at, set_dimension, subscripts, value_attributes};
use crate::judgement::Judgement;
use crate::sites::{beside, linear, plain, set_of, value_of};
use crate::tables::table_input;
use gmpl_kinds::{Object, Shape, Sort};
use gmpl_resolved::{
    Action, Constraint, Declaration, Numbered, NumberedStep, Objective, Statement, Statements, Step,
};
use gmpl_syntax::{SyntaxFault, SyntaxFaultKind};
use sqlite_items::Items;
use std::alloc::{AllocError, Global};

fn set_object(
    objects: &[Object],
    solved: bool,
    whole: &Declaration,
) -> Result<Object, SyntaxFaultKind>
    ensures { result ≡ spec.set_object objects.now solved whole.now }
{
    let subscripts = subscripts(objects, plain(solved), &whole.head.domain)?;
    let dimension = set_dimension(objects, solved, subscripts, whole.attributes.as_slice())?;
    Ok(set_of(subscripts, Some(dimension)))
}

fn value_object(
    objects: &[Object],
    solved: bool,
    sort: Sort,
    whole: &Declaration,
) -> Result<Object, SyntaxFaultKind>
    ensures { result ≡ spec.value_object objects.now solved sort whole.now }
{
    let object = value_of(
        sort,
        subscripts(objects, plain(solved), &whole.head.domain)?,
    );
    value_attributes(objects, beside(solved, object), whole.attributes.as_slice())?;
    Ok(object)
}

fn sides(objects: &[Object], whole: &Constraint) -> Result<Shape, SyntaxFaultKind>
    ensures { result ≡ spec.sides objects.now whole.now whole.now.last }
{
    let (inner, outer) = (linear(), plain(false));
    match &whole.last {
        None => {
            scalar_at(objects, inner, &whole.left)?;
            scalar_at(objects, inner, &whole.right)
        }
        Some(last) => {
            scalar_at(objects, outer, &whole.left)?;
            scalar_at(objects, inner, &whole.right)?;
            scalar_at(objects, outer, last)
        }
    }
}

fn constraint_object(objects: &[Object], whole: &Constraint) -> Result<Object, SyntaxFaultKind>
    ensures { result ≡ spec.constraint_object objects.now whole.now }
{
    let subscripts = subscripts(objects, linear(), &whole.head.domain)?;
    sides(objects, whole)?;
    Ok(value_of(Sort::Constraint, subscripts))
}

fn objective_object(objects: &[Object], whole: &Objective) -> Result<Object, SyntaxFaultKind>
    ensures { result ≡ spec.objective_object objects.now whole.now }
{
    let site = linear();
    let subscripts = subscripts(objects, site, &whole.head.domain)?;
    scalar_at(objects, site, &whole.form)?;
    Ok(value_of(Sort::Objective, subscripts))
}

fn object_of(objects: &[Object], solved: bool, whole: &Statement) -> Result<Object, SyntaxFaultKind>
    ensures { result ≡ spec.object_of objects.now solved whole.now }
{
    match whole {
        Statement::Set(whole) => set_object(objects, solved, whole),
        Statement::Param(whole) => value_object(objects, solved, Sort::Param, whole),
        Statement::Var(whole) => value_object(objects, solved, Sort::Var, whole),
        Statement::Constraint(whole) => constraint_object(objects, whole.get()),
        Statement::Objective(whole) => objective_object(objects, whole.get()),
    }
}

// ---- statements in order

#[tactic(auto, unfolding(crate::specs::StatementKinds::executed))]
fn executed(objects: &[Object], solved: bool, whole: &Action) -> Result<(), SyntaxFaultKind>
    ensures { result ≡ spec.executed objects.now solved whole.now }
{
    action(objects, plain(solved), whole)
}

// Whether `solve` stands before what follows this step.
fn behind(objects: &[Object], solved: bool, whole: &Step) -> Result<bool, SyntaxFaultKind>
    ensures { result ≡ spec.behind objects.now solved whole.now }
{
    match whole {
        Step::Action(whole) => {
            executed(objects, solved, whole)?;
            Ok(solved)
        }
        Step::TableInput(whole) => {
            table_input(objects, solved, whole)?;
            Ok(solved)
        }
        Step::Solve => Ok(true),
    }
}

fn fault_at(number: usize, line: usize, kind: SyntaxFaultKind) -> SyntaxFault
    ensures { result ≡ spec.fault_at number line kind }
{
    SyntaxFault {
        statement: number,
        line,
        kind,
    }
}

fn behind_step(objects: &[Object], solved: bool, whole: &NumberedStep) -> Result<bool, SyntaxFault>
    ensures { result ≡ spec.numbered whole.now.number whole.now.line (spec.behind objects.now solved whole.now.step) }
{
    match behind(objects, solved, &whole.step) {
        Ok(solved) => Ok(solved),
        Err(kind) => Err(fault_at(whole.number, whole.line, kind)),
    }
}

fn behind_all(objects: &[Object], solved: bool, all: &[NumberedStep]) -> Result<bool, SyntaxFault>
    ensures { result ≡ spec.behind_all objects.now solved all.now }
{
    let mut solved = solved;
    for one in all {
        solved = behind_step(objects, solved, one)?;
    }
    Ok(solved)
}

fn declared(objects: &[Object], solved: bool, whole: &Numbered) -> Result<Object, SyntaxFault>
    ensures { result ≡ spec.declared objects.now solved whole.now }
{
    match object_of(objects, solved, &whole.statement) {
        Ok(object) => Ok(object),
        Err(kind) => Err(fault_at(whole.number, whole.line, kind)),
    }
}

fn stopped(objects: Items<Object>, fault: Option<SyntaxFault>) -> Judgement
    ensures { result ≡ spec.stopped objects fault }
{
    Judgement { objects, fault }
}

/// The objects of the statements before the first bad one, and its fault: `WrongKind` or `WrongDimension`, or what the passes
/// before found.
pub fn judge_statements(alloc: Global, whole: &Statements) -> Result<Judgement, AllocError>
    ensures { IfOk result (λ found. found ≡ spec.judgement whole.now) }
{
    let mut objects = Items::new(alloc);
    let mut solved = false;
    for one in whole.items.as_slice() {
        match behind_all(objects.as_slice(), solved, one.steps.as_slice()) {
            Ok(now) => solved = now,
            Err(fault) => return Ok(stopped(objects, Some(fault))),
        }
        match declared(objects.as_slice(), solved, one) {
            Ok(object) => objects.push(object)?,
            Err(fault) => return Ok(stopped(objects, Some(fault))),
        }
    }
    match behind_all(objects.as_slice(), solved, whole.steps.as_slice()) {
        Ok(_) => Ok(stopped(objects, whole.fault)),
        Err(fault) => Ok(stopped(objects, Some(fault))),
    }
}
