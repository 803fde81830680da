// The names of a statement, resolved.
ghost use Rattle.gmpl_names.specs.Statements as spec;
ghost use Rattle.gmpl_names.specs.Statements.{Judges, JudgesBoth};

use crate::actions::action;
use crate::parts::{constraint, declaration, objective};
use crate::resolved::Resolved;
use crate::table_names::{apart, declare, declare_table};
use crate::tables::table_input;
use crate::{Names, NamesError};
use gmpl_resolved as resolved;
use gmpl_syntax::{Action, Constraint, Declaration, Objective, Statement, TableInput};
use sqlite_items::Boxed;
use std::alloc::Global;

fn declared(
    alloc: Global,
    objects: &mut Names,
    whole: &Declaration,
) -> Result<resolved::Declaration, NamesError>
    ensures { Judges (spec.declared whole.now objects.old) result objects.new }
{
    declare(alloc, objects, &whole.head.name)?;
    let mut scope = Names::new(alloc);
    declaration(alloc, objects, &mut scope, whole)
}

fn declared_constraint(
    alloc: Global,
    objects: &mut Names,
    whole: &Constraint,
) -> Result<Boxed<resolved::Constraint>, NamesError>
    ensures { Judges (spec.declared_constraint whole.now objects.old) result objects.new }
{
    declare(alloc, objects, &whole.head.name)?;
    let mut scope = Names::new(alloc);
    constraint(alloc, objects, &mut scope, whole)
}

fn declared_objective(
    alloc: Global,
    objects: &mut Names,
    whole: &Objective,
) -> Result<Boxed<resolved::Objective>, NamesError>
    ensures { Judges (spec.declared_objective whole.now objects.old) result objects.new }
{
    declare(alloc, objects, &whole.head.name)?;
    let mut scope = Names::new(alloc);
    objective(alloc, objects, &mut scope, whole)
}

fn read(
    alloc: Global,
    objects: &Names,
    tables: &mut Names,
    whole: &TableInput,
) -> Result<Resolved, NamesError>
    ensures { JudgesBoth (spec.read whole.now objects.now tables.old) result objects.now tables.new }
{
    declare_table(alloc, objects, tables, &whole.name)?;
    let mut scope = Names::new(alloc);
    let made = table_input(alloc, objects, &mut scope, whole)?;
    Ok(Resolved::Step(resolved::Step::TableInput(made)))
}

fn executed(
    alloc: Global,
    objects: &Names,
    tables: &mut Names,
    whole: &Action,
) -> Result<Resolved, NamesError>
    ensures { JudgesBoth (spec.executed whole.now objects.now tables.old) result objects.now tables.new }
{
    let mut scope = Names::new(alloc);
    let made = action(alloc, objects, &mut scope, tables, whole)?;
    Ok(Resolved::Step(resolved::Step::Action(made)))
}

/// What becomes of the next statement, behind these names of objects and of tables; those that it declares are added.
pub(crate) fn judged(
    alloc: Global,
    objects: &mut Names,
    tables: &mut Names,
    whole: &Statement,
) -> Result<Resolved, NamesError>
    ensures { JudgesBoth (spec.judged whole.now objects.old tables.old) result objects.new tables.new }
{
    match whole {
        Statement::Set(whole) => {
            apart(tables, &whole.head.name)?;
            let made = declared(alloc, objects, whole)?;
            Ok(Resolved::Declaration(resolved::Statement::Set(made)))
        }
        Statement::Param(whole) => {
            apart(tables, &whole.head.name)?;
            let made = declared(alloc, objects, whole)?;
            Ok(Resolved::Declaration(resolved::Statement::Param(made)))
        }
        Statement::Var(whole) => {
            apart(tables, &whole.head.name)?;
            let made = declared(alloc, objects, whole)?;
            Ok(Resolved::Declaration(resolved::Statement::Var(made)))
        }
        Statement::Constraint(whole) => {
            apart(tables, &whole.head.name)?;
            let made = declared_constraint(alloc, objects, whole)?;
            Ok(Resolved::Declaration(resolved::Statement::Constraint(made)))
        }
        Statement::Objective(whole) => {
            apart(tables, &whole.head.name)?;
            let made = declared_objective(alloc, objects, whole)?;
            Ok(Resolved::Declaration(resolved::Statement::Objective(made)))
        }
        Statement::TableInput(whole) => read(alloc, objects, tables, whole),
        Statement::Solve => Ok(Resolved::Step(resolved::Step::Solve)),
        Statement::Action(whole) => executed(alloc, objects, tables, whole),
        Statement::Data => Ok(Resolved::Nothing),
    }
}
