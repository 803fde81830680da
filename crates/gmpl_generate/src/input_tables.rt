// `table IN`.
ghost use Rattle.std.specs.Prelude.{◌≡◌};
ghost use Rattle.std.specs.Option.{option_copied};
ghost use Rattle.gmpl_generate.specs.InputTables as spec;
ghost use Rattle.gmpl_generate.specs.InputTables.{Takes, TakesData};

use crate::fault::{ModelFault, ModelFaultKind, fault_at};
use crate::turns::Pause;
use csv_tables::TableError;
use gmpl_data::{DataTables, LoadedModel};
use gmpl_resolved::{Numbered, NumberedStep, Step};
use gmpl_table_data::with_table as data_with_table;
use sqlite_items::Boxed;
use std::alloc::{AllocError, Global};

// Why a table gives nothing.
#[derive(Clone, Copy, Drop)]
pub(crate) enum Untaken {
    Fault(ModelFault),
    NoMemory,
}

impl From<AllocError> for Untaken {
    ghost use Rattle.std.specs.Prelude.{◌≡◌};
    ghost use Rattle.gmpl_generate.specs.declared.input_tables.Untaken.TheVariants as untaken;

    ghost from_gives = { λ _ error. error ≡ untaken.NoMemory };

    fn from(_: AllocError) -> Untaken {
        Untaken::NoMemory
    }
}

// The step at which an execution pauses.
fn step_of<'a>(
    statements: &'a [Numbered],
    steps: &'a [NumberedStep],
    pause: &Pause,
) -> Option<&'a NumberedStep>
    ensures { option_copied result ≡ spec.step_of statements.now steps.now pause.now }
{
    match statements.get(pause.place) {
        None => steps.get(pause.step),
        Some(numbered) => numbered.steps.get(pause.step),
    }
}

// The data with what the table of a step gives.
fn with_step(
    alloc: Global,
    tables: DataTables,
    step: &NumberedStep,
    text: &[u8],
) -> Result<DataTables, Untaken>
    ensures { TakesData (spec.with_step tables.objects text.now step.now step.now.step) result }
{
    let Step::TableInput(table) = &step.step else {
        return Ok(tables);
    };
    match data_with_table(alloc, tables, table, text) {
        Ok(tables) => Ok(tables),
        Err(TableError::Fault(fault)) => Err(Untaken::Fault(fault_at(
            step.number,
            step.line,
            ModelFaultKind::Table(fault),
        ))),
        Err(TableError::NoMemory) => Err(Untaken::NoMemory),
    }
}

fn with_step_at(
    alloc: Global,
    tables: DataTables,
    step: Option<&NumberedStep>,
    text: &[u8],
) -> Result<DataTables, Untaken>
    ensures { TakesData (spec.with_step_at tables.objects text.now (option_copied step.entry)) result }
{
    match step {
        None => Ok(tables),
        Some(step) => with_step(alloc, tables, step, text),
    }
}

// The model with what the table gives at which its execution pauses.
#[tactic(auto, unfolding(crate::specs::InputTables::with_table))]
fn taken(
    alloc: Global,
    model: LoadedModel,
    pause: &Pause,
    text: &[u8],
) -> Result<LoadedModel, Untaken>
    ensures { Takes (spec.with_table model pause.now text.now) result }
{
    let LoadedModel {
        statements,
        steps,
        tables,
        solution,
    } = model;
    let step = step_of(statements.as_slice(), steps.as_slice(), pause);
    match with_step_at(alloc, tables, step, text) {
        Ok(tables) => Ok(LoadedModel {
            statements,
            steps,
            tables,
            solution,
        }),
        Err(error) => Err(error),
    }
}

/// The model with what the table gives at which its execution pauses.
pub(crate) fn with_table(
    alloc: Global,
    model: Boxed<LoadedModel>,
    pause: &Pause,
    text: &[u8],
) -> Result<Boxed<LoadedModel>, Untaken>
    ensures { Takes (spec.with_table model pause.now text.now) result }
{
    match taken(alloc, model.into_inner(), pause, text) {
        Ok(model) => Ok(Boxed::new(alloc, model)?),
        Err(error) => Err(error),
    }
}
