// Why a model has no problem.
ghost use Rattle.std.specs.Prelude.{◌≡◌};
ghost use Rattle.gmpl_generate.specs.Running.{fault_at};

use csv_tables::TableFault;
use gmpl_value::EvalFault;
use std::alloc::AllocError;

/// What is wrong with a statement that is executed.
#[derive(Clone, Copy, Drop)]
pub enum ModelFaultKind {
    /// Something in it has no value. `TooMany` is also a row, a column or an entry past a limit of an instance.
    Evaluation(EvalFault),
    /// The condition of a check is false.
    CheckFailed,
    /// The text of a table's file is bad, or what it gives is given already.
    Table(TableFault),
}

/// The first fault of a model: the number of its statement, counted from 1, the line of that statement's first token, counted
/// from 1, and what is wrong with it.
#[derive(Clone, Copy, Drop)]
pub struct ModelFault {
    pub statement: usize,
    pub line: usize,
    pub kind: ModelFaultKind,
}

/// A fault of the statement with this number, at this line.
pub(crate) fn fault_at(number: usize, line: usize, kind: ModelFaultKind) -> ModelFault
    ensures { result ≡ fault_at number line kind }
{
    ModelFault {
        statement: number,
        line,
        kind,
    }
}

// Why a statement stops: something in it has no value, or a condition is false.
#[derive(Clone, Copy, Drop)]
pub(crate) enum Stop<F> {
    Fault(F),
    CheckFailed,
    NoMemory,
}

impl<F> From<AllocError> for Stop<F> {
    ghost use Rattle.std.specs.Prelude.{◌≡◌};
    ghost use Rattle.gmpl_generate.specs.declared.fault.Stop.TheVariants as stops;

    ghost from_gives = { λ _ stop. stop ≡ stops.NoMemory };

    fn from(_: AllocError) -> Stop<F> {
        Stop::NoMemory
    }
}

// Why an execution stops, with the number and the line of the statement that does.
#[derive(Clone, Copy, Drop)]
pub(crate) enum Halt<F> {
    Fault(usize, usize, F),
    CheckFailed(usize, usize),
    NoMemory,
}

impl<F> From<AllocError> for Halt<F> {
    ghost use Rattle.std.specs.Prelude.{◌≡◌};
    ghost use Rattle.gmpl_generate.specs.declared.fault.Halt.TheVariants as halts;

    ghost from_gives = { λ _ halt. halt ≡ halts.NoMemory };

    fn from(_: AllocError) -> Halt<F> {
        Halt::NoMemory
    }
}
