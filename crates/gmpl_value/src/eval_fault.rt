// Why an expression has no value.
use crate::SetFault;
use fraction::NoFit;
use std::alloc::{AllocError, AllocFailed};

/// Why an expression has no value.
#[derive(Clone, Copy, Drop)]
pub enum EvalFault {
    /// Nothing gives a value.
    NoValue,
    /// A subscript, or a place in a string, is outside what there is.
    OutOfDomain,
    /// A value doesn't meet a restriction of its parameter or set.
    Restriction,
    DivZero,
    /// A number that has to be whole isn't.
    NotWhole,
    /// A string stands for no number.
    NotANumber,
    /// A variable stands under an operation that is no linear form.
    Nonlinear,
    /// A format asks for what isn't there.
    BadFormat,
    /// A chain of members is too long.
    Depth,
    /// A set would have more than 5,000,000 elements.
    TooMany,
    /// What was solved has no dual values.
    NoDual,
    /// The result of an operation doesn't fit.
    NoFit(NoFit),
    NoMemory,
}

impl From<AllocError> for EvalFault {
    ghost use Rattle.std.specs.Prelude.{◌≡◌};
    ghost use Rattle.gmpl_value.specs.declared.eval_fault.EvalFault.TheVariants as faults;

    ghost from_gives = { λ _ fault. fault ≡ faults.NoMemory };

    fn from(_: AllocError) -> EvalFault {
        EvalFault::NoMemory
    }
}

impl<T: Drop> From<AllocFailed<T>> for EvalFault {
    ghost use Rattle.std.specs.Prelude.{◌≡◌};
    ghost use Rattle.gmpl_value.specs.declared.eval_fault.EvalFault.TheVariants as faults;

    ghost from_gives = { λ _ fault. fault ≡ faults.NoMemory };

    fn from(_: AllocFailed<T>) -> EvalFault {
        EvalFault::NoMemory
    }
}

impl From<NoFit> for EvalFault {
    ghost use Rattle.std.specs.Prelude.{◌≡◌};
    ghost use Rattle.gmpl_value.specs.declared.eval_fault.EvalFault.TheVariants as faults;

    ghost from_gives = { λ n fault. fault ≡ faults.NoFit n };

    fn from(no_fit: NoFit) -> EvalFault {
        EvalFault::NoFit(no_fit)
    }
}

impl From<SetFault> for EvalFault {
    ghost use Rattle.std.specs.Prelude.{◌≡◌};
    ghost use Rattle.gmpl_value.specs.Outcome.{as_eval_fault};

    ghost from_gives = { λ set_fault fault. fault ≡ as_eval_fault set_fault };

    fn from(set_fault: SetFault) -> EvalFault {
        match set_fault {
            SetFault::TooMany => EvalFault::TooMany,
            SetFault::NoFit(no_fit) => EvalFault::NoFit(no_fit),
            SetFault::NoMemory => EvalFault::NoMemory,
        }
    }
}
