// Where work on a dictionary fails.
ghost use Rattle.std.specs.Prelude.{◌≡◌};
ghost use Rattle.dictionary.specs.declared.fault.Fault.TheVariants.{NoFit as no_fit, NoMemory as no_memory};

use fraction::NoFit;
use std::alloc::AllocError;

/// An operation whose result does not fit, or want of memory.
#[derive(Clone, Copy)]
pub enum Fault {
    NoFit(NoFit),
    NoMemory,
}

impl From<AllocError> for Fault {
    ghost from_gives = { λ _ e. e ≡ no_memory };

    fn from(_error: AllocError) -> Fault {
        Fault::NoMemory
    }
}

impl From<NoFit> for Fault {
    ghost from_gives = { λ f e. e ≡ no_fit f };

    fn from(fault: NoFit) -> Fault {
        Fault::NoFit(fault)
    }
}
