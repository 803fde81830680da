// Why a search finds no verdict, and what it has shown.
ghost use Rattle.std.specs.Prelude.{◌≡◌, None};
ghost use Rattle.branch_search.specs.declared.whole_fault.VerdictFault.TheVariants.{NoMemory};

use branch_search::VerdictFault;
use partial_certificate::PartialCertificate;
use sqlite_items::Boxed;
use std::alloc::AllocError;

/// Why a search finds no verdict of a problem, and what it has shown of it where it came to a limit.
#[derive(Drop)]
pub struct Unsolved {
    /// Why no verdict is found.
    pub fault: VerdictFault,
    /// What the search has shown; None where it came to no limit, or memory is wanting.
    pub shown: Option<Boxed<PartialCertificate>>,
}

impl From<AllocError> for Unsolved {
    ghost from_gives = { λ _ unsolved. unsolved ≡ record { fault = NoMemory; shown = None } };

    fn from(_error: AllocError) -> Unsolved {
        Unsolved {
            fault: VerdictFault::NoMemory,
            shown: None,
        }
    }
}
