// Faults of a search as those of the whole.
ghost use Rattle.std.specs.Prelude.{◌≡◌};
ghost use Rattle.branch_search.specs.Told.{ray_or_fault};

use crate::whole_fault::{VerdictFault, Wanted};
use crate::{EndlessAt, SearchFault};

/// The ray that a search for what is wanted has found, with its node, or why it found no verdict.
pub fn ray_or_fault(wanted: Wanted, fault: SearchFault) -> Result<EndlessAt, VerdictFault>
    ensures { result ≡ ray_or_fault wanted fault }
{
    match fault {
        SearchFault::Unbounded(endless) => Ok(endless),
        SearchFault::NoFit(site) => Err(VerdictFault::NoFit(wanted, site)),
        SearchFault::PivotLimit(bases, board) => {
            Err(VerdictFault::PivotLimit(wanted, bases, board))
        }
        SearchFault::SplitLimit(board) => Err(VerdictFault::SplitLimit(wanted, board)),
        SearchFault::NoMemory => Err(VerdictFault::NoMemory),
    }
}
