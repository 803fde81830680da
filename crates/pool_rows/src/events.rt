// The events of a board of tasks, for a pool.
ghost use Rattle.std.specs.Prelude.{◌≡◌};
ghost use Rattle.pool_rows.specs.Tasks.{Asks, Settles, IsOpen};
ghost use Rattle.pool_rows.specs.OpenLeases.{open_stays};

use crate::board::TaskBoard;
use crate::entry::Lease;
use std::alloc::Global;
use turn_pool::Event;

/// Who makes it asks for a task.
#[derive(Clone, Copy, Drop, Debug, PartialEq, Eq)]
pub struct Ask;

impl Event<TaskBoard> for Ask {
    type Reply = Option<Lease>;

    ghost may = { λ event spans first log. Unit {0} };

    ghost does = { λ event. Asks };

    fn make(
        self,
        _alloc: Global,
        seat: u32,
        machine: &mut TaskBoard,
    ) -> Result<Option<Lease>, Ask> {
        match machine.ask(seat) {
            Ok(lease) => Ok(lease),
            Err(_) => Err(self),
        }
    }

    ghost stays = { λ event spans first log rest may apart. tt };
}

/// Who makes it settles a lease with an amount.
#[derive(Clone, Copy, Drop, Debug, PartialEq, Eq)]
pub struct Settle {
    pub lease: Lease,
    pub amount: u64,
}

impl Event<TaskBoard> for Settle {
    type Reply = ();

    ghost may = { λ event spans first log. IsOpen spans log event.lease };

    ghost does = { λ event seat b reply c. Settles event.lease event.amount seat b c };

    fn make(self, _alloc: Global, seat: u32, machine: &mut TaskBoard) -> Result<(), Settle> {
        match machine.settle(seat, self.lease, self.amount) {
            Ok(()) => Ok(()),
            Err(_) => Err(self),
        }
    }

    ghost stays = { λ event spans first log rest may apart. open_stays spans log rest event.lease may apart };
}
