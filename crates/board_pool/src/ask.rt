// The lease of a leaf, as an event.
ghost use Rattle.std.specs.Prelude.{◌≡◌};
ghost use Rattle.board_pool.specs.Asks.{IsAsked};

use crate::asked::Asked;
use crate::machine::SharedBoard;
use std::alloc::Global;
use turn_pool::Event;

/// Who makes it asks for a leaf to work on.
#[derive(Clone, Copy, Drop)]
pub struct Ask;

impl Event<SharedBoard> for Ask {
    type Reply = Asked;

    ghost may = { λ event spans first log. Unit {0} };

    ghost does = { λ event seat b asked c. IsAsked b seat asked c };

    fn make(self, alloc: Global, seat: u32, machine: &mut SharedBoard) -> Result<Asked, Ask> {
        match machine.lease(alloc, seat) {
            Ok(asked) => {
                machine.keeps_its_log();
                Ok(asked)
            }
            Err(_) => Err(self),
        }
    }

    ghost stays = { λ event spans first log rest may apart. tt };
}
