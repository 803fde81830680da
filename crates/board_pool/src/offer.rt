// The offer of a point, as an event.
ghost use Rattle.std.specs.Prelude.{◌≡◌};
ghost use Rattle.milp.specs.Points.{Feasible};
ghost use Rattle.search_tree.specs.Kept.{HasSums};
ghost use Rattle.search_tree.specs.Steps.{IsOffer};

use crate::machine::SharedBoard;
use fraction::Frac;
use instance::Point;
use std::alloc::Global;
use turn_pool::Event;

/// A feasible point, whose sums fit, is offered. The reply is the best value then.
#[derive(Drop)]
pub struct Offer {
    pub point: Point,
}

impl Event<SharedBoard> for Offer {
    type Reply = Option<Frac>;

    ghost may = { λ event spans first log. Feasible first.problem event.point × HasSums first.problem event.point };

    ghost does = { λ event seat b best c. IsOffer b seat event.point best c };

    fn make(
        self,
        _alloc: Global,
        seat: u32,
        machine: &mut SharedBoard,
    ) -> Result<Option<Frac>, Offer> {
        let Offer { point } = self;
        match machine.offer(seat, point) {
            Ok(best) => {
                machine.keeps_its_log();
                Ok(best)
            }
            Err(point) => Err(Offer { point }),
        }
    }

    ghost stays = { λ event spans first log rest may apart. may };
}
