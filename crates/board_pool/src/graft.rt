// The graft of a tree, as an event.
ghost use Rattle.std.specs.Prelude.{◌≡◌};
ghost use Rattle.search_tree.specs.Steps.{IsGraft};
ghost use Rattle.board_pool.specs.Grafts.{MayBePut};
ghost use Rattle.board_pool.specs.GraftsStay.{graft_stays};

use crate::machine::SharedBoard;
use fraction::Frac;
use search_tree::{Lease, Subtree, kept_boards};
use std::alloc::Global;
use turn_pool::Event;

/// A tree is put in the place of a leaf that is leased. The reply is the best value, if there is a best point.
#[derive(Drop)]
pub struct Graft {
    pub lease: Lease,
    pub tree: Subtree,
}

impl Event<SharedBoard> for Graft {
    type Reply = Option<Frac>;

    ghost may = { λ event spans first log. MayBePut first spans log event.lease event.tree };

    ghost does = { λ event seat b best c. IsGraft b seat event.lease event.tree best c };

    fn make(
        self,
        alloc: Global,
        seat: u32,
        machine: &mut SharedBoard,
    ) -> Result<Option<Frac>, Graft> {
        kept_boards();
        let Graft { lease, tree } = self;
        match machine.graft(alloc, seat, lease.copy(), tree) {
            Ok(best) => {
                machine.keeps_its_log();
                Ok(best)
            }
            Err(tree) => Err(Graft { lease, tree }),
        }
    }

    ghost stays = { λ event spans first log rest may apart. graft_stays first spans log rest event.lease event.tree may apart };
}
