// Turns at the board that workers share.
ghost use Rattle.std.specs.Prelude.{ℕ, ◌≡◌, List, Some, IfOk, IfSome};
ghost use Rattle.milp.specs.Points.{Feasible};
ghost use Rattle.search_tree.specs.Kept.{HasSums};
ghost use Rattle.turn_pool.specs.Calls.{Called};
ghost use Rattle.turn_pool.specs.Passes.{view_of, IsPassOf, IsSamePool};
ghost use Rattle.board_pool.specs.Touched.{touched};
ghost use Rattle.board_pool.specs.Searches.{log_of, IsOfSearch};
ghost use Rattle.board_pool.specs.Grafts.{MayBePut};
ghost use Rattle.shared_search.specs.Holders.{first_of, after_tries, IsSameHolder};
ghost use Rattle.shared_search.specs.Leaves.{IsToldLeaf, IsLeafFor, IsOffered};

use board_pool::{Ask, Asked, Graft, Offer, SharedBoard, leases_stay_open, trees_of_leases};
use fraction::Frac;
use instance::Point;
use search_tree::{Leaf, Lease, Subtree};
use std::alloc::{AllocError, Global};
use std::thread::yield_now;
use turn_pool::{Event, Pass, Pool, PoolFault};

/// Tries in a row.
pub(crate) const TRIES: u32 = 100_000;

// Makes an event, and tries again while it is another's turn; not where memory is wanting, or all tries were in vain.
fn insist<X: Event<SharedBoard> + Drop>(
    alloc: Global,
    pool: &Pool<SharedBoard>,
    pass: &mut Pass<SharedBoard>,
    mut event: X,
) -> Option<X::Reply>
    requires pool { IsPassOf pool.now pass.old }
    requires may { X.may event (view_of pass.old).spans (first_of (view_of pass.old)) (view_of pass.old).seen }
    ensures pool { IsSamePool pass.old pass.new }
    ensures same { IsSameHolder (view_of pass.old) (view_of pass.new) }
    ensures made { IfSome result (λ r. (tries : List ℕ) × Called touched log_of IsOfSearch (X.does event) (after_tries (view_of pass.old) tries) r (view_of pass.new)) }
{
    for _ in 0..TRIES {
        match pool.call(alloc, pass, event) {
            Ok(reply) => return Some(reply),
            Err((back, PoolFault::Busy(_))) => event = back,
            Err((_, PoolFault::NoMemory)) => return None,
        }
        yield_now();
    }
    None
}

/// Asks for a leaf to work on, once.
pub(crate) fn ask(
    alloc: Global,
    pool: &Pool<SharedBoard>,
    pass: &mut Pass<SharedBoard>,
) -> Result<Asked, PoolFault>
    requires pool { IsPassOf pool.now pass.old }
    ensures pool { IsSamePool pass.old pass.new }
    ensures same { IsSameHolder (view_of pass.old) (view_of pass.new) }
    ensures told { IfOk result (IsToldLeaf (view_of pass.new)) }
{
    leases_stay_open();
    match pool.call(alloc, pass, Ask) {
        Ok(asked) => Ok(asked),
        Err((_, fault)) => Err(fault),
    }
}

/// Offers a feasible point, whose sums fit, and answers the best value then.
pub(crate) fn offer(
    alloc: Global,
    pool: &Pool<SharedBoard>,
    pass: &mut Pass<SharedBoard>,
    point: Point,
) -> Result<Option<Frac>, AllocError>
    requires pool { IsPassOf pool.now pass.old }
    requires feasible { Feasible (first_of (view_of pass.old)).problem point }
    requires sums { HasSums (first_of (view_of pass.old)).problem point }
    ensures pool { IsSamePool pass.old pass.new }
    ensures same { IsSameHolder (view_of pass.old) (view_of pass.new) }
    ensures offered { IfOk result (λ best. IsOffered (view_of pass.old) point best (view_of pass.new)) }
{
    leases_stay_open();
    match insist(alloc, pool, pass, Offer { point }) {
        Some(best) => Ok(best),
        None => Err(AllocError),
    }
}

/// Puts a tree in the place of a leased leaf. After an error the leaf stays leased.
pub(crate) fn put(
    alloc: Global,
    pool: &Pool<SharedBoard>,
    pass: &mut Pass<SharedBoard>,
    lease: Lease,
    tree: Subtree,
) -> Result<(), AllocError>
    requires pool { IsPassOf pool.now pass.old }
    requires may { MayBePut (first_of (view_of pass.old)) (view_of pass.old).spans (view_of pass.old).seen lease tree }
    ensures pool { IsSamePool pass.old pass.new }
    ensures same { IsSameHolder (view_of pass.old) (view_of pass.new) }
{
    match insist(alloc, pool, pass, Graft { lease, tree }) {
        Some(_) => Ok(()),
        None => Err(AllocError),
    }
}

/// Puts a leaf there.
pub(crate) fn put_leaf(
    alloc: Global,
    pool: &Pool<SharedBoard>,
    pass: &mut Pass<SharedBoard>,
    lease: Lease,
    leaf: Leaf,
) -> Result<(), AllocError>
    requires pool { IsPassOf pool.now pass.old }
    requires leaf { IsLeafFor (view_of pass.old) lease leaf }
    ensures pool { IsSamePool pass.old pass.new }
    ensures same { IsSameHolder (view_of pass.old) (view_of pass.new) }
{
    trees_of_leases();
    let tree = Subtree::leaf(alloc, leaf)?;
    put(alloc, pool, pass, lease, tree)
}
