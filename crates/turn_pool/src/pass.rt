// What callers hold: a pool, and passes to it.
ghost use Rattle.std.specs.Prelude.{◌≡◌, ◌<◌, ◌≤◌, ◌^◌, [], true, false};

use crate::machine::Machine;
use crate::rule::Turns;
use crate::view::{Key, View};
use atomic_table::{Seat, Table};
use std::alloc::Global;

/// A pool: the machine in its slot, and whose turn it is.
#[derive(Drop)]
pub struct Pool<B: Machine> {
    pub(crate) table: Table<Option<B>, View<B, B::Entry>, Key<B>, Turns<B>, Global>,
    ghost sized: { (table.shared.table_id.words ≡ 2) × (table.shared.table_id.slots ≡ 1) },
}

/// A pass: the right to make calls on a pool under a number of its own. It holds numbers that it may hand over.
#[derive(Drop)]
pub struct Pass<B: Machine> {
    pub(crate) seat: Seat<Option<B>, View<B, B::Entry>>,
    pub(crate) own: u32,
    pub(crate) next: u32,
    pub(crate) end: u32,
    ghost rests: { (seat.me.1 ≡ []) × (seat.me.0.turning ≡ false) × (seat.me.0.live ≡ true) },
    ghost plain: { (seat.me.0.told ≡ []) × (seat.me.0.told_spans ≡ []) },
    ghost own_is: { seat.me.0.own ≡ own },
    ghost unused_is: { (seat.me.0.from ≡ next) × (seat.me.0.to ≡ end) × (next ≤ end) },
    ghost few: { seat.me.0.key.seats < 2 ^ 32 },
}
