// The calls on a pool.
ghost use Rattle.std.specs.Prelude.{ℕ, ◌≡◌, ◌≢◌, ◌+◌, ◌<◌, ◌≤◌, ◌^◌, [], ◌∷◌, ◌++◌, true, false, length, Some, None, IfOk, IfErr, MatchResult};
ghost use Rattle.turn_pool.specs.Logs.{Has, GoesOn, IsApart};
ghost use Rattle.turn_pool.specs.Turns.{held, opening_view, kept_back, given, both, untold};
ghost use Rattle.turn_pool.specs.Calls.{Called, Refused};
ghost use Rattle.turn_pool.specs.Passes.{key_of, view_of, IsPassOf, IsSamePool};

use crate::fault::PoolFault;
use crate::hand::{hand_over, look, take_in};
use crate::machine::{Event, Machine};
use crate::pass::{Pass, Pool};
use crate::turn::{make, try_turn};
use crate::view::Key;
use atomic_table::Table;
use std::alloc::{AllocError, Global};
use std::snapshot::Snapshot;

impl<B: Machine> Pool<B> {
    /// A pool of a machine at its start, with a pass that holds all numbers below `seats`.
    pub fn start(alloc: Global, machine: B, seats: u32) -> Result<(Pool<B>, Pass<B>), AllocError>
        requires seats { 0 < seats }
        requires machine { (B.log machine ≡ []) × B.replays machine machine }
        ensures pool { IfOk result (λ r. IsPassOf r.0 r.1) }
        ensures view { IfOk result (λ r. view_of r.1 ≡ opening_view (key_of r.0)) }
        ensures key { IfOk result (λ r. ((key_of r.0).first.value ≡ machine) × ((key_of r.0).seats ≡ seats)) }
    {
        let key = Key {
            first: Snapshot::of(&machine),
            seats,
        };
        let mut slots = Vec::with_capacity(alloc, 1)?;
        slots.push_reserved(Some(machine));
        match Table::new(alloc, &[0, 0], slots, &key) {
            Ok((table, seat)) => Ok((
                Pool { table },
                Pass {
                    seat,
                    own: 0,
                    next: 1,
                    end: seats,
                },
            )),
            Err(_) => Err(AllocError),
        }
    }

    /// Makes an event at the machine, if this one try wins the turn. After an error the machine is as others left it, and
    /// the event comes back.
    pub fn call<X: Event<B>>(
        &self,
        alloc: Global,
        pass: &mut Pass<B>,
        event: X,
    ) -> Result<X::Reply, (X, PoolFault)>
        requires pool { IsPassOf self.now pass.old }
        requires may { X.may event (view_of pass.old).spans (view_of pass.old).key.first.value (view_of pass.old).seen }
        ensures pool { IsSamePool pass.old pass.new }
        ensures ok { IfOk result (λ r. Called B.touched B.log B.replays (X.does event) (view_of pass.old) r (view_of pass.new)) }
        ensures err { IfErr result (λ e. (e.0 ≡ event) × Refused B.touched B.log B.replays (view_of pass.old) e.1 (view_of pass.new)) }
    {
        match try_turn(&self.table.shared, &mut pass.seat, pass.own) {
            Some(holder) => Err((event, PoolFault::Busy(holder))),
            None => match make(alloc, &self.table.shared, &mut pass.seat, pass.own, event) {
                Ok(reply) => Ok(reply),
                Err(event) => Err((event, PoolFault::NoMemory)),
            },
        }
    }

    /// Hands over numbers that were never used. The new pass has seen as much, and the least of them is its own.
    pub fn split(&self, pass: &mut Pass<B>, give: u32) -> Pass<B>
        requires pool { IsPassOf self.now pass.old }
        requires give { (0 < give) × ((view_of pass.old).from + give ≤ (view_of pass.old).to) }
        ensures pool { (IsSamePool pass.old pass.new) × (IsSamePool pass.old result) }
        ensures kept { view_of pass.new ≡ kept_back give (view_of pass.old) }
        ensures given { view_of result ≡ given give (view_of pass.old) }
        ensures no_call { IsApart B.touched (((view_of pass.old).from, (view_of pass.old).to) ∷ []) [] (view_of pass.old).seen }
    {
        look(&self.table.shared, &mut pass.seat);
        let seat = hand_over(&self.table.shared, &mut pass.seat, give);
        let own = pass.next;
        pass.next = own + give;
        Pass {
            seat,
            own,
            next: own + 1,
            end: own + give,
        }
    }

    /// Takes in another pass, with its numbers. The longer of their logs goes on from both, without the numbers that either
    /// used.
    pub fn join(&self, pass: &mut Pass<B>, other: Pass<B>)
        requires pool { (IsPassOf self.now pass.old) × (IsPassOf self.now other) }
        ensures pool { IsSamePool pass.old pass.new }
        ensures view { view_of pass.new ≡ untold (both (view_of pass.old) (view_of other)) }
        ensures mine { GoesOn B.touched (view_of pass.old).spans (view_of pass.old).seen (view_of pass.new).seen }
        ensures others { GoesOn B.touched (view_of other).spans (view_of other).seen (view_of pass.new).seen }
    {
        let Pass {
            seat,
            own: _,
            next: _,
            end: _,
        } = other;
        take_in(&self.table.shared, &mut pass.seat, seat);
        look(&self.table.shared, &mut pass.seat);
    }

    /// The machine, once a pass holds all numbers: its log is what the pass has seen.
    pub fn close(self, pass: Pass<B>) -> B
        requires pool { (IsPassOf self pass) × ((view_of pass).key ≡ key_of self) }
        requires all { (k : ℕ) → k < (view_of pass).key.seats → Has (held (view_of pass)) k }
        ensures log { B.log result ≡ (view_of pass).seen }
        ensures replay { B.replays (key_of self).first.value result }
    {
        let Pass {
            seat,
            own: _,
            next: _,
            end: _,
        } = pass;
        let Pool { table } = self;
        let mut closed = table.close_with(seat);
        let machine = closed.take(0);
        closed.free();
        machine.unwrap()
    }
}

impl<B: Machine> Pass<B> {
    /// The number that its calls carry.
    pub fn own(&self) -> u32
        ensures { result ≡ (view_of self.now).own }
    {
        self.own
    }

    /// How many numbers it may hand over.
    pub fn unused(&self) -> u32
        ensures { (view_of self.now).from + result ≡ (view_of self.now).to }
    {
        self.end - self.next
    }
}
