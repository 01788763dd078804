//! A pass of a lock.

ghost use Rattle.std.specs.Prelude.{◌≡◌};
ghost use Rattle.turn_lock.specs.Passes.{Facts};

use crate::stands::Stands;
use crate::view::View;
use atomic_table::Seat;
use std::marker::Model;

/// A place at a lock, with which a thread tries for the turn. Contracts see it as the lock's table and
/// what the pass knows (`View`). It holds the turn where `found` is there.
///
/// A pass that is dropped is never joined, and then its lock cannot be closed.
#[derive(Drop)]
pub struct Pass<T: Stands> {
    pub(crate) seat: Seat<Option<T>, View<T::Entry, T::Fixed>>,
    pub(crate) number: u64,
    pub(crate) made: u64,
    pub(crate) out: u64,
}

impl<T: Stands> Model for Pass<T> {
    ghost use Rattle.std.specs.Prelude.{◌≡◌, false};
    ghost use Rattle.turn_lock.specs.Passes.{Known, Facts, carried};

    ghost Value = { Known T.Entry T.Fixed };

    ghost view = { λ p. record { table = p.seat.table_id; view = p.seat.me.0 } };

    ghost invariant = { λ p. (p.number ≡ p.seat.me.0.number) × (p.made ≡ p.seat.me.0.made)
        × (p.out ≡ p.seat.me.0.out) × (p.seat.me.0.spent ≡ false)
        × (p.seat.me.1 ≡ carried p.seat.me.0.found) × Facts T.number p.seat.me.0 };
}

impl<T: Stands> Pass<T> {
    /// The pass's number: 0 for the first pass of a lock, and for the others from 1 on, in the order in
    /// which they were split from it.
    pub fn number(&self) -> u64
        ensures number { result ≡ self.now.view.number }
        ensures facts { Facts T.number self.now.view }
    {
        self.number
    }

    /// How many passes were split from it.
    pub fn made(&self) -> u64
        ensures made { result ≡ self.now.view.made }
        ensures facts { Facts T.number self.now.view }
    {
        self.made
    }

    /// How many of the passes that were split from it were not joined back.
    pub fn out(&self) -> u64
        ensures out { result ≡ self.now.view.out }
        ensures facts { Facts T.number self.now.view }
    {
        self.out
    }
}
