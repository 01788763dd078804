//! The run of equal bits that a sender or a reader of stuffed bits keeps.

ghost use Rattle.std.specs.Prelude.{◌≡◌, Bool, ◌∷◌, [], List, not, nat_le};
ghost use Rattle.stuff_bound.specs.Stuffing.{Tracks, at_stuff_place, last_bit, run};

use std::marker::Model;

/// How many equal bits are followed by an opposite one.
const FULL: u8 = 5;

/// The last bit of those sent so far, and how many equal bits came last, counted up to five.
///
/// It is all that stuffing needs to know of the bits before a place. Its clauses speak of every list
/// of bits sent, newest first, so a caller may keep that list, or only say in a proof which one it is.
#[derive(Clone, Copy, Debug, Default, PartialEq, Eq)]
pub struct BitRun {
    last: bool,
    count: u8,
}

impl Model for BitRun {
    ghost use Rattle.std.specs.Prelude.{◌≤◌};
    ghost use Rattle.stuff_bound.specs.Stuffing.{LastRun};

    ghost Value = { LastRun };

    ghost view = { λ r. record { last = r.last; count = r.count } };

    ghost invariant = { λ r. r.count ≤ 5 };

    ghost inverse = { λ v. record { last = v.last; count = v.count } };
}

impl BitRun {
    /// Before the first bit.
    pub fn new() -> Self
        ensures tracks { Tracks result [] }
    {
        BitRun {
            last: false,
            count: 0,
        }
    }

    /// The run once `bit` was sent too.
    pub fn then(self, bit: bool) -> Self
        ensures tracks { (sent : List Bool) → Tracks self sent → Tracks result (bit ∷ sent) }
    {
        if bit != self.last {
            BitRun {
                last: bit,
                count: 1,
            }
        } else if self.count < FULL {
            BitRun {
                last: bit,
                count: self.count + 1,
            }
        } else {
            self
        }
    }

    /// Whether five equal bits came last, so that the next place is a stuff place.
    pub fn is_full(self) -> bool
        ensures full { (sent : List Bool) → Tracks self sent → result ≡ at_stuff_place sent }
    {
        self.count == FULL
    }

    /// The opposite of the bit that was sent last, which is what a sender puts at a stuff place.
    pub fn opposite(self) -> bool
        ensures opposite { (sent : List Bool) → Tracks self sent → result ≡ not (last_bit sent) }
    {
        !self.last
    }

    /// Whether `bit` would be a sixth equal bit, which is never sent.
    pub fn is_sixth(self, bit: bool) -> bool
        ensures sixth { (sent : List Bool) → Tracks self sent → result ≡ nat_le 6 (run (bit ∷ sent)) }
    {
        self.is_full() && bit == self.last
    }
}
