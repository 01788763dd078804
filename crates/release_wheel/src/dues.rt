//! What the rows of a wheel have to send.

ghost use Rattle.std.specs.Prelude.{◌≡◌, ℕ, ◌+◌, ◌^◌, ◌<◌, ◌≤◌, ◌||◌, ◌&&◌, if◌then◌else◌, nat_eq};
ghost use Rattle.requirement_table.specs.Instance.{worst};
ghost use Rattle.bit_sets.specs.Sets.{has_bit, most_slots};

use bit_sets::rows::with;
use requirement_table::{Entry, Mask, cost};

/// A set of rows, their slots, and what they cost together, in bit times.
#[derive(Clone, Copy, Debug)]
pub struct Sum {
    pub rows: u128,
    pub slots: Mask,
    pub cost: u32,
}

impl Sum {
    /// The sum of no rows.
    #[inline(always)]
    pub fn none() -> Sum
        ensures none { result ≡ record { rows = 0; slots = 0; cost = 0 } }
    {
        Sum {
            rows: 0,
            slots: Mask::empty(),
            cost: 0,
        }
    }

    /// The sum with the row of an entry in it, where that is wanted.
    #[inline(always)]
    pub fn add(self, row: usize, entry: &Entry, wanted: bool) -> Sum
        requires row { row < 128 }
        requires slot { entry.now.slot < most_slots }
        requires length { entry.now.length ≤ 8 }
        requires cost { self.cost < 2 ^ 31 }
        ensures rows { (other : ℕ) → has_bit result.rows other ≡ ((wanted && nat_eq row other) || has_bit self.rows other) }
        ensures slots { (slot : ℕ) → has_bit result.slots slot
            ≡ ((wanted && nat_eq slot entry.now.slot) || has_bit self.slots slot) }
        ensures cost { result.cost ≡ self.cost + (if wanted then worst entry.now.length else 0) }
    {
        if !wanted {
            return self;
        }
        Sum {
            rows: with(self.rows, row),
            slots: self.slots.with(entry.slot),
            cost: self.cost + cost(entry.length),
        }
    }

    /// Takes the row of an entry in, in place.
    #[inline(always)]
    pub fn take_in(&mut self, row: usize, entry: &Entry)
        requires row { row < 128 }
        requires slot { entry.now.slot < most_slots }
        requires length { entry.now.length ≤ 8 }
        requires cost { self.old.cost < 2 ^ 31 }
        ensures rows { (other : ℕ) → has_bit self.new.rows other ≡ (nat_eq row other || has_bit self.old.rows other) }
        ensures slots { (slot : ℕ) → has_bit self.new.slots slot
            ≡ (nat_eq slot entry.now.slot || has_bit self.old.slots slot) }
        ensures cost { self.new.cost ≡ self.old.cost + worst entry.now.length }
    {
        self.rows = with(self.rows, row);
        self.slots = self.slots.with(entry.slot);
        self.cost += cost(entry.length);
    }
}

/// What rows have to send.
#[derive(Clone, Copy, Debug)]
pub struct Dues {
    /// The rows with an instance that was released and is not planned yet. Their slots are those that are pending, also
    /// where the rows are not kept.
    pub waiting: Sum,
    /// A cycle that is not above the last cycle of any of these.
    pub soonest: u64,
    /// The rows that have an instance in each cycle from now on.
    pub always: Sum,
}

impl Dues {
    /// Nothing but pending slots, whose rows are not known.
    pub fn of_slots(slots: Mask) -> Dues
        ensures slots { result.waiting.slots ≡ slots }
        ensures rows { result.waiting.rows ≡ 0 }
        ensures cost { result.waiting.cost ≡ 0 }
        ensures always { result.always ≡ record { rows = 0; slots = 0; cost = 0 } }
    {
        Dues {
            waiting: Sum {
                rows: 0,
                slots,
                cost: 0,
            },
            soonest: u64::MAX,
            always: Sum::none(),
        }
    }
}
