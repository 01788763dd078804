//! What sets of slots cost.

ghost use Rattle.std.specs.Prelude.{◌≡◌, ◌≢◌, ℕ, ◌+◌, ◌*◌, ◌<◌, ◌≤◌, slice_index_or};
ghost use Rattle.bit_sets.specs.Sets.{has_bit, sum_where};
ghost use Rattle.plan_check.specs.Cycles.{width_of};

use requirement_table::Mask;
use std::marker::Model;

/// The numbers of the slots are below this: the bits of two words.
pub const ROOM: usize = 128;

/// The number above those of one word.
const ABOVE_WORD: u128 = 1 << 64;

/// For each slot what its frame costs, in bit times. Contracts see the list.
#[derive(Clone, Copy, Debug)]
pub struct Costs {
    costs: [u32; ROOM],
}

impl Model for Costs {
    ghost use Rattle.std.specs.Prelude.{◌≡◌, ◌≢◌, ℕ, ◌≤◌, List, slice_index_or};
    ghost use Rattle.plan_check.specs.Cycles.{AreCosts};

    ghost Value = { List ℕ };

    ghost view = { λ c. c.costs };

    ghost invariant = { λ c. AreCosts c.costs };

    ghost inverse = { λ costs. record { costs = costs } };
}

impl Costs {
    /// No slot costs anything.
    pub fn none() -> Costs {
        Costs { costs: [0; ROOM] }
    }

    /// What the frame of a slot costs.
    #[inline(always)]
    pub fn of(&self, slot: usize) -> u32
        requires slot { slot < 128 }
        ensures cost { result ≡ slice_index_or self.now slot 0 }
        ensures small { result ≤ 255 }
    {
        self.costs[slot]
    }

    /// From now on the frame of the slot costs this.
    pub fn set(&mut self, slot: usize, cost: u32)
        requires slot { slot < 128 }
        requires small { cost ≤ 255 }
        ensures same { slice_index_or self.new slot 0 ≡ cost }
        ensures others { (other : ℕ) → other ≢ slot
            → slice_index_or self.new other 0 ≡ slice_index_or self.old other 0 }
    {
        self.costs[slot] = cost;
    }
}

/// What the slots of a set cost together, in bit times.
pub fn width(costs: &Costs, mask: Mask) -> u32
    ensures width { result ≡ width_of costs.now mask }
{
    let bits = mask.bits();
    let low = word_width(costs, 0, (bits % ABOVE_WORD) as u64);
    let high = word_width(costs, 64, (bits / ABOVE_WORD) as u64);
    low + high
}

/// What the slots from `base` on cost together whose bits are set in a word. Each turn takes the lowest set bit.
fn word_width(costs: &Costs, base: usize, word: u64) -> u32
    requires base { base ≤ 64 }
    ensures width { result ≡ sum_where 64 (has_bit word) (λ slot. slice_index_or costs.now (base + slot) 0) }
    ensures bound { result ≤ 255 * 64 }
{
    let mut sum = 0;
    let mut left = word;
    while left != 0 {
        sum += costs.of(base + left.trailing_zeros() as usize);
        left &= left - 1;
    }
    sum
}
