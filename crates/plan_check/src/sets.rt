//! Sets of slots as a check asks for them.

ghost use Rattle.std.specs.Prelude.{◌≡◌, ℕ, ◌<◌, MatchOption};
ghost use Rattle.bit_sets.specs.Sets.{has_bit, most_slots};
ghost use Rattle.plan_check.specs.Breaches.{IsLeastSlot};
ghost use Rattle.plan_check.specs.PlanKept.{NoSlot, differ};

use bit_sets::least_slot;
use requirement_table::Mask;

/// The slots that stand in just one of two sets.
pub fn symmetric_difference(one: Mask, other: Mask) -> Mask
    ensures slots { (slot : ℕ) → slot < most_slots
        → has_bit result slot ≡ differ (has_bit one slot) (has_bit other slot) }
{
    Mask::from_bits(one.bits() ^ other.bits())
}

/// The least slot of a set, in the words of a breach.
pub fn least(set: Mask) -> Option<u8>
    ensures least { MatchOption result (NoSlot (has_bit set)) (λ slot. IsLeastSlot (has_bit set) slot) }
{
    least_slot(set)
}
