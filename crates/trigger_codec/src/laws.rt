//! Laws about the definitions of this crate. Each function has an empty body, and its contract is the
//! law.

ghost use Rattle.std.specs.Prelude.{◌≡◌, ℕ, ◌+◌, ◌-◌, ◌/◌, ◌%◌, ◌^◌, ◌<◌, ◌≤◌, slice_index, Some};
ghost use Rattle.profile.specs.Limits.{first_slots, longest_window};
ghost use Rattle.bit_sets.specs.Sets.{has_bit, most_slots};
ghost use Rattle.trigger_codec.specs.Bytes.{flags_of_both, low_slots, high_slots};
ghost use Rattle.trigger_codec.specs.Bytes.{trigger_bytes, second_bytes, triggers_with};
ghost use Rattle.trigger_codec.specs.Heard.{heard_of};

/// The flag of a slot s below 40 is bit s modulo 8 of byte 3 + s div 8 of the first trigger frame. That
/// of a slot s from 40 on is bit (s - 40) modulo 8 of byte 1 + (s - 40) div 8 of the second one. Bit 0
/// is the least significant. What the two frames flag are together the slots that are flagged. The first
/// frame alone flags them where all of them are below 40.
pub fn flags_by_slot()
    ensures first { (cycle l mask slot : ℕ) → slot < first_slots
        → has_bit (slice_index (trigger_bytes cycle l mask) (3 + slot / 8)) (slot % 8) ≡ has_bit mask slot }
    ensures second { (cycle mask slot : ℕ) → first_slots ≤ slot → slot < most_slots
        → has_bit (slice_index (second_bytes cycle mask) (1 + (slot - first_slots) / 8)) ((slot - first_slots) % 8)
        ≡ has_bit mask slot }
    ensures both { (mask : ℕ) → mask < 2 ^ most_slots → flags_of_both (low_slots mask) (high_slots mask) ≡ mask }
    ensures alone { (mask : ℕ) → mask < 2 ^ first_slots → low_slots mask ≡ mask }
{}

/// The trigger frames of a cycle say what they were made of, with any number of slots.
pub fn triggers_are_heard()
    ensures heard { (slots cycle l mask : ℕ) → slots ≤ most_slots → l ≤ longest_window → mask < 2 ^ slots
        → heard_of slots cycle (triggers_with slots cycle l mask) ≡ Some (record { l = l; mask = mask }) }
{}
