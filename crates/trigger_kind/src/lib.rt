//! The kind of trigger of an FTT-CAN bus: how many trigger frames open each elementary cycle. One flags 40 slots, and two
//! flag 96. What else depends on it stands in `trigger_codec`: the bytes of the frames, and what is heard of them.
#![tactic(auto)]

ghost use Rattle.std.specs.Prelude.{◌≡◌, ◌≤◌, ◌*◌, ◌↔◌, IsTrue};
ghost use Rattle.stuff_bound.specs.Stuffing.{worst};
ghost use Rattle.trigger_kind.specs.Kind.{IsSlots, opening_of, part_of, slots_of, triggers_of};

use profile::{FIRST_SLOTS, MOST_SLOTS};
use stuff_bound::bound;

/// The number of data bytes of a trigger frame.
const TRIGGER_BYTES: u8 = 8;

/// How many trigger frames open each cycle.
#[derive(Clone, Copy, Debug, PartialEq, Eq)]
pub enum Triggers {
    /// One, of identifier 0.
    One,
    /// Two, of the identifiers 0 and 1.
    Two,
}

impl Triggers {
    /// Those of a bus with so many slots, 40 or 96.
    pub fn of(slots: u8) -> Triggers
        ensures kind { result ≡ triggers_of slots }
        ensures slots { IsSlots slots → slots_of result ≡ slots }
    {
        if slots == FIRST_SLOTS {
            Triggers::One
        } else {
            Triggers::Two
        }
    }

    /// S, the number of slots that they flag.
    pub fn slots(self) -> u8
        ensures value { result ≡ slots_of self }
    {
        match self {
            Triggers::One => FIRST_SLOTS,
            Triggers::Two => MOST_SLOTS,
        }
    }

    /// G, the trigger part: how long they are together at most, in bit times.
    pub fn part(self) -> u32
        ensures value { result ≡ part_of self }
        ensures most { result ≤ 2 * worst 8 }
    {
        match self {
            Triggers::One => bound(TRIGGER_BYTES),
            Triggers::Two => 2 * bound(TRIGGER_BYTES),
        }
    }

    /// The identifier of the last one of them, which opens the cycle.
    pub fn opening(self) -> u16
        ensures value { result ≡ opening_of self }
    {
        match self {
            Triggers::One => 0,
            Triggers::Two => 1,
        }
    }
}

/// Whether a bus may have so many slots: 40 or 96.
pub fn are_slots(slots: u8) -> bool
    ensures slots { IsTrue result ↔ IsSlots slots }
{
    slots == FIRST_SLOTS || slots == MOST_SLOTS
}
