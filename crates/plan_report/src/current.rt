//! The entry of a slot whose instance may be sent in a cycle. Cycles are asked in their order, so each list is walked
//! forwards only.

ghost use Rattle.std.specs.Prelude.{◌≡◌, ℕ, ◌<◌, ◌≤◌, ◌==◌, ◌&&◌, not, List, Some, false, true, slice_get};
ghost use Rattle.requirement_table.specs.declared.entries.Placed.{Placed};
ghost use Rattle.bit_sets.specs.Sets.{most_slots};
ghost use Rattle.requirement_table.specs.Table.{IsInRange, IsWellPlaced, free_from, is_over};
ghost use Rattle.plan_report.specs.Current.{AreEntriesPassed, IsCurrentInstance};

use requirement_table::{MOST_SLOTS, Placed, current};

/// The entry of a slot that may send in a cycle.
#[derive(Clone, Copy, Debug)]
pub struct CurrentInstance {
    /// Its place in the list of placed entries.
    pub place: usize,
    /// The entry.
    pub placed: Placed,
    /// The number of its instance that may be sent.
    pub number: u64,
}

/// For each slot a place in the list of placed entries, before which all entries of the slot are over.
#[derive(Drop, Debug)]
pub struct SlotPlaces {
    /// The place of each slot.
    pub first: [usize; MOST_SLOTS as usize],
}

impl SlotPlaces {
    /// The places before any cycle.
    pub fn new() -> SlotPlaces
        ensures passed { (placed : List Placed) (cycle : ℕ) → AreEntriesPassed placed result.first cycle }
    {
        SlotPlaces {
            first: [0; MOST_SLOTS as usize],
        }
    }

    /// The entry of a slot whose instance may be sent in a cycle, where there is one. No cycle below one that was
    /// asked is asked later.
    pub fn find(&mut self, placed: &[Placed], slot: u8, cycle: u64) -> Option<CurrentInstance>
        requires well_placed { IsWellPlaced placed.now }
        requires slot { slot < most_slots }
        requires passed { AreEntriesPassed placed.now self.old.first cycle }
        ensures found { IsCurrentInstance placed.now slot cycle result }
        ensures passed { AreEntriesPassed placed.now self.new.first cycle }
    {
        let index = usize::from(slot);
        let place = first_left(placed, self.first[index], slot, cycle);
        self.first[index] = place;
        if place >= placed.len() {
            return None;
        }
        let placed = placed[place];
        match current(&placed, cycle) {
            None => None,
            Some(number) => Some(CurrentInstance {
                place,
                placed,
                number,
            }),
        }
    }
}

/// The cycle from which the slot of a placed entry is free again: end + deadline - 1.
fn free_after(p: &Placed) -> Option<u64>
    requires range { IsInRange p.now }
    ensures free { result ≡ free_from p.now }
{
    p.end.map(|end| end + u64::from(p.entry.deadline) - 1)
}

/// Whether a placed entry is of the slot and is not over by the cycle.
fn is_left(p: &Placed, slot: u8, cycle: u64) -> bool
    requires range { IsInRange p.now }
    ensures left { result ≡ ((p.now.entry.slot == slot) && not (is_over cycle p.now)) }
{
    p.entry.slot == slot && !free_after(p).is_some_and(|from| from <= cycle)
}

/// The first place, not before `from`, of an entry of the slot that is not over by the cycle; the length of the list
/// where there is none.
fn first_left(placed: &[Placed], from: usize, slot: u8, cycle: u64) -> usize
    requires well_placed { IsWellPlaced placed.now }
    ensures over { (place : ℕ) (p : Placed) → from ≤ place → place < result → slice_get placed.now place ≡ Some p
        → p.entry.slot ≡ slot
        → is_over cycle p ≡ true }
    ensures left { (p : Placed) → slice_get placed.now result ≡ Some p
        → (p.entry.slot ≡ slot) × (is_over cycle p ≡ false) }
{
    for place in from..placed.len() {
        if is_left(&placed[place], slot, cycle) {
            return place;
        }
    }
    placed.len()
}
