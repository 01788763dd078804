//! The current entries of the slots.

ghost use Rattle.std.specs.Prelude.{◌≡◌, ◌≤◌, slice_get};
ghost use Rattle.std.specs.Option.{option_and_then};
ghost use Rattle.bit_sets.specs.Sets.{most_slots};
ghost use Rattle.requirement_table.specs.Table.{IsInRange, IsWellPlaced, is_over};
ghost use Rattle.plan_check.specs.Places.{AreCurrent, ArePassed, AreSlotsBelow, IsCurrent, IsPlacePassed, release_by};
ghost use Rattle.plan_check.specs.PlanKept.{goes_round};

use requirement_table::{MOST_SLOTS, Placed, current_instance};

/// For each slot a place in the list of placed entries.
pub type Places = [usize; MOST_SLOTS as usize];

/// Whether a placed entry is over by `cycle`: its slot is free again, and none of its instances may be sent any more.
fn is_over(p: &Placed, cycle: u64) -> bool
    requires in_range { IsInRange p.now }
    ensures over { result ≡ is_over cycle p.now }
{
    p.end
        .is_some_and(|end| end + u64::from(p.entry.deadline) - 1 <= cycle)
}

/// Whether an entry goes round with the cycles from `first` on, `length` at a time: a live one has had its first
/// release by `first` and its period divides `length`; one with an end is over by `first`.
pub fn goes_round(p: &Placed, first: u64, length: u64) -> bool
    requires in_range { IsInRange p.now }
    ensures round { result ≡ goes_round first length p.now }
{
    match p.end {
        Some(end) => end + u64::from(p.entry.deadline) - 1 <= first,
        None => {
            p.origin + u64::from(p.entry.phase) <= first && length % u64::from(p.entry.period) == 0
        }
    }
}

/// The place of the slot's first entry that is not over by `cycle`, where all those before `place` are; the length of
/// the list where there is none.
pub fn place_at(placed: &[Placed], cycle: u64, slot: u8, place: usize) -> usize
    requires well_placed { IsWellPlaced placed.now }
    requires passed { IsPlacePassed placed.now cycle slot place }
    ensures current { IsCurrent placed.now cycle slot result }
{
    for next in place..placed.len() {
        let p = &placed[next];
        if p.entry.slot == slot && !is_over(p, cycle) {
            return next;
        }
    }
    placed.len()
}

/// The number above all slots of the entries.
pub fn slots_of(placed: &[Placed]) -> u8
    requires well_placed { IsWellPlaced placed.now }
    ensures below { AreSlotsBelow result placed.now }
    ensures known { result ≤ most_slots }
{
    let mut slots = 0;
    for p in placed {
        slots = slots.max(p.entry.slot + 1);
    }
    slots
}

/// Brings the places of the current entries of the slots below `slots` to `cycle`: before each of them the slot's
/// entries are over.
pub fn move_places(placed: &[Placed], cycle: u64, slots: u8, places: &mut Places)
    requires well_placed { IsWellPlaced placed.now }
    requires known { slots ≤ most_slots }
    requires passed { ArePassed placed.now cycle slots places.old }
    ensures current { AreCurrent placed.now cycle slots places.new }
{
    for slot in 0..slots {
        let index = usize::from(slot);
        places[index] = place_at(placed, cycle, slot, places[index]);
    }
}

/// The release of the instance that the entry at a place, where there is one, may send in `cycle`.
pub fn release_at(placed: &[Placed], cycle: u64, place: usize) -> Option<u64>
    requires well_placed { IsWellPlaced placed.now }
    ensures release { result ≡ option_and_then (release_by cycle) (slice_get placed.now place) }
{
    let instance = current_instance(placed.get(place)?, cycle)?;
    Some(instance.release)
}
