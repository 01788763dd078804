//! What was sent of each entry in a trace: one walk over the frames, in which each frame of a slot finds its entry.

ghost use Rattle.std.specs.Prelude.{◌≡◌, ℕ, ◌+◌, ◌-◌, ◌^◌, ◌<◌, ◌≤◌, ◌++◌, ◌∷◌, []};
ghost use Rattle.std.specs.Prelude.{List, All, IfOk, IfSome, MatchOption, Some, length, slice_set};
ghost use Rattle.profile.specs.Limits.{first_identifier};
ghost use Rattle.can_frame.specs.declared.data_frame.TimedFrame.{TimedFrame};
ghost use Rattle.bit_sets.specs.Sets.{most_slots};
ghost use Rattle.requirement_table.specs.Table.{IsWellPlaced};
ghost use Rattle.bus_trace.specs.Log.{trigger_count_with, triggers_in};
ghost use Rattle.plan_report.specs.Current.{AreEntriesPassed};
ghost use Rattle.plan_report.specs.Tally.{AreReleased, AreTallies, CountsOne, tally_of};

use crate::current::SlotPlaces;
use crate::tally::{Count, counted};
use can_frame::TimedFrame;
use profile::FIRST_IDENTIFIER;
use requirement_table::{MOST_SLOTS, Placed};
use std::alloc::{AllocError, Global};

/// What is counted of each of these entries in a trace.
///
/// # Errors
///
/// Only where memory runs out.
pub fn tallies(
    alloc: Global,
    placed: &[Placed],
    trace: &[TimedFrame],
) -> Result<Vec<Option<Count>>, AllocError>
    requires well_placed { IsWellPlaced placed.now }
    ensures tallies { IfOk result (λ tallies. AreTallies trace.now placed.now tallies.items) }
{
    let mut tallies = vec![in alloc; None; placed.len()]?;
    let mut places = SlotPlaces::new();
    let mut seen = 0u64;
    for sent in trace {
        seen = trigger_count_with(seen, sent);
        count_frame(&mut tallies, &mut places, placed, sent, seen);
    }
    Ok(tallies)
}

/// The number of triggers up to a frame, itself included, where `seen` came before it.
#[inline(always)]
fn trigger_count_with(seen: u64, sent: &TimedFrame) -> u64
    requires few { seen < 2 ^ 63 }
    ensures triggers { result ≡ trigger_count_with seen sent.now }
{
    if sent.frame.id() == 0 { seen + 1 } else { seen }
}

/// The slot of a frame, where it is one of a slot.
#[inline(always)]
fn slot_of(sent: &TimedFrame) -> Option<u8>
    ensures slot { MatchOption result ((slot : ℕ) → slot < most_slots
        → sent.now.frame.identifier ≡ first_identifier + slot → ⊥)
        (λ slot. (slot < most_slots) × (sent.now.frame.identifier ≡ first_identifier + slot)) }
{
    let id = sent.frame.id();
    if id < FIRST_IDENTIFIER || FIRST_IDENTIFIER + u16::from(MOST_SLOTS) <= id {
        return None;
    }
    Some((id - FIRST_IDENTIFIER) as u8)
}

/// Counts what a frame sends, up to which, itself included, there were so many triggers.
fn count_frame(
    tallies: &mut [Option<Count>],
    places: &mut SlotPlaces,
    placed: &[Placed],
    sent: &TimedFrame,
    seen: u64,
)
    requires well_placed { IsWellPlaced placed.now }
    requires length { length tallies.old ≡ length placed.now }
    requires few { All (λ count. (tally_of count).instances < 2 ^ 63) tallies.old }
    requires released { AreReleased placed.now tallies.old }
    requires early { seen < 2 ^ 63 }
    requires passed { AreEntriesPassed placed.now places.old.first (seen - 1) }
    ensures passed { AreEntriesPassed placed.now places.new.first (seen - 1) }
    ensures tallies { (frames : List TimedFrame) → AreTallies frames placed.now tallies.old
        → seen ≡ trigger_count_with (triggers_in frames) sent.now
        → AreTallies (frames ++ sent.now ∷ []) placed.now tallies.new }
{
    if seen == 0 {
        return;
    }
    let Some(slot) = slot_of(sent) else { return };
    count_slot(tallies, places, placed, slot, seen - 1);
}

/// Counts what a frame of a slot sends in a cycle.
fn count_slot(
    tallies: &mut [Option<Count>],
    places: &mut SlotPlaces,
    placed: &[Placed],
    slot: u8,
    cycle: u64,
)
    requires well_placed { IsWellPlaced placed.now }
    requires length { length tallies.old ≡ length placed.now }
    requires few { All (λ count. (tally_of count).instances < 2 ^ 63) tallies.old }
    requires released { AreReleased placed.now tallies.old }
    requires slot { slot < most_slots }
    requires cycle { cycle < 2 ^ 63 }
    requires passed { AreEntriesPassed placed.now places.old.first cycle }
    ensures passed { AreEntriesPassed placed.now places.new.first cycle }
    ensures counted { CountsOne placed.now slot cycle tallies.old tallies.new }
{
    let place = places.first[usize::from(slot)];
    if let Some(next) = next_at(tallies, placed, place, slot, cycle) {
        tallies[place] = Some(next);
        return;
    }
    count_found(tallies, places, placed, slot, cycle);
}

/// What is counted of the entry at a place once the instance after the last one is sent in a cycle, where the entry is
/// of the slot and this instance may be sent in it. Then no other entry sends one. In most cycles it is so.
#[inline(always)]
fn next_at(
    tallies: &[Option<Count>],
    placed: &[Placed],
    place: usize,
    slot: u8,
    cycle: u64,
) -> Option<Count>
    requires well_placed { IsWellPlaced placed.now }
    requires length { length tallies.now ≡ length placed.now }
    requires few { All (λ count. (tally_of count).instances < 2 ^ 63) tallies.now }
    requires released { AreReleased placed.now tallies.now }
    requires cycle { cycle < 2 ^ 63 }
    ensures within { IfSome result (λ next. place < length placed.now) }
    ensures counted { IfSome result
        (λ next. CountsOne placed.now slot cycle tallies.now (slice_set tallies.now place (Some next))) }
{
    if place >= placed.len() {
        return None;
    }
    let p = &placed[place];
    if p.entry.slot != slot {
        return None;
    }
    match tallies[place] {
        None => None,
        Some(known) => known.next(p, cycle),
    }
}

/// Counts what a frame of a slot sends in a cycle, of the entry that is found for it.
fn count_found(
    tallies: &mut [Option<Count>],
    places: &mut SlotPlaces,
    placed: &[Placed],
    slot: u8,
    cycle: u64,
)
    requires well_placed { IsWellPlaced placed.now }
    requires length { length tallies.old ≡ length placed.now }
    requires few { All (λ count. (tally_of count).instances < 2 ^ 63) tallies.old }
    requires released { AreReleased placed.now tallies.old }
    requires slot { slot < most_slots }
    requires cycle { cycle < 2 ^ 63 }
    requires passed { AreEntriesPassed placed.now places.old.first cycle }
    ensures passed { AreEntriesPassed placed.now places.new.first cycle }
    ensures counted { CountsOne placed.now slot cycle tallies.old tallies.new }
{
    let Some(found) = places.find(placed, slot, cycle) else {
        return;
    };
    let count = counted(&tallies[found.place], &found.placed, found.number, cycle);
    tallies[found.place] = count;
}
