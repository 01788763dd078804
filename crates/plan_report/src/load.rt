//! The widths of the synchronous windows of all opened cycles: the worst lengths of the flagged slots together, in
//! bit times.

ghost use Rattle.std.specs.Prelude.{◌≡◌, ℕ, ◌+◌, ◌*◌, ◌^◌, ◌<◌, ◌≤◌, ◌++◌, ◌∷◌, [], List};
ghost use Rattle.requirement_table.specs.Instance.{MaySend, worst};
ghost use Rattle.bit_sets.specs.Sets.{has_bit, most_slots};
ghost use Rattle.requirement_table.specs.Table.{IsInRange, IsWellPlaced, width_in, worst_in};
ghost use Rattle.plan_report.specs.Current.{AreEntriesPassed};
ghost use Rattle.plan_report.specs.Opened.{IsWidthFrom, load_of, opened_width, opened_widths};

use crate::current::SlotPlaces;
use crate::tally::{greater, lesser};
use bit_sets::least_slot;
use master_core::Event;
use requirement_table::{Mask, Placed, cost};

/// The least and the greatest of some widths, where there are any, and their sum, in bit times.
#[derive(Clone, Copy, Debug)]
pub struct Load {
    pub least: Option<u64>,
    pub greatest: Option<u64>,
    pub sum: u128,
}

impl Load {
    /// That of no widths.
    fn none() -> Load
        ensures load { result ≡ load_of [] }
    {
        Load {
            least: None,
            greatest: None,
            sum: 0,
        }
    }

    /// That of one width more.
    fn with(&self, width: u32) -> Load
        requires few { self.now.sum < 2 ^ 127 }
        ensures load { (widths : List ℕ) → self.now ≡ load_of widths → result ≡ load_of (widths ++ width ∷ []) }
        ensures sum { result.sum ≡ self.now.sum + width }
    {
        let width = u64::from(width);
        Load {
            least: Some(lesser(self.least, width)),
            greatest: Some(greater(self.greatest, width)),
            sum: self.sum + u128::from(width),
        }
    }
}

/// The width of a cycle, and up to which cycle it is the same where the same slots are flagged, in bit times.
#[derive(Clone, Copy, Debug)]
struct KnownWidth {
    /// The flagged slots.
    mask: Mask,
    /// The width.
    bits: u32,
    /// It is known of the cycles below this one alone.
    until: u64,
}

/// What a slot costs in a cycle, in bit times, and up to which cycle it costs the same.
#[derive(Clone, Copy, Debug)]
struct SlotCost {
    bits: u32,
    until: u64,
}

/// The widths of the cycles that a history opens, where these entries are placed in the end. The cycles are opened
/// from 0 on.
pub fn opened_load(placed: &[Placed], history: &[Event]) -> Load
    requires well_placed { IsWellPlaced placed.now }
    ensures load { result ≡ load_of (opened_widths placed.now 0 history.now) }
{
    let mut load = Load::none();
    let mut places = SlotPlaces::new();
    let mut known = no_width();
    let mut next = 0u64;
    for event in history {
        load = with_event(&load, &mut places, &mut known, placed, next, event);
        next += u64::from(event.opens_cycle());
    }
    load
}

/// The width of no cycle.
fn no_width() -> KnownWidth
    ensures until { result.until ≡ 0 }
{
    KnownWidth {
        mask: Mask::empty(),
        bits: 0,
        until: 0,
    }
}

/// The load with the width of the cycle that an event opens, where it opens cycle `next`.
fn with_event(
    load: &Load,
    places: &mut SlotPlaces,
    known: &mut KnownWidth,
    placed: &[Placed],
    next: u64,
    event: &Event,
) -> Load
    requires well_placed { IsWellPlaced placed.now }
    requires passed { AreEntriesPassed placed.now places.old.first next }
    requires known { IsWidthFrom placed.now next known.old }
    requires near { next < 2 ^ 63 }
    requires few { load.now.sum < 2 ^ 127 }
    ensures passed { AreEntriesPassed placed.now places.new.first next }
    ensures known { IsWidthFrom placed.now next known.new }
    ensures load { (widths : List ℕ) → load.now ≡ load_of widths
        → result ≡ load_of (widths ++ opened_width placed.now next event.now) }
    ensures sum { result.sum ≤ load.now.sum + most_slots * worst 8 }
{
    match event {
        Event::Submit { .. } => *load,
        Event::Look { .. } => *load,
        Event::Open { mask, .. } => {
            renew(known, places, placed, next, *mask);
            load.with(known.bits)
        }
    }
}

/// Makes the width that of a cycle in which these slots are flagged, where it is not.
fn renew(known: &mut KnownWidth, places: &mut SlotPlaces, placed: &[Placed], cycle: u64, mask: Mask)
    requires well_placed { IsWellPlaced placed.now }
    requires passed { AreEntriesPassed placed.now places.old.first cycle }
    requires known { IsWidthFrom placed.now cycle known.old }
    requires near { cycle < 2 ^ 63 }
    ensures passed { AreEntriesPassed placed.now places.new.first cycle }
    ensures known { IsWidthFrom placed.now cycle known.new }
    ensures width { known.new.bits ≡ width_in placed.now cycle (has_bit mask) }
    ensures range { known.new.bits ≤ most_slots * worst 8 }
{
    if cycle < known.until && known.mask == mask {
        return;
    }
    *known = width(places, placed, cycle, mask);
}

/// The worst lengths of the flagged slots of a cycle together.
fn width(places: &mut SlotPlaces, placed: &[Placed], cycle: u64, mask: Mask) -> KnownWidth
    requires well_placed { IsWellPlaced placed.now }
    requires passed { AreEntriesPassed placed.now places.old.first cycle }
    requires near { cycle < 2 ^ 63 }
    ensures passed { AreEntriesPassed placed.now places.new.first cycle }
    ensures known { IsWidthFrom placed.now cycle result }
    ensures width { result.bits ≡ width_in placed.now cycle (has_bit mask) }
    ensures range { result.bits ≤ most_slots * worst 8 }
{
    let mut bits = 0;
    let mut until = u64::MAX;
    let mut left = mask;
    while let Some(slot) = least_slot(left) {
        left.known();
        left = left.without(slot);
        left.known();
        let cost = slot_cost(places, placed, slot, cycle);
        bits += cost.bits;
        until = until.min(cost.until);
    }
    KnownWidth { mask, bits, until }
}

/// The worst length of the frame that a slot sends in a cycle.
fn slot_cost(places: &mut SlotPlaces, placed: &[Placed], slot: u8, cycle: u64) -> SlotCost
    requires well_placed { IsWellPlaced placed.now }
    requires slot { slot < most_slots }
    requires passed { AreEntriesPassed placed.now places.old.first cycle }
    requires near { cycle < 2 ^ 63 }
    ensures passed { AreEntriesPassed placed.now places.new.first cycle }
    ensures later { cycle < result.until }
    ensures cost { (c : ℕ) → cycle ≤ c → c < result.until → worst_in placed.now c slot ≡ result.bits }
{
    match places.find(placed, slot, cycle) {
        Some(found) => SlotCost {
            bits: cost(found.placed.entry.length),
            until: sends_until(&found.placed, cycle),
        },
        None => SlotCost {
            bits: 0,
            until: cycle + 1,
        },
    }
}

/// The cycle up to which an instance of an entry may be sent in each cycle, where one may be sent in this one. For an
/// entry whose deadline is below its period it is the next cycle.
fn sends_until(p: &Placed, cycle: u64) -> u64
    requires range { IsInRange p.now }
    requires near { cycle < 2 ^ 63 }
    ensures later { cycle < result }
    ensures sends { (number c : ℕ) → MaySend p.now number cycle → cycle ≤ c → c < result
        → (k : ℕ) × MaySend p.now k c }
{
    let deadline = p.entry.deadline;
    let period = p.entry.period;
    if deadline < period {
        return cycle + 1;
    }
    match p.end {
        None => u64::MAX,
        Some(end) => { if cycle < end { end } else { cycle + 1 } }
    }
}
