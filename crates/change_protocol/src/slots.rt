//! What the placed entries make of each slot.

ghost use Rattle.std.specs.Prelude.{◌≡◌, ℕ, ◌+◌, ◌<◌, ◌≤◌, None, Some, IfSome, length, slice_index_or, take};
ghost use Rattle.std.proofs.Props.{props};
ghost use Rattle.bit_sets.specs.Sets.{most_slots};
ghost use Rattle.requirement_table.specs.Table.{IsInRange, IsWellPlaced};
ghost use Rattle.change_protocol.specs.Slots.{AreUpToLast, IsCounted, IsLastAt, counts_of, unused, use_by, use_of};

use requirement_table::{MOST_SLOTS, Placed};

/// What the placed entries make of a slot.
#[derive(Clone, Copy)]
pub struct SlotUse {
    // The slot's live entry.
    pub live: Option<Placed>,
    // The cycle from which a slot without a live entry is free: the greatest end + deadline - 1 of its entries, or 0
    // where it has none.
    pub free: u64,
}

/// What the placed entries make of a slot whose last entry is this one.
fn use_by(p: &Placed) -> SlotUse
    requires { IsInRange p.now }
    ensures { result ≡ use_by p.now }
{
    match p.end {
        Some(end) => SlotUse {
            live: None,
            free: end + u64::from(p.entry.deadline) - 1,
        },
        None => SlotUse {
            live: Some(*p),
            free: 0,
        },
    }
}

/// For each slot how many placed entries there are up to its last one, which is counted, and 0 where it has none.
pub type Counts = [usize; MOST_SLOTS as usize];

/// Counts the entries from the place `from` on, where those before it are counted.
pub fn count_from(counts: &mut Counts, placed: &[Placed], from: usize)
    requires within { from ≤ length placed.now }
    requires well_placed { IsWellPlaced placed.now }
    requires counted { counts.old ≡ counts_of (take from placed.now) }
    ensures counted { IsCounted placed.now counts.new }
{
    for place in from..placed.len() {
        counts[usize::from(placed[place].entry.slot)] = place + 1;
    }
}

/// Where the last entry of each slot of the list stands.
pub fn counts_of(placed: &[Placed]) -> Counts
    requires { IsWellPlaced placed.now }
    ensures { IsCounted placed.now result }
{
    let mut counts = [0; MOST_SLOTS as usize];
    count_from(&mut counts, placed, 0);
    counts
}

/// The place of the slot's last entry by these numbers, where it has one.
pub fn last_place(counts: &Counts, slot: u8) -> Option<usize>
    requires { slot < most_slots }
    ensures none { result ≡ None → slice_index_or counts.now slot 0 ≡ 0 }
    ensures some { (place : ℕ) → result ≡ Some place → slice_index_or counts.now slot 0 ≡ place + 1 }
{
    let count = counts[usize::from(slot)];
    if count == 0 {
        return None;
    }
    Some(count - 1)
}

/// The placed entries, and where the last one of each slot stands.
#[derive(Drop)]
pub struct SlotTable<'a> {
    pub placed: &'a [Placed],
    counts: &'a Counts,
    ghost well_placed: { IsWellPlaced placed.now } by { Prim.hlevel props },
    ghost counted: { AreUpToLast placed.now counts.now },
}

impl<'a> SlotTable<'a> {
    /// The table of these placed entries, of which these are the numbers.
    pub fn of(placed: &'a [Placed], counts: &'a Counts) -> SlotTable<'a>
        requires { IsCounted placed.now counts.now }
        ensures { result.placed.now ≡ placed.now }
    {
        SlotTable { placed, counts }
    }

    /// The place of the slot's last entry, where it has one.
    pub fn last(&self, slot: u8) -> Option<usize>
        requires { slot < most_slots }
        ensures none { result ≡ None → use_of self.now.placed.now slot ≡ unused }
        ensures last { IfSome result (IsLastAt self.now.placed.now slot) }
    {
        last_place(self.counts, slot)
    }

    /// What the placed entries make of this slot.
    pub fn slot(&self, slot: u8) -> SlotUse
        requires { slot < most_slots }
        ensures held { result ≡ use_of self.now.placed.now slot }
        ensures live { IfSome result.live IsInRange }
    {
        match self.last(slot) {
            Some(place) => use_by(&self.placed[place]),
            None => SlotUse {
                live: None,
                free: 0,
            },
        }
    }
}
