//! The entries of a node: which of a list are its own, their slots, and the instances that may be sent in a cycle.

ghost use Rattle.std.specs.Prelude.{◌≡◌, ◌≢◌, ◌<◌, ◌≤◌, ℕ, [], Some, false, true};
ghost use Rattle.std.specs.Prelude.{List, is_some, length, nat_eq, slice_get, vec_capacity, ◌&&◌, ◌||◌};
ghost use Rattle.std.specs.Prelude.{IfOk, IsSomeAnd, MatchOption};
ghost use Rattle.profile.specs.Limits.{cycles_end};
ghost use Rattle.bit_sets.specs.Sets.{has_bit, most_slots};
ghost use Rattle.requirement_table.specs.Instance.{instance_of, latest, release_of};
ghost use Rattle.requirement_table.specs.Table.{IsInRange, IsWellPlaced, instance_in, not_over};
ghost use Rattle.node_model.specs.Node.{identifiers_of, with_node};
ghost use Rattle.node_model.specs.Kept.{AreReady, AreSendableIn, AreSlotsOf, HaveInstances, IsSendableIn, IsSlotReady};
ghost use Rattle.node_model.specs.Kept.{kept_of, ready_of};

use async_window::Owner;
use bit_sets::{least_slot, without_least};
use requirement_table::{Entry, MOST_SLOTS, Mask, Placed, drop_over, first_over, is_over_in_range};
use std::alloc::{AllocError, Global};

/// The identifiers that `owners` gives to a node.
pub fn identifiers_of(alloc: Global, number: u8, owners: &[Owner]) -> Result<Vec<u16>, AllocError>
    ensures identifiers { IfOk result (λ ids. ids.items ≡ identifiers_of number owners.now) }
{
    let mut ids = Vec::new(alloc);
    for owner in owners {
        if owner.node == number {
            ids.push(owner.id)?;
        }
    }
    Ok(ids)
}

/// Replaces a node's entries by those of a list that are its own, without memory. With `all` it keeps each one, under
/// its number. The answer is the set of their slots.
pub fn keep_own(number: u8, all: bool, placed: &[Placed], entries: &mut Vec<Placed>) -> Mask
    requires well_placed { IsWellPlaced placed.now }
    requires room { length (kept_of all number placed.now) ≤ vec_capacity entries.old }
    ensures own { entries.new.items ≡ kept_of all number placed.now }
    ensures slots { AreSlotsOf entries.new.items result }
    ensures well_placed { IsWellPlaced entries.new.items }
    ensures capacity { vec_capacity entries.old ≤ vec_capacity entries.new }
{
    entries.clear();
    let mut slots = Mask::empty();
    for p in placed {
        if all || p.entry.node == number {
            slots = slots.with(p.entry.slot);
            entries.push_reserved(with_node(number, p));
        }
    }
    slots
}

/// The same entry, with a node's number.
#[inline(always)]
fn with_node(number: u8, p: &Placed) -> Placed
    ensures entry { result ≡ with_node number p.now }
{
    let entry = Entry {
        node: number,
        ..p.entry
    };
    Placed { entry, ..*p }
}

/// What is known of the instances of a slot: one of them, and those that its entry releases after it.
#[derive(Clone, Copy)]
pub struct Ready {
    /// The cycle in which the instance is released.
    pub release: u64,
    /// The cycle from which on its entry releases nothing more, the greatest u64 where it has no end, and 0 where nothing
    /// is known.
    pub end: u64,
    /// The number of the instance.
    pub number: u64,
    /// The cycles from one release to the next.
    pub period: u16,
    /// The number of cycles in which an instance may be sent.
    pub deadline: u16,
    /// The number of data bytes of its frame, at most 8.
    pub length: u8,
}

/// Nothing is known.
const UNKNOWN: Ready = Ready {
    release: 0,
    end: 0,
    number: 0,
    period: 0,
    deadline: 0,
    length: 0,
};

/// For each slot what is known of its instances.
pub type ReadySlots = [Ready; MOST_SLOTS as usize];

/// The entries of a node that are not over.
#[derive(Drop)]
pub struct Remaining {
    /// These entries, in their order.
    pub entries: Vec<Placed>,
    /// A cycle before which none of them is over.
    pub until: u64,
    /// For each slot what is known of its instances.
    pub ready: ReadySlots,
}

impl Remaining {
    /// Nothing.
    pub fn new(alloc: Global) -> Remaining
        ensures none { result.entries.items ≡ [] }
        ensures ready { AreReady result.entries.items result.ready }
    {
        Remaining {
            entries: Vec::new(alloc),
            until: u64::MAX,
            ready: [UNKNOWN; MOST_SLOTS as usize],
        }
    }

    /// Keeps those of a node's entries that are not over by a cycle, without memory.
    pub fn keep(&mut self, entries: &[Placed], cycle: u64)
        requires well_placed { IsWellPlaced entries.now }
        requires ready { AreReady self.old.entries.items self.old.ready }
        requires room { length entries.now ≤ vec_capacity self.old.entries }
        ensures well_placed { IsWellPlaced self.new.entries.items }
        ensures instances { HaveInstances entries.now cycle self.new.entries.items }
        ensures ready { AreReady self.new.entries.items self.new.ready }
        ensures capacity { vec_capacity self.old.entries ≤ vec_capacity self.new.entries }
    {
        keep_not_over(entries, cycle, &mut self.entries);
        self.until = first_over(self.entries.as_slice());
        forget(&mut self.ready);
    }

    /// Drops those that are over by a cycle, in place, where one of them is.
    #[inline(always)]
    pub fn pass(&mut self, cycle: u64)
        requires well_placed { IsWellPlaced self.old.entries.items }
        requires ready { AreReady self.old.entries.items self.old.ready }
        ensures well_placed { IsWellPlaced self.new.entries.items }
        ensures instances { HaveInstances self.old.entries.items cycle self.new.entries.items }
        ensures ready { AreReady self.new.entries.items self.new.ready }
        ensures capacity { vec_capacity self.new.entries ≡ vec_capacity self.old.entries }
    {
        if self.until <= cycle {
            drop_over(&mut self.entries, cycle);
            self.until = first_over(self.entries.as_slice());
            forget(&mut self.ready);
        }
    }
}

/// Takes nothing as known of the instances of any slot.
fn forget(ready: &mut ReadySlots)
    ensures ready { (before entries : List Placed) → AreReady before ready.old → AreReady entries ready.new }
{
    for slot in 0..MOST_SLOTS as usize {
        ready[slot].end = 0;
    }
}

/// Replaces a list by those of some entries that are not over by a cycle, without memory.
fn keep_not_over(entries: &[Placed], cycle: u64, left: &mut Vec<Placed>)
    requires well_placed { IsWellPlaced entries.now }
    requires room { length entries.now ≤ vec_capacity left.old }
    ensures left { left.new.items ≡ not_over cycle entries.now }
    ensures capacity { vec_capacity left.old ≤ vec_capacity left.new }
{
    left.clear();
    for p in entries {
        if !is_over_in_range(p, cycle) {
            left.push_reserved(*p);
        }
    }
}

/// A set that has those of some slots of which an instance may be sent in a cycle, and of these slots no others. What is
/// known of its slots then tells of that instance. The entries are gone through only where not all of it was known.
#[inline(always)]
pub fn sendable_among(set: Mask, entries: &[Placed], cycle: u64, ready: &mut ReadySlots) -> Mask
    requires cycle { cycle < cycles_end }
    requires well_placed { IsWellPlaced entries.now }
    requires ready { AreReady entries.now ready.old }
    ensures slots { (slot : ℕ) → has_bit set slot ≡ true
        → has_bit result slot ≡ is_some (instance_in entries.now slot cycle) }
    ensures sendable { AreSendableIn cycle result ready.new }
    ensures ready { AreReady entries.now ready.new }
{
    if turn_all(set, cycle, ready) {
        set
    } else {
        sendable_slots(entries, cycle, ready)
    }
}

/// Goes on to the instances of some slots that may be sent in a cycle, as far as what is known tells of them. The answer
/// is whether it does of all.
#[inline(always)]
fn turn_all(set: Mask, cycle: u64, ready: &mut ReadySlots) -> bool
    ensures sendable { result ≡ true → AreSendableIn cycle set ready.new }
    ensures ready { (entries : List Placed) → AreReady entries ready.old → AreReady entries ready.new }
{
    set.known();
    let mut left = set;
    while let Some(slot) = least_slot(left) {
        if !turn(ready, slot, cycle) {
            return false;
        }
        left.known();
        left = without_least(left);
        left.known();
    }
    true
}

/// Goes on to the instance of a slot that may be sent in a cycle, where what is known tells of that one or of the one
/// before it. The answer is whether it does.
#[inline(always)]
fn turn(ready: &mut ReadySlots, slot: u8, cycle: u64) -> bool
    requires slot { slot < most_slots }
    ensures sendable { result ≡ true → IsSomeAnd (slice_get ready.new slot) (IsSendableIn cycle) }
    ensures others { (other : ℕ) → other ≢ slot → slice_get ready.new other ≡ slice_get ready.old other }
    ensures ready { (entries : List Placed) → AreReady entries ready.old → AreReady entries ready.new }
{
    let place = usize::from(slot);
    let found = ready[place];
    if cycle < found.release {
        return false;
    }
    let period = u64::from(found.period);
    if cycle - found.release < period {
        return is_sendable(&found, cycle);
    }
    let next = Ready {
        release: found.release + period,
        number: found.number.wrapping_add(1),
        ..found
    };
    if !is_sendable(&next, cycle) {
        return false;
    }
    let kept = &mut ready[place];
    kept.release = next.release;
    kept.number = next.number;
    true
}

/// Whether this tells of an instance that may be sent in a cycle, which is not before its release.
#[inline(always)]
fn is_sendable(found: &Ready, cycle: u64) -> bool
    requires released { found.now.release ≤ cycle }
    ensures sendable { result ≡ true → IsSendableIn cycle found.now }
    ensures not_sendable { result ≡ false → IsSendableIn cycle found.now → ⊥ }
{
    cycle - found.release < u64::from(found.deadline) && found.release < found.end
}

/// The slots of which an instance may be sent in a cycle. What is known of these slots then tells of that instance.
#[inline(never)]
pub fn sendable_slots(entries: &[Placed], cycle: u64, ready: &mut ReadySlots) -> Mask
    requires cycle { cycle < cycles_end }
    requires well_placed { IsWellPlaced entries.now }
    requires ready { AreReady entries.now ready.old }
    ensures slots { (slot : ℕ) → has_bit result slot ≡ is_some (instance_in entries.now slot cycle) }
    ensures sendable { AreSendableIn cycle result ready.new }
    ensures ready { AreReady entries.now ready.new }
{
    let mut slots = Mask::empty();
    for p in entries {
        slots = with_sendable(slots, p, cycle, ready);
    }
    slots
}

/// A set of slots, with that of an entry where an instance of it may be sent in a cycle. What is known of the entry's
/// latest instance is noted, but for one of another entry of the slot that may be sent.
fn with_sendable(slots: Mask, p: &Placed, cycle: u64, ready: &mut ReadySlots) -> Mask
    requires cycle { cycle < cycles_end }
    requires in_range { IsInRange p.now }
    ensures slots { (slot : ℕ) → has_bit result slot
        ≡ ((nat_eq p.now.entry.slot slot && is_some (instance_of p.now cycle)) || has_bit slots slot) }
    ensures sendable { AreSendableIn cycle slots ready.old → AreSendableIn cycle result ready.new }
    ensures ready { (entries : List Placed) (place : ℕ) → IsWellPlaced entries → slice_get entries place ≡ Some p.now
        → AreReady entries ready.old → AreReady entries ready.new }
{
    match latest_of(p, cycle) {
        Some(found) => {
            if is_sendable(&found, cycle) {
                ready[usize::from(p.entry.slot)] = found;
                slots.with(p.entry.slot)
            } else {
                note_other(slots, p.entry.slot, found, ready);
                slots
            }
        }
        None => slots,
    }
}

/// What is known of the latest instance that an entry released by a cycle, as if it had no end; nothing before its first
/// release.
fn latest_of(p: &Placed, cycle: u64) -> Option<Ready>
    requires in_range { IsInRange p.now }
    ensures latest { MatchOption result (cycle < release_of p.now 0)
        (λ found. (release_of p.now 0 ≤ cycle) × (found ≡ ready_of p.now (latest p.now cycle))) }
{
    let first = p.origin + u64::from(p.entry.phase);
    if cycle < first {
        return None;
    }
    let since = cycle - first;
    let period = u64::from(p.entry.period);
    Some(Ready {
        release: cycle - since % period,
        end: p.end.unwrap_or(u64::MAX),
        number: since / period,
        period: p.entry.period,
        deadline: p.entry.deadline,
        length: p.entry.length,
    })
}

/// Notes what is known of a slot where it is none of these.
fn note_other(slots: Mask, slot: u8, found: Ready, ready: &mut ReadySlots)
    requires slot { slot < most_slots }
    ensures sendable { (cycle : ℕ) → AreSendableIn cycle slots ready.old → AreSendableIn cycle slots ready.new }
    ensures ready { (entries : List Placed) → IsSlotReady entries slot found
        → AreReady entries ready.old → AreReady entries ready.new }
{
    if !slots.has(slot) {
        ready[usize::from(slot)] = found;
    }
}
