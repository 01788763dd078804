//! Which request of its slot the next instance takes.

ghost use Rattle.std.specs.Prelude.{◌≡◌, ℕ, ◌+◌, ◌*◌, ◌<◌, ◌↔◌, All, IfOk, IfSome, IsSomeAnd, Option, None, Some, false, true};
ghost use Rattle.std.specs.List.{slice_get};
ghost use Rattle.std.specs.Prelude.{get_or, length};
ghost use Rattle.sporadic_poll.specs.Ride.{CanCarry, IsOfSlot, IsRide};
ghost use Rattle.sporadic_poll.specs.Waiting.{AreLinked, HasTaken, first_from, taken_from};

use crate::stream::Stream;
use std::alloc::{AllocError, Global};
use std::marker::Model;

/// The requests of a streams file, in its order, and which of them wait. Contracts see the requests, and for each slot
/// the place of the next one that waits.
#[derive(Drop, Debug)]
pub struct Queues {
    streams: Vec<Stream>,
    /// Behind each request the place of the next one of its slot, and the number of requests where there is none.
    later: Vec<usize>,
    /// For each slot the place of its next request that waits, and the number of requests where none waits.
    next: Vec<usize>,
}

impl Model for Queues {
    ghost use Rattle.std.specs.Prelude.{length};
    ghost use Rattle.sporadic_poll.specs.Waiting.{AreLinked, Queued};

    ghost Value = { Queued };

    ghost view = { λ q. record { streams = q.streams.items; next = q.next.items } };

    ghost invariant = { λ q. AreLinked (length q.next.items) q.streams.items q.later.items q.next.items };
}

/// So many times the same place.
fn places(alloc: Global, place: usize, count: usize) -> Result<Vec<usize>, AllocError>
    ensures whole { IfOk result (λ places. length places.items ≡ count) }
    ensures each { IfOk result (λ places. (at : ℕ) → at < count → get_or places.items at 0 ≡ place) }
{
    vec![in alloc; place; count]
}

/// Links each request to the next one of its slot, from the last to the first.
fn link(streams: &[Stream], later: &mut Vec<usize>, next: &mut Vec<usize>)
    requires known { All (λ stream. stream.slot < length next.old.items) streams.now }
    requires all_later { length later.old.items ≡ length streams.now }
    requires none { (slot : ℕ) → slot < length next.old.items → get_or next.old.items slot 0 ≡ length streams.now }
    ensures linked { AreLinked (length next.old.items) streams.now later.new.items next.new.items }
    ensures first { (slot : ℕ) → slot < length next.old.items
        → get_or next.new.items slot 0 ≡ first_from streams.now slot 0 }
{
    for place in (0..streams.len()).rev() {
        let slot = usize::from(streams[place].slot);
        later[place] = next[slot];
        next[slot] = place;
    }
}

/// The place of the next request of a slot, where an instance of an entry of this length that is released at this time
/// can carry that request.
fn taken_from(streams: &[Stream], time: u64, entry_length: u8, next: usize) -> Option<usize>
    ensures value { result ≡ taken_from streams.now time entry_length next }
    ensures same { IfSome result (λ place. (place ≡ next) × (next < length streams.now)) }
    ensures can { IfSome result (λ place. IsSomeAnd (slice_get streams.now place) (CanCarry time entry_length)) }
{
    if next >= streams.len() {
        return None;
    }
    let stream = &streams[next];
    if stream.at >= time {
        return None;
    }
    if stream.payload.as_slice().len() >= usize::from(entry_length) {
        return None;
    }
    Some(next)
}

/// Whether the next request of a slot arrived before a time.
fn has_arrived(streams: &[Stream], time: u64, next: usize) -> bool
    ensures arrived { (result ≡ true) ↔ IsSomeAnd (slice_get streams.now next) (λ stream. stream.at < time) }
    ensures none { result ≡ false → (entry_length : ℕ) → taken_from streams.now time entry_length next ≡ None }
{
    if next >= streams.len() {
        return false;
    }
    streams[next].at < time
}

impl Queues {
    /// All requests wait. Each is of a slot below `slots`.
    pub fn new(alloc: Global, streams: Vec<Stream>, slots: u8) -> Result<Queues, AllocError>
        requires known { All (λ stream. stream.slot < slots) streams.items }
        ensures streams { IfOk result (λ queues. queues.streams ≡ streams.items) }
        ensures slots { IfOk result (λ queues. length queues.next ≡ slots) }
        // Nothing was taken before the first cycle.
        ensures fresh { IfOk result (λ queues. (slot : ℕ) (carried : ℕ → Option ℕ) → slot < slots
            → HasTaken queues.streams slot carried 0 (get_or queues.next slot 0)) }
    {
        let count = streams.len();
        let mut later = places(alloc, 0, count)?;
        let mut next = places(alloc, count, usize::from(slots))?;
        link(streams.as_slice(), &mut later, &mut next);
        Ok(Queues {
            streams,
            later,
            next,
        })
    }

    /// The requests, in the order of the file.
    pub fn streams(&self) -> &[Stream]
        ensures list { result.now ≡ self.now.streams }
    {
        self.streams.as_slice()
    }

    /// The number of slots.
    pub fn slots(&self) -> usize
        ensures value { result ≡ length self.now.next }
    {
        self.next.len()
    }

    /// Whether the next request of the slot arrived before a time, in bit times. Else no instance that is released at
    /// that time takes one.
    pub fn has_arrived(&self, slot: u8, time: u64) -> bool
        requires known { slot < length self.now.next }
        ensures arrived { (result ≡ true) ↔ IsSomeAnd
            (slice_get self.now.streams (get_or self.now.next slot 0)) (λ stream. stream.at < time) }
        ensures none { result ≡ false → (entry_length : ℕ)
            → taken_from self.now.streams time entry_length (get_or self.now.next slot 0) ≡ None }
    {
        let next = self.next[usize::from(slot)];
        has_arrived(self.streams.as_slice(), time, next)
    }

    /// An instance of the slot that is released at this time takes the next request of the slot, where it can carry it.
    /// The answer is the place of that request in the file, from 0.
    ///
    /// The time is the start of the cycle of the release, in bit times. The length is that of the entry, in bytes.
    pub fn take(&mut self, slot: u8, time: u64, entry_length: u8) -> Option<usize>
        requires known { slot < length self.old.next }
        ensures value { result ≡ taken_from self.old.streams time entry_length (get_or self.old.next slot 0) }
        // It is one of the slot, and can be carried.
        ensures inside { IfSome result (λ place. place < length self.old.streams) }
        ensures its_slot { IfSome result (IsOfSlot self.old.streams slot) }
        ensures can { IfSome result
            (λ place. IsSomeAnd (slice_get self.old.streams place) (CanCarry time entry_length)) }
        ensures streams { self.new.streams ≡ self.old.streams }
        ensures slots { length self.new.next ≡ length self.old.next }
        ensures others { (other : ℕ) → other < length self.old.next → (other ≡ slot → ⊥)
            → get_or self.new.next other 0 ≡ get_or self.old.next other 0 }
        // *Ride*: where what was taken before is by it, so is what this instance takes, and what is left then.
        ensures ride { (layout_cycle cycle : ℕ) (lengths : ℕ → Option ℕ) (carried : ℕ → Option ℕ)
            → IsRide layout_cycle self.old.streams slot lengths carried
            → HasTaken self.old.streams slot carried cycle (get_or self.old.next slot 0)
            → lengths cycle ≡ Some entry_length → time ≡ cycle * layout_cycle
            → (carried cycle ≡ result)
            × HasTaken self.old.streams slot carried (cycle + 1) (get_or self.new.next slot 0) }
    {
        let next = self.next[usize::from(slot)];
        match taken_from(self.streams.as_slice(), time, entry_length, next) {
            None => None,
            Some(place) => {
                self.next[usize::from(slot)] = self.later[place];
                Some(place)
            }
        }
    }
}
