//! The frames of a bus whose polled slots carry requests, cycle by cycle.

ghost use Rattle.std.specs.Prelude.{◌≡◌, ◌≢◌, ◌↔◌, ℕ, ◌+◌, ◌*◌, ◌<◌, ◌≤◌, List, [], ◌∷◌, ◌++◌, All, IfOk, IfSome};
ghost use Rattle.std.specs.Prelude.{Option, None, Some, true, get_or, is_some, length, map, take};
ghost use Rattle.std.specs.Prelude.{option_and_then, vec_capacity};
ghost use Rattle.std.specs.List.{slice_get};
ghost use Rattle.profile.specs.Limits.{cycles_end, times_end};
ghost use Rattle.can_frame.specs.declared.data_frame.TimedFrame.{TimedFrame};
ghost use Rattle.requirement_table.specs.Opening.{Opening};
ghost use Rattle.bit_sets.specs.Sets.{has_bit, most_slots};
ghost use Rattle.requirement_table.specs.Table.{IsWellPlaced};
ghost use Rattle.bus_line.specs.Trace.{Follows};
ghost use Rattle.cycle_engine.specs.Offered.{offered_in};
ghost use Rattle.cycle_engine.specs.SyncWindow.{back_to_back};
ghost use Rattle.sporadic_poll.specs.declared.fate.Fate.TheVariants.{Waits};
ghost use Rattle.sporadic_poll.specs.Polled.{is_polled, payload_at, payload_of, polled_bytes};
ghost use Rattle.sporadic_poll.specs.Ride.{IsOfSlot, IsRide, bytes_with, length_released};
ghost use Rattle.sporadic_poll.specs.Rides.{AreFates, AreRidesAt, HasRidden, HaveRidden, IsNoting, IsPlainCycle};
ghost use Rattle.sporadic_poll.specs.Rides.{SameSent};
ghost use Rattle.sporadic_poll.specs.Waiting.{HasTaken};
ghost use Rattle.sporadic_poll.specs.Rides.{noted, polled_frame, ride_sent, sent_anew, slot_sent, taken_in};

use crate::current::{Current, current_in};
use crate::fate::{Fate, Ride};
use crate::laws::plain_cycle;
use crate::polled_bytes::PolledBytes;
use crate::queues::Queues;
use crate::stream::Stream;
use can_frame::{Frame, TimedFrame, wire_len};
use cycle_layout::Layout;
use profile::FIRST_IDENTIFIER;
use requirement_table::{MOST_SLOTS, Mask, Placed};
use std::alloc::{AllocError, Global};
use std::marker::Model;

/// Requests that instances of polled slots carry. Contracts see the requests and which of them wait, for each slot the
/// request that was taken last, and what became of each request.
#[derive(Drop, Debug)]
pub struct Rides {
    queues: Queues,
    /// The slots of which there are requests.
    polled: Mask,
    /// For each slot the request that was taken last.
    latest: Vec<Option<Ride>>,
    fates: Vec<Fate>,
}

impl Model for Rides {
    ghost use Rattle.sporadic_poll.specs.Rides.{AreRidesKept, Riding};

    ghost Value = { Riding };

    ghost view = { λ r. record { queued = r.queues; latest = r.latest.items; fates = r.fates.items } };

    ghost invariant = { λ r. AreRidesKept r.queues r.polled r.latest.items r.fates.items };
}

/// The slots of requests.
fn slots_of(streams: &[Stream]) -> Mask
    requires known { All (λ stream. stream.slot < most_slots) streams.now }
    ensures slots { (slot : ℕ) → has_bit result slot ≡ is_polled streams.now slot }
{
    let mut slots = Mask::empty();
    for stream in streams {
        slots = slots.with(stream.slot);
    }
    slots
}

/// So many requests that wait.
fn all_wait(alloc: Global, count: usize) -> Result<Vec<Fate>, AllocError>
    ensures whole { IfOk result (λ fates. length fates.items ≡ count) }
    ensures each { IfOk result
        (λ fates. (place : ℕ) → place < length fates.items → get_or fates.items place Waits ≡ Waits) }
{
    vec![in alloc; Fate::Waits; count]
}

/// So many slots of which no request was taken.
fn none_taken(alloc: Global, slots: usize) -> Result<Vec<Option<Ride>>, AllocError>
    ensures whole { IfOk result (λ latest. length latest.items ≡ slots) }
    ensures each { IfOk result
        (λ latest. (slot : ℕ) → slot < length latest.items → get_or latest.items slot None ≡ None) }
{
    vec![in alloc; None; slots]
}

/// The slot of which this is a frame.
fn slot_of(frame: &Frame) -> Option<u8>
    ensures slot { result ≡ slot_sent frame.now }
{
    let id = frame.id();
    if FIRST_IDENTIFIER <= id && id < FIRST_IDENTIFIER + u16::from(MOST_SLOTS) {
        Some((id - FIRST_IDENTIFIER) as u8)
    } else {
        None
    }
}

/// Whether the cycle of a release is this one.
fn is_release(noted: Option<u64>, release: u64) -> bool
    ensures is { (result ≡ true) ↔ (noted ≡ Some release) }
{
    match noted {
        Some(cycle) => cycle == release,
        None => false,
    }
}

/// The place of the first request of a slot that is noted as taken by the instance that was released in a cycle.
fn noted_as(streams: &[Stream], fates: &[Fate], slot: u8, release: u64) -> Option<usize>
    requires each { length fates.now ≡ length streams.now }
    ensures found { IfSome result (IsOfSlot streams.now slot) }
    ensures noted { IfSome result (λ place. taken_in fates.now place ≡ Some release) }
    ensures none { result ≡ None → (place : ℕ) → IsOfSlot streams.now slot place
        → taken_in fates.now place ≢ Some release }
    ensures inside { IfSome result (λ place. place < length streams.now) }
{
    for place in 0..streams.len() {
        if streams[place].slot == slot && is_release(fates[place].release(), release) {
            return Some(place);
        }
    }
    None
}

/// How many frames stand before the first frame of a slot.
fn front_len(frames: &[TimedFrame]) -> usize
    ensures within { result ≤ length frames.now }
    ensures front { All (λ sent. slot_sent sent.frame ≡ None) (take result frames.now) }
    ensures window { IfSome (slice_get frames.now result) (λ sent. is_some (slot_sent sent.frame) ≡ true) }
{
    for place in 0..frames.len() {
        if slot_of(&frames[place].frame).is_some() {
            return place;
        }
    }
    frames.len()
}

/// The place of the request that the slot's instance takes which is released in a cycle, at this time.
fn take_from(
    queues: &mut Queues,
    slot: u8,
    time: u64,
    cycle: u64,
    placed: &[Placed],
) -> Option<usize>
    requires known { slot < length queues.old.next }
    requires well_placed { IsWellPlaced placed.now }
    ensures streams { queues.new.streams ≡ queues.old.streams }
    ensures slots { length queues.new.next ≡ length queues.old.next }
    ensures inside { IfSome result (λ place. place < length queues.old.streams) }
    ensures its_slot { IfSome result (IsOfSlot queues.old.streams slot) }
    ensures next { IfSome result (λ place. place ≡ get_or queues.old.next slot 0) }
    ensures others { (other : ℕ) → (other ≡ slot → ⊥)
        → get_or queues.new.next other 0 ≡ get_or queues.old.next other 0 }
    ensures ride { (layout_cycle : ℕ) (lengths carried : ℕ → Option ℕ)
        → time ≡ cycle * layout_cycle → IsRide layout_cycle queues.old.streams slot lengths carried
        → lengths cycle ≡ length_released placed.now slot cycle
        → HasTaken queues.old.streams slot carried cycle (get_or queues.old.next slot 0)
        → (carried cycle ≡ result)
        × HasTaken queues.old.streams slot carried (cycle + 1) (get_or queues.new.next slot 0) }
{
    if !queues.has_arrived(slot, time) {
        return None;
    }
    let current = current_in(placed, slot, cycle)?;
    if current.release == cycle {
        queues.take(slot, time, current.length)
    } else {
        None
    }
}

impl Rides {
    /// All requests wait. There are so many slots, at most 96, and each request is of one of them.
    ///
    /// # Errors
    ///
    /// Only where memory runs out.
    pub fn new(alloc: Global, streams: Vec<Stream>, slots: u8) -> Result<Rides, AllocError>
        requires few { slots ≤ most_slots }
        requires known { All (λ stream. stream.slot < slots) streams.items }
        ensures streams { IfOk result (λ rides. rides.queued.streams ≡ streams.items) }
        ensures slots { IfOk result (λ rides. length rides.queued.next ≡ slots) }
        // Nothing was taken or sent before the first cycle.
        ensures fresh { IfOk result (λ rides. (carried : ℕ → ℕ → Option ℕ) → HaveRidden carried 0 rides) }
        ensures fates { IfOk result (λ rides. (carried : ℕ → ℕ → Option ℕ)
            → AreFates rides.queued.streams [] carried rides.fates) }
    {
        let polled = slots_of(streams.as_slice());
        let fates = all_wait(alloc, streams.len())?;
        let latest = none_taken(alloc, usize::from(slots))?;
        Ok(Rides {
            queues: Queues::new(alloc, streams, slots)?,
            polled,
            latest,
            fates,
        })
    }

    /// The requests, in the order of the file.
    pub fn streams(&self) -> &[Stream]
        ensures list { result.now ≡ self.now.queued.streams }
        ensures known { All (λ stream. stream.slot < most_slots) result.now }
    {
        self.queues.streams()
    }

    /// What became of each request, in the order of the file.
    pub fn fates(&self) -> &[Fate]
        ensures list { result.now ≡ self.now.fates }
        ensures each { length self.now.fates ≡ length self.now.queued.streams }
    {
        self.fates.as_slice()
    }

    /// A cycle was run on the bus without requests: its frames get the bytes of the requests that their instances
    /// carry, and take the place of those of `out`. Frames of slots start one right after the other, from the start of
    /// the first.
    ///
    /// First each instance of a polled slot that is released in the cycle takes its request, whether or not its slot is
    /// flagged. `placed` are the entries that were placed when the cycle was opened. `out` has room for the frames.
    pub fn carry(
        &mut self,
        layout: &Layout,
        cycle: u64,
        placed: &[Placed],
        frames: &[TimedFrame],
        out: &mut Vec<TimedFrame>,
    )
        requires cycle { cycle < cycles_end }
        requires well_placed { IsWellPlaced placed.now }
        requires room { length frames.now ≤ vec_capacity out.old }
        ensures streams { self.new.queued.streams ≡ self.old.queued.streams }
        ensures slots { length self.new.queued.next ≡ length self.old.queued.next }
        ensures capacity { vec_capacity out.old ≤ vec_capacity out.new }
        // What is known of the slots is what instances took that were released up to this cycle.
        ensures taken { (mask : ℕ) (lengths carried : ℕ → ℕ → Option ℕ)
            → AreRidesAt layout.now.cycle self.old.queued.streams
            (record { cycle = cycle; mask = mask; placed = placed.now }) lengths carried
            → HaveRidden carried cycle self.old → HaveRidden carried (cycle + 1) self.new }
        // What became of the requests is known after this cycle too, whatever cycles were opened before.
        ensures fates { (openings : List Opening) (mask : ℕ) (lengths carried : ℕ → ℕ → Option ℕ)
            → AreRidesAt layout.now.cycle self.old.queued.streams
            (record { cycle = cycle; mask = mask; placed = placed.now }) lengths carried
            → HaveRidden carried cycle self.old
            → IsPlainCycle layout.now (record { cycle = cycle; mask = mask; placed = placed.now }) frames.now
            → AreFates self.old.queued.streams openings carried self.old.fates
            → AreFates self.old.queued.streams
            (openings ++ record { cycle = cycle; mask = mask; placed = placed.now } ∷ []) carried self.new.fates }
        // The frames are those of the cycle in the polled trace, whatever was sent before the cycle.
        ensures frames { (mask : ℕ) (lengths carried : ℕ → ℕ → Option ℕ) (past : List TimedFrame)
            → AreRidesAt layout.now.cycle self.old.queued.streams
            (record { cycle = cycle; mask = mask; placed = placed.now }) lengths carried
            → HaveRidden carried cycle self.old
            → IsPlainCycle layout.now (record { cycle = cycle; mask = mask; placed = placed.now }) frames.now
            → All (λ sent. sent.start < cycle * layout.now.cycle) past
            → Follows (offered_in (polled_bytes self.old.queued.streams carried) layout.now []
            (record { cycle = cycle; mask = mask; placed = placed.now })) past
            (cycle * layout.now.cycle) ((cycle + 1) * layout.now.cycle) out.new.items }
    {
        plain_cycle();
        let length = u64::from(layout.cycle());
        self.take_released(cycle * length, cycle, placed);
        let (front, window) = frames.split_at(front_len(frames));
        let _ = self.streams();
        let _ = self.fates();
        self.note_sent(cycle, placed, window);
        self.put(cycle, placed, front, window, (cycle + 1) * length, out);
    }

    /// Puts the frames of a cycle in place of those of `out`: those in front as they are, and behind them those from
    /// the first frame of a slot on, with the bytes of the requests that they carry. `out` has room for them.
    fn put(
        &self,
        cycle: u64,
        placed: &[Placed],
        front: &[TimedFrame],
        window: &[TimedFrame],
        until: u64,
        out: &mut Vec<TimedFrame>,
    )
        requires time { until < times_end }
        requires well_placed { IsWellPlaced placed.now }
        requires room { length front.now + length window.now ≤ vec_capacity out.old }
        ensures put { (carried : ℕ → ℕ → Option ℕ) → HaveRidden carried (cycle + 1) self.now
            → out.new.items ≡ front.now
            ++ sent_anew (polled_frame self.now.queued.streams carried placed.now cycle) until window.now }
        ensures capacity { vec_capacity out.old ≤ vec_capacity out.new }
    {
        out.clear();
        out.extend_from_slice(front).unwrap();
        if let Some(first) = window.first() {
            self.send(cycle, placed, window, first.start, until, out);
        }
    }

    /// Each instance that is released in the cycle takes its request. The time is the start of the cycle, in bit times.
    fn take_released(&mut self, time: u64, cycle: u64, placed: &[Placed])
        requires cycle { cycle < cycles_end }
        requires well_placed { IsWellPlaced placed.now }
        ensures streams { self.new.queued.streams ≡ self.old.queued.streams }
        ensures slots { length self.new.queued.next ≡ length self.old.queued.next }
        ensures taken { (layout_cycle mask : ℕ) (lengths carried : ℕ → ℕ → Option ℕ)
            → time ≡ cycle * layout_cycle
            → AreRidesAt layout_cycle self.old.queued.streams
            (record { cycle = cycle; mask = mask; placed = placed.now }) lengths carried
            → HaveRidden carried cycle self.old
            → HaveRidden carried (cycle + 1) self.new × SameSent self.old.fates self.new.fates }
    {
        for slot in 0..self.queues.slots() {
            self.take_of(slot as u8, time, cycle, placed);
        }
    }

    /// The instance of a slot that is released in the cycle takes its request.
    fn take_of(&mut self, slot: u8, time: u64, cycle: u64, placed: &[Placed])
        requires known { slot < length self.old.queued.next }
        requires well_placed { IsWellPlaced placed.now }
        ensures streams { self.new.queued.streams ≡ self.old.queued.streams }
        ensures slots { length self.new.queued.next ≡ length self.old.queued.next }
        ensures taken { (layout_cycle : ℕ) (lengths carried : ℕ → Option ℕ)
            → time ≡ cycle * layout_cycle → IsRide layout_cycle self.old.queued.streams slot lengths carried
            → lengths cycle ≡ length_released placed.now slot cycle
            → HasRidden slot carried cycle self.old
            → HasRidden slot carried (cycle + 1) self.new × SameSent self.old.fates self.new.fates }
        ensures others { (other since : ℕ) (carried : ℕ → Option ℕ) → (other ≡ slot → ⊥)
            → HasRidden other carried since self.old → HasRidden other carried since self.new }
    {
        if let Some(place) = take_from(&mut self.queues, slot, time, cycle, placed) {
            self.fates[place] = Fate::Taken { release: cycle };
            self.latest[usize::from(slot)] = Some(Ride {
                release: cycle,
                place,
            });
        }
    }

    /// The place of the request that the slot's instance took which was released in a cycle.
    fn taken_by(&self, slot: u8, release: u64) -> Option<usize>
        ensures took { (carried : ℕ → Option ℕ) (cycle : ℕ) → HasRidden slot carried cycle self.now → release < cycle
            → result ≡ carried release }
        ensures inside { IfSome result (λ place. place < length self.now.queued.streams) }
    {
        let latest = *self.latest.get(usize::from(slot))?;
        let ride = latest?;
        if ride.release == release {
            return Some(ride.place);
        }
        if ride.release < release {
            return None;
        }
        noted_as(self.streams(), self.fates(), slot, release)
    }

    /// The request that the slot's instance carries that may be sent in the cycle.
    fn ride_of(&self, slot: u8, cycle: u64, placed: &[Placed]) -> Option<Ride>
        requires known { slot < most_slots }
        requires well_placed { IsWellPlaced placed.now }
        ensures ride { (carried : ℕ → ℕ → Option ℕ) → HaveRidden carried (cycle + 1) self.now
            → result ≡ ride_sent self.now.queued.streams carried placed.now cycle slot }
        ensures inside { IfSome result (λ ride. ride.place < length self.now.queued.streams) }
        ensures taken { (carried : ℕ → ℕ → Option ℕ) → HaveRidden carried (cycle + 1) self.now
            → IfSome result (λ ride. taken_in self.now.fates ride.place ≡ Some ride.release) }
    {
        if !self.polled.has(slot) {
            return None;
        }
        let current = current_in(placed, slot, cycle)?;
        let place = self.taken_by(slot, current.release)?;
        Some(Ride {
            release: current.release,
            place,
        })
    }

    /// The request that a frame of the cycle carries.
    fn ride_in(&self, frame: &Frame, cycle: u64, placed: &[Placed]) -> Option<Ride>
        requires well_placed { IsWellPlaced placed.now }
        ensures ride { (carried : ℕ → ℕ → Option ℕ) → HaveRidden carried (cycle + 1) self.now
            → result
            ≡ option_and_then (ride_sent self.now.queued.streams carried placed.now cycle) (slot_sent frame.now) }
        ensures inside { IfSome result (λ ride. ride.place < length self.now.queued.streams) }
        ensures taken { (carried : ℕ → ℕ → Option ℕ) → HaveRidden carried (cycle + 1) self.now
            → IfSome result (λ ride. taken_in self.now.fates ride.place ≡ Some ride.release) }
    {
        let slot = slot_of(frame)?;
        self.ride_of(slot, cycle, placed)
    }

    /// Notes that the frames of a cycle were sent.
    fn note_sent(&mut self, cycle: u64, placed: &[Placed], frames: &[TimedFrame])
        requires well_placed { IsWellPlaced placed.now }
        ensures noted { IsNoting cycle placed.now frames.now self.old self.new (length frames.now) }
    {
        for sent in frames {
            self.note(&sent.frame, cycle, placed);
        }
    }

    /// Notes that a frame was sent in a cycle.
    fn note(&mut self, frame: &Frame, cycle: u64, placed: &[Placed])
        requires well_placed { IsWellPlaced placed.now }
        ensures queued { self.new.queued ≡ self.old.queued }
        ensures noted { (carried : ℕ → ℕ → Option ℕ) → HaveRidden carried (cycle + 1) self.old
            → HaveRidden carried (cycle + 1) self.new × (self.new.fates ≡ noted cycle self.old.fates
            (option_and_then (ride_sent self.old.queued.streams carried placed.now cycle) (slot_sent frame.now))) }
    {
        if let Some(ride) = self.ride_in(frame, cycle, placed) {
            self.fates[ride.place] = Fate::Sent {
                release: ride.release,
                cycle,
            };
        }
    }

    /// Puts frames of a cycle behind `out`, with the bytes of the requests that they carry, one right after the other
    /// from a time on, as many as start before `until`. `out` has room for them.
    fn send(
        &self,
        cycle: u64,
        placed: &[Placed],
        frames: &[TimedFrame],
        from: u64,
        until: u64,
        out: &mut Vec<TimedFrame>,
    )
        requires time { until < times_end }
        requires well_placed { IsWellPlaced placed.now }
        requires room { length out.old.items + length frames.now ≤ vec_capacity out.old }
        ensures sent { (carried : ℕ → ℕ → Option ℕ) → HaveRidden carried (cycle + 1) self.now
            → out.new.items ≡ out.old.items ++ back_to_back
            (map (λ sent. polled_frame self.now.queued.streams carried placed.now cycle sent.frame) frames.now)
            from until }
        ensures capacity { vec_capacity out.old ≤ vec_capacity out.new }
    {
        let mut at = from;
        for sent in frames {
            if at >= until {
                return;
            }
            let frame = self.polled_frame(&sent.frame, cycle, placed);
            let len = wire_len(&frame);
            out.push_reserved(TimedFrame {
                start: at,
                len,
                frame,
            });
            at += u64::from(len);
        }
    }

    /// A frame of a cycle, with the bytes of the request that its instance carries.
    fn polled_frame(&self, frame: &Frame, cycle: u64, placed: &[Placed]) -> Frame
        requires well_placed { IsWellPlaced placed.now }
        ensures frame { (carried : ℕ → ℕ → Option ℕ) → HaveRidden carried (cycle + 1) self.now
            → result ≡ polled_frame self.now.queued.streams carried placed.now cycle frame.now }
    {
        let Some(slot) = slot_of(frame) else {
            return *frame;
        };
        if !self.polled.has(slot) {
            return *frame;
        }
        let Some(current) = current_in(placed, slot, cycle) else {
            return *frame;
        };
        let bytes = self.bytes_of(slot, &current);
        match Frame::new(frame.id(), bytes.as_slice()) {
            Ok(polled) => polled,
            Err(_) => unreachable!(),
        }
    }

    /// The bytes of an instance of a polled slot.
    fn bytes_of(&self, slot: u8, current: &Current) -> PolledBytes
        requires few { current.now.length ≤ 8 }
        ensures bytes { (carried : ℕ → Option ℕ) (cycle : ℕ) → HasRidden slot carried cycle self.now
            → current.now.release < cycle
            → result ≡ bytes_with current.now.length
            (option_and_then (payload_at self.now.queued.streams current.now.length) (carried current.now.release)) }
    {
        match self.taken_by(slot, current.release) {
            Some(place) => bytes_of(&self.streams()[place], current.length),
            None => PolledBytes::none(current.length),
        }
    }
}

/// The bytes of an instance that took a request, of an entry of this length.
fn bytes_of(stream: &Stream, entry_length: u8) -> PolledBytes
    requires few { entry_length ≤ 8 }
    ensures bytes { result ≡ bytes_with entry_length (payload_of entry_length stream.now) }
{
    let payload = stream.payload.as_slice();
    if payload.len() < usize::from(entry_length) {
        PolledBytes::of(entry_length, payload)
    } else {
        PolledBytes::none(entry_length)
    }
}
