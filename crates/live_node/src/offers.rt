//! What a node in use offers.

ghost use Rattle.std.specs.Prelude.{◌≡◌, ℕ, ◌+◌, ◌-◌, ◌^◌, max, ◌<◌, ◌≤◌, IfSome, IsSome, MatchOption, None, Some, false, true};
ghost use Rattle.std.specs.Prelude.{AllPairs, List, length, option_map, slice_get, if◌then◌else◌, not, ◌≢◌, ◌==◌, ◌&&◌, ◌||◌, ◌⊎◌};
ghost use Rattle.std.specs.List.{cons_option};
ghost use Rattle.profile.specs.Limits.{first_identifier, least_asynchronous};
ghost use Rattle.stuff_bound.specs.Stuffing.{worst};
ghost use Rattle.bit_sets.specs.Least.{least_where};
ghost use Rattle.bit_sets.specs.Sets.{has_bit, most_slots};
ghost use Rattle.async_window.specs.Mailbox.{IsLeastWith, least_of};
ghost use Rattle.can_frame.specs.DataFrame.{DataFrame};
ghost use Rattle.node_model.specs.Window.{due_bytes, is_due_slot};
ghost use Rattle.node_model.specs.Online.{cycle_of, open_now};
ghost use Rattle.live_node.specs.Live.{frames_of};
ghost use Rattle.live_node.specs.Sending.{IsDueUnder, due_of, frame_under, has_set, is_owed, is_ready, live_offer, may_send, may_start};
ghost use Rattle.live_node.specs.Windows.{IsOffered};
ghost use Rattle.live_node.specs.Sending.{owed_frame, request_offer, slot_frame, slot_offer};

use crate::due::Due;
use crate::known_bytes::{filled, is_as_long, value_of};
use crate::node::LiveNode;
use crate::waiting::{Mailbox, last_request, place_of};
use bit_sets::{difference, least_slot};
use can_frame::Frame;
use cycle_layout::Layout;
use node_model::OpenCycle;
use profile::{FIRST_IDENTIFIER, LEAST_ASYNCHRONOUS, MOST_SLOTS};
use requirement_table::Mask;
use stuff_bound::bound;

/// What a node offers, and how long it does while nothing is heard, put, loaded or told.
#[derive(Clone, Copy, PartialEq, Eq, Debug)]
pub struct LiveOffer {
    /// The identifier.
    pub id: u16,
    /// The last time at which its frame may start, in bit times from the start of the cycle.
    pub until: u32,
}

impl LiveNode {
    /// What the node offers so many bit times behind the start of its cycle: the least identifier that waits and is not in
    /// flight, while the longest form of its frame still ends before the synchronous window, or that of a slot in the cycle.
    pub fn offer(&self, into: u32) -> Option<LiveOffer>
        ensures offer { MatchOption result (live_offer self.now into ≡ None) (IsOffered self.now into) }
    {
        match self.node.open_cycle() {
            Some(open_cycle) => self.offer_in(&open_cycle, into),
            None => None,
        }
    }

    /// The same in the cycle that is open.
    fn offer_in(&self, open_cycle: &OpenCycle, into: u32) -> Option<LiveOffer>
        requires open_cycle { option_map cycle_of (open_now self.now.state) ≡ Some open_cycle.now }
        requires fits { open_cycle.now.width ≤ self.now.state.layout.window }
        ensures offer { MatchOption result (live_offer self.now into ≡ None) (IsOffered self.now into) }
    {
        let layout = self.node.layout();
        if layout.cycle() - open_cycle.width <= into {
            self.find_slot(into)
        } else {
            find_request(self.mail.as_slice(), &layout, open_cycle.width, into)
        }
    }

    /// The slot that is offered in the synchronous window.
    fn find_slot(&self, into: u32) -> Option<LiveOffer>
        ensures offer { option_map (λ offer. offer.id) result ≡ slot_offer self.now into }
        ensures until { IfSome result (λ offer. offer.until + worst
            (length (due_bytes self.now.state (offer.id - first_identifier))) ≡ self.now.state.layout.cycle) }
    {
        match self.least_ready(into) {
            Some(slot) => Some(LiveOffer {
                id: FIRST_IDENTIFIER + u16::from(slot),
                until: self.last_start(slot),
            }),
            None => None,
        }
    }

    /// The least slot whose frame may be loaded, and ends in the cycle.
    fn least_ready(&self, into: u32) -> Option<u8>
        ensures least { result ≡ least_where most_slots (may_send self.now into) }
        ensures due { IfSome result (λ slot. is_due_slot self.now.state slot ≡ true) }
        ensures known { IfSome result (λ slot. slot < most_slots) }
    {
        let ready = self.ready();
        let Some(first) = least_slot(ready) else {
            return None;
        };
        for slot in first..MOST_SLOTS {
            if self.may_send(ready, slot, into) {
                return Some(slot);
            }
        }
        None
    }

    /// Whether a slot is one of those whose frames may be loaded, and its frame ends in the cycle.
    fn may_send(&self, ready: Mask, slot: u8, into: u32) -> bool
        requires slot { slot < most_slots }
        requires ready { has_bit ready slot ≡ is_ready self.now slot }
        ensures may { result ≡ may_send self.now into slot }
    {
        ready.has(slot) && into <= self.last_start(slot)
    }

    /// The last time at which the frame of a slot may start that the node has to send.
    fn last_start(&self, slot: u8) -> u32
        requires slot { slot < most_slots }
        requires due { is_due_slot self.now.state slot ≡ true }
        ensures last { result + worst (length (due_bytes self.now.state slot)) ≡ self.now.state.layout.cycle }
    {
        let bytes = match self.node.frame_due(slot) {
            Some(frame) => frame.dlc(),
            None => unreachable!(),
        };
        self.node.layout().cycle() - bound(bytes)
    }

    /// The slots that the node owes in the open cycle: flagged ones of which it has an instance, and that were not sent.
    /// Before the next trigger these are the ones that were missed.
    pub fn due_slots(&self) -> Mask
        ensures slots { (slot : ℕ) → slot < most_slots → has_bit result slot ≡ is_owed self.now slot }
    {
        match self.node.open_cycle() {
            Some(_) => difference(self.node.with_due_slots(Mask::empty()), self.sent),
            None => Mask::empty(),
        }
    }

    /// Those of them that may be loaded.
    fn ready(&self) -> Mask
        ensures slots { (slot : ℕ) → slot < most_slots → has_bit result slot ≡ is_ready self.now slot }
    {
        let free = difference(self.due_slots(), self.loaded);
        if self.silent {
            self.with_bytes(free)
        } else {
            free
        }
    }

    /// Those of some slots that the node owes for which fitting bytes are set.
    fn with_bytes(&self, slots: Mask) -> Mask
        requires owed { (slot : ℕ) → slot < most_slots → has_bit slots slot ≡ true
            → is_due_slot self.now.state slot ≡ true }
        ensures slots { (slot : ℕ) → slot < most_slots
            → has_bit result slot ≡ (has_bit slots slot && has_set self.now slot) }
    {
        let mut fitting = slots;
        for slot in 0..MOST_SLOTS {
            fitting = self.without_unset(fitting, slot);
        }
        fitting
    }

    /// Some slots that the node owes, without one for which no fitting bytes are set.
    fn without_unset(&self, slots: Mask, slot: u8) -> Mask
        requires slot { slot < most_slots }
        requires owed { has_bit slots slot ≡ true → is_due_slot self.now.state slot ≡ true }
        ensures slots { (other : ℕ) → has_bit result other
            ≡ (has_bit slots other && (not (other == slot) || has_set self.now slot)) }
    {
        if slots.has(slot) && !self.has_set(slot) {
            slots.without(slot)
        } else {
            slots
        }
    }

    /// Whether the bytes of a slot that the node has to send are those that were set.
    pub(crate) fn has_set(&self, slot: u8) -> bool
        requires slot { slot < most_slots }
        requires due { is_due_slot self.now.state slot ≡ true }
        ensures set { result ≡ has_set self.now slot }
    {
        match self.node.frame_due(slot) {
            Some(frame) => is_as_long(&value_of(&self.values, slot), &frame),
            None => unreachable!(),
        }
    }

    /// The least time behind `into` at which the node offers something, while nothing is heard, put, loaded or told.
    pub fn wake(&self, into: u32) -> Option<u32>
        ensures next { IsLeastWith (λ later. (into < later) × IsSome (live_offer self.now later)) result }
    {
        match self.node.open_cycle() {
            Some(open_cycle) => self.wake_in(&open_cycle, into),
            None => None,
        }
    }

    /// The same in the cycle that is open.
    fn wake_in(&self, open_cycle: &OpenCycle, into: u32) -> Option<u32>
        requires open_cycle { option_map cycle_of (open_now self.now.state) ≡ Some open_cycle.now }
        requires fits { open_cycle.now.width ≤ self.now.state.layout.window }
        ensures next { IsLeastWith (λ later. (into < later) × IsSome (live_offer self.now later)) result }
    {
        let layout = self.node.layout();
        if layout.cycle() <= into {
            return None;
        }
        let opened = layout.trigger_part() + layout.turnaround();
        let first = next_from(opened, into);
        match self.wake_at(first) {
            Some(time) => Some(time),
            None => {
                let second = next_from(layout.cycle() - open_cycle.width, into);
                self.wake_at(second)
            }
        }
    }

    /// A time, where the node offers something at it.
    fn wake_at(&self, into: u32) -> Option<u32>
        ensures time { MatchOption result (live_offer self.now into ≡ None)
            (λ time. (time ≡ into) × IsSome (live_offer self.now into)) }
    {
        match self.offer(into) {
            Some(_) => Some(into),
            None => None,
        }
    }

    /// The frame that the node offers under an identifier, where it offers that one so many bit times behind the start of
    /// its cycle.
    pub fn frame(&self, into: u32, id: u16) -> Option<Frame>
        ensures frame { MatchOption result (live_offer self.now into ≡ Some id → ⊥)
            (λ frame. (live_offer self.now into ≡ Some id) × (frame_under self.now id ≡ Some frame)
            × (frame.identifier ≡ id)) }
    {
        let _ = &self.mail;
        if self.offers(into, id) {
            Some(self.frame_under(id))
        } else {
            None
        }
    }

    /// Whether the node offers an identifier.
    fn offers(&self, into: u32, id: u16) -> bool
        ensures yes { result ≡ true → live_offer self.now into ≡ Some id }
        ensures no { result ≡ false → live_offer self.now into ≡ Some id → ⊥ }
    {
        match self.offer(into) {
            Some(offer) => offer.id == id,
            None => false,
        }
    }

    /// The frame of an offered identifier.
    fn frame_under(&self, id: u16) -> Frame
        requires due { id < least_asynchronous → IsDueUnder self.now id }
        requires some { least_asynchronous ≤ id → IsSome (slice_get (frames_of self.now.mail id) 0) }
        ensures frame { frame_under self.now id ≡ Some result }
        ensures identifier { result.identifier ≡ id }
    {
        if id >= LEAST_ASYNCHRONOUS {
            self.request_frame(id)
        } else {
            self.owed((id - FIRST_IDENTIFIER) as u8)
        }
    }

    /// The frame of the first request of an identifier.
    fn request_frame(&self, id: u16) -> Frame
        requires some { IsSome (slice_get (frames_of self.now.mail id) 0) }
        ensures frame { slice_get (frames_of self.now.mail id) 0 ≡ Some result }
        ensures identifier { result.identifier ≡ id }
    {
        match place_of(self.mail.as_slice(), id) {
            Some(place) => match self.mail[place].first_frame() {
                Some(frame) => frame,
                None => unreachable!(),
            },
            None => unreachable!(),
        }
    }

    /// The frame of a slot that the node owes in the open cycle, with the bytes that were set; none of another slot.
    pub fn slot_frame(&self, slot: u8) -> Option<Frame>
        ensures frame { result ≡ owed_frame self.now slot }
    {
        if slot < MOST_SLOTS && self.due_slots().has(slot) {
            Some(self.owed(slot))
        } else {
            None
        }
    }

    /// The frame of a slot that the node owes.
    fn owed(&self, slot: u8) -> Frame
        requires slot { slot < most_slots }
        requires due { is_due_slot self.now.state slot ≡ true }
        ensures frame { result ≡ slot_frame self.now slot }
    {
        match self.node.frame_due(slot) {
            Some(frame) => filled(&value_of(&self.values, slot), &frame),
            None => unreachable!(),
        }
    }

    /// When a slot may start that the node owes in the open cycle; none of another slot.
    pub fn due(&self, slot: u8) -> Option<Due>
        ensures due { result ≡ due_of self.now slot }
    {
        let open_cycle = self.node.open_cycle()?;
        if slot < MOST_SLOTS && self.due_slots().has(slot) {
            Some(Due {
                start: self.node.layout().cycle() - open_cycle.width,
                last: self.last_start(slot),
                loaded: self.loaded.has(slot),
                users: self.has_set(slot),
            })
        } else {
            None
        }
    }
}

/// The first time from `from` on that lies behind `into`.
fn next_from(from: u32, into: u32) -> u32
    requires few { into < 2 ^ 32 - 1 }
    ensures next { result ≡ max from (into + 1) }
{
    from.max(into + 1)
}

/// The least identifier whose first request may start, with the last time at which it may.
fn find_request(boxes: &[Mailbox], layout: &Layout, width: u32, into: u32) -> Option<LiveOffer>
    requires width { width ≤ layout.now.window }
    requires distinct { AllPairs (λ one other. one.identifier ≢ other.identifier) boxes.now }
    ensures offer { option_map (λ offer. offer.id) result ≡ request_offer layout.now width into boxes.now }
    ensures until { IfSome result (λ offer. (frame : DataFrame)
        → slice_get (frames_of boxes.now offer.id) 0 ≡ Some frame
        → offer.until + worst (length frame.bytes) ≡ layout.now.cycle - width) }
{
    let mut least: Option<LiveOffer> = None;
    for mailbox in boxes {
        least = lesser(least, first_of(mailbox, layout, width, into));
    }
    least
}

/// The first request of an identifier, where it may start.
fn first_of(mailbox: &Mailbox, layout: &Layout, width: u32, into: u32) -> Option<LiveOffer>
    requires width { width ≤ layout.now.window }
    ensures offer { option_map (λ offer. offer.id) result
        ≡ (if may_start layout.now width into mailbox.now then Some mailbox.now.identifier else None) }
    ensures id { IfSome result (λ offer. mailbox.now.identifier ≡ offer.id) }
    ensures until { IfSome result (λ offer. (frame : DataFrame) → slice_get mailbox.now.frames 0 ≡ Some frame
        → offer.until + worst (length frame.bytes) ≡ layout.now.cycle - width) }
{
    if !mailbox.may_start(layout, width, into) {
        return None;
    }
    match mailbox.first_frame() {
        Some(frame) => Some(LiveOffer {
            id: mailbox.id(),
            until: last_request(layout, width, frame.dlc()),
        }),
        None => None,
    }
}

/// The one of two offers that has the lesser identifier.
fn lesser(one: Option<LiveOffer>, other: Option<LiveOffer>) -> Option<LiveOffer>
    ensures least { (rest : List ℕ) → least_of (cons_option (option_map (λ offer. offer.id) result) rest)
        ≡ least_of (cons_option (option_map (λ offer. offer.id) one)
        (cons_option (option_map (λ offer. offer.id) other) rest)) }
    ensures either { IfSome result (λ offer. (one ≡ Some offer) ⊎ (other ≡ Some offer)) }
{
    match (one, other) {
        (Some(first), Some(second)) => { if first.id <= second.id { one } else { other } }
        (Some(_), None) => one,
        (None, _) => other,
    }
}
