//! Mailboxes: the requests of some identifiers, first in, first out for each identifier.

ghost use Rattle.std.specs.Prelude.{◌≡◌, ◌≢◌, ◌↔◌, ℕ, ◌+◌, ◌-◌, ◌/◌, ◌<◌, ◌≤◌, ◌==◌, [], ◌++◌, All};
ghost use Rattle.std.specs.Prelude.{AllPairs, Contains, IfOk, IfSome, IsSome, MatchOption, None, OnErr, Some, false, true};
ghost use Rattle.std.specs.Prelude.{drop, if◌then◌else◌, is_some, length, map, min, nat_lt, option_map, slice_get};
ghost use Rattle.std.specs.Prelude.{slice_index_or, ◌&&◌, ◌^◌};
ghost use Rattle.std.specs.Option.{option_map_or, option_to_list};
ghost use Rattle.profile.specs.Limits.{arrivals_end, greatest_identifier, least_asynchronous, times_end};
ghost use Rattle.cycle_layout.specs.Layout.{CycleLayout};
ghost use Rattle.async_window.specs.Mailbox.{IsLeastWith, IsMail, IsNextInCycle, Mail, OffersIdentifier, SomeWaits, StaysUntil};
ghost use Rattle.async_window.specs.Mailbox.{least_of, left, mail_after, mail_offer, unsent_of, without_first};
ghost use Rattle.async_window.specs.Adding.{with_request};
ghost use Rattle.async_window.specs.Sorted.{IsPlaceTable};
ghost use Rattle.async_window.specs.Tournament.{first_bytes};
ghost use Rattle.stuff_bound.specs.Stuffing.{worst};

use crate::firsts::Firsts;
use crate::mailbox::{MOST_BYTES, Mailbox};
use crate::places::{IDENTIFIERS, in_order, place_of, places};
use crate::request::Request;
use crate::window::{Window, window_in};
use can_frame::Frame;
use cycle_layout::Layout;
use profile::TIMES_END;
use std::alloc::{AllocError, Global};
use std::marker::Model;

/// The most requests that mailboxes hold together.
const MOST_LEFT: usize = 1 << 32;

/// What mailboxes offer, and how long they do while nothing is taken away.
#[derive(Clone, Copy, PartialEq, Eq, Debug)]
pub struct Offer {
    /// The identifier.
    pub id: u16,
    /// A time up to which it is offered, in bit times.
    pub until: u64,
}

/// What mailboxes offer next.
#[derive(Clone, Copy, PartialEq, Eq, Debug)]
pub struct Soon {
    /// The first time at which they offer something, in bit times.
    pub from: u64,
    /// What they offer then.
    pub offer: Offer,
}

/// The unsent requests of some identifiers. Contracts see a list of identifiers, each with its unsent requests in their
/// order.
#[derive(Drop)]
pub struct Mailboxes {
    /// The identifiers in the order in which they were given, which is that of the list.
    ids: Vec<u16>,
    /// The mailboxes in the order of their identifiers.
    boxes: Vec<Mailbox>,
    /// The places of the mailboxes by identifier.
    places: Vec<u16>,
    /// The first requests.
    firsts: Firsts,
    /// The number of requests that are not sent.
    remaining: usize,
}

impl Model for Mailboxes {
    ghost use Rattle.std.specs.Prelude.{List};
    ghost use Rattle.async_window.specs.Mailbox.{Mail};
    ghost use Rattle.async_window.specs.Sorted.{AreBoxesSorted, mail_of};

    ghost Value = { List Mail };

    ghost view = { λ m. mail_of m.ids.items m.boxes.items };

    ghost invariant = { λ m. AreBoxesSorted m.ids.items m.boxes.items m.places.items m.firsts.arrivals
        m.firsts.lengths m.remaining };
}

impl Mailboxes {
    /// Mailboxes for these identifiers, with their requests in their order; requests of other identifiers are left out.
    ///
    /// The identifiers are distinct and 0x200 to 0x7EF. Arrivals never fall and are below 2^40.
    pub fn new(alloc: Global, ids: &[u16], requests: &[Request]) -> Result<Mailboxes, AllocError>
        requires distinct { AllPairs (λ one other. one ≢ other) ids.now }
        requires least { All (λ id. least_asynchronous ≤ id) ids.now }
        requires greatest { All (λ id. id ≤ greatest_identifier) ids.now }
        requires arrivals { AllPairs (λ one other. one.at ≤ other.at) requests.now }
        requires early { All (λ request. request.at < arrivals_end) requests.now }
        ensures mail { IfOk result (λ boxes. boxes ≡ mail_after ids.now requests.now []) }
    {
        let sorted = in_order(alloc, ids)?;
        let places = places(alloc, sorted.as_slice())?;
        let rooms = rooms(alloc, places.as_slice(), requests)?;
        let mut boxes = empty_boxes(alloc, sorted.as_slice(), rooms.as_slice())?;
        let mut remaining = 0;
        for request in requests {
            remaining += put(&mut boxes, &places, request)?;
        }
        let firsts = Firsts::new(alloc, boxes.as_slice())?;
        Ok(Mailboxes {
            ids: ids.to_vec(alloc)?,
            boxes,
            places,
            firsts,
            remaining,
        })
    }

    /// The least identifier whose first unsent request waits at `at` and may start then, in the cycle of `at`, whose
    /// synchronous window has the length `l`; `None` exactly where there is none.
    pub fn offer(&self, layout: &Layout, at: u64, l: u32) -> Option<u16>
        requires window { l ≤ layout.now.window }
        requires time { at < times_end }
        ensures least { IsLeastWith (OffersIdentifier layout.now l self.now at) result }
        ensures value { result ≡ mail_offer layout.now l self.now at }
        ensures known { IsMail self.now }
    {
        self.offer_in(layout, at / u64::from(layout.cycle()), at, l)
    }

    /// The same, where the cycle of `at` is known. No division is made, and where no request waits, the window is not
    /// looked at.
    pub fn offer_in(&self, layout: &Layout, cycle: u64, at: u64, l: u32) -> Option<u16>
        requires window { l ≤ layout.now.window }
        requires time { at < times_end }
        requires cycle { cycle ≡ at / layout.now.cycle }
        ensures least { IsLeastWith (OffersIdentifier layout.now l self.now at) result }
        ensures value { result ≡ mail_offer layout.now l self.now at }
        ensures known { IsMail self.now }
    {
        match self.offer_until(layout, cycle, at, l) {
            Some(offer) => Some(offer.id),
            None => None,
        }
    }

    /// The same, together with a time up to which it is offered: at the latest that from which its frame would end too
    /// late, or a mailbox of a lesser identifier has a first request that may start.
    pub fn offer_until(&self, layout: &Layout, cycle: u64, at: u64, l: u32) -> Option<Offer>
        requires window { l ≤ layout.now.window }
        requires time { at < times_end }
        requires cycle { cycle ≡ at / layout.now.cycle }
        ensures least { IsLeastWith (OffersIdentifier layout.now l self.now at)
            (option_map (λ offer. offer.id) result) }
        ensures value { option_map (λ offer. offer.id) result ≡ mail_offer layout.now l self.now at }
        ensures stays { IfSome result (λ offer. StaysUntil layout.now l self.now at offer.id offer.until) }
        ensures known { IsMail self.now }
    {
        if !self.firsts.has_arrived(at) {
            return None;
        }
        let boxes = self.boxes.as_slice();
        let window = window_in(layout, cycle, at, l);
        match window.room(at) {
            Some(bytes) => match self.firsts.first(boxes, bytes, at) {
                Some(first) => Some(offer_of(&boxes[first.place], &window, first.sooner)),
                None => None,
            },
            None => None,
        }
    }

    /// Whether a first unsent request has arrived at a time, in bit times below 2^60. Where none has, nothing is offered
    /// up to that time.
    pub fn has_arrived(&self, at: u64) -> bool
        ensures waits { at < times_end → (result ≡ true) ↔ SomeWaits self.now at }
        ensures none { result ≡ false → (layout : CycleLayout) (l later : ℕ) → later ≤ at
            → mail_offer layout l self.now later ≡ None }
    {
        self.firsts.has_arrived(at)
    }

    /// The frame of the first unsent request of an identifier, where there is one.
    pub fn head(&self, id: u16) -> Option<Frame>
        ensures head { result ≡ option_map (λ request. request.frame) (slice_get (unsent_of self.now id) 0) }
        ensures known { IsMail self.now }
    {
        let place = place_of(self.places.as_slice(), id);
        let boxes = self.boxes.as_slice();
        if place < boxes.len() {
            boxes[place].frame()
        } else {
            None
        }
    }

    /// Whether an identifier has a mailbox.
    pub fn has(&self, id: u16) -> bool
        ensures has { result ≡ true ↔ Contains (map (λ box. box.identifier) self.now) id }
    {
        place_of(self.places.as_slice(), id) < self.boxes.len()
    }

    /// Puts a request behind the unsent ones of its identifier, where fewer than `room` of these are left, and fewer than
    /// 2^32 in all. The answer is whether it did.
    pub fn put(&mut self, request: &Request, room: usize) -> Result<bool, AllocError>
        requires early { request.now.at < arrivals_end }
        requires own { Contains (map (λ box. box.identifier) self.old) request.now.frame.identifier }
        ensures room { IfOk result (λ put. put ≡ (nat_lt (left self.old) (2 ^ 32)
            && nat_lt (length (unsent_of self.old request.now.frame.identifier)) room)) }
        ensures put { IfOk result (λ put. put ≡ true → self.new ≡ map (with_request request.now) self.old) }
        ensures full { IfOk result (λ put. put ≡ false → self.new ≡ self.old) }
        ensures same { OnErr result (self.new ≡ self.old) }
    {
        if self.remaining >= MOST_LEFT {
            return Ok(false);
        }
        let place = place_of(self.places.as_slice(), request.frame.id());
        if !put_at(&mut self.boxes, place, request, room)? {
            return Ok(false);
        }
        self.firsts.note(self.boxes.as_slice(), place);
        self.remaining += 1;
        Ok(true)
    }

    /// Takes away the first unsent request of an identifier.
    pub fn sent(&mut self, id: u16)
        requires some { IsSome (slice_get (unsent_of self.old id) 0) }
        ensures taken { self.new ≡ without_first id self.old }
        ensures unsent { (other : ℕ) → unsent_of self.new other
            ≡ (if other == id then drop 1 (unsent_of self.old id) else unsent_of self.old other) }
    {
        self.take(id);
    }

    /// Takes away the first unsent request of an identifier, where there is one, and answers whether there was.
    pub fn take(&mut self, id: u16) -> bool
        ensures taken { self.new ≡ without_first id self.old }
        ensures unsent { (other : ℕ) → unsent_of self.new other
            ≡ (if other == id then drop 1 (unsent_of self.old id) else unsent_of self.old other) }
        ensures some { result ≡ is_some (slice_get (unsent_of self.old id) 0) }
    {
        let place = place_of(self.places.as_slice(), id);
        if !has_request(self.boxes.as_slice(), place) {
            return false;
        }
        self.boxes[place].take_first();
        self.firsts.note(self.boxes.as_slice(), place);
        self.remaining -= 1;
        true
    }

    /// The least time behind `at`, in the cycle of `at`, at which `offer` is something while nothing is taken away;
    /// `None` exactly where there is none. The cycle's synchronous window has the length `l`.
    pub fn wake(&self, layout: &Layout, at: u64, l: u32) -> Option<u64>
        requires window { l ≤ layout.now.window }
        requires time { at < times_end }
        ensures next { IsNextInCycle layout.now.cycle at
            (λ later. IsSome (mail_offer layout.now l self.now later)) result }
    {
        self.wake_in(layout, at / u64::from(layout.cycle()), at, l)
    }

    /// The same, where the cycle of `at` is known. No division is made, and where no request arrives before the
    /// synchronous window, or none may start behind `at`, no further look is taken.
    pub fn wake_in(&self, layout: &Layout, cycle: u64, at: u64, l: u32) -> Option<u64>
        requires window { l ≤ layout.now.window }
        requires time { at < times_end }
        requires cycle { cycle ≡ at / layout.now.cycle }
        ensures next { IsNextInCycle layout.now.cycle at
            (λ later. IsSome (mail_offer layout.now l self.now later)) result }
    {
        let window = window_in(layout, cycle, at, l);
        let boxes = self.boxes.as_slice();
        if window.is_over(at) {
            return None;
        }
        if !self.firsts.has_arrived(window.closed) {
            return None;
        }
        self.firsts.next(boxes, window, at)
    }

    /// What `offer_until` gives at the time that `wake_in` gives, where the request that arrives soonest may start as soon
    /// as it has arrived, whatever its length. Then the window is looked at once, and one path of a tree is gone down.
    #[inline(always)]
    pub fn soon(&self, layout: &Layout, cycle: u64, at: u64, l: u32) -> Option<Soon>
        requires window { l ≤ layout.now.window }
        requires time { at < times_end }
        requires cycle { cycle ≡ at / layout.now.cycle }
        ensures next { IfSome result (λ soon. IsNextInCycle layout.now.cycle at
            (λ later. IsSome (mail_offer layout.now l self.now later)) (Some soon.from)) }
        ensures stays { IfSome result (λ soon.
            StaysUntil layout.now l self.now soon.from soon.offer.id soon.offer.until) }
    {
        let window = window_in(layout, cycle, at, l);
        let boxes = self.boxes.as_slice();
        let from = self.firsts.next_of_any(window, at)?;
        if TIMES_END <= from {
            return None;
        }
        match self.firsts.first(boxes, MOST_BYTES, from) {
            Some(first) => Some(Soon {
                from,
                offer: offer_of(&boxes[first.place], &window, first.sooner),
            }),
            None => None,
        }
    }

    /// The number of requests that are not sent.
    pub fn left(&self) -> usize
        ensures left { result ≡ left self.now }
    {
        self.remaining
    }
}

/// The offer of a mailbox whose first request may start in the window, where a lesser identifier may come at `sooner`.
fn offer_of(mailbox: &Mailbox, window: &Window, sooner: u64) -> Offer
    requires some { 0 < sooner }
    ensures id { result.id ≡ mailbox.now.identifier }
    ensures until { result.until ≡ min (sooner - 1) (window.now.closed - worst (first_bytes mailbox.now.unsent)) }
{
    Offer {
        id: mailbox.id(),
        until: window.last(mailbox.bytes()).min(sooner - 1),
    }
}

/// Whether a place has a mailbox, and in it a request that is not sent.
fn has_request(boxes: &[Mailbox], place: usize) -> bool
    ensures within { result ≡ true → place < length boxes.now }
    ensures some { (d : Mail) → place < length boxes.now
        → result ≡ is_some (slice_get (slice_index_or boxes.now place d).unsent 0) }
{
    match boxes.get(place) {
        Some(mailbox) => mailbox.has_request(),
        None => false,
    }
}

/// How many requests each mailbox gets, by its place.
fn rooms(alloc: Global, places: &[u16], requests: &[Request]) -> Result<Vec<u32>, AllocError>
    requires length { length places.now ≡ 2048 }
{
    let mut rooms = vec![in alloc; 0u32; IDENTIFIERS]?;
    for request in requests {
        if let Some(room) = rooms.get_mut(place_of(places, request.frame.id())) {
            *room = room.saturating_add(1);
        }
    }
    Ok(rooms)
}

/// A mailbox without a request for each identifier, with room for some.
fn empty_boxes(alloc: Global, ids: &[u16], rooms: &[u32]) -> Result<Vec<Mailbox>, AllocError>
    ensures empty { IfOk result (λ boxes. boxes.items ≡ mail_after ids.now [] []) }
{
    let mut boxes = Vec::with_capacity(alloc, ids.len())?;
    for (place, id) in ids.iter().enumerate() {
        let room = rooms.get(place).copied().unwrap_or(0);
        boxes.push(Mailbox::new(alloc, *id, room as usize)?)?;
    }
    Ok(boxes)
}

/// Puts a request into the mailbox of its identifier, where there is one, and answers how many mailboxes it was put in.
/// `places` has the place of each identifier's mailbox.
fn put(boxes: &mut [Mailbox], places: &[u16], request: &Request) -> Result<usize, AllocError>
    requires length { length places.now ≡ 2048 }
    requires places { IsPlaceTable boxes.old places.now }
    requires rising { AllPairs (λ one other. one.identifier < other.identifier) boxes.old }
    requires greatest { All (λ box. box.identifier ≤ greatest_identifier) boxes.old }
    ensures put { IfOk result (λ _. boxes.new ≡ map (with_request request.now) boxes.old) }
    ensures counted { IfOk result (λ count. left boxes.new ≡ left boxes.old + count) }
    ensures one { IfOk result (λ count. count ≤ 1) }
    ensures short { length request.now.frame.bytes ≤ 8 }
{
    let place = place_of(places, request.frame.id());
    if place < boxes.len() {
        boxes[place].push(request)?;
        Ok(1)
    } else {
        Ok(0)
    }
}

/// Puts a request into the mailbox at a place, which is that of its identifier, where fewer than `room` are not sent.
fn put_at(
    boxes: &mut Vec<Mailbox>,
    place: usize,
    request: &Request,
    room: usize,
) -> Result<bool, AllocError>
    requires place { place < length boxes.old.items }
    requires own { (d : Mail) → (slice_index_or boxes.old.items place d).identifier ≡ request.now.frame.identifier }
    requires distinct { AllPairs (λ one other. one.identifier ≢ other.identifier) boxes.old.items }
    ensures room { (d : Mail) → IfOk result (λ put. put
        ≡ nat_lt (length (slice_index_or boxes.old.items place d).unsent) room) }
    ensures put { IfOk result (λ put. put ≡ true → boxes.new.items ≡ map (with_request request.now) boxes.old.items) }
    ensures full { IfOk result (λ put. put ≡ false → boxes.new.items ≡ boxes.old.items) }
    ensures same { OnErr result (boxes.new.items ≡ boxes.old.items) }
{
    let put = boxes[place].put(request, room)?;
    Ok(put)
}
