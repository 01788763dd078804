//! What is known of the first requests of mailboxes that are not sent: which is the first mailbox whose request has arrived
//! and is short enough, and when the next one can start.

ghost use Rattle.std.specs.Prelude.{◌≡◌, ℕ, ◌+◌, ◌<◌, ◌≤◌, ◌++◌, IfOk, IfSome, List, MatchOption, None, Some};
ghost use Rattle.std.specs.Prelude.{false, true, length, slice_index_or};
ghost use Rattle.std.specs.Option.{option_to_list};
ghost use Rattle.profile.specs.Limits.{times_end};
ghost use Rattle.stuff_bound.specs.Stuffing.{worst};
ghost use Rattle.async_window.specs.Mailbox.{IsLeastWith, Mail, least_of};
ghost use Rattle.async_window.specs.Tournament.{CanStart, IsSoonestStart, Notes, Tell, TellFirsts};
ghost use Rattle.async_window.specs.Tournament.{arrival_within, first_length, never};

use crate::mailbox::{MOST_BYTES, Mailbox};
use crate::tournament::{First, Tournament};
use crate::window::Window;
use std::alloc::{AllocError, Global};

/// The first requests of some mailboxes, by the places of these.
#[derive(Drop)]
pub struct Firsts {
    /// Their arrivals, in bit times, and `NEVER` where a mailbox has no request.
    arrivals: Tournament,
    /// Their numbers of data bytes, and `NEVER` where a mailbox has no request.
    lengths: Tournament,
}

impl Firsts {
    /// The first requests of some mailboxes, of which there are at most 2,048.
    pub fn new(alloc: Global, boxes: &[Mailbox]) -> Result<Firsts, AllocError>
        requires few { length boxes.now ≤ 2048 }
        ensures firsts { IfOk result (λ made. TellFirsts (length boxes.now) boxes.now made.arrivals made.lengths) }
    {
        let count = boxes.len();
        let mut made = Firsts {
            arrivals: Tournament::new(alloc, count)?,
            lengths: Tournament::new(alloc, count)?,
        };
        for place in 0..count {
            made.note(boxes, place);
        }
        Ok(made)
    }

    /// Notes the first request of the mailbox at a place, where it is another one than before.
    pub fn note(&mut self, boxes: &[Mailbox], place: usize)
        requires place { place < length boxes.now }
        requires arrivals { length boxes.now ≤ length self.old.arrivals }
        requires lengths { length boxes.now ≤ length self.old.lengths }
        ensures arrivals { Notes (arrival_within 8) boxes.now place self.old.arrivals self.new.arrivals }
        ensures lengths { Notes first_length boxes.now place self.old.lengths self.new.lengths }
    {
        let mailbox = &boxes[place];
        self.arrivals.set(place, mailbox.arrival(MOST_BYTES));
        self.lengths.set(place, mailbox.length());
    }

    /// Whether some first request has arrived at `at`. Where none has, all of them come later.
    pub fn has_arrived(&self, at: u64) -> bool
        ensures none { (boxes : List Mail) → TellFirsts (length boxes) boxes self.now.arrivals self.now.lengths
            → result ≡ false → (place : ℕ) (d : Mail) → place < length boxes
            → at < arrival_within 8 (slice_index_or boxes place d).unsent }
        ensures some { (boxes : List Mail) → TellFirsts (length boxes) boxes self.now.arrivals self.now.lengths
            → result ≡ true → at < never → (place : ℕ) × (place < length boxes)
            × ((d : Mail) → arrival_within 8 (slice_index_or boxes place d).unsent ≤ at) }
    {
        self.arrivals.least() <= at
    }

    /// The first mailbox whose first request has arrived at `at` and has at most so many data bytes. Of those before it
    /// it is told when such a request may arrive at the soonest.
    pub fn first(&self, boxes: &[Mailbox], bytes: u8, at: u64) -> Option<First>
        requires bytes { bytes ≤ 8 }
        requires time { at < times_end }
        requires firsts { TellFirsts (length boxes.now) boxes.now self.now.arrivals self.now.lengths }
        ensures first { MatchOption result
            ((place : ℕ) (d : Mail) → place < length boxes.now
            → at < arrival_within bytes (slice_index_or boxes.now place d).unsent)
            (λ first. (first.place < length boxes.now)
            × ((d : Mail) → arrival_within bytes (slice_index_or boxes.now first.place d).unsent ≤ at)
            × (at < first.sooner)
            × ((place : ℕ) (d : Mail) → place < first.place
            → first.sooner ≤ arrival_within bytes (slice_index_or boxes.now place d).unsent)) }
    {
        match self.arrivals.first(at) {
            Some(first) => {
                if boxes[first.place].arrival(bytes) <= at {
                    Some(first)
                } else {
                    self.first_short(boxes, bytes, at)
                }
            }
            None => None,
        }
    }

    /// The same by a look at each mailbox, unless all first requests are too long.
    fn first_short(&self, boxes: &[Mailbox], bytes: u8, at: u64) -> Option<First>
        requires bytes { bytes ≤ 8 }
        requires time { at < times_end }
        requires firsts { TellFirsts (length boxes.now) boxes.now self.now.arrivals self.now.lengths }
        ensures first { MatchOption result
            ((place : ℕ) (d : Mail) → place < length boxes.now
            → at < arrival_within bytes (slice_index_or boxes.now place d).unsent)
            (λ first. (first.place < length boxes.now)
            × ((d : Mail) → arrival_within bytes (slice_index_or boxes.now first.place d).unsent ≤ at)
            × (at < first.sooner)
            × ((place : ℕ) (d : Mail) → place < first.place
            → first.sooner ≤ arrival_within bytes (slice_index_or boxes.now place d).unsent)) }
    {
        if u64::from(bytes) < self.lengths.least() {
            return None;
        }
        first_of(boxes, self.arrivals.numbers(), bytes, at)
    }

    /// The least time behind `at` at which a first request has arrived and may start in the window.
    pub fn next(&self, boxes: &[Mailbox], window: Window, at: u64) -> Option<u64>
        requires time { at < times_end }
        requires firsts { TellFirsts (length boxes.now) boxes.now self.now.arrivals self.now.lengths }
        ensures next { IsSoonestStart boxes.now window.opened window.closed at (length boxes.now) result }
    {
        if self.none_fits(window, at) {
            return None;
        }
        match self.next_of_any(window, at) {
            Some(next) => Some(next),
            None => self.next_of_some(boxes, window, at),
        }
    }

    /// Whether even the shortest first request would end too late behind `at`, or at the soonest arrival.
    fn none_fits(&self, window: Window, at: u64) -> bool
        requires time { at < times_end }
        ensures none { (boxes : List Mail) → TellFirsts (length boxes) boxes self.now.arrivals self.now.lengths
            → result ≡ true → IsSoonestStart boxes window.opened window.closed at (length boxes) None }
    {
        let shortest = self.lengths.least();
        if shortest > u64::from(MOST_BYTES) {
            return true;
        }
        match window.earliest(at, self.arrivals.least(), shortest as u8) {
            Some(_) => false,
            None => true,
        }
    }

    /// The same time, where the longest frame may start at the soonest arrival: then no other request starts sooner.
    pub fn next_of_any(&self, window: Window, at: u64) -> Option<u64>
        requires time { at < times_end }
        ensures next { (boxes : List Mail) → TellFirsts (length boxes) boxes self.now.arrivals self.now.lengths
            → IfSome result (λ next.
            IsSoonestStart boxes window.opened window.closed at (length boxes) (Some next)) }
        ensures whole { IfSome result (λ next. (window.opened ≤ next) × (next + worst 8 ≤ window.closed)) }
    {
        window.earliest(at, self.arrivals.least(), MOST_BYTES)
    }

    /// The same time, by the request that arrives soonest, and by a look at each where that one may not start.
    fn next_of_some(&self, boxes: &[Mailbox], window: Window, at: u64) -> Option<u64>
        requires time { at < times_end }
        requires firsts { TellFirsts (length boxes.now) boxes.now self.now.arrivals self.now.lengths }
        ensures next { IsSoonestStart boxes.now window.opened window.closed at (length boxes.now) result }
    {
        match self.next_of_soonest(boxes, window, at) {
            Some(next) => Some(next),
            None => next_of(boxes, self.arrivals.numbers(), window, at),
        }
    }

    /// The same time, where the request that arrives soonest may start then: no other request starts sooner.
    fn next_of_soonest(&self, boxes: &[Mailbox], window: Window, at: u64) -> Option<u64>
        requires time { at < times_end }
        requires firsts { TellFirsts (length boxes.now) boxes.now self.now.arrivals self.now.lengths }
        ensures next { IfSome result (λ next.
            IsSoonestStart boxes.now window.opened window.closed at (length boxes.now) (Some next)) }
    {
        let soonest = self.arrivals.least();
        if window.closed <= soonest {
            return None;
        }
        match self.arrivals.first(soonest) {
            Some(first) => window.earliest(at, soonest, boxes[first.place].bytes()),
            None => None,
        }
    }
}

/// The first mailbox whose first request has arrived at `at` and has at most so many data bytes, by a look at each.
fn first_of(boxes: &[Mailbox], arrivals: &[u64], bytes: u8, at: u64) -> Option<First>
    requires bytes { bytes ≤ 8 }
    requires time { at < times_end }
    requires arrivals { Tell (length boxes.now) (arrival_within 8) boxes.now arrivals.now }
    ensures first { MatchOption result
        ((place : ℕ) (d : Mail) → place < length boxes.now
        → at < arrival_within bytes (slice_index_or boxes.now place d).unsent)
        (λ first. (first.place < length boxes.now)
        × ((d : Mail) → arrival_within bytes (slice_index_or boxes.now first.place d).unsent ≤ at)
        × (at < first.sooner)
        × ((place : ℕ) (d : Mail) → place < first.place
        → first.sooner ≤ arrival_within bytes (slice_index_or boxes.now place d).unsent)) }
{
    for place in 0..boxes.len() {
        if has_short(&boxes[place], arrivals[place], bytes, at) {
            return Some(First {
                place,
                sooner: at + 1,
            });
        }
    }
    None
}

/// Whether the first request of a mailbox, which arrives at `arrival`, has arrived at `at` and has at most so many data
/// bytes.
#[inline(always)]
fn has_short(mailbox: &Mailbox, arrival: u64, bytes: u8, at: u64) -> bool
    requires bytes { bytes ≤ 8 }
    requires time { at < times_end }
    requires arrival { arrival ≡ arrival_within 8 mailbox.now.unsent }
    ensures yes { result ≡ true → arrival_within bytes mailbox.now.unsent ≤ at }
    ensures no { result ≡ false → at < arrival_within bytes mailbox.now.unsent }
{
    if at < arrival {
        return false;
    }
    mailbox.bytes() <= bytes
}

/// The least time behind `at` at which a first request has arrived and may start in the window, by a look at each that
/// arrives in it.
fn next_of(boxes: &[Mailbox], arrivals: &[u64], window: Window, at: u64) -> Option<u64>
    requires time { at < times_end }
    requires arrivals { Tell (length boxes.now) (arrival_within 8) boxes.now arrivals.now }
    ensures next { IsSoonestStart boxes.now window.opened window.closed at (length boxes.now) result }
{
    let mut least = None;
    for place in 0..boxes.len() {
        least = sooner(least, start_of(&boxes[place], arrivals[place], window, at));
    }
    least
}

/// The least time behind `at` at which the first request of a mailbox, which arrives at `arrival`, may start in the window.
#[inline(always)]
fn start_of(mailbox: &Mailbox, arrival: u64, window: Window, at: u64) -> Option<u64>
    requires time { at < times_end }
    requires arrival { arrival ≡ arrival_within 8 mailbox.now.unsent }
    ensures start { IsLeastWith (CanStart window.opened window.closed at mailbox.now.unsent) result }
{
    if window.closed < arrival {
        return None;
    }
    window.earliest(at, arrival, mailbox.bytes())
}

/// The sooner of two times, either of which may be none.
fn sooner(one: Option<u64>, other: Option<u64>) -> Option<u64>
    ensures sooner { result ≡ least_of (option_to_list one ++ option_to_list other) }
{
    match one {
        Some(first) => Some(first.min(other.unwrap_or(first))),
        None => other,
    }
}
