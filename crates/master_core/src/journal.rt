//! A history of which the last event alone is kept, or all events.

ghost use Rattle.std.specs.Prelude.{◌≡◌, ◌+◌, ◌^◌, ◌<◌, ◌≤◌, ◌++◌, ◌∷◌, [], OnOk, OnErr, IfSome, is_some, length, vec_capacity};
ghost use Rattle.master_core.specs.Accepted.{all_accepted};
ghost use Rattle.master_core.specs.Journals.{IsLast};
ghost use Rattle.master_core.specs.Keeping.{HasEventRoom};

use crate::event::Event;
use crate::past::{Past, past_of};
use crate::refusals::{all_accepted, refuses_nothing};
use crate::room::{EVENTS, make_room, put};
use std::alloc::{AllocError, Global};
use std::marker::Model;

/// A history of which the last event alone is kept, or all events. Contracts see all events, the number of events that
/// it has room for, and whether all are kept.
#[derive(Drop, Debug)]
pub(crate) struct Journal {
    past: Past,
    /// The last events: one at least, where there is any, and all where all are kept.
    recent: Vec<Event>,
    /// Whether all events are kept.
    keeps: bool,
    /// Whether no event refused a change.
    quiet: bool,
    /// The number of events.
    count: usize,
    /// The number of further events that it has room for.
    spare: usize,
}

impl Model for Journal {
    ghost use Rattle.std.specs.Prelude.{◌≡◌, length, vec_capacity};
    ghost use Rattle.master_core.specs.Accepted.{all_accepted};
    ghost use Rattle.master_core.specs.Journals.{AreRecent, HasPlace, JournalView};

    ghost Value = { JournalView };

    ghost view = { λ j. record { history = j.past.events; spare = j.spare; keeps = j.keeps } };

    ghost invariant = { λ j. AreRecent j.keeps j.past.events j.recent.items
        × HasPlace j.keeps j.count (length j.recent.items) (vec_capacity j.recent) j.spare
        × (j.count ≡ length j.past.events) × (j.quiet ≡ all_accepted j.past.events) };
}

impl Journal {
    /// No event yet. All events will be kept where `keeps` says so, and else the last one alone.
    pub(crate) fn new(alloc: Global, keeps: bool) -> Journal
        ensures history { result.history ≡ [] }
        ensures keeps { result.keeps ≡ keeps }
        ensures spare { result.spare ≡ 0 }
    {
        Journal {
            past: Past::new(),
            recent: Vec::new(alloc),
            keeps,
            quiet: true,
            count: 0,
            spare: 0,
        }
    }

    /// These events, of which all are kept for the present.
    pub(crate) fn of(history: Vec<Event>, keeps: bool) -> Journal
        requires room { HasEventRoom (length history.items) (vec_capacity history) 0 }
        ensures history { result.history ≡ history.items }
        ensures keeps { result.keeps ≡ keeps }
        ensures spare { result.spare ≡ 0 }
    {
        Journal {
            past: past_of(history.as_slice()),
            quiet: all_accepted(history.as_slice()),
            count: history.len(),
            recent: history,
            keeps,
            spare: 0,
        }
    }

    /// All events, where they are kept.
    pub(crate) fn into_events(self) -> Option<Vec<Event>>
        ensures all { IfSome result (λ events. events.items ≡ self.history) }
        ensures room { IfSome result (λ events. HasEventRoom (length events.items) (vec_capacity events) 0) }
        ensures kept { is_some result ≡ self.keeps }
    {
        let Journal { recent, keeps, .. } = self;
        if keeps { Some(recent) } else { None }
    }

    /// All events, where they are kept.
    pub(crate) fn events(&self) -> Option<&[Event]>
        ensures all { IfSome result (λ events. events.now ≡ self.now.history) }
        ensures kept { is_some result ≡ self.now.keeps }
    {
        if self.keeps {
            Some(self.recent.as_slice())
        } else {
            None
        }
    }

    /// Makes room for so many events. Where all are kept, they need no memory then; else it takes memory for one.
    ///
    /// # Errors
    ///
    /// Only where memory runs out. The journal has the room that it had.
    pub(crate) fn reserve(&mut self, events: usize) -> Result<(), AllocError>
        ensures history { self.new.history ≡ self.old.history }
        ensures keeps { self.new.keeps ≡ self.old.keeps }
        ensures room { OnOk result (events ≤ self.new.spare) }
        ensures exact { OnOk result (self.old.spare ≤ events → self.new.spare ≡ events) }
        ensures kept { self.old.spare ≤ self.new.spare }
        ensures same { OnErr result (self.new.spare ≡ self.old.spare) }
        ensures few { length self.new.history + self.new.spare < 2 ^ 61 }
    {
        if events <= self.spare {
            return Ok(());
        }
        if events >= EVENTS - self.count {
            return Err(AllocError);
        }
        let places = if self.keeps { events } else { 1 };
        make_room(&mut self.recent, places)?;
        self.spare = events;
        Ok(())
    }

    /// Gives the room for one event back.
    pub(crate) fn release(&mut self)
        requires spare { 1 ≤ self.old.spare }
        ensures history { self.new.history ≡ self.old.history }
        ensures keeps { self.new.keeps ≡ self.old.keeps }
        ensures spare { self.new.spare + 1 ≡ self.old.spare }
        ensures few { length self.new.history + self.new.spare < 2 ^ 61 }
    {
        self.spare -= 1;
    }

    /// Puts an event behind the others, for which there is room.
    pub(crate) fn put(&mut self, event: Event)
        requires spare { 1 ≤ self.old.spare }
        ensures history { self.new.history ≡ self.old.history ++ event ∷ [] }
        ensures keeps { self.new.keeps ≡ self.old.keeps }
        ensures spare { self.new.spare + 1 ≡ self.old.spare }
        ensures few { length self.new.history + self.new.spare < 2 ^ 61 }
    {
        self.past.put(&event);
        self.quiet = self.quiet & refuses_nothing(&event);
        if !self.keeps {
            self.recent.clear();
        }
        put(&mut self.recent, event);
        self.count += 1;
        self.spare -= 1;
    }

    /// The last event.
    pub(crate) fn last(&self) -> &Event
        requires some { 1 ≤ length self.now.history }
        ensures last { IsLast self.now.history result.now }
    {
        let recent = self.recent.as_slice();
        &recent[recent.len() - 1]
    }

    /// Whether no event refused a change.
    pub(crate) fn is_quiet(&self) -> bool
        ensures test { result ≡ all_accepted self.now.history }
    {
        self.quiet
    }

    /// Whether all events are kept.
    pub(crate) fn keeps(&self) -> bool
        ensures keeps { result ≡ self.now.keeps }
    {
        self.keeps
    }

    /// The number of further events that it has room for.
    pub(crate) fn spare(&self) -> usize
        ensures spare { result ≡ self.now.spare }
    {
        self.spare
    }

    /// Law: what holds of every journal.
    pub(crate) fn known(&self)
        ensures few { length self.now.history + self.now.spare < 2 ^ 61 }
    {
        let _spare = self.spare;
    }
}
