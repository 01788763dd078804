//! A history that contracts alone see. It takes no memory, and these functions do nothing at run time.

ghost use Rattle.std.specs.Prelude.{◌≡◌, List, [], ◌∷◌, ◌++◌};
ghost use Rattle.std.specs.Borrow.{ftrue};
ghost use Rattle.master_core.specs.declared.event.Event.{Event as EventOf};

use crate::event::Event;
use std::marker::Model;

/// A history.
#[derive(Drop, Debug)]
pub(crate) struct Past {
    pub(crate) ghost events: { List EventOf },
}

impl Model for Past {
    ghost also_owns = { λ _. ftrue };
}

unsafe impl Send for Past {}

unsafe impl Sync for Past {}

impl Past {
    /// No event.
    pub(crate) fn new() -> Past
        ensures none { result.events ≡ [] }
    {
        Past {}
    }

    /// The history with an event behind it.
    fn grown(&self, _event: &Event) -> Past
        ensures grown { result.events ≡ self.now.events ++ _event.now ∷ [] }
    {
        Past {}
    }

    /// Puts an event behind the history.
    pub(crate) fn put(&mut self, event: &Event)
        ensures events { self.new.events ≡ self.old.events ++ event.now ∷ [] }
    {
        let past = self.grown(event);
        *self = past;
    }
}

/// The history of these events.
pub(crate) fn past_of(events: &[Event]) -> Past
    ensures all { result.events ≡ events.now }
{
    let mut past = Past::new();
    for event in events {
        past.put(event);
    }
    past
}
