//! Whether a run refused no change.

ghost use Rattle.std.specs.Prelude.{◌≡◌};
ghost use Rattle.master_core.specs.Accepted.{all_accepted, refuses_nothing};

use crate::event::Event;

/// Whether the event refuses no change.
pub fn refuses_nothing(event: &Event) -> bool
    ensures test { result ≡ refuses_nothing event.now }
{
    match event {
        Event::Submit { verdict, .. } => verdict.is_accepted(),
        Event::Look { .. } | Event::Open { .. } => true,
    }
}

/// Whether each change of the history was accepted.
pub fn all_accepted(history: &[Event]) -> bool
    ensures test { result ≡ all_accepted history.now }
{
    for event in history {
        if !refuses_nothing(event) {
            return false;
        }
    }
    true
}
