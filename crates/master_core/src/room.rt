//! The room of a history.

ghost use Rattle.std.specs.Prelude.{◌≡◌, ◌+◌, ◌^◌, ◌<◌, ◌≤◌, ◌++◌, ◌∷◌, [], OnOk, length, vec_capacity};

use crate::event::Event;
use std::alloc::AllocError;

/// A history never has as many events: its vector would be larger than memory can be.
pub const EVENTS: usize = 1 << 61;

/// Makes room for so many events more. Where memory runs out the history has the room that it had.
///
/// A full history grows by an eighth and sixteen events, so that it takes little more memory than its events need. Where
/// there is no memory for that, it grows by what is asked for alone.
pub fn make_room(history: &mut Vec<Event>, events: usize) -> Result<(), AllocError>
    requires { length history.old.items < 2 ^ 61 }
    ensures same { history.new.items ≡ history.old.items }
    ensures room { vec_capacity history.old ≤ vec_capacity history.new }
    ensures made { OnOk result (length history.old.items + events ≤ vec_capacity history.new) }
    ensures few { OnOk result (length history.old.items + events < 2 ^ 61) }
{
    if events >= EVENTS - history.len() {
        return Err(AllocError);
    }
    if events <= history.capacity() - history.len() {
        return Ok(());
    }
    let eighth = history.len() / 8 + 16;
    if history.reserve_exact(events.max(eighth)).is_ok() {
        return Ok(());
    }
    history.reserve_exact(events)
}

/// Puts an event behind the others; there is room for it.
pub fn put(history: &mut Vec<Event>, event: Event)
    requires { length history.old.items < vec_capacity history.old }
    ensures events { history.new.items ≡ history.old.items ++ event ∷ [] }
    ensures room { vec_capacity history.old ≤ vec_capacity history.new }
{
    history.push_reserved(event);
}
