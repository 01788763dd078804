//! The value under the lock: a list of calls.

ghost use Rattle.std.specs.Prelude.{◌≡◌, ◌<◌, ◌^◌, ◌∷◌, ◌++◌, [], length, MatchBool};

use std::alloc::Global;
use turn_lock::Stands;

/// The most calls on a desk.
const MOST: usize = 1_000_000;

/// A list of calls: the number of the pass that made it, and a count.
#[derive(Drop)]
pub struct CountDesk {
    pub name: u64,
    pub calls: Vec<(u64, u64)>,
    ghost few: { length calls.items < 2 ^ 62 },
}

impl Stands for CountDesk {
    type Entry = (u64, u64);

    type Fixed = u64;

    ghost entries = { λ desk. desk.calls.items };

    ghost fixed = { λ desk. desk.name };

    ghost number = { λ call. call.0 };

    ghost few = { λ desk. desk.few };
}

impl CountDesk {
    /// No calls, and this name.
    pub fn empty(alloc: Global, name: u64) -> CountDesk
        ensures empty { result.calls.items ≡ [] }
        ensures name { result.name ≡ name }
    {
        CountDesk {
            name,
            calls: Vec::new(alloc),
        }
    }

    /// Puts a call behind the others, if there is room.
    pub fn note(&mut self, call: (u64, u64)) -> bool
        ensures name { self.new.name ≡ self.old.name }
        ensures noted { MatchBool result (self.new.calls.items ≡ self.old.calls.items ++ call ∷ [])
            (self.new.calls.items ≡ self.old.calls.items) }
    {
        if self.calls.len() >= MOST {
            return false;
        }
        self.calls.push(call).is_ok()
    }
}
