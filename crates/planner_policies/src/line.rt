//! The instances that are pending in a cycle, in key order.

ghost use Rattle.std.specs.Prelude.{◌≡◌, ◌<◌, [], length};
ghost use Rattle.planner_policies.specs.Due.{IsLined, IsPutIn};

use crate::due::Due;
use requirement_table::MOST_SLOTS;
use std::marker::Model;

/// A table of at most so many entries has a shorter line, which is made in less time.
pub const FEW: usize = 40;

/// A line of this room holds what is pending in any table: one instance a slot.
pub const ALL: usize = MOST_SLOTS as usize;

/// A list of at most `ROOM` instances, one a slot. Contracts see the list.
#[derive(Drop)]
pub struct SlotLine<const ROOM: usize> {
    places: [Due; ROOM],
    count: usize,
}

impl<const ROOM: usize> Model for SlotLine<ROOM> {
    ghost use Rattle.std.specs.Prelude.{◌≡◌, ◌≤◌, List, length, take};
    ghost use Rattle.planner_policies.specs.declared.due.Due.{Due};

    ghost Value = { List Due };

    ghost view = { λ l. take l.count l.places };

    ghost invariant = { λ l. (l.count ≤ ROOM) × (length l.places ≡ ROOM) };
}

impl<const ROOM: usize> SlotLine<ROOM> {
    /// The line of nothing.
    pub fn new() -> Self
        ensures empty { result ≡ [] }
    {
        SlotLine {
            places: [Due::NONE; ROOM],
            count: 0,
        }
    }

    /// Puts an instance behind those that go before it, and before the others.
    pub fn put(&mut self, due: Due)
        requires room { length self.old < ROOM }
        requires lined { IsLined self.old }
        ensures put { IsPutIn due self.old self.new }
    {
        let mut place = self.count;
        while place > 0 && !self.places[place - 1].is_by(&due) {
            self.places[place] = self.places[place - 1];
            place -= 1;
        }
        self.places[place] = due;
        self.count += 1;
    }

    /// The instances, in order.
    pub fn as_slice(&self) -> &[Due]
        ensures list { result.now ≡ self.now }
    {
        &self.places[..self.count]
    }
}
