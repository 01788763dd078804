//! Changes and their operations.

ghost use Rattle.std.specs.Prelude.{◌≡◌};
ghost use Rattle.change_protocol.specs.Operations.{entry_of, slot_of};

use items::Items;
use requirement_table::Entry;

/// One operation of a change, on one slot. `start` is the start of its change.
#[derive(Clone, Copy, PartialEq, Eq, Debug)]
pub enum Op {
    /// Places the entry with the origin `start` and no end.
    Add { entry: Entry },
    /// Sets the end of the slot's live entry to `start`.
    Remove { slot: u8 },
    /// Sets the end of the live entry of the entry's slot to `start`, and places the entry with no end and with the
    /// origin `start` + deadline - 1, where the deadline is that of the ended entry.
    Change { entry: Entry },
}

impl Op {
    /// The slot of the operation.
    pub fn slot(&self) -> u8
        ensures slot { result ≡ slot_of self.now }
    {
        match self {
            Op::Add { entry } | Op::Change { entry } => entry.slot,
            Op::Remove { slot } => *slot,
        }
    }

    /// The entry that the operation places.
    pub fn entry(&self) -> Option<Entry>
        ensures entry { result ≡ entry_of self.now }
    {
        match self {
            Op::Add { entry } | Op::Change { entry } => Some(*entry),
            Op::Remove { .. } => None,
        }
    }
}

/// A list of operations that a value holds. Contracts see the list.
pub type Ops = Items<Op>;

/// A change of the table.
#[derive(Drop, Debug)]
pub struct Change {
    /// The cycle in which the change begins to be felt: below 2^40 where it is well formed.
    pub start: u64,
    /// Its operations, in their order: 1 to 16 on distinct slots where it is well formed.
    pub ops: Ops,
}

/// What an operator asks of the master.
#[derive(Drop, Debug)]
pub enum Act {
    /// That the table is changed.
    Ask { change: Change },
    /// Which cycle is opened next.
    Look,
}
