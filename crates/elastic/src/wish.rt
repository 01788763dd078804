//! Wishes: changes of which some periods may be chosen.

ghost use Rattle.std.specs.Prelude.{◌≡◌};
ghost use Rattle.elastic.specs.Combination.{choices};

use items::Items;
use requirement_table::Entry;

/// A list of periods that a value holds, in cycles. Contracts see the list.
pub type Periods = Items<u16>;

/// One operation of a wish, on one slot.
#[derive(Drop, Debug)]
pub enum WishOp {
    /// Adds the entry with one of the periods, and with its deadline or that period, whichever is less.
    Add {
        /// The entry. Its period is not used.
        entry: Entry,
        /// The periods of which one may be chosen: 1 to 8 where a file was read.
        periods: Periods,
    },
    /// Removes the slot's entry.
    Remove {
        /// The slot.
        slot: u8,
    },
}

impl WishOp {
    /// The number of choices that the operation leaves: that of the periods, and one where none has to be chosen.
    pub fn choices(&self) -> usize
        ensures value { result ≡ choices self.now }
    {
        match self {
            WishOp::Add { periods, .. } => periods.as_slice().len(),
            WishOp::Remove { .. } => 1,
        }
    }
}

/// A list of operations of a wish that a value holds. Contracts see the list.
pub type WishOps = Items<WishOp>;

/// A change of which some periods may be chosen.
#[derive(Drop, Debug)]
pub struct Wish {
    /// The cycle in which the change begins to be felt.
    pub start: u64,
    /// Its operations, in their order: 1 to 16 where a file was read.
    pub ops: WishOps,
}
