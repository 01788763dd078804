//! Entries of the table, placed entries, and the order of one cycle.

use bit_sets::Mask;
use items::Items;

/// A synchronous requirement: one frame of a slot in each period.
///
/// Phase, period and deadline are counted in elementary cycles.
#[derive(Clone, Copy, PartialEq, Eq, Debug)]
pub struct Entry {
    /// The slot, 0 to 95, below the number of slots of the bus. Its frames have the identifier 0x100 + slot.
    pub slot: u8,
    /// The node that sends the frames.
    pub node: u8,
    /// The number of data bytes of a frame, 0 to 8.
    pub length: u8,
    /// The cycles from the origin to the first release.
    pub phase: u16,
    /// The cycles from one release to the next, at least 1.
    pub period: u16,
    /// The number of cycles in which an instance may be sent, 1 to the period; the first of them is
    /// that of its release.
    pub deadline: u16,
    /// The first tie break of every policy; the least goes first.
    pub priority: u8,
}

/// An entry in its place in time.
#[derive(Clone, Copy, PartialEq, Eq, Debug)]
pub struct Placed {
    pub entry: Entry,
    /// The cycle from which phase and periods are counted.
    pub origin: u64,
    /// The cycle from which nothing more is released. Without an end the entry is live.
    pub end: Option<u64>,
}

/// A list of placed entries that a value holds. Contracts see the list.
pub type PlacedList = Items<Placed>;

/// What the master orders for one elementary cycle.
#[derive(Drop, Debug)]
pub struct Order {
    /// The cycle, from 0.
    pub cycle: u64,
    /// The flagged slots, whose frames are sent in this cycle's synchronous window.
    pub mask: Mask,
    /// The length of the synchronous window in bit times.
    pub l: u32,
    /// The placed entries that the nodes learn before this cycle, where they changed.
    pub learned: Option<PlacedList>,
}
