//! Requests of a streams file.

use items::Items;

/// A list of bytes that a value holds. Contracts see the list.
pub type StreamBytes = Items<u8>;

/// One request of a streams file: bytes that the frame of an instance of a slot is to carry.
#[derive(Drop, Debug)]
pub struct Stream {
    /// The arrival, in bit times from 0. An instance carries the request where it is released after this time.
    pub at: u64,
    /// The slot, below the number of slots of the bus.
    pub slot: u8,
    /// The bytes, at most seven. A frame has a mark of one byte before them.
    pub payload: StreamBytes,
}
