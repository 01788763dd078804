//! Requests to send a frame in an asynchronous window, and who owns their identifiers.

use can_frame::Frame;

/// A request to send a frame in an asynchronous window.
#[derive(Clone, Copy, PartialEq, Eq, Debug)]
pub struct Request {
    /// The time at which the request arrives, in bit times, below 2^40. It waits from then on.
    pub at: u64,
    /// The frame, with an identifier of 0x200 to 0x7EF.
    pub frame: Frame,
}

/// The node that sends the frames of an asynchronous identifier.
#[repr(C)]
#[derive(Clone, Copy, PartialEq, Eq, Debug)]
pub struct Owner {
    /// The identifier, 0x200 to 0x7EF.
    pub id: u16,
    /// The node, from 0.
    pub node: u8,
}
