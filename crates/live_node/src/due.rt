//! What a node has to send in the open cycle.

/// A slot that the node has to send in the open cycle.
#[derive(Clone, Copy, PartialEq, Eq, Debug)]
pub struct Due {
    /// The first time at which its frame may start, in bit times from the start of the cycle.
    pub start: u32,
    /// The last time at which it may start, so that it ends in the cycle.
    pub last: u32,
    /// Whether it is in flight.
    pub loaded: bool,
    /// Whether its bytes are those that were set.
    pub users: bool,
}
