//! What a run leaves.

use can_frame::TimedFrame;
use items::Items;

/// A list of frames that a value holds. Contracts see the list.
pub type FrameList = Items<TimedFrame>;

/// What a run leaves beside the history.
#[derive(Drop, Debug)]
pub struct Run {
    /// The frames on the bus, in the order of their starts.
    pub trace: FrameList,
    /// The number of requests that are not sent.
    pub left: usize,
}
