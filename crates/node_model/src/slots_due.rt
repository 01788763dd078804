//! Which slots a node is to send in the cycle that is open for it, and the frame of one of them.

ghost use Rattle.std.specs.Prelude.{◌≡◌, ℕ, ◌<◌, ◌||◌};
ghost use Rattle.bit_sets.specs.Sets.{has_bit, most_slots};
ghost use Rattle.node_model.specs.Window.{frame_due, is_due_slot};

use crate::node::Node;
use bit_sets::union;
use can_frame::Frame;
use requirement_table::Mask;

impl Node {
    /// A set of slots, with those that the node is to send in the open cycle.
    pub fn with_due_slots(&self, others: Mask) -> Mask
        ensures slots { (slot : ℕ) → slot < most_slots
            → has_bit result slot ≡ (has_bit others slot || is_due_slot self.now.state slot) }
    {
        match self.opened {
            Some(open_cycle) => union(others, open_cycle.due),
            None => others,
        }
    }

    /// The frame of a slot that the node is to send in the open cycle; none of another slot.
    pub fn frame_due(&self, slot: u8) -> Option<Frame>
        requires slot { slot < most_slots }
        ensures frame { result ≡ frame_due self.now.state slot }
    {
        let open_cycle = self.opened.as_ref()?;
        if open_cycle.due.has(slot) {
            Some(self.due_frame(slot))
        } else {
            None
        }
    }
}
