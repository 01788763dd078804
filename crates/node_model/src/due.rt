//! What a node does in the synchronous window of the cycle that is open for it, for all its slots at once.

ghost use Rattle.std.specs.Prelude.{◌≡◌, ◌^◌, ◌<◌, ◌≤◌, IfSome, List, fold, option_map, true};
ghost use Rattle.requirement_table.specs.declared.entries.Placed.{Placed};
ghost use Rattle.requirement_table.specs.Instance.{payload};
ghost use Rattle.bit_sets.specs.Sets.{most_slots};
ghost use Rattle.node_model.specs.Node.{after_hearing};
ghost use Rattle.node_model.specs.declared.entries.Ready.{Ready};
ghost use Rattle.node_model.specs.Kept.{KnowsDue, KnowsInstances, opened_of};
ghost use Rattle.node_model.specs.Window.{AreOfSlots, due_bytes, due_frame, is_due_slot, with_all_heard};

use crate::cycle::Open;
use crate::entries::Ready;
use crate::node::Node;
use bit_sets::{common, difference, union};
use can_frame::{Frame, TimedFrame};
use profile::FIRST_IDENTIFIER;
use requirement_table::Mask;

impl Node {
    /// The frame of a slot that the node is to send in the open cycle.
    #[inline(always)]
    pub fn due_frame(&self, slot: u8) -> Frame
        requires slot { slot < most_slots }
        requires due { is_due_slot self.now.state slot ≡ true }
        ensures frame { result ≡ due_frame self.now.state slot }
    {
        let found = self.due_instance(slot);
        Frame::of_number(
            FIRST_IDENTIFIER + u16::from(slot),
            found.length,
            found.number,
        )
    }

    /// What is known of the instance of a slot that the node is to send in the open cycle.
    fn due_instance(&self, slot: u8) -> Ready
        requires slot { slot < most_slots }
        requires due { is_due_slot self.now.state slot ≡ true }
        ensures bytes { due_bytes self.now.state slot ≡ payload result.length result.number }
        ensures few { result.length ≤ 8 }
    {
        self.remaining.ready[usize::from(slot)]
    }

    /// Hears frames of slots, one after the other. These are their slots.
    pub fn hear_slots(&mut self, sent: Mask, frames: &[TimedFrame])
        requires slots { AreOfSlots sent frames.now }
        ensures heard { self.new.state ≡ fold after_hearing self.old.state frames.now }
        ensures spare { self.new.spare ≡ self.old.spare }
    {
        self.ahead = None;
        self.frames = self.frames.saturating_add(frames.len() as u64);
        let own = common(self.own, sent);
        mark_slots(&mut self.opened, own);
    }
}

/// Marks these of the node's slots, of which it heard frames, in the open cycle, where there is one.
fn mark_slots(opened: &mut Option<Open>, heard: Mask)
    ensures opened { option_map opened_of opened.new
        ≡ option_map (with_all_heard heard) (option_map opened_of opened.old) }
    ensures due { (entries : List Placed) → IfSome opened.old (KnowsDue entries) → IfSome opened.new (KnowsDue entries) }
    ensures instances { (slots : List Ready) → IfSome opened.old (KnowsInstances slots)
        → IfSome opened.new (KnowsInstances slots) }
    ensures known { IfSome opened.old (λ open_cycle. open_cycle.heard < 2 ^ most_slots) }
{
    if let Some(open_cycle) = opened {
        open_cycle.heard.known();
        open_cycle.heard = union(open_cycle.heard, heard);
        open_cycle.due = difference(open_cycle.due, heard);
    }
}
