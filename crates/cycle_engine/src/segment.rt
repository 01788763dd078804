//! The frames of one cycle.

ghost use Rattle.std.specs.Prelude.{◌≡◌, ◌/◌, ◌+◌, ◌<◌, ◌≤◌, [], IfOk, OnOk, vec_capacity};
ghost use Rattle.profile.specs.Limits.{shortest_frame};

use can_frame::TimedFrame;
use cycle_layout::Layout;
use profile::{MOST_FRAMES, SHORTEST_FRAME};
use std::alloc::{AllocError, Global};
use std::marker::Model;
use std::mem::swap;

/// The most frames of one cycle, and one more: the longest cycle has 100,000 bit times, and the shortest frame 47.
const ROOM: usize = MOST_FRAMES + 1;

/// The frames that start in one cycle, in the order of their starts, with room for those of another one. Contracts see
/// the list.
#[derive(Drop)]
pub struct Segment {
    pub(crate) frames: Vec<TimedFrame>,
}

impl Model for Segment {
    ghost use Rattle.std.specs.Prelude.{◌/◌, ◌+◌, ◌≤◌, List, vec_capacity};
    ghost use Rattle.profile.specs.Limits.{longest_cycle, shortest_frame};
    ghost use Rattle.can_frame.specs.declared.data_frame.TimedFrame.{TimedFrame};

    ghost Value = { List TimedFrame };

    ghost view = { λ s. s.frames.items };

    ghost invariant = { λ s. longest_cycle / shortest_frame + 2 ≤ vec_capacity s.frames };
}

impl Segment {
    /// No frames, with room for those of a cycle of this layout. The room is the same in each layout: that of the longest
    /// cycle, so that a segment serves any nodes.
    pub fn new(alloc: Global, _layout: &Layout) -> Result<Segment, AllocError>
        ensures empty { IfOk result (λ segment. segment ≡ []) }
    {
        Ok(Segment {
            frames: Vec::with_capacity(alloc, ROOM)?,
        })
    }

    /// The frames, without memory.
    pub fn frames(&self) -> &[TimedFrame]
        ensures list { result.now ≡ self.now }
    {
        self.frames.as_slice()
    }
}

/// The frames that start in one cycle, in the order of their starts. Contracts see the list.
#[derive(Drop)]
pub struct CycleFrames {
    frames: Vec<TimedFrame>,
}

impl Model for CycleFrames {
    ghost use Rattle.std.specs.Prelude.{List};
    ghost use Rattle.can_frame.specs.declared.data_frame.TimedFrame.{TimedFrame};

    ghost Value = { List TimedFrame };

    ghost view = { λ s. s.frames.items };
}

impl CycleFrames {
    /// No frames, without memory.
    pub fn none(alloc: Global) -> CycleFrames
        ensures empty { result ≡ [] }
    {
        CycleFrames {
            frames: Vec::new(alloc),
        }
    }

    /// The frames, without memory.
    pub fn frames(&self) -> &[TimedFrame]
        ensures list { result.now ≡ self.now }
    {
        self.frames.as_slice()
    }

    /// Exchanges the frames for those of a list, without memory.
    pub fn exchange(&mut self, list: &mut Vec<TimedFrame>)
        ensures taken { self.new ≡ list.old.items }
        ensures given { list.new.items ≡ self.old }
    {
        swap(&mut self.frames, list);
    }

    /// Makes room in a list for the frames of a cycle of this layout, and drops what the list has. A list without memory
    /// gets that of the frames here, which are dropped. They stay where the list has memory, also if it gets more.
    pub fn give_room(
        &mut self,
        list: &mut Vec<TimedFrame>,
        layout: &Layout,
    ) -> Result<(), AllocError>
        ensures room { OnOk result (layout.now.cycle / shortest_frame + 1 ≤ vec_capacity list.new) }
        ensures cleared { list.new.items ≡ [] }
        ensures stay { 0 < vec_capacity list.old → self.new ≡ self.old }
        ensures dropped { vec_capacity list.old ≡ 0 → self.new ≡ [] }
    {
        if list.capacity() == 0 {
            self.exchange(list);
        }
        list.clear();
        list.reserve_exact((layout.cycle() / SHORTEST_FRAME) as usize + 1)
    }
}
