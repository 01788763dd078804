//! Calls of `node_model`.

ghost use Rattle.std.specs.Prelude.{◌≡◌, ◌<◌, ◌^◌, IfSome, IfOk};
ghost use Rattle.trigger_kind.specs.Kind.{IsSlots, opening_identifier};
ghost use Rattle.cycle_cases.specs.Ready.{CountsCycles};

use crate::entries::entries;
use crate::layouts::{after_layout, layout};
use crate::requests::{are_in_order, requests};
use crate::triggers::{second_trigger, trigger};
use crate::values::{frame, text_of_mask, text_of_offer, text_of_time};
use async_window::Owner;
use can_frame::{Frame, TimedFrame, wire_len};
use cases::{CaseTable, Fault, cut, small, text_of_frame, time};
use cycle_layout::Layout;
use node_model::Node;
use requirement_table::{MOST_SLOTS, Mask, Placed, well_placed};
use std::alloc::Global;

/// A node, the identifier of the frames that open cycles for it, and how many of them it heard.
#[derive(Drop)]
pub struct HeardOpenings {
    node: Node,
    opening: u16,
    cycles: u64,
}

/// Node 1, which owns 0x205 and 0x210, from one line that makes it to the next.
#[derive(Drop)]
pub struct OneNode {
    opened: Option<HeardOpenings>,
}

impl OneNode {
    /// No node.
    pub fn new() -> OneNode
        ensures none { IfSome result.opened CountsCycles }
    {
        OneNode { opened: None }
    }
}

impl CaseTable for OneNode {
    ghost use Rattle.std.specs.Prelude.{IfSome};
    ghost use Rattle.cycle_cases.specs.Ready.{CountsCycles};

    ghost IsReady = { λ table. IfSome table.opened CountsCycles };

    fn answer(&mut self, alloc: Global, given: &str) -> Result<String, Fault> {
        let (word, fields) = cut(given, ' ');
        match word {
            "new" => self.renew(alloc, fields, 40, 0),
            "96" => match fields.strip_prefix("new ") {
                Some(fields) => self.renew(alloc, fields, 96, 1),
                None => Err(Fault::Unread),
            },
            _ => match &mut self.opened {
                Some(opened) => opened.answer(alloc, word, fields),
                None => Err(Fault::Unread),
            },
        }
    }
}

impl OneNode {
    /// A node in a layout with so many slots, with requests; frames of an identifier open its cycles. The answer is how
    /// many of the requests are its own.
    fn renew(
        &mut self,
        alloc: Global,
        fields: &str,
        slots: u8,
        opening: u16,
    ) -> Result<String, Fault>
        requires slots { IsSlots slots }
        requires opening { opening ≡ opening_identifier slots }
        requires ready { IfSome self.old.opened CountsCycles }
        ensures ready { IfSome self.new.opened CountsCycles }
    {
        let layout = layout(fields, slots)?;
        let node = node(alloc, layout, after_layout(fields))?;
        let left = node.left();
        self.opened = Some(HeardOpenings {
            node,
            opening,
            cycles: 0,
        });
        Ok(format!(in alloc; "{left}")?)
    }
}

/// Node 1 with these requests.
fn node(alloc: Global, layout: Layout, fields: &str) -> Result<Node, Fault>
    ensures next { IfOk result (λ node. node.state.next ≡ 0) }
    ensures layout { IfOk result (λ node. node.state.layout ≡ layout) }
{
    let requests = requests(alloc, fields)?;
    if !are_in_order(requests.as_slice()) {
        return Err(Fault::Unread);
    }
    let owners = [
        Owner { id: 0x210, node: 1 },
        Owner { id: 0x208, node: 0 },
        Owner { id: 0x205, node: 1 },
    ];
    Ok(Node::new(alloc, 1, layout, &owners, requests.as_slice())?)
}

impl HeardOpenings {
    /// What a call answers.
    fn answer(&mut self, alloc: Global, word: &str, fields: &str) -> Result<String, Fault>
        requires cycles { CountsCycles self.old }
        ensures cycles { CountsCycles self.new }
    {
        match word {
            "trigger" => self.hear(alloc, trigger(fields)?),
            "second" => self.hear(alloc, second_trigger(fields)?),
            "hear" => self.hear(alloc, frame(alloc, fields)?),
            "take" => self.take(alloc, fields),
            "count" if fields.is_empty() => self.count(alloc),
            "learn" => self.learn(alloc, entries(alloc, fields)?.as_slice()),
            "reserve" => self.learn_in(alloc, entries(alloc, fields)?.as_slice()),
            _ => told(alloc, &self.node, word, fields),
        }
    }

    /// The node counts a frame without hearing it. The answer is how many it heard.
    fn count(&mut self, alloc: Global) -> Result<String, Fault>
        requires cycles { CountsCycles self.old }
        ensures cycles { CountsCycles self.new }
    {
        self.node.count();
        Ok(format!(in alloc; "{}", self.node.heard())?)
    }

    /// The node hears a frame. The answer is how many it heard.
    fn hear(&mut self, alloc: Global, frame: Frame) -> Result<String, Fault>
        requires cycles { CountsCycles self.old }
        ensures cycles { CountsCycles self.new }
    {
        if self.cycles >= 1_000 {
            return Err(Fault::Unread);
        }
        let len = wire_len(&frame);
        self.node.hear(&TimedFrame {
            start: 0,
            len,
            frame,
        });
        if frame.id() == self.opening {
            self.cycles += 1;
        }
        Ok(format!(in alloc; "{}", self.node.heard())?)
    }

    /// Whether the node takes away a request of its own by a frame, and how many are left.
    fn take(&mut self, alloc: Global, fields: &str) -> Result<String, Fault>
        requires cycles { CountsCycles self.old }
        ensures cycles { CountsCycles self.new }
    {
        let (start, sent) = cut(fields, ' ');
        let (start, frame) = (time(start)?, frame(alloc, sent)?);
        let len = wire_len(&frame);
        let own = self.node.take_own(&TimedFrame { start, len, frame });
        Ok(format!(in alloc; "{own} {}", self.node.left())?)
    }

    /// The node learns a list.
    fn learn(&mut self, alloc: Global, list: &[Placed]) -> Result<String, Fault>
        requires cycles { CountsCycles self.old }
        ensures cycles { CountsCycles self.new }
    {
        if !well_placed(list) {
            return Err(Fault::Unread);
        }
        self.node.learn(alloc, list)?;
        Ok(format!(in alloc; "learnt")?)
    }

    /// The node learns a list without memory, behind a call that makes it able to.
    fn learn_in(&mut self, alloc: Global, list: &[Placed]) -> Result<String, Fault>
        requires cycles { CountsCycles self.old }
        ensures cycles { CountsCycles self.new }
    {
        if !well_placed(list) {
            return Err(Fault::Unread);
        }
        self.node.reserve(alloc, list.len())?;
        self.node.learn_in(list);
        Ok(format!(in alloc; "learnt")?)
    }
}

/// What a node tells, which changes nothing.
fn told(alloc: Global, node: &Node, word: &str, fields: &str) -> Result<String, Fault> {
    match word {
        "at" => offer_and_wake(alloc, node, time(fields)?),
        "next" => text_of_time(alloc, node.next_offer(time(fields)?)),
        "frame" => offered_frame(alloc, node, time(fields)?),
        "slots" if fields.is_empty() => text_of_mask(alloc, node.with_due_slots(Mask::empty())),
        "slot" => frame_of_slot(alloc, node, small(fields)?),
        _ => Err(Fault::Unread),
    }
}

/// The identifier that the node offers at a time, and when it wakes after that time.
fn offer_and_wake(alloc: Global, node: &Node, at: u64) -> Result<String, Fault>
    requires time { at < 2 ^ 40 }
{
    text_of_offer(alloc, node.offer(at), node.wake(at))
}

/// The frame that the node offers at a time, by both calls that tell it.
fn offered_frame(alloc: Global, node: &Node, at: u64) -> Result<String, Fault>
    requires time { at < 2 ^ 40 }
{
    let Some(id) = node.offer(at) else {
        return Ok(String::from_str(alloc, "-")?);
    };
    let frame = node.frame(at, id);
    if node.offered_frame(at, id) != Some(frame) {
        return Ok(String::from_str(alloc, "two answers")?);
    }
    text_of_frame(alloc, &frame)
}

/// The frame of a slot that the node is to send in the open cycle.
fn frame_of_slot(alloc: Global, node: &Node, slot: u8) -> Result<String, Fault> {
    if slot >= MOST_SLOTS {
        return Err(Fault::Unread);
    }
    match node.frame_due(slot) {
        Some(frame) => text_of_frame(alloc, &frame),
        None => Ok(String::from_str(alloc, "-")?),
    }
}
