//! What a node owes in the open cycle, and which cycle that is.

ghost use Rattle.std.specs.Prelude.{◌≡◌, ◌≢◌, None, Some, option_map};
ghost use Rattle.c_values.specs.Plain.{mask_of};
ghost use Rattle.c_values.specs.Told.{frame_told};
ghost use Rattle.live_node.specs.Sending.{due_of, owed_frame};
ghost use Rattle.node_model.specs.Online.{cycle_of, open_now};
ghost use Rattle.fttcan_node_c.specs.Nodes.{AreOwed, Holds, IsOpenTold, due_told};

use crate::plain::{FttDue, due_out};
use c_values::{ExportRefusal, FttFrame, FttMask, FttTrigger, OK, frame_out, mask_out};
use can_frame::Frame;
use live_node::Due;
use node_handle::{FttNode, HeldNode};
use node_model::OpenCycle;
use requirement_table::Mask;
use std::alloc::Global;
use std::mem;

/// The slots that the node owes.
fn owed_by(held: &HeldNode) -> Mask
    ensures owed { AreOwed result held.now.node }
{
    held.node.due_slots()
}

/// The slots that the node owes in the open cycle; none where no cycle is open.
#[unsafe(no_mangle)]
pub extern "C" fn fttcan_node_due(n: &mut FttNode, alloc: Global, slots: &mut FttMask) -> u32
    ensures same { n.new.value ≡ n.old.value }
    ensures owed { result ≡ 0 → Holds n.old.value (AreOwed (mask_of slots.new)) }
    ensures refused { result ≢ 0 → (slots.new ≡ slots.old) × (result ≡ 7) × (n.old.value ≡ None) }
    ensures empty { n.old.value ≡ None → result ≡ 7 }
{
    let Some(held) = mem::replace(n, FttNode::none()).into_box(alloc) else {
        return ExportRefusal::Closed.status();
    };
    let owed = owed_by(&held);
    *n = FttNode::of(held);
    *slots = mask_out(owed);
    OK
}

/// When a slot that the node owes may start.
fn due_in(held: &HeldNode, slot: u8) -> Option<Due>
    ensures due { result ≡ due_of held.now.node slot }
{
    held.node.due(slot)
}

/// When a slot that the node owes may start. The answer is `No` where it does not owe it.
#[unsafe(no_mangle)]
pub extern "C" fn fttcan_node_slot_due(
    n: &mut FttNode,
    alloc: Global,
    slot: u8,
    due: &mut FttDue,
) -> u32
    ensures same { n.new.value ≡ n.old.value }
    ensures due { result ≡ 0 → Holds n.old.value (λ node. option_map due_told (due_of node slot) ≡ Some due.new) }
    ensures none { result ≡ 10 → Holds n.old.value (λ node. due_of node slot ≡ None) }
    ensures untold { result ≢ 0 → due.new ≡ due.old }
    ensures statuses { result ≢ 0 → result ≢ 10 → result ≡ 7 }
    ensures closed { result ≡ 7 → n.old.value ≡ None }
    ensures empty { n.old.value ≡ None → result ≡ 7 }
{
    let Some(held) = mem::replace(n, FttNode::none()).into_box(alloc) else {
        return ExportRefusal::Closed.status();
    };
    let found = due_in(&held, slot);
    *n = FttNode::of(held);
    match found {
        Some(found) => {
            *due = due_out(&found);
            OK
        }
        None => ExportRefusal::No.status(),
    }
}

/// The frame of a slot that the node owes.
fn slot_frame_in(held: &HeldNode, slot: u8) -> Option<Frame>
    ensures frame { result ≡ owed_frame held.now.node slot }
{
    held.node.slot_frame(slot)
}

/// The frame of a slot that the node owes, with its bytes. The answer is `No` where it does not owe it.
#[unsafe(no_mangle)]
pub extern "C" fn fttcan_node_slot_frame(
    n: &mut FttNode,
    alloc: Global,
    slot: u8,
    frame: &mut FttFrame,
) -> u32
    ensures same { n.new.value ≡ n.old.value }
    ensures frame { result ≡ 0 → Holds n.old.value (λ node.
        option_map frame_told (owed_frame node slot) ≡ Some frame.new) }
    ensures none { result ≡ 10 → Holds n.old.value (λ node. owed_frame node slot ≡ None) }
    ensures untold { result ≢ 0 → frame.new ≡ frame.old }
    ensures statuses { result ≢ 0 → result ≢ 10 → result ≡ 7 }
    ensures closed { result ≡ 7 → n.old.value ≡ None }
    ensures empty { n.old.value ≡ None → result ≡ 7 }
{
    let Some(held) = mem::replace(n, FttNode::none()).into_box(alloc) else {
        return ExportRefusal::Closed.status();
    };
    let found = slot_frame_in(&held, slot);
    *n = FttNode::of(held);
    match found {
        Some(found) => {
            *frame = frame_out(&found);
            OK
        }
        None => ExportRefusal::No.status(),
    }
}

/// The least cycle whose trigger the node can take.
fn next_of(held: &HeldNode) -> u64
    ensures next { result ≡ held.now.node.state.next }
{
    held.node.next_cycle()
}

/// The least cycle whose trigger the node can take.
#[unsafe(no_mangle)]
pub extern "C" fn fttcan_node_next(n: &mut FttNode, alloc: Global, cycle: &mut u64) -> u32
    ensures same { n.new.value ≡ n.old.value }
    ensures next { result ≡ 0 → Holds n.old.value (λ node. cycle.new ≡ node.state.next) }
    ensures refused { result ≢ 0 → (cycle.new ≡ cycle.old) × (result ≡ 7) × (n.old.value ≡ None) }
    ensures empty { n.old.value ≡ None → result ≡ 7 }
{
    let Some(held) = mem::replace(n, FttNode::none()).into_box(alloc) else {
        return ExportRefusal::Closed.status();
    };
    let next = next_of(&held);
    *n = FttNode::of(held);
    *cycle = next;
    OK
}

/// The open cycle, where there is one.
fn open_in(held: &HeldNode) -> Option<OpenCycle>
    ensures open_cycle { result ≡ option_map cycle_of (open_now held.now.node.state) }
{
    held.node.open_cycle()
}

/// The open cycle, its window, and what its trigger flagged. The answer is `No` where no cycle is open.
#[unsafe(no_mangle)]
pub extern "C" fn fttcan_node_opened(n: &mut FttNode, alloc: Global, opened: &mut FttTrigger) -> u32
    ensures same { n.new.value ≡ n.old.value }
    ensures opened { result ≡ 0 → Holds n.old.value (IsOpenTold opened.new) }
    ensures none { result ≡ 10 → Holds n.old.value (λ node. open_now node.state ≡ None) }
    ensures untold { result ≢ 0 → opened.new ≡ opened.old }
    ensures statuses { result ≢ 0 → result ≢ 10 → result ≡ 7 }
    ensures closed { result ≡ 7 → n.old.value ≡ None }
    ensures empty { n.old.value ≡ None → result ≡ 7 }
{
    let Some(held) = mem::replace(n, FttNode::none()).into_box(alloc) else {
        return ExportRefusal::Closed.status();
    };
    let found = open_in(&held);
    *n = FttNode::of(held);
    match found {
        Some(found) => {
            *opened = FttTrigger {
                flags: mask_out(found.mask),
                cycle: found.cycle,
                window: found.width,
            };
            OK
        }
        None => ExportRefusal::No.status(),
    }
}
