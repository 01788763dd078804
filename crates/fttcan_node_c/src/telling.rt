//! What a node is told: from which cycle on it goes, trigger frames, requests, and bytes of slots.

ghost use Rattle.std.specs.Prelude.{◌≡◌, ◌≢◌, None, Some, false, true};
ghost use Rattle.c_values.specs.Plain.{IsFrameIn, frame_of};
ghost use Rattle.live_node.specs.Hearing.{answer_live, gone_to, heard_live};
ghost use Rattle.live_node.specs.Live.{IsOwn, Puts, room_under, with_request};
ghost use Rattle.live_node.specs.Tickets.{after_drop, can_drop};
ghost use Rattle.live_node.specs.declared.node.Put.TheVariants.{Done, Full, Strange};
ghost use Rattle.fttcan_node_c.specs.Nodes.{CanGoTo, CanSet, Holds, heard_told, waiting_under, with_bytes};

use crate::plain::{FULL, heard_out};
use c_values::{ExportRefusal, FttFrame, OK, frame_in};
use can_frame::Frame;
use live_node::{Heard, Put};
use node_handle::{FttNode, HeldNode};
use std::alloc::Global;
use std::mem;

/// Has a node go on with a cycle.
fn gone_to(held: &mut HeldNode, cycle: u64) -> bool
    ensures gone { result ≡ true → CanGoTo cycle held.old.node × (held.new.node ≡ gone_to cycle held.old.node) }
    ensures same { result ≡ false → (held.new ≡ held.old) × (CanGoTo cycle held.old.node → ⊥) }
{
    held.node.go_to(cycle)
}

/// Says that the next trigger which the node takes is that of a cycle, or of a later one. The open cycle is closed. The cycle
/// is not before the node's next one, and at most 2^42.
#[unsafe(no_mangle)]
pub extern "C" fn fttcan_node_go_to(n: &mut FttNode, alloc: Global, cycle: u64) -> u32
    ensures gone { result ≡ 0 → Holds n.old.value (λ old. CanGoTo cycle old
        × Holds n.new.value (λ new. new ≡ gone_to cycle old)) }
    ensures same { result ≢ 0 → n.new.value ≡ n.old.value }
    ensures refused { result ≢ 0 → result ≢ 7 → (result ≡ 2) × Holds n.old.value (λ old. CanGoTo cycle old → ⊥) }
    ensures closed { result ≡ 7 → n.old.value ≡ None }
    ensures empty { n.old.value ≡ None → result ≡ 7 }
{
    let Some(mut held) = mem::replace(n, FttNode::none()).into_box(alloc) else {
        return ExportRefusal::Closed.status();
    };
    let gone = gone_to(&mut held, cycle);
    *n = FttNode::of(held);
    if gone {
        OK
    } else {
        ExportRefusal::Argument.status()
    }
}

/// Tells a node a frame.
fn heard_by(held: &mut HeldNode, frame: &Frame, passed: u32) -> Heard
    ensures state { held.new.node ≡ heard_live passed frame.now held.old.node }
    ensures answer { result ≡ answer_live passed frame.now held.old.node }
{
    held.node.trigger(frame, passed)
}

/// Tells the node a frame that may be a trigger frame. So many cycles have passed without one since the last trigger that
/// was taken, by the clock of its driver. `heard` is 0 where the cycle is open, 1 for the first of two frames, 2 for one
/// of the open cycle that came before, 3 where it is not taken, and 4 where it is no trigger frame.
#[unsafe(no_mangle)]
pub extern "C" fn fttcan_node_trigger(
    n: &mut FttNode,
    alloc: Global,
    frame: &FttFrame,
    passed: u32,
    heard: &mut u8,
) -> u32
    ensures told { result ≡ 0 → IsFrameIn frame.now × Holds n.old.value (λ old.
        (heard.new ≡ heard_told (answer_live passed (frame_of frame.now) old))
        × Holds n.new.value (λ new. new ≡ heard_live passed (frame_of frame.now) old)) }
    ensures same { result ≢ 0 → (n.new.value ≡ n.old.value) × (heard.new ≡ heard.old) }
    ensures refused { result ≢ 0 → result ≢ 7 → (result ≡ 2) × (IsFrameIn frame.now → ⊥) }
    ensures closed { result ≡ 7 → n.old.value ≡ None }
    ensures empty { n.old.value ≡ None → result ≡ 7 }
{
    let Some(mut held) = mem::replace(n, FttNode::none()).into_box(alloc) else {
        return ExportRefusal::Closed.status();
    };
    let made = match frame_in(frame) {
        Ok(made) => made,
        Err(refusal) => {
            *n = FttNode::of(held);
            return refusal.status();
        }
    };
    let answer = heard_by(&mut held, &made, passed);
    *n = FttNode::of(held);
    *heard = heard_out(answer);
    OK
}

/// Sets the bytes of a slot that the bus has.
fn set_in(held: &mut HeldNode, slot: u8, bytes: &[u8]) -> bool
    ensures set { result ≡ true → CanSet slot bytes.now held.old.node
        × (held.new.node ≡ with_bytes slot bytes.now held.old.node) }
    ensures same { result ≡ false → (held.new ≡ held.old) × (CanSet slot bytes.now held.old.node → ⊥) }
{
    if slot >= held.node.layout().slots() {
        return false;
    }
    held.node.set(slot, bytes)
}

/// Sets the bytes that a slot sends from the next load on, at most 8.
#[unsafe(no_mangle)]
pub extern "C" fn fttcan_node_set(n: &mut FttNode, alloc: Global, slot: u8, bytes: &[u8]) -> u32
    ensures set { result ≡ 0 → Holds n.old.value (λ old. CanSet slot bytes.now old
        × Holds n.new.value (λ new. new ≡ with_bytes slot bytes.now old)) }
    ensures same { result ≢ 0 → n.new.value ≡ n.old.value }
    ensures refused { result ≢ 0 → result ≢ 7 → (result ≡ 2) × Holds n.old.value (λ old. CanSet slot bytes.now old → ⊥) }
    ensures closed { result ≡ 7 → n.old.value ≡ None }
    ensures empty { n.old.value ≡ None → result ≡ 7 }
{
    let Some(mut held) = mem::replace(n, FttNode::none()).into_box(alloc) else {
        return ExportRefusal::Closed.status();
    };
    let set = set_in(&mut held, slot, bytes);
    *n = FttNode::of(held);
    if set {
        OK
    } else {
        ExportRefusal::Argument.status()
    }
}

/// Puts a request behind those of its identifier.
fn put_in(held: &mut HeldNode, frame: &Frame) -> Put
    ensures put { Puts held.old.node frame.now held.new.node result }
    ensures same { result ≢ Done → held.new ≡ held.old }
{
    held.node.put(frame)
}

/// The status of what became of a request.
fn status_of_put(put: Put) -> u32
    ensures done { result ≡ 0 → put ≡ Done }
    ensures full { result ≡ 12 → put ≡ Full }
    ensures strange { result ≢ 0 → result ≢ 12 → (result ≡ 2) × (put ≡ Strange) }
{
    match put {
        Put::Done => OK,
        Put::Full => FULL,
        Put::Strange => ExportRefusal::Argument.status(),
    }
}

/// Puts a request behind those of its identifier. The answer is `FULL` where as many wait as may, and `Argument` where
/// the frame is none, or its identifier none of the node's own.
#[unsafe(no_mangle)]
pub extern "C" fn fttcan_node_put(n: &mut FttNode, alloc: Global, frame: &FttFrame) -> u32
    ensures put { result ≡ 0 → IsFrameIn frame.now × Holds n.old.value (λ old. IsOwn old frame.now.id
        × (room_under old frame.now.id ≡ true)
        × Holds n.new.value (λ new. new ≡ with_request (frame_of frame.now) old)) }
    ensures full { result ≡ 12 → IsFrameIn frame.now × Holds n.old.value (λ old. IsOwn old frame.now.id
        × (room_under old frame.now.id ≡ false)) }
    ensures same { result ≢ 0 → n.new.value ≡ n.old.value }
    ensures refused { result ≢ 0 → result ≢ 7 → result ≢ 12 → (result ≡ 2)
        × Holds n.old.value (λ old. IsFrameIn frame.now → IsOwn old frame.now.id → ⊥) }
    ensures closed { result ≡ 7 → n.old.value ≡ None }
    ensures empty { n.old.value ≡ None → result ≡ 7 }
{
    let Some(mut held) = mem::replace(n, FttNode::none()).into_box(alloc) else {
        return ExportRefusal::Closed.status();
    };
    let made = match frame_in(frame) {
        Ok(made) => made,
        Err(refusal) => {
            *n = FttNode::of(held);
            return refusal.status();
        }
    };
    let put = put_in(&mut held, &made);
    *n = FttNode::of(held);
    status_of_put(put)
}

/// How many requests wait under an identifier of the node.
fn waiting_in(held: &HeldNode, id: u16) -> Option<usize>
    ensures waiting { result ≡ waiting_under id held.now.node }
{
    held.node.waiting(id)
}

/// How many requests wait under an identifier, with the one in flight. The answer is `Argument` where it is none of the
/// node's own.
#[unsafe(no_mangle)]
pub extern "C" fn fttcan_node_waiting(
    n: &mut FttNode,
    alloc: Global,
    id: u16,
    count: &mut usize,
) -> u32
    ensures same { n.new.value ≡ n.old.value }
    ensures waiting { result ≡ 0 → Holds n.old.value (λ node. waiting_under id node ≡ Some count.new) }
    ensures untold { result ≢ 0 → count.new ≡ count.old }
    ensures refused { result ≢ 0 → result ≢ 7 → (result ≡ 2) × Holds n.old.value (λ node. waiting_under id node ≡ None) }
    ensures closed { result ≡ 7 → n.old.value ≡ None }
    ensures empty { n.old.value ≡ None → result ≡ 7 }
{
    let Some(held) = mem::replace(n, FttNode::none()).into_box(alloc) else {
        return ExportRefusal::Closed.status();
    };
    let waiting = waiting_in(&held, id);
    *n = FttNode::of(held);
    match waiting {
        Some(waiting) => {
            *count = waiting;
            OK
        }
        None => ExportRefusal::Argument.status(),
    }
}

/// Drops the oldest request of an identifier.
fn dropped(held: &mut HeldNode, id: u16) -> bool
    ensures dropped { result ≡ true → (can_drop held.old.node id ≡ true) × (held.new.node ≡ after_drop id held.old.node) }
    ensures same { result ≡ false → (held.new ≡ held.old) × (can_drop held.old.node id ≡ false) }
{
    held.node.withdraw(id)
}

/// Drops the oldest request that waits under an identifier. The answer is `No` where none waits, or that one is in flight,
/// and `Argument` where the identifier is none of the node's own.
#[unsafe(no_mangle)]
pub extern "C" fn fttcan_node_drop(n: &mut FttNode, alloc: Global, id: u16) -> u32
    ensures dropped { result ≡ 0 → Holds n.old.value (λ old. (can_drop old id ≡ true)
        × Holds n.new.value (λ new. new ≡ after_drop id old)) }
    ensures none { result ≡ 10 → Holds n.old.value (λ old. (waiting_under id old ≢ None) × (can_drop old id ≡ false)) }
    ensures same { result ≢ 0 → n.new.value ≡ n.old.value }
    ensures refused { result ≢ 0 → result ≢ 7 → result ≢ 10 → (result ≡ 2)
        × Holds n.old.value (λ old. (waiting_under id old ≡ None) × (can_drop old id ≡ false)) }
    ensures closed { result ≡ 7 → n.old.value ≡ None }
    ensures empty { n.old.value ≡ None → result ≡ 7 }
{
    let Some(mut held) = mem::replace(n, FttNode::none()).into_box(alloc) else {
        return ExportRefusal::Closed.status();
    };
    let own = waiting_in(&held, id).is_some();
    let gone = dropped(&mut held, id);
    *n = FttNode::of(held);
    if gone {
        OK
    } else if own {
        ExportRefusal::No.status()
    } else {
        ExportRefusal::Argument.status()
    }
}
