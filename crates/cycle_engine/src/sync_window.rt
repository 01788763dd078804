//! The synchronous window of a cycle. In it nothing is newly offered, and a frame that is sent goes away: the node is asked
//! once, and its frames leave in the order of their slots.

ghost use Rattle.std.specs.Prelude.{◌≡◌, ℕ, ◌+◌, ◌-◌, ◌/◌, ◌<◌, ◌≤◌, ◌++◌, ◌||◌};
ghost use Rattle.std.specs.Prelude.{[], ◌∷◌, IsSome, Some, drop, false, is_some, length, true, vec_len, vec_capacity};
ghost use Rattle.profile.specs.Limits.{shortest_frame, times_end};
ghost use Rattle.bit_sets.specs.Sets.{has_bit, most_slots};
ghost use Rattle.node_model.specs.Node.{IsNode};
ghost use Rattle.node_model.specs.Window.{IsInWindow};
ghost use Rattle.cycle_engine.specs.SyncWindow.{IsSentBy, back_to_back, by_slots, due_among, due_by, is_among};

use bit_sets::{difference, least_slot, without_least};
use can_frame::{Frame, KnownFront, TimedFrame};
use node_model::Node;
use requirement_table::{MOST_SLOTS, Mask};

/// For each slot what is known of the first bits of its frames.
pub type Fronts = [KnownFront; MOST_SLOTS as usize];

/// Runs the bus over a node in its synchronous window from `from` on, and puts the frames that start before `until`
/// behind `out`, which has spare room for one frame more than `(until - from) / 47`. Times are below 2^60.
///
/// For each slot is known how its frames begin, so that their lengths are counted from their last bytes.
pub fn run_window(
    node: &mut Node,
    fronts: &mut Fronts,
    from: u64,
    until: u64,
    out: &mut Vec<TimedFrame>,
)
    requires time { until < times_end }
    requires node { IsNode node.old.state }
    requires window { IsInWindow from until node.old.state }
    requires room { from < until → length out.old.items + ((until - from) / shortest_frame + 1) ≤ vec_capacity out.old }
    ensures sent { IsSentBy (node.old.state ∷ []) (node.new.state ∷ []) from until out.old.items out.new.items }
    ensures capacity { vec_capacity out.old ≤ vec_capacity out.new }
    ensures spare { node.new.spare ≡ node.old.spare }
{
    let before = out.as_slice().len();
    let due = due_slots(node);
    let left = send_slots(node, due, fronts, from, until, out);
    let frames = &out.as_slice()[before..];
    let sent = difference(due, left);
    due.known();
    sent.known();
    node.hear_slots(sent, frames);
}

/// Puts the frames of a set of slots that a node is to send behind `out`, in the order of the slots, one right behind
/// the other from `from` on, as many as start before `until`. The answer is the slots that are left.
fn send_slots(
    node: &Node,
    set: Mask,
    fronts: &mut Fronts,
    from: u64,
    until: u64,
    out: &mut Vec<TimedFrame>,
) -> Mask
    requires time { until < times_end }
    requires due { (slot : ℕ) → slot < most_slots → has_bit set slot ≡ true
        → IsSome (due_by (node.now.state ∷ []) slot) }
    requires room { from < until → vec_len out.old + ((until - from) / shortest_frame + 1) ≤ vec_capacity out.old }
    ensures sent { out.new.items
        ≡ out.old.items ++ back_to_back (by_slots (due_among (node.now.state ∷ []) set)) from until }
    ensures left { (slot : ℕ) → has_bit set slot
        ≡ (is_among slot (drop (length out.old.items) out.new.items) || has_bit result slot) }
    ensures apart { (slot : ℕ) → has_bit result slot ≡ true
        → is_among slot (drop (length out.old.items) out.new.items) ≡ false }
    ensures capacity { vec_capacity out.old ≤ vec_capacity out.new }
{
    let mut left = set;
    let mut at = from;
    while let Some(slot) = least_slot(left) {
        if at >= until {
            return left;
        }
        let frame = due_frame(node, slot);
        let len = fronts[usize::from(slot)].wire_len(&frame);
        out.push_reserved(TimedFrame {
            start: at,
            len,
            frame,
        });
        at += u64::from(len);
        left.known();
        left = without_least(left);
        left.known();
    }
    left
}

/// The slots that a node is to send in its open cycle.
fn due_slots(node: &Node) -> Mask
    ensures slots { (slot : ℕ) → slot < most_slots
        → has_bit result slot ≡ is_some (due_by (node.now.state ∷ []) slot) }
{
    node.with_due_slots(Mask::empty())
}

/// The frame of a slot that a node is to send in its open cycle.
fn due_frame(node: &Node, slot: u8) -> Frame
    requires slot { slot < most_slots }
    requires due { IsSome (due_by (node.now.state ∷ []) slot) }
    ensures frame { due_by (node.now.state ∷ []) slot ≡ Some result }
{
    node.due_frame(slot)
}
