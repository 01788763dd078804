//! A cycle that is open for a node, and which slot the node sends next in it.

ghost use Rattle.std.specs.Prelude.{◌≡◌, ℕ, ◌+◌, ◌-◌, ◌*◌, ◌/◌, ◌^◌, ◌<◌, ◌&&◌, not, nat_eq};
ghost use Rattle.std.specs.Prelude.{nat_lt, max, if◌then◌else◌, is_some, false, true, List};
ghost use Rattle.std.specs.Prelude.{Some, None, IfSome, MatchOption, option_map};
ghost use Rattle.profile.specs.Limits.{cycles_end, first_identifier, times_end};
ghost use Rattle.requirement_table.specs.declared.entries.Placed.{Placed};
ghost use Rattle.bit_sets.specs.Sets.{has_bit, most_slots};
ghost use Rattle.requirement_table.specs.Table.{IsWellPlaced};
ghost use Rattle.bit_sets.specs.Least.{least_where};
ghost use Rattle.node_model.specs.Node.{opened_by, with_heard};
ghost use Rattle.node_model.specs.declared.entries.Ready.{Ready};
ghost use Rattle.node_model.specs.Kept.{AreReady, KnowsDue, KnowsInstances, opened_of, sends_from};

use crate::entries::{ReadySlots, sendable_among, sendable_slots};
use async_window::Offer;
use bit_sets::{common, difference, least_slot};
use profile::FIRST_IDENTIFIER;
use requirement_table::{MOST_SLOTS, Mask, Placed};
use trigger_codec::Trigger;

/// A cycle that is open for a node.
#[derive(Clone, Copy)]
pub struct Open {
    /// The cycle.
    pub cycle: u64,
    /// The length of its synchronous window in bit times.
    pub width: u32,
    /// The slots that its trigger flagged.
    pub mask: Mask,
    /// The node's slots of which it heard a frame in this cycle.
    pub heard: Mask,
    /// The flagged slots of which the node has an instance that may be sent in this cycle, and heard no frame.
    pub due: Mask,
}

/// Whether a time lies in a cycle, where cycles have this length. No division is made.
pub fn is_in(at: u64, cycle: u64, length: u64) -> bool
    requires some { 0 < length }
    requires few { cycle * length < 2 ^ 64 }
    ensures test { result ≡ nat_eq (at / length) cycle }
{
    let start = cycle * length;
    start <= at && at - start < length
}

/// The cycle as its trigger opens it for a node with these entries; without one it has nothing synchronous. What is known
/// of the slots that are due in it then tells of their instances.
#[inline(always)]
pub fn opened_by(
    cycle: u64,
    trigger: Option<Trigger>,
    entries: &[Placed],
    ready: &mut ReadySlots,
) -> Open
    requires cycle { cycle < cycles_end }
    requires well_placed { IsWellPlaced entries.now }
    requires ready { AreReady entries.now ready.old }
    ensures opened { opened_of result ≡ opened_by cycle trigger }
    ensures due { KnowsDue entries.now result }
    ensures instances { KnowsInstances ready.new result }
    ensures ready { AreReady entries.now ready.new }
{
    let (width, mask) = match trigger {
        Some(trigger) => (trigger.l, trigger.mask),
        None => (0, Mask::empty()),
    };
    let sendable = sendable_among(mask, entries, cycle, ready);
    let heard = Mask::empty();
    Open {
        cycle,
        width,
        mask,
        heard,
        due: unheard(mask, sendable, heard),
    }
}

/// The cycle from which on a node may have to send: the open one, or `next` where none is open.
pub fn sends_from(opened: &Option<Open>, next: u64) -> u64
    ensures from { result ≡ sends_from (option_map opened_of opened.now) next }
{
    match opened {
        Some(open_cycle) => open_cycle.cycle,
        None => next,
    }
}

/// The open cycle, where there is one, of a node that learnt these entries. What is known of the slots that are due in it
/// then tells of their instances.
pub fn after_learning(
    before: &Option<Open>,
    entries: &[Placed],
    ready: &mut ReadySlots,
) -> Option<Open>
    requires cycle { IfSome before.now (λ open_cycle. open_cycle.cycle < cycles_end) }
    requires well_placed { IsWellPlaced entries.now }
    requires ready { AreReady entries.now ready.old }
    ensures opened { option_map opened_of result ≡ option_map opened_of before.now }
    ensures due { IfSome result (KnowsDue entries.now) }
    ensures instances { IfSome result (KnowsInstances ready.new) }
    ensures ready { AreReady entries.now ready.new }
{
    let before = before.as_ref()?;
    let sendable = sendable_slots(entries, before.cycle, ready);
    Some(Open {
        due: unheard(before.mask, sendable, before.heard),
        ..*before
    })
}

/// The open cycle, where there is one, of a node that heard a frame of its slot.
pub fn after_slot(before: &Option<Open>, slot: u8) -> Option<Open>
    requires slot { slot < most_slots }
    ensures opened { option_map opened_of result ≡ option_map (with_heard slot) (option_map opened_of before.now) }
    ensures due { (entries : List Placed) → IfSome before.now (KnowsDue entries) → IfSome result (KnowsDue entries) }
    ensures instances { (slots : List Ready) → IfSome before.now (KnowsInstances slots)
        → IfSome result (KnowsInstances slots) }
{
    let before = before.as_ref()?;
    let heard = before.heard.with(slot);
    heard.known();
    Some(Open {
        heard,
        due: before.due.without(slot),
        ..*before
    })
}

/// The identifier of the least slot that is to be sent in a cycle.
pub fn least_due(open_cycle: &Open) -> Option<u16>
    ensures least { result
        ≡ option_map (λ slot. first_identifier + slot) (least_where most_slots (has_bit open_cycle.now.due)) }
{
    Some(FIRST_IDENTIFIER + u16::from(least_slot(open_cycle.due)?))
}

/// The same, together with how long it is offered: to the end of the cycle.
pub fn offer_due(open_cycle: &Open, end: u64) -> Option<Offer>
    ensures least { option_map (λ offer. offer.id) result
        ≡ option_map (λ slot. first_identifier + slot) (least_where most_slots (has_bit open_cycle.now.due)) }
    ensures until { IfSome result (λ offer. offer.until ≡ end - 1) }
{
    match least_due(open_cycle) {
        Some(id) => Some(Offer {
            id,
            until: end.saturating_sub(1),
        }),
        None => None,
    }
}

/// The least time behind `at` in a cycle that ends at `end`, at which a slot of it can be sent in its synchronous
/// window, which starts at `window`.
pub fn next_due(open_cycle: &Open, at: u64, window: u64, end: u64) -> Option<u64>
    requires time { at < times_end }
    ensures next { result
        ≡ (if is_some (least_where most_slots (has_bit open_cycle.now.due)) && nat_lt (max (at + 1) window) end
        then Some (max (at + 1) window) else None) }
{
    least_slot(open_cycle.due)?;
    let next = window.max(at + 1);
    (next < end).then_some(next)
}

/// The flagged slots that can be sent and were not heard.
fn unheard(flags: Mask, sendable: Mask, heard: Mask) -> Mask
    ensures slots { (slot : ℕ) → has_bit result slot
        ≡ (has_bit flags slot && (has_bit sendable slot && not (has_bit heard slot))) }
{
    difference(common(flags, sendable), heard)
}

/// The slot of an identifier, where it is one of a set.
pub fn slot_among(among: Mask, id: u16) -> Option<u8>
    ensures slot { MatchOption result
        ((slot : ℕ) → first_identifier + slot ≡ id → has_bit among slot ≡ false)
        (λ slot. (first_identifier + slot ≡ id) × (slot < most_slots) × (has_bit among slot ≡ true)) }
{
    among.known();
    if id < FIRST_IDENTIFIER || FIRST_IDENTIFIER + u16::from(MOST_SLOTS) <= id {
        return None;
    }
    let slot = (id - FIRST_IDENTIFIER) as u8;
    among.has(slot).then_some(slot)
}
