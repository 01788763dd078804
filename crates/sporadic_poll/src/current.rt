//! The instance of a slot that may be sent in a cycle.

ghost use Rattle.std.specs.Prelude.{◌≡◌, ◌≤◌, IfSome, None, Some, option_map};
ghost use Rattle.requirement_table.specs.Table.{IsInRange, IsWellPlaced, instance_in, sendable};
ghost use Rattle.sporadic_poll.specs.Current.{IsCurrentBy, current_of};

use requirement_table::{Placed, current_instance};

/// An instance that may be sent in a cycle.
#[derive(Clone, Copy, Debug, PartialEq, Eq)]
pub struct Current {
    /// The elementary cycle of its release.
    pub release: u64,
    /// The number of data bytes of its frame, at most 8.
    pub length: u8,
}

/// The instance of a slot that may be sent in a cycle, by the placed entries.
pub fn current_in(placed: &[Placed], slot: u8, cycle: u64) -> Option<Current>
    requires well_placed { IsWellPlaced placed.now }
    ensures value { result ≡ option_map current_of (instance_in placed.now slot cycle) }
    ensures few { IfSome result (λ current. current.length ≤ 8) }
    ensures released { IfSome result (λ current. current.release ≤ cycle) }
{
    match current_at(placed, slot, cycle) {
        Some(current) => Some(current),
        None => current_among(placed, slot, cycle),
    }
}

/// The same, where an entry of the slot has it that stands at the place of the slot's number: it does where the entries
/// stand in the order of their slots.
fn current_at(placed: &[Placed], slot: u8, cycle: u64) -> Option<Current>
    requires well_placed { IsWellPlaced placed.now }
    ensures value { IfSome result
        (λ current. Some current ≡ option_map current_of (instance_in placed.now slot cycle)) }
    ensures few { IfSome result (λ current. current.length ≤ 8) }
    ensures released { IfSome result (λ current. current.release ≤ cycle) }
{
    let p = placed.get(usize::from(slot))?;
    current_by(p, slot, cycle)
}

/// The same, by a look at each entry.
#[inline(never)]
fn current_among(placed: &[Placed], slot: u8, cycle: u64) -> Option<Current>
    requires well_placed { IsWellPlaced placed.now }
    ensures value { result ≡ option_map current_of (instance_in placed.now slot cycle) }
    ensures few { IfSome result (λ current. current.length ≤ 8) }
    ensures released { IfSome result (λ current. current.release ≤ cycle) }
{
    for p in placed {
        if let Some(current) = current_by(p, slot, cycle) {
            return Some(current);
        }
    }
    None
}

/// The instance of an entry that may be sent in a cycle, where the entry has the slot.
#[inline(always)]
fn current_by(p: &Placed, slot: u8, cycle: u64) -> Option<Current>
    requires in_range { IsInRange p.now }
    ensures some { IfSome result (IsCurrentBy slot cycle p.now) }
    ensures none { result ≡ None → sendable slot cycle p.now ≡ None }
{
    if p.entry.slot != slot {
        return None;
    }
    match current_instance(p, cycle) {
        Some(instance) => Some(Current {
            release: instance.release,
            length: p.entry.length,
        }),
        None => None,
    }
}
