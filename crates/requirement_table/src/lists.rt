//! Lists of placed entries.

ghost use Rattle.std.specs.Prelude.{◌≡◌, ℕ, ◌+◌, ◌-◌, ◌^◌, ◌<◌, ◌≤◌, ◌↔◌};
ghost use Rattle.std.specs.Prelude.{All, IsTrue, true, false, Some, IsSomeAnd, IfOk, length, vec_capacity};
ghost use Rattle.std.specs.List.{list_any};
ghost use Rattle.requirement_table.specs.Table.{IsEntry, IsInRange, IsWellPlaced};
ghost use Rattle.requirement_table.specs.Table.{free_from, is_over, near_of, not_over, released_in};

use crate::entries::{Entry, Placed};
use crate::instances::releases;
use bit_sets::Mask;
use profile::{CYCLES_END, MOST_SLOTS};
use std::alloc::{AllocError, Global};

/// Of how many entries at most the room is taken before it is known how many there are: a slot has one live entry.
const FIRST_ROOM: usize = MOST_SLOTS as usize;

/// So many entries are copied at once, 5 KiB. A longer block the C library copies by an instruction that is slow to
/// begin, and that a count of instructions counts once for each byte.
const BLOCK: usize = 128;

/// Whether the list is well placed: all fields are in range, no end is below its entry's origin, and
/// in each slot the entries stand in order, each free before the next one's origin, with at most the
/// last one live.
///
/// The range of an origin and of an end is that of a cycle number, below 2^42. A node has no range.
pub fn well_placed(placed: &[Placed]) -> bool
    ensures well_placed { IsTrue result ↔ IsWellPlaced placed.now }
{
    // The cycle from which each slot is free; nothing while it has a live entry.
    let mut free_from = [Some(0); MOST_SLOTS as usize];
    for p in placed {
        if !is_in_range(p) || !is_free(free_from[usize::from(p.entry.slot)], p.origin) {
            return false;
        }
        free_from[usize::from(p.entry.slot)] = free_after(p);
    }
    true
}

/// Whether all fields of a placed entry are in range.
fn is_in_range(p: &Placed) -> bool
    ensures { IsTrue result ↔ IsInRange p.now }
{
    is_entry(p.entry)
        && p.origin < CYCLES_END
        && p.end.is_none_or(|end| p.origin <= end && end < CYCLES_END)
}

/// Whether all fields of an entry are in range: the slot, at most 8 bytes, and a deadline from 1 to the
/// period. Phase, period and priority are in range by their types.
fn is_entry(entry: Entry) -> bool
    ensures { IsTrue result ↔ IsEntry entry }
{
    entry.slot < MOST_SLOTS && entry.length <= 8 && (1..=entry.period).contains(&entry.deadline)
}

/// Whether a slot that is free from a cycle on, where it is, is free at `cycle`.
fn is_free(free_from: Option<u64>, cycle: u64) -> bool
    ensures { IsTrue result ↔ IsSomeAnd free_from (λ from. from ≤ cycle) }
{
    free_from.is_some_and(|from| from <= cycle)
}

/// The cycle from which the slot of a placed entry is free again: end + deadline - 1.
fn free_after(p: &Placed) -> Option<u64>
    requires { IsInRange p.now }
    ensures { result ≡ free_from p.now }
{
    p.end.map(|end| end + u64::from(p.entry.deadline) - 1)
}

/// Whether a placed entry is over by `cycle`: its slot is free again, and none of its instances may be sent any more.
pub fn is_over(p: &Placed, cycle: u64) -> bool
    ensures over { result ≡ is_over cycle p.now }
{
    let deadline = u128::from(p.entry.deadline);
    p.end
        .is_some_and(|end| u128::from(end) + deadline <= u128::from(cycle) + 1)
}

/// Whether a placed entry whose fields are in range is over by `cycle`: what `is_over` answers, in numbers of one word.
#[inline(always)]
pub fn is_over_in_range(p: &Placed, cycle: u64) -> bool
    requires { IsInRange p.now }
    ensures over { result ≡ is_over cycle p.now }
{
    free_after(p).is_some_and(|from| from <= cycle)
}

/// Drops the entries that are over by `cycle`, in place and without memory. The others stay in their order.
pub fn drop_over(placed: &mut Vec<Placed>, cycle: u64)
    ensures left { placed.new.items ≡ not_over cycle placed.old.items }
    ensures capacity { vec_capacity placed.new ≡ vec_capacity placed.old }
{
    placed.retain(|p| !is_over(p, cycle));
}

/// Puts the entries that are not over by the cycle `since` and whose origin is before the cycle `until` into a list, in
/// their order, in place of what it has and without memory. The answer is whether it has room for them.
pub fn put_near(list: &mut Vec<Placed>, placed: &[Placed], since: u64, until: u64) -> bool
    requires in_range { All IsInRange placed.now }
    ensures list { result ≡ true → list.new.items ≡ near_of since until placed.now }
    ensures full { result ≡ false → vec_capacity list.old < length (near_of since until placed.now) }
    ensures capacity { vec_capacity list.new ≡ vec_capacity list.old }
{
    list.clear();
    for p in placed {
        if p.origin < until && !is_over_in_range(p, since) {
            if list.len() == list.capacity() {
                return false;
            }
            list.push_reserved(*p);
        }
    }
    true
}

/// The least cycle by which one of these entries is over, or the greatest number where none ends.
pub fn first_over(placed: &[Placed]) -> u64
    requires { IsWellPlaced placed.now }
    ensures none_before { (cycle : ℕ) → cycle < result → list_any (is_over cycle) placed.now ≡ false }
    ensures one { result < 2 ^ 64 - 1 → list_any (is_over result) placed.now ≡ true }
{
    let mut first = u64::MAX;
    for p in placed {
        first = first.min(over_from(p));
    }
    first
}

/// The cycle by which a placed entry is over; the greatest number where it does not end.
fn over_from(p: &Placed) -> u64
    requires { IsInRange p.now }
    ensures not_before { (cycle : ℕ) → cycle < result → is_over cycle p.now ≡ false }
    ensures from { result < 2 ^ 64 - 1 → is_over result p.now ≡ true }
{
    free_after(p).unwrap_or(u64::MAX)
}

/// The placed entries that are not over by `cycle`, in their order. Each one with an instance that may be sent in it or
/// later is among them.
pub fn not_over(alloc: Global, placed: &[Placed], cycle: u64) -> Result<Vec<Placed>, AllocError>
    requires { IsWellPlaced placed.now }
    ensures list { IfOk result (λ left. left.items ≡ not_over cycle placed.now) }
{
    let mut left = Vec::with_capacity(alloc, placed.len().min(FIRST_ROOM))?;
    for p in placed {
        if !is_over_in_range(p, cycle) {
            left.push(*p)?;
        }
    }
    Ok(left)
}

/// A copy of the list, with room for `more` entries more: all of it is taken at once.
pub fn copy_with_room(
    alloc: Global,
    placed: &[Placed],
    more: usize,
) -> Result<Vec<Placed>, AllocError>
    ensures list { IfOk result (λ list. list.items ≡ placed.now) }
{
    let mut list = Vec::with_capacity(alloc, placed.len().saturating_add(more))?;
    let mut rest = placed;
    while rest.len() > BLOCK {
        let (block, later) = rest.split_at(BLOCK);
        list.extend_from_slice(block)?;
        rest = later;
    }
    list.extend_from_slice(rest)?;
    Ok(list)
}

/// The set of the slots with an instance that is released in `cycle`.
pub fn released_in(placed: &[Placed], cycle: u64) -> Mask
    requires { IsWellPlaced placed.now }
    ensures slots { result ≡ released_in placed.now cycle }
{
    let mut slots = Mask::empty();
    for p in placed {
        if releases(p, cycle).is_some() {
            slots = slots.with(p.entry.slot);
        }
    }
    slots.known();
    slots
}
