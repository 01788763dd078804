//! The checker.

ghost use Rattle.std.specs.Prelude.{◌≡◌, ℕ, ◌+◌, ◌-◌, ◌<◌, ◌≤◌, ◌↔◌, ◌&&◌, not, true, if◌then◌else◌, nat_eq};
ghost use Rattle.std.specs.Prelude.{IsOk, IfErr, IfOk, IfSome, length};
ghost use Rattle.std.specs.List.{list_any};
ghost use Rattle.profile.specs.Limits.{cycles_end};
ghost use Rattle.requirement_table.specs.Instance.{release_of};
ghost use Rattle.bit_sets.specs.Sets.{has_bit, most_slots};
ghost use Rattle.requirement_table.specs.Table.{IsWellPlaced, instance_in, is_last_in};
ghost use Rattle.plan_check.specs.Blocks.{IsFilled};
ghost use Rattle.plan_check.specs.Breaches.{IsBreach, IsGoodAt};
ghost use Rattle.plan_check.specs.Certificate.{IsCertificate, length_of};
ghost use Rattle.plan_check.specs.Cycles.{IsBreachIn, IsGoodIn, waits_in};
ghost use Rattle.plan_check.specs.PlanKept.{HasPending, IsTaken, NoSlot, goes_round, is_bad, is_held};

use crate::blocks::{Block, LastBlock, block_of, cycles_of_blocks, renew};
use crate::breach::Breach;
use crate::certificate::Certificate;
use crate::places::{goes_round, move_places, place_at, release_at, slots_of};
use crate::sets::{least, symmetric_difference};
use crate::widths::{Costs, width};
use bit_sets::{common, difference, union};
use requirement_table::{MOST_SLOTS, Mask, Placed};

/// Checks that a certificate keeps the placed entries for ever within a window of `w` bit times.
///
/// Each slot that is pending before its first cycle has an instance that was released before that cycle and whose last
/// cycle is not below it. `Ok` implies that no instance misses its deadline at any cycle number, whoever made the
/// certificate.
///
/// # Errors
///
/// The first breach.
pub fn check(placed: &[Placed], w: u32, certificate: &Certificate) -> Result<(), Breach>
    requires well_placed { IsWellPlaced placed.now }
    requires pending { HasPending placed.now certificate.now.from (has_bit certificate.now.pending) }
    requires cycles { certificate.now.from + length certificate.now.masks ≤ cycles_end }
    ensures ok { IsOk result ↔ IsTaken placed.now w certificate.now }
    ensures breach { IfErr result (λ breach. IsBreach placed.now w certificate.now breach) }
{
    if let Some(slot) = least(bad_slots(placed, certificate.first(), certificate.length())) {
        return Err(Breach::BadLoop { slot });
    }
    let (before, behind) = check_cycles(placed, w, certificate)?;
    match least(symmetric_difference(before, behind)) {
        Some(slot) => Err(Breach::NotClosed { slot }),
        None => Ok(()),
    }
}

/// The slots with an entry that doesn't go round with the cycles from `first` on, `length` at a time.
fn bad_slots(placed: &[Placed], first: u64, length: u64) -> Mask
    requires well_placed { IsWellPlaced placed.now }
    ensures slots { (slot : ℕ) → has_bit result slot
        ≡ list_any (λ p. nat_eq p.entry.slot slot && not (goes_round first length p)) placed.now }
{
    let mut bad = Mask::empty();
    for p in placed {
        if !goes_round(p, first, length) {
            bad = bad.with(p.entry.slot);
        }
    }
    bad
}

/// Walks the listed cycles of a certificate, whose loop has no bad slot: the slots that are pending before its first
/// repeated cycle, and those that are pending behind its last one.
///
/// It goes from block to block. A new block begins at the first repeated cycle, and where an entry is over.
fn check_cycles(
    placed: &[Placed],
    w: u32,
    certificate: &Certificate,
) -> Result<(Mask, Mask), Breach>
    requires well_placed { IsWellPlaced placed.now }
    requires pending { HasPending placed.now certificate.now.from (has_bit certificate.now.pending) }
    requires cycles { certificate.now.from + length certificate.now.masks ≤ cycles_end }
    requires rounds { NoSlot (is_bad placed.now certificate.now) }
    ensures before { IfOk result (λ r. (slot : ℕ) → slot < most_slots
        → has_bit r.0 slot
        ≡ is_held placed.now certificate.now (certificate.now.first - certificate.now.from) slot) }
    ensures behind { IfOk result (λ r. (slot : ℕ) → slot < most_slots
        → has_bit r.1 slot
        ≡ is_held placed.now certificate.now
        (certificate.now.first - certificate.now.from + length_of certificate.now) slot) }
    ensures good { IfOk result (λ _. (n : ℕ) → n < length certificate.now.masks
        → IsGoodAt placed.now w certificate.now n) }
    ensures breach { IfErr result (λ breach. IsBreach placed.now w certificate.now breach) }
{
    let first = certificate.first();
    let slots = slots_of(placed);
    let mut places = [0; MOST_SLOTS as usize];
    let most = cycles_of_blocks(placed);
    let mut last = LastBlock::none();
    let mut cycle = certificate.from();
    let end = cycle + certificate.masks().len() as u64;
    let mut held = certificate.pending();
    let mut before = held;
    while cycle < end {
        before = chosen(cycle <= first, held, before);
        move_places(placed, cycle, slots, &mut places);
        let count = block_of(
            placed,
            cycle,
            slots,
            &places,
            most.min(up_to(cycle, first, end)),
        );
        renew(placed, cycle, count, slots, &places, &mut last);
        held = check_block(placed, w, certificate, cycle, count, &last.block, held)?;
        cycle += count;
    }
    Ok((before, held))
}

/// One of two sets.
fn chosen(first: bool, one: Mask, other: Mask) -> Mask
    ensures set { result ≡ (if first then one else other) }
{
    if first { one } else { other }
}

/// How many cycles there are from `cycle` to `first`, where that comes after it, and to `end` otherwise.
fn up_to(cycle: u64, first: u64, end: u64) -> u64
    requires more { cycle < end }
    requires first { first ≤ end }
    ensures some { 1 ≤ result }
    ensures first { cycle < first → cycle + result ≤ first }
    ensures end { cycle + result ≤ end }
{
    if cycle < first {
        first - cycle
    } else {
        end - cycle
    }
}

/// Walks the listed cycles of a block, in which the slots do what it says and before which those in `held` have an
/// instance that is not planned: the slots that have one behind it.
fn check_block(
    placed: &[Placed],
    w: u32,
    certificate: &Certificate,
    cycle: u64,
    count: u64,
    block: &Block,
    held: Mask,
) -> Result<Mask, Breach>
    requires well_placed { IsWellPlaced placed.now }
    requires pending { HasPending placed.now certificate.now.from (has_bit certificate.now.pending) }
    requires cycles { certificate.now.from + length certificate.now.masks ≤ cycles_end }
    requires rounds { NoSlot (is_bad placed.now certificate.now) }
    requires certificate { IsCertificate certificate.now.from certificate.now.first certificate.now.masks }
    requires few { count ≤ 256 }
    requires after { certificate.now.from ≤ cycle }
    requires within { cycle + count ≤ certificate.now.from + length certificate.now.masks }
    requires filled { IsFilled placed.now cycle count block.now }
    requires held { (slot : ℕ) → slot < most_slots
        → has_bit held slot ≡ is_held placed.now certificate.now (cycle - certificate.now.from) slot }
    requires good { (n : ℕ) → n < cycle - certificate.now.from → IsGoodAt placed.now w certificate.now n }
    ensures held { IfOk result (λ left. (slot : ℕ) → slot < most_slots
        → has_bit left slot ≡ is_held placed.now certificate.now (cycle + count - certificate.now.from) slot) }
    ensures good { IfOk result (λ _. (n : ℕ) → n < cycle + count - certificate.now.from
        → IsGoodAt placed.now w certificate.now n) }
    ensures breach { IfErr result (λ breach. IsBreach placed.now w certificate.now breach) }
{
    let from = certificate.from();
    let masks = certificate.masks();
    let mut left = held;
    for i in 0..count {
        let index = i as usize;
        let mask = masks[(cycle + i - from) as usize];
        left = check_cycle(
            placed,
            w,
            cycle + i,
            block.released[index],
            block.ends[index],
            &block.costs,
            left,
            mask,
        )?;
    }
    Ok(left)
}

/// Checks a cycle in which the slots in `held` have an instance that was released before it and is not planned, those
/// in `released` release one, those in `ends` have one whose last cycle it is, and those in `mask` are flagged: the
/// slots that have an instance behind it which is not planned.
fn check_cycle(
    placed: &[Placed],
    w: u32,
    cycle: u64,
    released: Mask,
    ends: Mask,
    costs: &Costs,
    held: Mask,
    mask: Mask,
) -> Result<Mask, Breach>
    requires well_placed { IsWellPlaced placed.now }
    requires ends { (slot : ℕ) → slot < most_slots → has_bit ends slot ≡ is_last_in placed.now cycle slot }
    ensures good { IfOk result (λ _. IsGoodIn costs.now w released ends held mask) }
    ensures held { IfOk result (λ left. (slot : ℕ) → slot < most_slots
        → has_bit left slot ≡ (waits_in released held slot && not (has_bit mask slot))) }
    ensures breach { IfErr result (λ breach.
        IsBreachIn placed.now costs.now w cycle released ends held mask breach) }
{
    let waiting = union(held, released);
    if let Some(slot) = least(difference(mask, waiting)) {
        return Err(Breach::NotReleased { cycle, slot });
    }
    let sum = width(costs, mask);
    if sum > w {
        return Err(Breach::TooWide { cycle, sum });
    }
    let left = difference(waiting, mask);
    match least(common(left, ends)) {
        Some(slot) => Err(missed(placed, cycle, slot)),
        None => Ok(left),
    }
}

/// The breach of an instance that is not planned by its last cycle.
fn missed(placed: &[Placed], cycle: u64, slot: u8) -> Breach
    requires well_placed { IsWellPlaced placed.now }
    requires last { is_last_in placed.now cycle slot ≡ true }
    ensures breach { IfSome (instance_in placed.now slot cycle)
        (λ i. result ≡ Breach.Missed slot (release_of i.placed i.number) cycle) }
{
    let place = place_at(placed, cycle, slot, 0);
    match release_at(placed, cycle, place) {
        Some(release) => Breach::Missed {
            slot,
            release,
            cycle,
        },
        None => unreachable!(),
    }
}
