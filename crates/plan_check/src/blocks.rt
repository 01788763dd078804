//! What the slots do in a block: some cycles one after the other.

ghost use Rattle.std.specs.Prelude.{◌≡◌, ℕ, ◌+◌, ◌*◌, ◌^◌, ◌<◌, ◌≤◌, ◌&&◌, true, false, nat_lt, All, IfSome, is_some, slice_get};
ghost use Rattle.profile.specs.Limits.{cycles_end};
ghost use Rattle.requirement_table.specs.Instance.{released_by};
ghost use Rattle.bit_sets.specs.Sets.{most_slots};
ghost use Rattle.requirement_table.specs.Table.{IsInRange, IsWellPlaced, is_over};
ghost use Rattle.plan_check.specs.Blocks.{AreMarked, IsClearFor, IsFilled, IsFilledFor, IsLastBlock, IsSameButSlot, ends_by, meets};
ghost use Rattle.plan_check.specs.Places.{AreCurrent, AreSlotsBelow, IsCurrent};
ghost use Rattle.plan_check.specs.PlanKept.{goes_round};

use crate::places::{Places, goes_round};
use crate::widths::Costs;
use bit_sets::union;
use requirement_table::{Mask, Placed, cost};

/// The most cycles of a block.
pub const BLOCK_CYCLES: u64 = 256;

/// For each cycle of a block a set of slots.
pub type Sets = [Mask; BLOCK_CYCLES as usize];

/// What the slots do in the cycles of a block.
#[derive(Clone, Copy, Debug)]
pub struct Block {
    /// The slots that release an instance in the cycle.
    pub released: Sets,
    /// The slots with an instance whose last cycle it is.
    pub ends: Sets,
    /// What the frames of the slots cost.
    pub costs: Costs,
}

impl Block {
    /// A block in which nothing is done.
    pub fn empty() -> Block {
        Block {
            released: [Mask::empty(); BLOCK_CYCLES as usize],
            ends: [Mask::empty(); BLOCK_CYCLES as usize],
            costs: Costs::none(),
        }
    }
}

/// The block of the last cycles that were looked at.
#[derive(Clone, Copy, Debug)]
pub struct LastBlock {
    /// What the slots did in them.
    pub block: Block,
    /// The number of the cycles.
    pub cycles: u64,
    /// Whether the slots do so again in as many cycles right after them, for ever.
    pub repeats: bool,
}

impl LastBlock {
    /// No block, before the first one.
    pub fn none() -> LastBlock
        ensures none { result.repeats ≡ false }
    {
        LastBlock {
            block: Block::empty(),
            cycles: 0,
            repeats: false,
        }
    }
}

/// The most cycles that a block is given: a multiple of the periods of all live entries where that is small enough, so
/// that the next block can be the same.
pub fn cycles_of_blocks(placed: &[Placed]) -> u64
    requires well_placed { IsWellPlaced placed.now }
    ensures some { 1 ≤ result }
    ensures few { result ≤ 256 }
{
    let mut common = 1;
    for p in placed {
        if p.end.is_none() {
            common = multiple(common, u64::from(p.entry.period));
        }
    }
    BLOCK_CYCLES / common * common
}

/// The least multiple of two numbers of cycles that a block may have; the first one where there is none.
fn multiple(common: u64, period: u64) -> u64
    requires some { 1 ≤ common }
    requires few { common ≤ 256 }
    requires period { 1 ≤ period }
    ensures some { 1 ≤ result }
    ensures few { result ≤ 256 }
{
    for times in 1..BLOCK_CYCLES / common + 1 {
        if common * times % period == 0 {
            return common * times;
        }
    }
    common
}

/// Brings the last block to so many cycles from `cycle` on. Where the slots do the same again it stays as it is.
pub fn renew(
    placed: &[Placed],
    cycle: u64,
    count: u64,
    slots: u8,
    places: &Places,
    last: &mut LastBlock,
)
    requires well_placed { IsWellPlaced placed.now }
    requires cycle { cycle < cycles_end }
    requires some { 1 ≤ count }
    requires few { count ≤ 256 }
    requires known { slots ≤ most_slots }
    requires below { AreSlotsBelow slots placed.now }
    requires current { (i : ℕ) → i < count → AreCurrent placed.now (cycle + i) slots places.now }
    requires last { IsLastBlock placed.now cycle last.old }
    ensures filled { IsFilled placed.now cycle count last.new.block }
    ensures last { IsLastBlock placed.now (cycle + count) last.new }
{
    if last.repeats && count <= last.cycles {
        last.repeats = count == last.cycles;
    } else {
        fill(placed, cycle, count, slots, places, &mut last.block);
        last.cycles = count;
        last.repeats = all_go_round(placed, cycle, count, slots, places);
    }
}

/// Whether all entries go round with the cycles from `first` on, `length` at a time. By the places of the current entries
/// of the slots below `slots`: those before them are over, and behind one that goes round there is none.
fn all_go_round(placed: &[Placed], first: u64, length: u64, slots: u8, places: &Places) -> bool
    requires well_placed { IsWellPlaced placed.now }
    requires known { slots ≤ most_slots }
    requires below { AreSlotsBelow slots placed.now }
    requires current { AreCurrent placed.now first slots places.now }
    ensures round { result ≡ true → All (λ p. goes_round first length p ≡ true) placed.now }
{
    for slot in 0..slots {
        if !place_goes_round(placed, first, length, places[usize::from(slot)]) {
            return false;
        }
    }
    true
}

/// Whether the entry at a place, where there is one, goes round with the cycles from `first` on, `length` at a time.
fn place_goes_round(placed: &[Placed], first: u64, length: u64, place: usize) -> bool
    requires well_placed { IsWellPlaced placed.now }
    ensures round { result ≡ true
        → IfSome (slice_get placed.now place) (λ p. goes_round first length p ≡ true) }
{
    match placed.get(place) {
        Some(p) => goes_round(p, first, length),
        None => true,
    }
}

/// For how many cycles from `cycle` on, at most `most`, the current entries of the slots below `slots` stay the current
/// ones: they are not over before.
pub fn block_of(placed: &[Placed], cycle: u64, slots: u8, places: &Places, most: u64) -> u64
    requires well_placed { IsWellPlaced placed.now }
    requires cycle { cycle < cycles_end }
    requires known { slots ≤ most_slots }
    requires current { AreCurrent placed.now cycle slots places.now }
    requires some { 1 ≤ most }
    ensures some { 1 ≤ result }
    ensures most { result ≤ most }
    ensures few { result ≤ 256 }
    ensures current { (i : ℕ) → i < result → AreCurrent placed.now (cycle + i) slots places.now }
{
    let mut count = most.min(BLOCK_CYCLES);
    for slot in 0..slots {
        count = count.min(stays(placed, cycle, places[usize::from(slot)]));
    }
    count
}

/// For how many cycles from `cycle` on the entry at a place, where there is one, is not over. More than a block has are
/// not counted where it has no end.
fn stays(placed: &[Placed], cycle: u64, place: usize) -> u64
    requires well_placed { IsWellPlaced placed.now }
    requires not_over { IfSome (slice_get placed.now place) (λ p. is_over cycle p ≡ false) }
    ensures some { 1 ≤ result }
    ensures stays { IfSome (slice_get placed.now place)
        (λ p. (i : ℕ) → i < result → i < 256 → is_over (cycle + i) p ≡ false) }
{
    match placed.get(place) {
        Some(p) => entry_stays(p, cycle),
        None => BLOCK_CYCLES,
    }
}

/// For how many cycles from `cycle` on an entry is not over. More than a block has are not counted where it has no end.
fn entry_stays(p: &Placed, cycle: u64) -> u64
    requires in_range { IsInRange p.now }
    requires not_over { is_over cycle p.now ≡ false }
    ensures some { 1 ≤ result }
    ensures stays { (i : ℕ) → i < result → i < 256 → is_over (cycle + i) p.now ≡ false }
{
    match p.end {
        Some(end) => end + u64::from(p.entry.deadline) - 1 - cycle,
        None => BLOCK_CYCLES,
    }
}

/// Fills a block with what the slots below `slots` do in so many cycles from `from` on, by the places of their current
/// entries.
fn fill(placed: &[Placed], from: u64, count: u64, slots: u8, places: &Places, block: &mut Block)
    requires well_placed { IsWellPlaced placed.now }
    requires from { from < cycles_end }
    requires few { count ≤ 256 }
    requires known { slots ≤ most_slots }
    requires below { AreSlotsBelow slots placed.now }
    requires current { (i : ℕ) → i < count → AreCurrent placed.now (from + i) slots places.now }
    ensures filled { IsFilled placed.now from count block.new }
{
    clear(count, block);
    for slot in 0..slots {
        fill_slot(placed, from, count, slot, places[usize::from(slot)], block);
    }
}

/// Empties so many sets of a block.
fn clear(count: u64, block: &mut Block)
    requires few { count ≤ 256 }
    ensures clear { (slot : ℕ) → IsClearFor count slot block.new }
{
    for i in 0..count {
        let index = i as usize;
        block.released[index] = Mask::empty();
        block.ends[index] = Mask::empty();
    }
}

/// Fills a block with what a slot does, by the place of its current entry.
fn fill_slot(placed: &[Placed], from: u64, count: u64, slot: u8, place: usize, block: &mut Block)
    requires well_placed { IsWellPlaced placed.now }
    requires from { from < cycles_end }
    requires few { count ≤ 256 }
    requires known { slot < most_slots }
    requires current { (i : ℕ) → i < count → IsCurrent placed.now (from + i) slot place }
    requires clear { IsClearFor count slot block.old }
    ensures filled { IsFilledFor placed.now from count slot block.new }
    ensures others { IsSameButSlot count slot block.old block.new }
{
    if let Some(p) = placed.get(place) {
        let one = Mask::empty().with(slot);
        mark_releases(p, from, count, one, &mut block.released);
        mark_ends(p, from, count, one, &mut block.ends);
        block.costs.set(usize::from(slot), cost(p.entry.length));
    }
}

/// Adds a slot to the sets of the cycles in which its entry releases an instance.
fn mark_releases(p: &Placed, from: u64, count: u64, one: Mask, sets: &mut Sets)
    requires in_range { IsInRange p.now }
    requires from { from < cycles_end }
    requires few { count ≤ 256 }
    ensures marked { AreMarked count (λ i. is_some (released_by p.now (from + i))) one sets.old sets.new }
{
    let period = u64::from(p.entry.period);
    let first = p.origin + u64::from(p.entry.phase);
    let until = p.end.unwrap_or(from + count);
    mark(
        sets,
        one,
        offset(first, period, from),
        period,
        count.min(until.saturating_sub(from)),
    );
}

/// Adds a slot to the sets of the cycles in which an instance of its entry has its last one. The entry is not over.
fn mark_ends(p: &Placed, from: u64, count: u64, one: Mask, sets: &mut Sets)
    requires in_range { IsInRange p.now }
    requires from { from < cycles_end }
    requires few { count ≤ 256 }
    requires not_over { (i : ℕ) → i < count → is_over (from + i) p.now ≡ false }
    ensures marked { AreMarked count (λ i. ends_by p.now (from + i)) one sets.old sets.new }
{
    let period = u64::from(p.entry.period);
    let first = p.origin + u64::from(p.entry.phase) + u64::from(p.entry.deadline) - 1;
    mark(sets, one, offset(first, period, from), period, count);
}

/// How many cycles after `from` the first one is that is `first`, or some whole steps after it.
fn offset(first: u64, step: u64, from: u64) -> u64
    requires some { 1 ≤ step }
    ensures meets { (i : ℕ) → meets result step i ≡ meets first step (from + i) }
{
    if from <= first {
        first - from
    } else {
        let after = (from - first) % step;
        if after == 0 { 0 } else { step - after }
    }
}

/// Adds slots to the sets of the cycles below `end` that are `first`, or some whole steps after it.
fn mark(sets: &mut Sets, one: Mask, first: u64, step: u64, end: u64)
    requires some { 1 ≤ step }
    requires short { step < 2 ^ 16 }
    requires within { end ≤ 256 }
    ensures marked { AreMarked 256 (λ i. nat_lt i end && meets first step i) one sets.old sets.new }
{
    let mut at = first;
    while at < end {
        let index = at as usize;
        sets[index] = union(sets[index], one);
        at += step;
    }
}
