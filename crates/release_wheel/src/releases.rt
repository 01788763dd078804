//! The releases of a cycle.

ghost use Rattle.std.specs.Prelude.{◌≡◌, ℕ, ◌<◌, Bool, true, not, ◌&&◌, length, nat_eq};
ghost use Rattle.profile.specs.Limits.{cycles_end};
ghost use Rattle.bit_sets.specs.Sets.{has_bit};
ghost use Rattle.requirement_table.specs.Table.{IsInRange};
ghost use Rattle.release_wheel.specs.Wheel.{HasRoom, IsReleased, IsReleasing, IsRowBegun, IsRowReleased, IsSameTable, IsTurned};
ghost use Rattle.bit_sets.specs.Rows.{rows_left};

use crate::dues::Dues;
use crate::rows::{Rows, move_on, place_of, take_off};
use crate::wheel::Wheel;
use bit_sets::rows::{Rest, first_left, next_word, rest_of, without_first};
use requirement_table::{Mask, Placed};

/// Makes the releases of the cycle.
pub fn release(wheel: &mut Wheel)
    requires turned { IsTurned wheel.old }
    requires cycle { wheel.old.cycle < cycles_end }
    ensures released { IsReleased (has_bit wheel.old.dues.waiting.slots) wheel.new }
    ensures table { IsSameTable wheel.old wheel.new }
    ensures cycle { wheel.new.cycle ≡ wheel.old.cycle }
{
    let cycle = wheel.cycle;
    let pending = wheel.dues.waiting.slots;
    let rest = rest_of(wheel.rows.places[place_of(cycle)]);
    let low = release_word(&mut wheel.rows, &mut wheel.dues, cycle, pending, rest);
    release_word(
        &mut wheel.rows,
        &mut wheel.dues,
        cycle,
        pending,
        next_word(low),
    );
}

/// Makes the releases of the rows of the present word, before which these slots were pending.
#[inline(always)]
fn release_word(rows: &mut Rows, dues: &mut Dues, cycle: u64, pending: Mask, rest: Rest) -> Rest
    requires cycle { cycle < cycles_end }
    requires going { IsReleasing (has_bit pending) cycle (rows_left rest) rows.old dues.old }
    ensures going { IsReleasing (has_bit pending) cycle (rows_left result) rows.new dues.new }
    ensures entries { rows.new.entries.items ≡ rows.old.entries.items }
    ensures base { result.base ≡ rest.base }
    ensures behind { result.behind ≡ rest.behind }
    ensures done { result.word ≡ 0 }
{
    let mut left = rest;
    while left.word != 0 {
        let row = first_left(left);
        left = without_first(left);
        look_at(rows, dues, row, cycle);
    }
    left
}

/// Makes the release of a row at the place of the cycle, where the row has one.
#[inline(always)]
fn look_at(rows: &mut Rows, dues: &mut Dues, row: usize, cycle: u64)
    requires cycle { cycle < cycles_end }
    requires room { HasRoom (length rows.old.entries.items) rows.old dues.old }
    requires row { row < length rows.old.entries.items }
    ensures next { (before : ℕ → Bool) (rest less : ℕ) → IsReleasing before cycle rest rows.old dues.old
        → has_bit rest row ≡ true → ((i : ℕ) → has_bit less i ≡ (not (nat_eq row i) && has_bit rest i))
        → IsReleasing before cycle less rows.new dues.new }
    ensures entries { rows.new.entries.items ≡ rows.old.entries.items }
{
    if rows.nexts[row] != cycle {
        return;
    }
    let placed = rows.entries[row];
    if placed.end.is_some() {
        return release_row(rows, dues, &placed, row, cycle);
    }
    if placed.entry.period == 1 {
        return begin_row(rows, dues, &placed, row, cycle);
    }
    release_row(rows, dues, &placed, row, cycle);
}

/// Makes the first release of a row that has an instance in each cycle from then on.
#[inline(always)]
fn begin_row(rows: &mut Rows, dues: &mut Dues, placed: &Placed, row: usize, cycle: u64)
    requires room { HasRoom (length rows.old.entries.items) rows.old dues.old }
    requires row { row < length rows.old.entries.items }
    requires in_range { IsInRange placed.now }
    ensures begun { IsRowBegun placed.now row cycle rows.old rows.new dues.old dues.new }
{
    take_off(&mut rows.places, place_of(cycle), row);
    dues.always = dues.always.add(row, &placed.entry, true);
}

/// Makes the release of a row: its instance waits, and the row stands where its next release comes.
#[inline(always)]
fn release_row(rows: &mut Rows, dues: &mut Dues, placed: &Placed, row: usize, cycle: u64)
    requires cycle { cycle < cycles_end }
    requires room { HasRoom (length rows.old.entries.items) rows.old dues.old }
    requires row { row < length rows.old.entries.items }
    requires in_range { IsInRange placed.now }
    ensures released { IsRowReleased placed.now row cycle rows.old rows.new dues.old dues.new }
{
    let last = cycle + u64::from(placed.entry.deadline) - 1;
    move_on(rows, row, placed, cycle, last);
    dues.waiting.take_in(row, &placed.entry);
    dues.soonest = dues.soonest.min(last);
}
