//! What a filling takes of rows by their last cycles: those whose instances are over sooner go first.
//!
//! The rows are not sorted. The one that goes first is looked for among those that are left, and then the next one: a
//! window has most often room for a few of them.

ghost use Rattle.std.specs.Prelude.{◌≡◌, ◌≢◌, ℕ, ◌+◌, ◌-◌, ◌<◌, ◌≤◌, true, get_or, length, if◌then◌else◌};
ghost use Rattle.release_wheel.specs.Taking.{AreDue, AreOfDistinctSlots, IsFirstRow, IsSoonest, IsTaking, IsTook, goes_by, last_of};
ghost use Rattle.release_wheel.specs.Wheel.{HasRoom, IsBelow};
ghost use Rattle.bit_sets.specs.Sets.{has_bit};
ghost use Rattle.bit_sets.specs.Rows.{rows_left};

use crate::taking::{Took, stops};
use crate::wheel::Wheel;
use bit_sets::rows::{
    Rest, both, common, first, first_left, next_word, rest_of, with, without, without_first,
};
use planner_policies::Fill;
use requirement_table::{Mask, cost};

/// What the filling takes of these rows, by their last cycles, in a window of `w` bit times, and what it leaves.
pub fn pick_rows(wheel: &Wheel, fill: Fill, due: u128, w: u32) -> Took
    requires room { HasRoom (length wheel.now.rows.entries.items) wheel.now.rows wheel.now.dues }
    requires due { AreDue wheel.now due }
    requires distinct { AreOfDistinctSlots wheel.now.rows.entries.items due }
    ensures took { IsTook fill w (goes_by (last_of wheel.now)) wheel.now.rows.entries.items due result.left result.mask
        result.width }
{
    let mut rest = due;
    let mut left = 0;
    let mut mask = Mask::empty();
    let mut width = 0;
    while rest != 0 {
        let row = first_due(wheel, rest);
        let entry = wheel.rows.entries[row].entry;
        let cost = cost(entry.length);
        if cost <= w - width {
            rest = without(rest, row);
            width += cost;
            mask = mask.with(entry.slot);
        } else if stops(fill) {
            mask.known();
            return Took {
                left: both(rest, left),
                mask,
                width,
            };
        } else {
            rest = without(rest, row);
            left = with(left, row);
        }
    }
    mask.known();
    Took { left, mask, width }
}

/// The row that goes first of these, by their last cycles.
///
/// A row with an instance in each cycle is in its last one. So it goes before all that wait, but for a lesser row that is
/// in its last cycle too.
fn first_due(wheel: &Wheel, rest: u128) -> usize
    requires some { 0 < rest }
    requires room { HasRoom (length wheel.now.rows.entries.items) wheel.now.rows wheel.now.dues }
    requires due { AreDue wheel.now rest }
    ensures first { IsFirstRow (goes_by (last_of wheel.now)) (has_bit rest) result }
{
    let always = common(rest, wheel.dues.always.rows);
    if always == 0 {
        return soonest_row(wheel.rows.lasts.as_slice(), rest);
    }
    let own = first(always);
    let waiting = common(rest, wheel.dues.waiting.rows);
    if waiting == 0 {
        return own;
    }
    if wheel.cycle < wheel.dues.soonest {
        return own;
    }
    let row = soonest_row(wheel.rows.lasts.as_slice(), waiting);
    if wheel.cycle < wheel.rows.lasts[row] {
        return own;
    }
    if own < row {
        return own;
    }
    row
}

/// The row of the least last cycle of a set, and of several the first.
#[inline(always)]
pub fn soonest_row(lasts: &[u64], rows: u128) -> usize
    requires some { 0 < rows }
    requires within { IsBelow (length lasts.now) rows }
    ensures first { IsFirstRow (goes_by (λ row. get_or lasts.now row 0)) (has_bit rows) result }
{
    let row = first(rows);
    let start = Soonest {
        rest: rest_of(rows),
        row,
        last: lasts[row],
    };
    let low = look_through(lasts, rows, start);
    let middle = Soonest {
        rest: next_word(low.rest),
        row: low.row,
        last: low.last,
    };
    look_through(lasts, rows, middle).row
}

/// A row of the least last cycle among those that were looked at.
#[derive(Clone, Copy)]
struct Soonest {
    /// The rows that are still to be looked at.
    rest: Rest,
    /// The row.
    row: usize,
    /// Its last cycle.
    last: u64,
}

/// Looks through the present word.
#[inline(always)]
fn look_through(lasts: &[u64], rows: u128, soonest: Soonest) -> Soonest
    requires within { IsBelow (length lasts.now) rows }
    requires soonest { IsSoonest lasts.now rows (rows_left soonest.rest) soonest.row soonest.last }
    ensures soonest { IsSoonest lasts.now rows (rows_left result.rest) result.row result.last }
    ensures done { result.rest.word ≡ 0 }
    ensures base { result.rest.base ≡ soonest.rest.base }
    ensures behind { result.rest.behind ≡ soonest.rest.behind }
{
    let mut rest = soonest.rest;
    let mut row = soonest.row;
    let mut last = soonest.last;
    while rest.word != 0 {
        let next = first_left(rest);
        rest = without_first(rest);
        if lasts[next] < last {
            row = next;
            last = lasts[next];
        }
    }
    Soonest { rest, row, last }
}
