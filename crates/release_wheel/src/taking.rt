//! What a filling takes of rows in a window, and what it leaves.

ghost use Rattle.std.specs.Prelude.{◌≡◌, ℕ, ◌-◌, ◌<◌, ◌≤◌, true, false, List, [], get_or, length, nat_le};
ghost use Rattle.planner_policies.specs.declared.Fill.TheVariants.{Prefix, Skip};
ghost use Rattle.planner_policies.specs.declared.due.Due.{Due};
ghost use Rattle.planner_policies.specs.Due.{taken_of};
ghost use Rattle.requirement_table.specs.Table.{IsInRange};
ghost use Rattle.release_wheel.specs.Taking.{AreOfDistinctSlots, AreOfRows, IsLineOfRows, IsTaking, IsTook};
ghost use Rattle.release_wheel.specs.Wheel.{IsBelow, no_entry};
ghost use Rattle.bit_sets.specs.Sets.{has_bit};
ghost use Rattle.bit_sets.specs.Rows.{rows_left};

use bit_sets::of_words;
use bit_sets::rows::{Rest, both, first_left, next_word, rest_of, with, without_first};
use planner_policies::Fill;
use requirement_table::{Mask, Placed, cost};

/// What a filling takes of rows.
#[derive(Drop)]
pub struct Took {
    /// The rows that are left.
    pub left: u128,
    /// The slots of those that are taken.
    pub mask: Mask,
    /// What these cost together, in bit times.
    pub width: u32,
}

/// What the filling takes of these rows, in their order, in a window of `w` bit times, and what it leaves.
pub fn take_rows(entries: &[Placed], fill: Fill, due: u128, w: u32) -> Took
    requires in_range { (row : ℕ) → row < length entries.now → IsInRange (get_or entries.now row no_entry) }
    requires few { length entries.now ≤ 128 }
    requires within { IsBelow (length entries.now) due }
    requires distinct { AreOfDistinctSlots entries.now due }
    ensures took { IsTook fill w nat_le entries.now due result.left result.mask result.width }
{
    let start = Taking {
        rest: rest_of(due),
        left: 0,
        mask: Mask::empty(),
        width: 0,
    };
    let low = take_word(entries, fill, due, start, w);
    if low.rest.word != 0 {
        low.mask.known();
        return Took {
            left: both(of_words(low.rest.word, low.rest.behind), low.left),
            mask: low.mask,
            width: low.width,
        };
    }
    let middle = Taking {
        rest: next_word(low.rest),
        left: low.left,
        mask: low.mask,
        width: low.width,
    };
    let high = take_word(entries, fill, due, middle, w);
    high.mask.known();
    Took {
        left: both(of_words(0, high.rest.word), high.left),
        mask: high.mask,
        width: high.width,
    }
}

/// A filling that goes on.
#[derive(Clone, Copy)]
struct Taking {
    /// The rows that are still to be looked at.
    rest: Rest,
    /// The rows that are passed over.
    left: u128,
    /// The slots of the rows that are taken.
    mask: Mask,
    /// What these cost together, in bit times.
    width: u32,
}

/// Goes on with the filling of these rows in a window of `w` bit times, to the end of the present word or to the first
/// row with which it stops.
#[inline(always)]
fn take_word(entries: &[Placed], fill: Fill, due: u128, taking: Taking, w: u32) -> Taking
    requires in_range { (row : ℕ) → row < length entries.now → IsInRange (get_or entries.now row no_entry) }
    requires few { length entries.now ≤ 128 }
    requires within { IsBelow (length entries.now) due }
    requires distinct { AreOfDistinctSlots entries.now due }
    requires taking { IsTaking fill w nat_le entries.now due (rows_left taking.rest) taking.left taking.mask taking.width }
    ensures taking { IsTaking fill w nat_le entries.now due (rows_left result.rest) result.left result.mask result.width }
    ensures stops { 0 < result.rest.word → (dues : ℕ → Due) (line : List Due) → AreOfRows entries.now nat_le dues
        → IsLineOfRows dues (has_bit (rows_left result.rest)) line → taken_of fill (w - result.width) line ≡ [] }
    ensures base { result.rest.base ≡ taking.rest.base }
    ensures behind { result.rest.behind ≡ taking.rest.behind }
{
    let mut rest = taking.rest;
    let mut left = taking.left;
    let mut mask = taking.mask;
    let mut width = taking.width;
    while rest.word != 0 {
        let row = first_left(rest);
        let entry = entries[row].entry;
        let cost = cost(entry.length);
        if cost <= w - width {
            rest = without_first(rest);
            width += cost;
            mask = mask.with(entry.slot);
        } else if stops(fill) {
            return Taking {
                rest,
                left,
                mask,
                width,
            };
        } else {
            rest = without_first(rest);
            left = with(left, row);
        }
    }
    Taking {
        rest,
        left,
        mask,
        width,
    }
}

/// Whether the filling stops with the first row that does not fit.
#[inline(always)]
pub fn stops(fill: Fill) -> bool
    ensures prefix { result ≡ true → fill ≡ Prefix }
    ensures skip { result ≡ false → fill ≡ Skip }
{
    match fill {
        Fill::Prefix => true,
        Fill::Skip => false,
    }
}
