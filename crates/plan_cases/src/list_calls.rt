//! Calls about the whole table.

ghost use Rattle.std.specs.Prelude.{◌<◌};
ghost use Rattle.profile.specs.Limits.{cycles_end};
ghost use Rattle.requirement_table.specs.Table.{IsWellPlaced};

use crate::changes;
use crate::numbers::{self, first, number, set};
use change_protocol::{Change, PlacedTable};
use planner_policies::{Fill, PlanState, Policy, Ranked, plan_cycle, rank, valid};
use profile::CYCLES_END;
use requirement_table::{
    Placed, PlacedList, drop_over, first_over, is_over, not_over, released_in, well_placed,
};
use std::alloc::{AllocError, Global};

/// From which cycle on the first entry is over, whether it is by this cycle, and which entries are left then.
pub fn over(alloc: Global, placed: &[Placed], numbers: &str) -> Result<String, AllocError> {
    let cycle = number(numbers);
    if placed.is_empty() || !well_placed(placed) {
        return Ok(String::new(alloc));
    }
    let first = first_over(placed);
    let is = is_over(&placed[0], cycle);
    let not = kept(alloc, placed, cycle)?;
    let left = left(alloc, placed, cycle)?;
    format!(in alloc; "{first} {is} {not:?} {left:?}")
}

/// The places of the entries that are not over by a cycle.
fn kept(alloc: Global, placed: &[Placed], cycle: u64) -> Result<Vec<u64>, AllocError>
    requires { IsWellPlaced placed.now }
{
    let kept = PlacedList::of(not_over(alloc, placed, cycle)?);
    numbers::places(alloc, kept.as_slice())
}

/// The places of the entries that are left where those are dropped that are over by a cycle.
fn left(alloc: Global, placed: &[Placed], cycle: u64) -> Result<Vec<u64>, AllocError> {
    let mut left = placed.to_vec(alloc)?;
    drop_over(&mut left, cycle);
    numbers::places(alloc, left.as_slice())
}

/// The slots that release an instance in a cycle.
pub fn released(alloc: Global, placed: &[Placed], numbers: &str) -> Result<String, AllocError> {
    if !well_placed(placed) {
        return Ok(String::new(alloc));
    }
    let slots = numbers::slots(alloc, released_in(placed, number(numbers)))?;
    format!(in alloc; "{slots:?}")
}

/// The policy, the filling and the entries of a ranked table, but for those that are over by a cycle.
pub fn ranked(alloc: Global, placed: &[Placed], numbers: &str) -> Result<String, AllocError> {
    if !well_placed(placed) {
        return Ok(String::new(alloc));
    }
    let mut ranked = rank(alloc, placed, Policy::Rm, Fill::Skip)?;
    ranked.drop_over(number(numbers));
    let list = numbers::places(alloc, ranked.placed())?;
    format!(in alloc; "{:?} {:?} {list:?}", ranked.policy(), ranked.fill())
}

/// Whether these slots may be pending before a cycle: CYCLE SLOTS.
pub fn validity(alloc: Global, placed: &[Placed], numbers: &str) -> Result<String, AllocError> {
    let (cycle, slots) = first(numbers);
    if !well_placed(placed) || cycle >= CYCLES_END {
        return Ok(String::new(alloc));
    }
    let state = PlanState {
        cycle,
        pending: set(slots),
    };
    let is = valid(&rank(alloc, placed, Policy::Rm, Fill::Prefix)?, &state);
    format!(in alloc; "{is}")
}

/// The slots that are planned in a cycle before which these slots are pending, and the next cycle with those that are
/// left, or the instance that is missed: WINDOW CYCLE SLOTS.
pub fn planned(alloc: Global, placed: &[Placed], numbers: &str) -> Result<String, AllocError> {
    let (window, rest) = first(numbers);
    let (cycle, slots) = first(rest);
    if !well_placed(placed) || cycle >= CYCLES_END {
        return Ok(String::new(alloc));
    }
    let state = PlanState {
        cycle,
        pending: set(slots),
    };
    let ranked = rank(alloc, placed, Policy::Rm, Fill::Prefix)?;
    planned_by(alloc, &ranked, (window % 0x1_0000_0000) as u32, &state)
}

/// What is planned of a ranked table within a window, where a state is one of its plan.
fn planned_by(
    alloc: Global,
    ranked: &Ranked,
    window: u32,
    state: &PlanState,
) -> Result<String, AllocError>
    requires cycle { state.now.cycle < cycles_end }
{
    if !valid(ranked, state) {
        return Ok(String::new(alloc));
    }
    match plan_cycle(ranked, window, state) {
        Ok((mask, next)) => {
            let planned = numbers::slots(alloc, mask)?;
            let left = numbers::slots(alloc, next.pending)?;
            format!(in alloc; "{planned:?} {} {left:?}", next.cycle)
        }
        Err(miss) => format!(in alloc; "{miss:?}"),
    }
}

/// What a table of the entries has after the change with a number that is felt from a cycle on, or why it is refused:
/// NUMBER START.
pub fn changed(alloc: Global, placed: &[Placed], numbers: &str) -> Result<String, AllocError> {
    let (which, rest) = first(numbers);
    if !well_placed(placed) {
        return Ok(String::new(alloc));
    }
    let change = changes::change(alloc, which, number(rest))?;
    let mut table = PlacedTable::of(placed.to_vec(alloc)?);
    after(alloc, &mut table, &change)
}

/// The slots and the origins of the entries of a table after a change of it, or why it is refused.
fn after(alloc: Global, table: &mut PlacedTable, change: &Change) -> Result<String, AllocError> {
    match table.apply(alloc, 3, 40, change) {
        Ok(()) => {
            let list = numbers::places(alloc, table.placed())?;
            format!(in alloc; "{list:?}")
        }
        Err(fault) => format!(in alloc; "{fault}"),
    }
}
