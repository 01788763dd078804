//! The rows of a wheel are filled in, at a state that its planning goes to.

ghost use Rattle.std.specs.Prelude.{◌≡◌, ℕ, ◌+◌, ◌<◌, ◌≤◌, true, not, ◌&&◌, is_none, length, nat_eq};
ghost use Rattle.profile.specs.Limits.{cycles_end};
ghost use Rattle.planner_policies.specs.Due.{is_held_in};
ghost use Rattle.planner_policies.specs.Plan.{IsValid};
ghost use Rattle.requirement_table.specs.Instance.{MaySend, deadline_of, exists};
ghost use Rattle.bit_sets.specs.Sets.{has_bit};
ghost use Rattle.requirement_table.specs.Table.{IsInRange};
ghost use Rattle.release_wheel.specs.Wheel.{AreFilled, HasRoom, HasRoomFor, IsNextRelease, IsRowSet, IsWheelKept};

use crate::dues::Dues;
use crate::rows::{Rows, clear, has_room, is_always, put_down};
use crate::wheel::Wheel;
use planner_policies::{PlanState, Ranked, is_held};
use requirement_table::{Mask, Placed, current_instance, exists};

/// Goes to a valid state of these entries, without memory. Where the wheel has no room for them its rows are not kept.
pub fn fill(wheel: &mut Wheel, ranked: &Ranked, state: &PlanState)
    requires cycle { state.now.cycle ≤ cycles_end }
    requires valid { IsValid ranked.now.placed state.now.cycle state.now.pending }
    ensures kept { IsWheelKept ranked.now wheel.new }
    ensures cycle { wheel.new.cycle ≡ state.now.cycle }
    ensures slots { wheel.new.dues.waiting.slots ≡ state.now.pending }
{
    wheel.policy = ranked.policy();
    wheel.turns = has_room(&wheel.rows, ranked.rows().len());
    wheel.quiet = 0;
    wheel.cycle = state.cycle;
    wheel.dues = Dues::of_slots(state.pending);
    if !wheel.turns {
        return;
    }
    wheel.dues = fill_rows(&mut wheel.rows, ranked, state);
}

/// Fills in all rows. The answer is what they have to send.
fn fill_rows(rows: &mut Rows, ranked: &Ranked, state: &PlanState) -> Dues
    requires cycle { state.now.cycle ≤ cycles_end }
    requires valid { IsValid ranked.now.placed state.now.cycle state.now.pending }
    requires room { HasRoomFor (length ranked.now.placed) rows.old }
    ensures filled { AreFilled ranked.now state.now.cycle state.now.pending rows.new result }
{
    let entries = ranked.rows();
    clear(rows, entries.len());
    let mut dues = Dues::of_slots(Mask::empty());
    for (row, placed) in entries.iter().enumerate() {
        dues = set_row(rows, dues, row, placed, state);
    }
    dues.waiting.slots = state.pending;
    dues
}

/// Fills in a row. The answer is what the rows then have to send.
fn set_row(rows: &mut Rows, dues: Dues, row: usize, placed: &Placed, state: &PlanState) -> Dues
    requires cycle { state.now.cycle ≤ cycles_end }
    requires room { HasRoom row rows.old dues }
    requires row { row < length rows.old.entries.items }
    requires in_range { IsInRange placed.now }
    ensures set { IsRowSet placed.now row state.now.cycle state.now.pending rows.old rows.new dues result }
{
    let cycle = state.cycle;
    let next = next_release(placed, cycle);
    let begun = begins(placed, next, cycle);
    let waits = waits(state.pending, placed, cycle);
    let last = last_if(placed, cycle, waits);
    let comes = comes(placed, next, begun);
    put_down(rows, row, placed, next, last, comes);
    Dues {
        waiting: dues.waiting.add(row, &placed.entry, waits),
        soonest: dues.soonest.min(last),
        always: dues.always.add(row, &placed.entry, begun),
    }
}

/// The least release of the entry at or after the cycle, as if it had no end.
pub fn next_release(placed: &Placed, cycle: u64) -> u64
    requires in_range { IsInRange placed.now }
    requires cycle { cycle ≤ cycles_end }
    ensures next { IsNextRelease placed.now cycle result }
    ensures from { cycle ≤ result }
{
    let start = placed.origin + u64::from(placed.entry.phase);
    if cycle <= start {
        return start;
    }
    let period = u64::from(placed.entry.period);
    let over = (cycle - start) % period;
    if over == 0 {
        cycle
    } else {
        cycle - over + period
    }
}

/// The last cycle of the instance of the entry that may be sent in the cycle.
fn last_cycle(placed: &Placed, cycle: u64) -> u64
    requires in_range { IsInRange placed.now }
    requires cycle { cycle ≤ cycles_end }
    ensures last { (k : ℕ) → MaySend placed.now k cycle → result + 1 ≡ deadline_of placed.now k }
{
    match current_instance(placed, cycle) {
        Some(instance) => instance.release + u64::from(placed.entry.deadline) - 1,
        None => 0,
    }
}

/// The last cycle of the instance of the entry that may be sent in the cycle, where that is wanted, and else the greatest
/// number.
fn last_if(placed: &Placed, cycle: u64, wanted: bool) -> u64
    requires in_range { IsInRange placed.now }
    requires cycle { cycle ≤ cycles_end }
    ensures last { wanted ≡ true → (k : ℕ) → MaySend placed.now k cycle → result + 1 ≡ deadline_of placed.now k }
{
    if wanted {
        last_cycle(placed, cycle)
    } else {
        u64::MAX
    }
}

/// Whether the entry has an instance in each cycle from this one on, by its next release.
fn begins(placed: &Placed, next: u64, cycle: u64) -> bool
    ensures begins { result
        ≡ ((nat_eq placed.now.entry.period 1 && is_none placed.now.end) && nat_eq next cycle) }
{
    is_always(placed) && next == cycle
}

/// Whether an instance of the entry waits before the cycle.
fn waits(slots: Mask, placed: &Placed, cycle: u64) -> bool
    requires in_range { IsInRange placed.now }
    requires cycle { cycle ≤ cycles_end }
    ensures waits { result ≡ (has_bit slots placed.now.entry.slot && is_held_in cycle placed.now) }
{
    slots.has(placed.entry.slot) && is_held(placed, cycle)
}

/// Whether a release of the entry is to be waited for on the wheel.
fn comes(placed: &Placed, next: u64, begun: bool) -> bool
    ensures comes { result ≡ (not begun && exists placed.now next) }
{
    !begun && exists(placed, next)
}
