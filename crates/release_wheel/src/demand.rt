//! Whether what is released in each of many cycles fits a window. Then each instance is planned in the cycle of its
//! release.

ghost use Rattle.std.specs.Prelude.{◌≡◌, ℕ, ◌+◌, ◌<◌, ◌≤◌, All, get_or, true};
ghost use Rattle.profile.specs.Limits.{cycles_end};
ghost use Rattle.planner_policies.specs.Plan.{IsValid, planning_of};
ghost use Rattle.requirement_table.specs.Instance.{Exists};
ghost use Rattle.requirement_table.specs.Table.{IsInRange};
ghost use Rattle.release_wheel.specs.Demand.{cost_in, demand_in};
ghost use Rattle.release_wheel.specs.Near.{IsStanding};
ghost use Rattle.release_wheel.specs.Passed.{LeavesSame};

use crate::filling::next_release;
use crate::near::{Near, forget};
use crate::wheel::{Wheel, set_plain};
use planner_policies::Ranked;
use requirement_table::{Placed, cost};

/// The cycles that are looked at together.
const BLOCK: usize = 256;

/// Whether what is released in a cycle fits a window of `w` bit times, in each cycle from `from` on and before `until`.
pub fn fits_each(placed: &[Placed], w: u32, from: u64, until: u64) -> bool
    requires in_range { All IsInRange placed.now }
    requires until { until ≤ cycles_end }
    ensures fits { result ≡ true → (c : ℕ) → from ≤ c → c < until → demand_in placed.now c ≤ w }
{
    let mut start = from;
    while start < until {
        if !fits_block(placed, w, start, until.min(start + BLOCK as u64)) {
            return false;
        }
        start += BLOCK as u64;
    }
    true
}

/// Does what `fits_each` does, for at most 256 cycles.
fn fits_block(placed: &[Placed], w: u32, from: u64, until: u64) -> bool
    requires in_range { All IsInRange placed.now }
    requires from { from ≤ cycles_end }
    requires few { until ≤ from + 256 }
    ensures fits { result ≡ true → (c : ℕ) → from ≤ c → c < until → demand_in placed.now c ≤ w }
{
    let mut demand = [0u32; BLOCK];
    for p in placed {
        if !add_releases(&mut demand, p, w, from, until) {
            return false;
        }
    }
    true
}

/// Adds what an entry releases from the cycle `from` on and before `until` to what is released in these cycles: place k
/// has that of the cycle `from + k`. The answer is whether it still fits a window of `w` bit times.
fn add_releases(demand: &mut [u32; BLOCK], p: &Placed, w: u32, from: u64, until: u64) -> bool
    requires in_range { IsInRange p.now }
    requires from { from ≤ cycles_end }
    requires few { until ≤ from + 256 }
    requires within { (k : ℕ) → k < 256 → get_or demand.old k 0 ≤ w }
    ensures within { result ≡ true → (k : ℕ) → k < 256 → get_or demand.new k 0 ≤ w }
    ensures more { result ≡ true → (k : ℕ) → k < 256 → from + k < until
        → get_or demand.old k 0 + cost_in p.now (from + k) ≤ get_or demand.new k 0 }
{
    let cost = cost(p.entry.length);
    let period = u64::from(p.entry.period);
    let end = end_before(p, until);
    let mut cycle = next_release(p, from);
    while cycle < end {
        let place = (cycle - from) as usize;
        let taken = demand[place];
        if cost > w - taken {
            return false;
        }
        demand[place] = taken + cost;
        cycle += period;
    }
    true
}

/// The end of an entry, where that comes before `until`, and `until` otherwise.
fn end_before(p: &Placed, until: u64) -> u64
    ensures within { result ≤ until }
    ensures end { (c : ℕ) → c < until → Exists p.now c → c < result }
{
    match p.end {
        Some(end) => end.min(until),
        None => until,
    }
}

/// Passes the cycles before `until`, in each of which what is released fits a window of `w` bit times, where nothing is
/// pending.
pub fn pass_fitting(near: &mut Option<Near>, wheel: &mut Wheel, ranked: &Ranked, w: u32, until: u64)
    requires until { until ≤ cycles_end }
    requires empty { wheel.old.dues.waiting.slots ≡ 0 }
    requires fits { (c : ℕ) → wheel.old.cycle ≤ c → c < until → demand_in ranked.now.placed c ≤ w }
    ensures standing { IsStanding ranked.now near.new wheel.new }
    ensures cycle { wheel.new.cycle ≡ until }
    ensures slots { wheel.new.dues.waiting.slots ≡ wheel.old.dues.waiting.slots }
    ensures valid { (c : ℕ) → IsValid ranked.now.placed c wheel.old.dues.waiting.slots }
    ensures passed { (c : ℕ) → wheel.old.cycle ≤ c → c < until
        → LeavesSame (planning_of ranked.now w c wheel.old.dues.waiting.slots) }
{
    ranked.placed();
    forget(near);
    set_plain(wheel, until);
}
