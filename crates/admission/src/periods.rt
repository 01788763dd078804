//! From which cycle on, and after how many cycles, placed entries do the same again.

ghost use Rattle.std.specs.Prelude.{◌≡◌, ◌^◌, ◌<◌, ◌≤◌};
ghost use Rattle.requirement_table.specs.Table.{IsInRange, IsWellPlaced};
ghost use Rattle.planner_policies.specs.Loop.{settled_at};
ghost use Rattle.admission.specs.Period.{IsLeastMultiple, IsLeastMultipleWith, IsPeriodUpTo};
ghost use Rattle.admission.specs.Recurrence.{bound_of};

use requirement_table::Placed;

/// The cycle by which a placed entry has settled: a live one with its first release, and one with an end when its slot
/// is free again.
fn settled(placed: &Placed) -> u64
    requires { IsInRange placed.now }
    ensures cycle { result ≡ settled_at placed.now }
    ensures below { result < 2 ^ 43 }
{
    let deadline = u64::from(placed.entry.deadline);
    let phase = u64::from(placed.entry.phase);
    match placed.end {
        Some(end) => end + deadline - 1,
        None => placed.origin + phase,
    }
}

/// The first cycle from `from` on by which all of them have settled.
pub fn bound(placed: &[Placed], from: u64) -> u64
    requires { IsWellPlaced placed.now }
    ensures cycle { result ≡ bound_of from placed.now }
{
    let mut bound = from;
    for p in placed {
        bound = bound.max(settled(p));
    }
    bound
}

/// The least common multiple of the periods of the live entries, 1 where there is none; `None` where it is above
/// `limit`.
pub fn period(placed: &[Placed], limit: u64) -> Option<u64>
    requires well_placed { IsWellPlaced placed.now }
    requires limit { 1 ≤ limit }
    ensures period { IsPeriodUpTo limit placed.now result }
{
    let mut common = 1;
    for p in placed {
        common = with_period(common, p, limit)?;
    }
    Some(common)
}

/// The least multiple of `common` that the period of the entry divides too, where it is live; `None` where it is above
/// `limit`.
fn with_period(common: u64, placed: &Placed, limit: u64) -> Option<u64>
    requires in_range { IsInRange placed.now }
    requires positive { 0 < common }
    requires limit { common ≤ limit }
    ensures least { IsLeastMultipleWith common placed.now limit result }
{
    match placed.end {
        Some(_) => Some(common),
        None => common_multiple(common, u64::from(placed.entry.period), limit),
    }
}

/// The least number above 0 that both divide; `None` where it is above `limit`.
fn common_multiple(one: u64, other: u64, limit: u64) -> Option<u64>
    requires one { 0 < one }
    requires other { 0 < other }
    ensures least { IsLeastMultiple one other limit result }
{
    if one < other {
        multiple_of_both(other, one, limit)
    } else {
        multiple_of_both(one, other, limit)
    }
}

/// The least number above 0 that both divide, where it is at most `limit`: it tries the multiples of `step`, the
/// greater one, and most often the first one is it.
fn multiple_of_both(step: u64, other: u64, limit: u64) -> Option<u64>
    requires step { 0 < step }
    requires other { 0 < other }
    ensures least { IsLeastMultiple step other limit result }
{
    if step <= limit && step % other == 0 {
        return Some(step);
    }
    for count in 0..limit / step {
        let multiple = (count + 1) * step;
        if multiple % other == 0 {
            return Some(multiple);
        }
    }
    None
}
