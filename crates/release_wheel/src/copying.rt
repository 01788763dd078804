//! Wheels in the state of another one.

ghost use Rattle.std.specs.Prelude.{◌≡◌, ◌≤◌, IfOk};
ghost use Rattle.profile.specs.Limits.{cycles_end};
ghost use Rattle.planner_policies.specs.Plan.{IsValid, Ranking};
ghost use Rattle.release_wheel.specs.Wheel.{IsWheelKept};

use crate::dues::Dues;
use crate::rows::{Rows, no_rows};
use crate::wheel::Wheel;
use std::alloc::{AllocError, Global};

/// The same wheel, in memory of its own. It stands over all entries over which the first one stands.
pub fn copy_of(alloc: Global, wheel: &Wheel) -> Result<Wheel, AllocError>
    ensures kept { (ranking : Ranking) → IsWheelKept ranking wheel.now → IfOk result (IsWheelKept ranking) }
    ensures cycle { IfOk result (λ copy. copy.cycle ≡ wheel.now.cycle) }
    ensures slots { IfOk result (λ copy. copy.dues.waiting.slots ≡ wheel.now.dues.waiting.slots) }
{
    let rows = &wheel.rows;
    let entries = Vec::from_slice(alloc, rows.entries.as_slice())?;
    let nexts = Vec::from_slice(alloc, rows.nexts.as_slice())?;
    let lasts = Vec::from_slice(alloc, rows.lasts.as_slice())?;
    let places = Vec::from_slice(alloc, rows.places.as_slice())?;
    Ok(Wheel {
        policy: wheel.policy,
        turns: wheel.turns,
        quiet: wheel.quiet,
        cycle: wheel.cycle,
        rows: Rows {
            entries,
            nexts,
            lasts,
            places,
        },
        dues: wheel.dues,
    })
}

/// A wheel in the same state that has no rows, without memory: each cycle is planned plainly.
pub fn without_rows(alloc: Global, wheel: &Wheel) -> Wheel
    requires near { wheel.now.cycle ≤ cycles_end }
    ensures kept { (ranking : Ranking) → IsValid ranking.placed wheel.now.cycle wheel.now.dues.waiting.slots
        → IsWheelKept ranking result }
    ensures cycle { result.cycle ≡ wheel.now.cycle }
    ensures slots { result.dues.waiting.slots ≡ wheel.now.dues.waiting.slots }
{
    Wheel {
        policy: wheel.policy,
        turns: false,
        quiet: 0,
        cycle: wheel.cycle,
        rows: no_rows(alloc),
        dues: Dues::of_slots(wheel.dues.waiting.slots),
    }
}
