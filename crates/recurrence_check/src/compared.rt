//! The first repeat, found by comparing each state with all earlier ones.

ghost use Rattle.std.specs.Prelude.{◌≡◌, ◌≢◌, ◌+◌, ◌<◌, ◌≤◌, ℕ, MatchOption, IfOk, IfErr, Result, Some, length};
ghost use Rattle.std.specs.List.{slice_get};
ghost use Rattle.profile.specs.Limits.{greatest_horizon};
ghost use Rattle.recurrence_check.specs.Course.{IsFirstSame, IsLeastRepeat, NoneSame};
ghost use Rattle.recurrence_check.specs.Ends.{IsEnd, IsWalkAnswer};
ghost use Rattle.recurrence_check.specs.declared.walk_end.Repeat.{Repeat};
ghost use Rattle.recurrence_check.specs.declared.walk_end.WalkEnd.{WalkEnd};

use crate::walk::Walk;
use crate::walk_end::{Repeat, WalkEnd};
use std::alloc::Global;

/// Walks until a state is the same as an earlier one, at most `horizon` steps, and compares each
/// state with all earlier ones.
///
/// The answer is the least repeat at or below `horizon`. `horizon` is at most 100,000.
///
/// # Errors
///
/// `Broken` exactly where the walk does not go on from some state below the horizon and no repeat
/// comes before. `NoRepeat` exactly where `horizon` steps were taken and no two states are the
/// same. `Memory` where there is no memory for the states.
pub fn lasso<W: Walk>(alloc: Global, walk: &W, horizon: u64) -> Result<Repeat, WalkEnd>
    requires horizon { horizon ≤ greatest_horizon }
    ensures repeat { IfOk result (λ again.
        IsLeastRepeat (W.course walk.now) again.first (again.first + again.length)) }
    ensures within { IfOk result (λ again. again.first + again.length ≤ horizon) }
    ensures ends { IfErr result (IsEnd (W.course walk.now) horizon) }
    ensures only { (other : Result Repeat WalkEnd) → IsWalkAnswer (W.course walk.now) horizon other
        → result ≢ Err WalkEnd.Memory → other ≢ Err WalkEnd.Memory → result ≡ other }
{
    let mut earlier = Vec::new(alloc);
    let mut here = walk.begin(alloc)?;
    for walked in 0..horizon {
        earlier.push(walk.state(&here))?;
        let Some(next) = walk.step(&mut here) else {
            return Err(WalkEnd::Broken { at: walked });
        };
        if let Some(first) = first_same(walk, &earlier, &next) {
            return Ok(Repeat {
                first,
                length: walked + 1 - first,
            });
        }
    }
    Err(WalkEnd::NoRepeat { walked: horizon })
}

/// The place of the first of these states that is the same as `state`.
fn first_same<W: Walk>(walk: &W, states: &[W::State], state: &W::State) -> Option<u64>
    requires good { (k : ℕ) (one : W.State) → slice_get states.now k ≡ Some one
        → W.is_good walk.now one × (W.number walk.now one ≤ greatest_horizon) }
    requires state_good { W.is_good walk.now state.now }
    requires state_number { W.number walk.now state.now ≤ greatest_horizon }
    ensures first { MatchOption result
        (NoneSame (W.course walk.now) states.now (length states.now) state.now)
        (IsFirstSame (W.course walk.now) states.now state.now) }
{
    for (place, one) in states.iter().enumerate() {
        if walk.same(one, state) {
            return Some(place as u64);
        }
    }
    None
}
