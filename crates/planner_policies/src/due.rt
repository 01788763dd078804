//! What a placed entry has to send in a cycle.

ghost use Rattle.std.specs.Prelude.{◌≡◌, ◌<◌, ℕ, IfSome, None, false, nat_le};
ghost use Rattle.profile.specs.Limits.{cycles_end};
ghost use Rattle.requirement_table.specs.Instance.{MaySend};
ghost use Rattle.bit_sets.specs.Sets.{has_bit};
ghost use Rattle.requirement_table.specs.Table.{IsInRange};
ghost use Rattle.planner_policies.specs.Due.{IsDueOf, IsReleaseWaiting, is_due_by, key_with, waits};
ghost use Rattle.planner_policies.specs.Plan.{by_number};

use crate::Policy;
use crate::state::PlanState;
use requirement_table::{Placed, cost, current_instance, releases};

/// What is kept of an instance that is pending in a cycle.
#[derive(Clone, Copy, Debug)]
pub struct Due {
    /// The number that the policy looks at first.
    pub key: u64,
    /// The priority of the entry.
    pub priority: u8,
    /// The slot, 0 to 95.
    pub slot: u8,
    /// The worst length of the frame, in bit times.
    pub cost: u32,
    /// The cycle of the release.
    pub release: u64,
    /// The last cycle in which the instance may be sent.
    pub last: u64,
}

impl Due {
    /// What stands in a place that is not used.
    pub const NONE: Due = Due {
        key: 0,
        priority: 0,
        slot: 0,
        cost: 0,
        release: 0,
        last: 0,
    };

    /// Whether this one is the other or goes before it, by key, then priority, then slot.
    pub fn is_by(&self, other: &Due) -> bool
        ensures order { result ≡ is_due_by self.now other.now }
    {
        self.key < other.key || (self.key == other.key && self.is_by_tie(other))
    }

    /// Whether this one is the other or goes before it, of two with one key.
    fn is_by_tie(&self, other: &Due) -> bool
        ensures order { result ≡ by_number self.now.priority other.now.priority (nat_le self.now.slot other.now.slot) }
    {
        self.priority < other.priority
            || (self.priority == other.priority && self.slot <= other.slot)
    }
}

/// The instance of a placed entry that is pending in the cycle of the state, where there is one.
#[inline(always)]
pub(crate) fn due_of(policy: Policy, placed: &Placed, state: &PlanState) -> Option<Due>
    requires in_range { IsInRange placed.now }
    requires cycle { state.now.cycle < cycles_end }
    ensures pending { IsDueOf policy (has_bit state.now.pending) state.now.cycle placed.now result }
{
    let release = release_waiting(placed, state)?;
    let entry = &placed.entry;
    let deadline = release + u64::from(entry.deadline);
    Some(Due {
        key: key(policy, placed, deadline),
        priority: entry.priority,
        slot: entry.slot,
        cost: cost(entry.length),
        release,
        last: deadline - 1,
    })
}

/// The release of the instance of a placed entry that is pending in the cycle of the state, where there is one.
///
/// Where the slot is pending, that is the instance which may be sent in the cycle. Else it is the one that is released
/// in the cycle. So an entry costs one division.
fn release_waiting(placed: &Placed, state: &PlanState) -> Option<u64>
    requires in_range { IsInRange placed.now }
    requires cycle { state.now.cycle < cycles_end }
    ensures waiting { IfSome result
        (λ release. IsReleaseWaiting (has_bit state.now.pending) state.now.cycle placed.now release) }
    ensures none { result ≡ None → (k : ℕ) → MaySend placed.now k state.now.cycle
        → waits (has_bit state.now.pending) state.now.cycle placed.now k ≡ false }
{
    if state.pending.has(placed.entry.slot) {
        let instance = current_instance(placed, state.cycle)?;
        Some(instance.release)
    } else {
        releases(placed, state.cycle)?;
        Some(state.cycle)
    }
}

/// The number that the policy looks at first; the least goes first. The deadline is that of an instance of the entry:
/// the cycle behind its last one.
pub fn key(policy: Policy, placed: &Placed, deadline: u64) -> u64
    ensures key { result ≡ key_with policy placed.now deadline }
{
    match policy {
        Policy::Rm => u64::from(placed.entry.period),
        Policy::Dm => u64::from(placed.entry.deadline),
        Policy::Edf => deadline,
    }
}
