//! Changes that are planned apart from a core.

ghost use Rattle.std.specs.Prelude.{◌≡◌, ◌≤◌, true, false, IfErr, IfOk, IsTrue};
ghost use Rattle.profile.specs.Limits.{openings_end};
ghost use Rattle.requirement_table.specs.Table.{IsWellPlaced};
ghost use Rattle.change_protocol.specs.Applied.{applied};
ghost use Rattle.planner_policies.specs.Plan.{IsValid};
ghost use Rattle.admission.specs.Verdict.{IsInTime, IsTakenWhereDue, plan_from};
ghost use Rattle.master_core.specs.CorePlans.{IsCorePlan, Leads};

use crate::answer::{Answer, answer_of};
use crate::apart::Snapshot;
use admission::{Rules, Verdict};
use change_protocol::Change;
use planner_policies::{PlanState, rank_list};
use release_wheel::Planner;
use requirement_table::{Placed, not_over};
use std::alloc::{AllocError, Global};
use std::marker::Model;

/// What a change is planned from, apart from its core. A change can be planned from it.
#[derive(Drop, Debug)]
pub struct CoreSnapshot {
    pub(crate) snapshot: Snapshot,
}

impl Model for CoreSnapshot {
    ghost use Rattle.master_core.specs.Apart.{IsPlannable};
    ghost use Rattle.master_core.specs.declared.apart.Snapshot.{Snapshot};

    ghost Value = { Snapshot };

    ghost view = { λ s. s.snapshot };

    ghost invariant = { λ s. IsPlannable s.snapshot };
}

impl CoreSnapshot {
    /// Plans a change, apart from the core, and takes all memory that its answer needs.
    ///
    /// # Errors
    ///
    /// Only where memory runs out. The snapshot is given back.
    pub fn plan(self, alloc: Global, change: &Change) -> Result<CorePlanned, CoreSnapshot>
        ensures planned { IfOk result (IsCorePlan self change.now) }
        ensures complete { let state = self.state in
            let plan = plan_from self.rules (applied self.placed change.now) state.cycle state.pending in
            IfOk result (λ planned. IsInTime self.rules self.placed state.cycle change.now
            → IsTakenWhereDue self.rules plan planned.decision.verdict) }
        ensures back { IfErr result (λ snapshot. snapshot ≡ self) }
    {
        let CoreSnapshot { snapshot } = self;
        let placed = snapshot.placed.as_slice();
        match answer_of(alloc, &snapshot.rules, placed, &snapshot.state, change) {
            Ok(answer) => Ok(CorePlanned { snapshot, answer }),
            Err(_) => Err(CoreSnapshot { snapshot }),
        }
    }
}

/// A change that was planned from a snapshot of a core, with all memory that a core needs to answer it. Contracts see
/// the snapshot, the change, and what was decided of it.
#[derive(Drop, Debug)]
pub struct CorePlanned {
    pub(crate) snapshot: Snapshot,
    pub(crate) answer: Answer,
}

impl Model for CorePlanned {
    ghost use Rattle.std.specs.Prelude.{IfSome};
    ghost use Rattle.requirement_table.specs.Table.{IsWellPlaced};
    ghost use Rattle.master_core.specs.Answers.{IsPlannedFrom, decision_of};
    ghost use Rattle.master_core.specs.Apart.{IsPlannable};
    ghost use Rattle.master_core.specs.CorePlans.{CorePlannedView};

    ghost Value = { CorePlannedView };

    ghost view = { λ p. record {
      snapshot = p.snapshot;
      change = p.answer.change;
      decision = decision_of p.answer;
    } };

    ghost invariant = { λ p. IsPlannable p.snapshot
        × IsPlannedFrom p.snapshot.rules p.snapshot.placed p.snapshot.state p.answer
        × IfSome p.answer.made (λ made. IsWellPlaced made.learned) };
}

impl CorePlanned {
    /// What was decided of the change when its snapshot was taken.
    pub fn verdict(&self) -> Verdict
        ensures verdict { result ≡ self.now.decision.verdict }
    {
        self.answer.verdict
    }
}

/// Whether the plan of a list from one state on leads to another one, without a miss in between. It takes time for the
/// cycles between them.
pub(crate) fn leads(
    alloc: Global,
    rules: &Rules,
    placed: &[Placed],
    from: &PlanState,
    to: &PlanState,
) -> Result<bool, AllocError>
    requires well_placed { IsWellPlaced placed.now }
    requires valid { IsValid placed.now from.now.cycle from.now.pending }
    requires order { from.now.cycle ≤ to.now.cycle }
    requires near { to.now.cycle ≤ openings_end }
    ensures leads { IfOk result (λ leads. leads ≡ true → Leads rules.now placed.now from.now to.now) }
    ensures apart { IfOk result (λ leads. leads ≡ false → Leads rules.now placed.now from.now to.now → ⊥) }
{
    from.pending.known();
    let left = not_over(alloc, placed, from.cycle)?;
    let ranked = rank_list(alloc, left, rules.policy, rules.fill)?;
    let mut planner = Planner::new(alloc, ranked, from)?;
    for _ in 0..to.cycle - from.cycle {
        match planner.step(rules.window) {
            Ok(_) => {}
            Err(_) => return Ok(false),
        }
    }
    Ok(same_state(&planner.state(), to))
}

/// Whether these are the same state.
fn same_state(one: &PlanState, other: &PlanState) -> bool
    ensures same { IsTrue result → one.now ≡ other.now }
    ensures all { one.now ≡ other.now → IsTrue result }
{
    one == other
}

/// Whether these are the same rules.
pub(crate) fn same_rules(one: &Rules, other: &Rules) -> bool
    ensures same { IsTrue result → one.now ≡ other.now }
    ensures all { one.now ≡ other.now → IsTrue result }
{
    one == other
}

/// Whether these are the same entries, in the same order.
pub(crate) fn same_list(one: &[Placed], other: &[Placed]) -> bool
    ensures same { IsTrue result → one.now ≡ other.now }
    ensures all { one.now ≡ other.now → IsTrue result }
{
    if one.len() != other.len() {
        return false;
    }
    for i in 0..one.len() {
        if !same_entry(&one[i], &other[i]) {
            return false;
        }
    }
    true
}

/// Whether these are the same entry.
fn same_entry(one: &Placed, other: &Placed) -> bool
    ensures same { IsTrue result → one.now ≡ other.now }
    ensures all { one.now ≡ other.now → IsTrue result }
{
    one == other
}
