//! The states of a plan from which a change can be planned.

ghost use Rattle.std.specs.Prelude.{◌≡◌, ◌+◌, ◌-◌, ◌≤◌, ◌++◌, ◌∷◌, [], IfOk, IfSome, IfNone, List, OnOk};
ghost use Rattle.std.specs.Prelude.{Some, false, length, slice_get, ℕ};
ghost use Rattle.requirement_table.specs.declared.entries.Placed.{Placed};
ghost use Rattle.change_protocol.specs.declared.operations.Change.{Change};
ghost use Rattle.planner_policies.specs.Plan.{IsValid};
ghost use Rattle.admission_rules.specs.declared.Rules.{Rules};
ghost use Rattle.admission.specs.Verdict.{is_accepted};
ghost use Rattle.master_core.specs.Cores.{IsPrunedBefore};
ghost use Rattle.master_core.specs.declared.event.Event.{Event};
ghost use Rattle.master_core.specs.declared.event.Event.TheVariants.{Submit};
ghost use Rattle.master_core.specs.History.{next_of, placed_of};
ghost use Rattle.master_core.specs.Kept.{state_after};
ghost use Rattle.trace_audit.specs.States.{KeepsStates};

use admission::Verdict;
use planner_policies::PlanState;
use std::alloc::{AllocError, Global};

/// The states before the cycles from one on, up to the next one.
#[derive(Drop)]
pub struct States {
    /// The first of these cycles: the next one when a change was accepted last, or 0 where none was.
    pub since: u64,
    /// The states before these cycles, in their order.
    pub before: Vec<PlanState>,
}

impl States {
    /// That before the next cycle alone. Where there is memory for it, there is room for so many more.
    pub fn of(alloc: Global, state: PlanState, more: usize) -> Result<States, AllocError>
        ensures since { IfOk result (λ states. states.since ≡ state.cycle) }
        ensures one { IfOk result (λ states. states.before.items ≡ state ∷ []) }
    {
        let since = state.cycle;
        let mut before = Vec::new(alloc);
        let _ = before.reserve_exact(more.saturating_add(1));
        before.push(state)?;
        Ok(States { since, before })
    }

    /// Keeps that before the next cycle alone. Its room stays.
    fn restart(&mut self, state: PlanState) -> Result<(), AllocError>
        ensures since { OnOk result (self.new.since ≡ state.cycle) }
        ensures one { OnOk result (self.new.before.items ≡ state ∷ []) }
    {
        self.since = state.cycle;
        self.before.clear();
        self.before.push(state)?;
        Ok(())
    }

    /// With the state before one cycle more.
    pub fn push(&mut self, state: PlanState) -> Result<(), AllocError>
        ensures since { self.new.since ≡ self.old.since }
        ensures more { OnOk result (self.new.before.items ≡ self.old.before.items ++ state ∷ []) }
    {
        self.before.push(state)?;
        Ok(())
    }

    /// The state before a cycle, where a change can be planned from it.
    pub fn at(&self, cycle: u64) -> Option<PlanState>
        ensures found { IfSome result
            (λ state. slice_get self.now.before.items (cycle - self.now.since) ≡ Some state) }
        ensures late { IfSome result (λ state. self.now.since ≤ cycle) }
        ensures none { IfNone result
            (self.now.since ≤ cycle → self.now.since + length self.now.before.items ≤ cycle) }
    {
        if cycle < self.since {
            return None;
        }
        let place = cycle - self.since;
        self.before.as_slice().get(place as usize).copied()
    }
}

/// Keeps the states behind an answer with this verdict, where this is the state before the next cycle.
pub fn keep_answered(
    states: &mut States,
    verdict: Verdict,
    state: PlanState,
) -> Result<(), AllocError>
    ensures kept { OnOk result ((rules : Rules) (history : List Event) (caller : ℕ) (change : Change) (from : ℕ)
        (trail : List ℕ) (placed behind : List Placed) → KeepsStates rules history placed states.old
        → (is_accepted verdict ≡ false → behind ≡ placed)
        → state ≡ state_after rules (history ++ Submit caller change from verdict trail ∷ [])
        → IsValid behind state.cycle state.pending
        → IsPrunedBefore (next_of (history ++ Submit caller change from verdict trail ∷ []))
        (placed_of (history ++ Submit caller change from verdict trail ∷ [])) behind
        → KeepsStates rules (history ++ Submit caller change from verdict trail ∷ []) behind states.new) }
{
    if !verdict.is_accepted() {
        return Ok(());
    }
    states.restart(state)
}
