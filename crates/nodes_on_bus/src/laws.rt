//! Laws about nodes in processes of their own. Each function has an empty body, and its contract is the law.

ghost use Rattle.std.specs.Prelude.{ℕ, ◌+◌, ◌*◌, ◌≤◌, [], ◌∷◌, ◌++◌, List, All};
ghost use Rattle.can_frame.specs.declared.data_frame.TimedFrame.{TimedFrame};
ghost use Rattle.cycle_layout.specs.Layout.{CycleLayout, IsLayout, needed};
ghost use Rattle.requirement_table.specs.Instance.{Instance};
ghost use Rattle.requirement_table.specs.Opening.{Opening};
ghost use Rattle.node_model.specs.Opening.{start_of};
ghost use Rattle.master_core.specs.declared.event.Event.{Event};
ghost use Rattle.master_core.specs.History.{IsLegal, next_of};
ghost use Rattle.master_core.specs.Openings.{openings_of};
ghost use Rattle.cycle_engine.specs.Cycle.{FitsWindow};
ghost use Rattle.cycle_engine.specs.Offered.{SendsWhole};
ghost use Rattle.kept_run.specs.Setting.{Setting};
ghost use Rattle.kept_run.specs.Served.{ForgetsEnds};
ghost use Rattle.disturbed_runs.specs.Outages.{Outage, IsDisturbedTrace, under_way};
ghost use Rattle.disturbed_runs.specs.Offered.{AreGuarded, Late, Silent, may_start, offered_again};
ghost use Rattle.disturbed_runs.specs.Budget.{IsReserved, IsWithinBudget};
ghost use Rattle.disturbed_runs.specs.Kept.{IsCycleKept, KeptAgain, KeptButForBad};
ghost use Rattle.nodes_on_bus.specs.Duties.{AreDriven, LeaveRoom, Loads, Senders, keeps_guard};

use disturbed_runs::laws::{
    cycles_are_kept, disturbed_runs_are_kept, runs_are_kept_but_for_bad_cycles,
};

/// Where the drivers of a bus do what they owe, what is on it is the trace of a disturbed bus, and no asynchronous frame
/// reaches into a synchronous window.
pub fn driven_buses_are_disturbed_ones()
    ensures run { (reserve : ℕ) (late : Late) (silent : Silent) (sends : Instance → List ℕ) (layout : CycleLayout)
        (openings : List Opening) (senders : Senders) (loads : Loads) (outages : List Outage) (until : ℕ) (trace : List TimedFrame)
        → LeaveRoom reserve layout openings
        → AreDriven reserve late silent sends layout openings senders loads outages until trace
        → IsDisturbedTrace (may_start reserve late silent sends layout (keeps_guard reserve late layout) openings)
        (offered_again reserve late silent sends layout openings) outages until trace }
    ensures guarded { (reserve : ℕ) (late : Late) (layout : CycleLayout) → AreGuarded reserve late layout (keeps_guard reserve late layout) }
{}

/// A cycle in which the drivers do what they owe and that keeps its budget is kept: its trigger is sent in time, and each
/// slot that is not silent in its window, exactly once. Nothing is asked of other cycles: what else is on the bus counts as
/// lost.
pub fn driven_cycles_are_kept()
    ensures kept { (reserve : ℕ) (late : Late) (silent : Silent) (sends : Instance → List ℕ) (layout : CycleLayout) (opening : Opening)
        (senders : Senders) (loads : Loads) (outages : List Outage) (trace : List TimedFrame)
        → IsLayout layout → needed layout.turnaround (layout.window + reserve) layout.slots ≤ layout.cycle
        → SendsWhole sends → FitsWindow layout opening
        → AreDriven reserve late silent sends layout (opening ∷ []) senders loads outages ((opening.cycle + 1) * layout.cycle) trace
        → All (λ sent. start_of layout opening ≤ sent.start) trace
        → IsWithinBudget layout reserve late silent outages opening
        → IsCycleKept sends layout reserve late silent (outages ++ under_way (start_of layout opening) trace) trace opening }
{
    cycles_are_kept();
    driven_buses_are_disturbed_ones();
}

/// Of the run of a legal history on a bus whose drivers do what they owe all is kept but what its bad cycles owe: an instance is
/// served if the cycle in which the plan flags it keeps its budget.
pub fn driven_runs_are_kept_but_for_bad_cycles()
    ensures kept { (setting : Setting) (reserve : ℕ) (late : Late) (silent : Silent) (senders : Senders) (loads : Loads)
        (history : List Event) (outages : List Outage) (trace : List TimedFrame)
        → IsReserved setting reserve → SendsWhole setting.sends → ForgetsEnds setting.sends → IsLegal setting.rules history
        → AreDriven reserve late silent setting.sends setting.layout (openings_of history) senders loads outages
        (next_of history * setting.layout.cycle) trace
        → KeptButForBad setting reserve late silent history outages trace }
{
    runs_are_kept_but_for_bad_cycles();
    driven_buses_are_disturbed_ones();
}

/// And if each cycle keeps its budget, all is kept: each trigger is sent in time, and each instance of a slot that is not
/// silent, whole, exactly once, in its window, also across changes.
pub fn driven_runs_are_kept()
    ensures kept { (setting : Setting) (reserve : ℕ) (late : Late) (silent : Silent) (senders : Senders) (loads : Loads)
        (history : List Event) (outages : List Outage) (trace : List TimedFrame)
        → IsReserved setting reserve → SendsWhole setting.sends → ForgetsEnds setting.sends → IsLegal setting.rules history
        → AreDriven reserve late silent setting.sends setting.layout (openings_of history) senders loads outages
        (next_of history * setting.layout.cycle) trace
        → All (IsWithinBudget setting.layout reserve late silent outages) (openings_of history)
        → KeptAgain setting reserve late silent history outages trace }
{
    disturbed_runs_are_kept();
    driven_buses_are_disturbed_ones();
}
