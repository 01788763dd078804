//! Laws about disturbed runs. Each function has an empty body but for calls of other laws, and its contract is the law.

ghost use Rattle.std.specs.Prelude.{◌≡◌, ℕ, ◌+◌, ◌-◌, ◌*◌, ◌<◌, ◌≤◌, false, true, List, [], ◌++◌, All, length, Contains};
ghost use Rattle.can_frame.specs.declared.data_frame.TimedFrame.{TimedFrame};
ghost use Rattle.can_frame.specs.DataFrame.{DataFrame};
ghost use Rattle.cycle_layout.specs.Layout.{CycleLayout, IsLayout, needed};
ghost use Rattle.async_window.specs.declared.request.Request.{Request};
ghost use Rattle.requirement_table.specs.declared.entries.Placed.{Placed};
ghost use Rattle.requirement_table.specs.Instance.{Exists, Instance, IsLastCycle, release_of};
ghost use Rattle.requirement_table.specs.Opening.{Opening};
ghost use Rattle.bus_line.specs.Trace.{end_of};
ghost use Rattle.node_model.specs.Opening.{end_of_cycle, start_of};
ghost use Rattle.master_core.specs.declared.event.Event.{Event};
ghost use Rattle.master_core.specs.History.{IsLegal, next_of, placed_of};
ghost use Rattle.master_core.specs.Openings.{openings_of};
ghost use Rattle.cycle_engine.specs.Cycle.{FitsWindow};
ghost use Rattle.cycle_engine.specs.Offered.{AreAsynchronous, AreOfDistinctCycles, IsCanTrace, SendsWhole, offered};
ghost use Rattle.kept_run.specs.Kept.{Kept};
ghost use Rattle.kept_run.specs.Setting.{Setting};
ghost use Rattle.kept_run.specs.Served.{ForgetsEnds};
ghost use Rattle.disturbed_runs.specs.Outages.{IsDisturbedTrace, Outage, overlap, touches, under_way};
ghost use Rattle.disturbed_runs.specs.Disturbances.{Disturbance, IsCut, IsDisturbance, cost_of_cut, intermission, longest_recovery, outages_of};
ghost use Rattle.disturbed_runs.specs.Offered.{AreGuarded, AreGuardedBy, AreOfRequests, Asks, IsDisturbedRun, Late, Silent, first_from, may_start};
ghost use Rattle.disturbed_runs.specs.Budget.{AreFew, AreFewFelt, ArePassiveWaits, FaultPlan, HasRoomFor, IsReserved, IsWithinBudget, plan_of_errors};
ghost use Rattle.disturbed_runs.specs.Kept.{IsCycleKept, IsLoud, IsSentInSameCycle, KeepsBudget, KeptAgain, KeptButForBad};

/// A cycle that keeps its budget is kept, whatever happened in other cycles: its trigger is sent in time, and its slots in
/// it. What earlier cycles left on the bus counts as lost in it; where they left nothing, outages alone count.
pub fn cycles_are_kept()
    ensures kept { (reserve : ℕ) (late : Late) (silent : Silent) (sends : Instance → List ℕ) (layout : CycleLayout) (asks : Asks)
        (openings : List Opening) (count : ℕ) (outages : List Outage) (trace : List TimedFrame) (opening : Opening)
        → IsLayout layout → needed layout.turnaround (layout.window + reserve) layout.slots ≤ layout.cycle
        → SendsWhole sends → AreGuarded reserve late layout asks → AreOfDistinctCycles openings
        → IsDisturbedRun reserve late silent sends layout asks openings count outages trace
        → Contains openings opening → opening.cycle < count → FitsWindow layout opening
        → KeepsBudget layout reserve late silent outages trace opening
        → IsCycleKept sends layout reserve late silent (outages ++ under_way (start_of layout opening) trace) trace opening }
    ensures clean { (reserve : ℕ) (late : Late) (silent : Silent) (layout : CycleLayout) (outages : List Outage) (trace : List TimedFrame)
        (opening : Opening) → start_of layout opening ≤ first_from reserve late layout opening
        → All (λ sent. sent.start < start_of layout opening → end_of sent ≤ start_of layout opening) trace
        → IsWithinBudget layout reserve late silent outages opening → KeepsBudget layout reserve late silent outages trace opening }
{}

/// So of the run of a legal history all is kept but what its bad cycles owe: an instance is served if the cycle in which
/// the plan flags it keeps its budget.
pub fn runs_are_kept_but_for_bad_cycles()
    ensures kept { (setting : Setting) (reserve : ℕ) (late : Late) (silent : Silent) (asks : Asks)
        (history : List Event) (outages : List Outage) (trace : List TimedFrame)
        → IsReserved setting reserve → SendsWhole setting.sends → ForgetsEnds setting.sends
        → AreGuarded reserve late setting.layout asks → IsLegal setting.rules history
        → IsDisturbedRun reserve late silent setting.sends setting.layout asks (openings_of history) (next_of history) outages trace
        → KeptButForBad setting reserve late silent history outages trace }
{}

/// On a bus whose outages keep within the budget of each cycle, the run of a legal history is kept, whatever slots are
/// silent: each instance of the others is sent whole in its time, and each trigger before the asynchronous window.
pub fn disturbed_runs_are_kept()
    ensures kept { (setting : Setting) (reserve : ℕ) (late : Late) (silent : Silent) (asks : Asks)
        (history : List Event) (outages : List Outage) (trace : List TimedFrame)
        → IsReserved setting reserve → SendsWhole setting.sends → ForgetsEnds setting.sends
        → AreGuarded reserve late setting.layout asks → IsLegal setting.rules history
        → IsDisturbedRun reserve late silent setting.sends setting.layout asks (openings_of history) (next_of history) outages trace
        → All (IsWithinBudget setting.layout reserve late silent outages) (openings_of history)
        → KeptAgain setting reserve late silent history outages trace }
{}

/// So it is where outages are counted, each by what it takes of the part in question, beside the waits of error passive
/// senders. And so it is with one cycle, if what earlier cycles left on the bus counts as one outage.
pub fn few_disturbances_are_kept()
    ensures kept { (setting : Setting) (reserve : ℕ) (late : Late) (silent : Silent) (plan : FaultPlan) (asks : Asks)
        (history : List Event) (outages waits : List Outage) (trace : List TimedFrame)
        → IsReserved setting reserve → SendsWhole setting.sends → ForgetsEnds setting.sends
        → AreGuarded reserve late setting.layout asks → IsLegal setting.rules history
        → IsDisturbedRun reserve late silent setting.sends setting.layout asks (openings_of history) (next_of history) (outages ++ waits) trace
        → All (AreFew setting.layout reserve late silent plan outages waits) (openings_of history)
        → KeptAgain setting reserve late silent history (outages ++ waits) trace }
    ensures cycle { (reserve : ℕ) (late : Late) (silent : Silent) (plan : FaultPlan) (layout : CycleLayout)
        (outages waits : List Outage) (trace : List TimedFrame) (opening : Opening)
        → AreFew layout reserve late silent plan (outages ++ under_way (start_of layout opening) trace) waits opening
        → KeepsBudget layout reserve late silent (outages ++ waits) trace opening }
{
    disturbed_runs_are_kept();
}

/// Disturbances are few in that sense, if few of them are felt: what each of them hits says what it costs. So at most
/// `errors` of them in each window, and `retries` while triggers are sent, cost no instance, with a reserve for these.
pub fn felt_disturbances_are_few()
    ensures few { (reserve : ℕ) (late : Late) (silent : Silent) (sends : Instance → List ℕ) (layout : CycleLayout) (asks : Asks)
        (openings : List Opening) (trace : List TimedFrame) (retries passive_triggers errors bytes passive : ℕ)
        (disturbances : List Disturbance) (waits : List Outage) (opening : Opening)
        → IsLayout layout → needed layout.turnaround (layout.window + reserve) layout.slots ≤ layout.cycle
        → AreGuarded reserve late layout asks → AreOfDistinctCycles openings → Contains openings opening → FitsWindow layout opening
        → All (IsDisturbance (may_start reserve late silent sends layout asks openings) trace disturbances) disturbances
        → AreFewFelt layout reserve late silent sends retries errors bytes disturbances opening
        → HasRoomFor layout reserve late silent (plan_of_errors retries passive_triggers errors bytes passive) opening
        → ArePassiveWaits layout reserve late (plan_of_errors retries passive_triggers errors bytes passive) waits opening
        → AreFew layout reserve late silent (plan_of_errors retries passive_triggers errors bytes passive) (outages_of disturbances) waits opening }
    ensures kept { (setting : Setting) (reserve : ℕ) (late : Late) (silent : Silent) (asks : Asks)
        (retries passive_triggers errors bytes passive : ℕ) (history : List Event) (disturbances : List Disturbance) (waits : List Outage)
        (trace : List TimedFrame)
        → IsReserved setting reserve → SendsWhole setting.sends → ForgetsEnds setting.sends
        → AreGuarded reserve late setting.layout asks → IsLegal setting.rules history
        → IsDisturbedRun reserve late silent setting.sends setting.layout asks (openings_of history) (next_of history)
        (outages_of disturbances ++ waits) trace
        → All (IsDisturbance (may_start reserve late silent setting.sends setting.layout asks (openings_of history)) trace disturbances) disturbances
        → All (AreFewFelt setting.layout reserve late silent setting.sends retries errors bytes disturbances) (openings_of history)
        → All (HasRoomFor setting.layout reserve late silent (plan_of_errors retries passive_triggers errors bytes passive)) (openings_of history)
        → All (ArePassiveWaits setting.layout reserve late (plan_of_errors retries passive_triggers errors bytes passive) waits) (openings_of history)
        → KeptAgain setting reserve late silent history (outages_of disturbances ++ waits) trace }
{
    few_disturbances_are_kept();
}

/// An attempt that is cut costs no more than `cost_of_cut` says of as many data bytes or more. A cut attempt of an
/// asynchronous frame takes at most what the recovery goes beyond the guard of a synchronous window: nothing where the
/// guard is as long as that.
pub fn cuts_are_short()
    ensures short { (at bytes : ℕ) (frame : DataFrame) (outage : Outage) → IsCut at frame outage
        → length frame.bytes ≤ bytes → outage.span ≤ cost_of_cut bytes }
    ensures beyond { (guard reserve : ℕ) (late : Late) (layout : CycleLayout) (asks : Asks) (opening : Opening)
        (past : List TimedFrame) (at : ℕ) (frame : DataFrame) (outage : Outage)
        → AreGuardedBy guard reserve late layout asks
        → asks opening past at frame ≡ true → IsCut at frame outage
        → overlap (first_from reserve late layout opening) (end_of_cycle layout opening) outage
        ≤ (longest_recovery - intermission) - guard }
    ensures outside { (reserve : ℕ) (late : Late) (layout : CycleLayout) (asks : Asks) (opening : Opening) (past : List TimedFrame)
        (at : ℕ) (frame : DataFrame) (outage : Outage)
        → AreGuardedBy (longest_recovery - intermission) reserve late layout asks
        → asks opening past at frame ≡ true → IsCut at frame outage
        → touches (first_from reserve late layout opening) (end_of_cycle layout opening) outage ≡ false }
{}

/// Nodes that offer requests as those of this repository do keep the guard, and `guard` bit times more, if they take the
/// window for so much longer than it is.
pub fn requests_keep_the_guard()
    ensures kept { (reserve guard : ℕ) (late : Late) (layout : CycleLayout) (requests : List Request) (asks : Asks)
        → AreAsynchronous requests → AreOfRequests (reserve + guard) layout requests asks
        → AreGuarded reserve late layout asks }
    ensures free { (reserve guard : ℕ) (late : Late) (layout : CycleLayout) (requests : List Request) (asks : Asks)
        → AreOfRequests (reserve + guard) layout requests asks → AreGuardedBy guard reserve late layout asks }
{}

/// The trace that arbitration decides on a bus without errors is one with no outages.
pub fn undisturbed()
    ensures none { (sends : Instance → List ℕ) (layout : CycleLayout) (requests : List Request)
        (openings : List Opening) (count : ℕ) (trace : List TimedFrame)
        → IsCanTrace sends layout requests openings count trace
        → IsDisturbedTrace (offered sends layout requests openings) (offered sends layout requests openings) [] (count * layout.cycle) trace }
{}

/// So what a simulation without errors is proved to keep says what a disturbed bus keeps: each instance whose last cycle
/// was run is sent whole, exactly once, and in the cycle in which it was sent in the simulation. The simulation's window
/// is what is planned; the bus has `reserve` bit times more.
pub fn simulated_cycles_stay()
    ensures kept { (setting : Setting) (reserve : ℕ) (late : Late) (silent : Silent) (asks : Asks)
        (history : List Event) (outages : List Outage) (simulated trace : List TimedFrame)
        → IsReserved setting reserve → SendsWhole setting.sends → ForgetsEnds setting.sends
        → AreGuarded reserve late setting.layout asks → Kept setting history simulated
        → IsDisturbedRun reserve late silent setting.sends setting.layout asks (openings_of history) (next_of history) outages trace
        → All (IsWithinBudget setting.layout reserve late silent outages) (openings_of history)
        → KeptAgain setting reserve late silent history outages trace }
    ensures same { (setting : Setting) (reserve : ℕ) (late : Late) (silent : Silent) (asks : Asks)
        (history : List Event) (outages : List Outage) (simulated trace : List TimedFrame)
        → IsReserved setting reserve → SendsWhole setting.sends → ForgetsEnds setting.sends
        → AreGuarded reserve late setting.layout asks → Kept setting history simulated
        → IsDisturbedRun reserve late silent setting.sends setting.layout asks (openings_of history) (next_of history) outages trace
        → All (IsWithinBudget setting.layout reserve late silent outages) (openings_of history)
        → (p : Placed) (k last : ℕ) → Contains (placed_of history) p
        → Exists p (release_of p k) → IsLastCycle p k last → last < next_of history → IsLoud silent p k last
        → IsSentInSameCycle setting simulated trace p k last }
{
    disturbed_runs_are_kept();
}
