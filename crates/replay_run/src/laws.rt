//! Laws about runs of steps. Each function has an empty body but for calls of other laws, and its contract is the law.

ghost use Rattle.std.specs.Prelude.{◌≡◌, ℕ, ◌+◌, ◌*◌, ◌≤◌, ◌∷◌, ◌++◌, [], false, List, All, map};
ghost use Rattle.can_frame.specs.declared.data_frame.TimedFrame.{TimedFrame};
ghost use Rattle.admission_rules.specs.declared.Rules.{Rules};
ghost use Rattle.async_window.specs.declared.request.Request.{Request};
ghost use Rattle.requests_file.specs.RequestsFile.{AreLegal};
ghost use Rattle.system_file.specs.SystemFile.{IsSystem};
ghost use Rattle.steps_file.specs.declared.steps.Step.{Step};
ghost use Rattle.system_file.specs.declared.system.System.{System};
ghost use Rattle.master_core.specs.Calls.{Call, call_of};
ghost use Rattle.master_core.specs.declared.event.Event.{Event};
ghost use Rattle.cycle_layout.specs.Layout.{CycleLayout, IsLayout};
ghost use Rattle.requirement_table.specs.Instance.{Instance};
ghost use Rattle.requirement_table.specs.Opening.{Opening, width_of};
ghost use Rattle.master_core.specs.declared.event.Event.TheVariants.{Open};
ghost use Rattle.master_core.specs.History.{IsLegal, IsPlainlyLegal, is_open, next_of, placed_of};
ghost use Rattle.master_core.specs.Openings.{openings_of};
ghost use Rattle.bus_line.specs.Trace.{started_before};
ghost use Rattle.cycle_engine.specs.Cycle.{FitsWindow, RunsCycle};
ghost use Rattle.cycle_engine.specs.Offered.{IsCanTrace, SendsWhole};
ghost use Rattle.bus_trace.specs.EventRows.{BeginsCycle, rows_of_event, width_told_in};
ghost use Rattle.bus_trace.specs.Log.{events_rows, log_text, triggers_in};
ghost use Rattle.kept_run.specs.Kept.{Kept};
ghost use Rattle.kept_run.specs.Progress.{IsUnderWay};
ghost use Rattle.kept_run.specs.Setting.{IsSetting, Setting};
ghost use Rattle.replay_run.specs.Begun.{IsRunBegun};
ghost use Rattle.replay_run.specs.Run.{AnswersSteps, IsRun, setting_of};

use admission::laws::one_verdict;
use bus_line::laws::trace_laws;
use can_frame::laws::wire_lengths;
use cycle_engine::laws::{OpenedCycles, one_can_trace};
use kept_run::laws::{beginning, calls_between, cycles_run, requests_of_owners};
use master_core::laws::opened_cycles;

/// Steps have one history: two that answer them, each change planned when it is answered, are the same. So each verdict
/// is the one that the rules give. And they have one run: with these requests there is one trace, too.
pub fn one_run()
    ensures one_history { (rules : Rules) (steps : List Step) (one other : List Event)
        → IsPlainlyLegal rules one → IsPlainlyLegal rules other
        → AnswersSteps one steps → AnswersSteps other steps → one ≡ other }
    ensures one_trace { (system : System) (steps : List Step) (requests : List Request)
        (one other : List Event) (trace second : List TimedFrame)
        → IsRun system steps requests one trace → IsRun system steps requests other second → trace ≡ second }
{
    one_verdict();
}

/// A run of the first calls of some steps begins the run of all of them: its events are the first ones of the whole
/// history, and its frames the first ones of the whole trace, whose other frames start behind the cycles that it opens.
/// What answers the first of some calls, each change planned when it is answered, begins what answers them all.
pub fn beginnings()
    ensures events { (rules : Rules) (history whole : List Event) (later : List Call)
        → IsPlainlyLegal rules history → IsPlainlyLegal rules whole
        → map call_of history ++ later ≡ map call_of whole
        → (rest : List Event) × (whole ≡ history ++ rest) }
    ensures history { (system : System) (steps : List Step) (requests : List Request) (history whole : List Event)
        (trace frames : List TimedFrame) → IsRunBegun system steps requests history trace
        → IsRun system steps requests whole frames
        → (rest : List Event) × (whole ≡ history ++ rest) }
    ensures trace { (system : System) (steps : List Step) (requests : List Request) (history whole : List Event)
        (trace frames : List TimedFrame) → IsSystem system → IsRunBegun system steps requests history trace
        → IsRun system steps requests whole frames
        → (rest : List TimedFrame) × (frames ≡ trace ++ rest)
        × All (λ sent. next_of history * system.layout.cycle ≤ sent.start) rest }
{
    one_verdict();
}

/// A history and a trace that keep what is promised, with a system and requests that were read, are those of a run
/// under way: in each opened cycle the trace sends what the opening says, and it has ended by the start of the next
/// cycle.
pub fn runs_under_way()
    ensures under_way { (system : System) (requests : List Request) (history : List Event) (trace : List TimedFrame)
        → IsSystem system → AreLegal system.owners requests → Kept (setting_of system requests) history trace
        → IsUnderWay (setting_of system requests) history trace }
{
    legal_runs();
    requests_of_owners();
}

/// A legal history and its CAN trace are those of a run under way. Where another run under way has the first of these
/// events, its frames are the first ones, and the others start behind the cycles that it opens. Of a CAN trace, those
/// frames that start in the cycles of the first events are the CAN trace of these events. So it is whatever bytes an
/// instance sends; a run is under way where they are as many as its entry's length.
pub fn legal_runs()
    ensures under_way { (setting : Setting) (history : List Event) (trace : List TimedFrame)
        → IsSetting setting → SendsWhole setting.sends → IsLegal setting.rules history
        → IsCanTrace setting.sends setting.layout setting.requests (openings_of history) (next_of history) trace
        → IsUnderWay setting history trace }
    ensures front { (setting : Setting) (history later : List Event) (trace frames : List TimedFrame)
        → IsSetting setting → IsUnderWay setting history trace → IsLegal setting.rules (history ++ later)
        → IsCanTrace setting.sends setting.layout setting.requests
        (openings_of (history ++ later)) (next_of (history ++ later)) frames
        → (rest : List TimedFrame) × (frames ≡ trace ++ rest)
        × All (λ sent. next_of history * setting.layout.cycle ≤ sent.start) rest }
    ensures cut { (setting : Setting) (history later : List Event) (frames : List TimedFrame)
        → IsSetting setting → IsLegal setting.rules (history ++ later)
        → IsCanTrace setting.sends setting.layout setting.requests
        (openings_of (history ++ later)) (next_of (history ++ later)) frames
        → IsCanTrace setting.sends setting.layout setting.requests (openings_of history) (next_of history)
        (started_before (next_of history * setting.layout.cycle) frames) }
{
    beginning();
    calls_between();
    cycles_run();
    one_can_trace();
    opened_cycles();
    trace_laws::<OpenedCycles>();
}

/// Of two runs under way in one setting one has the first events of the other. Then its rows begin the log of the other.
pub fn rows_of_fronts()
    ensures front { (setting : Setting) (history later : List Event) (trace frames : List TimedFrame)
        → IsSetting setting → IsUnderWay setting history trace → IsUnderWay setting (history ++ later) frames
        → (rest : List ℕ) × (log_text (history ++ later) frames ≡ events_rows trace [] history ++ rest) }
{
    legal_runs();
    opened_cycles();
    wire_lengths();
}

/// The rows of a run of the first calls of some steps begin the log of the run of all of them, with a system and
/// requests that were read.
pub fn rows_so_far()
    ensures front { (system : System) (steps : List Step) (requests : List Request) (history whole : List Event)
        (trace frames : List TimedFrame) → IsSystem system → AreLegal system.owners requests
        → IsRunBegun system steps requests history trace → IsRun system steps requests whole frames
        → (rest : List ℕ) × (log_text whole frames ≡ events_rows trace [] history ++ rest) }
{
    beginnings();
    opened_cycles();
    runs_under_way();
    wire_lengths();
}

/// One event more behind a history whose cycles a trace has, each with one first trigger frame. The rows of history and
/// trace stay, and the rows of the event follow them. An opening brings frames, which begin with the first trigger frame
/// of its cycle; it says the length of the synchronous window. A change and a look bring none. The trace may be any one.
pub fn rows_appended()
    ensures opened { (rules : Rules) (trace frames : List TimedFrame) (history : List Event) (cycle mask : ℕ)
        → IsLegal rules history → triggers_in trace ≡ next_of history → cycle ≡ next_of history
        → BeginsCycle cycle mask frames
        → width_told_in frames ≡ width_of (record { cycle = cycle; mask = mask; placed = placed_of history })
        → events_rows (trace ++ frames) [] (history ++ Open cycle mask ∷ [])
        ≡ events_rows trace [] history ++ rows_of_event (Open cycle mask) frames }
    ensures counted { (trace frames : List TimedFrame) (cycle mask : ℕ) → BeginsCycle cycle mask frames
        → triggers_in (trace ++ frames) ≡ triggers_in trace + 1 }
    ensures called { (trace : List TimedFrame) (history : List Event) (event : Event) → is_open event ≡ false
        → events_rows trace [] (history ++ event ∷ []) ≡ events_rows trace [] history ++ rows_of_event event [] }
{}

/// The frames of an opened cycle, whatever bytes an instance sends, begin with its first trigger frame, which says the
/// length of its synchronous window; no other of them has identifier 0.
pub fn opened_frames()
    ensures begin { (sends : Instance → List ℕ) (layout : CycleLayout) (opening : Opening) (frames : List TimedFrame)
        → IsLayout layout → FitsWindow layout opening → RunsCycle sends layout opening frames
        → BeginsCycle opening.cycle opening.mask frames }
    ensures width { (sends : Instance → List ℕ) (layout : CycleLayout) (opening : Opening) (frames : List TimedFrame)
        → RunsCycle sends layout opening frames → width_told_in frames ≡ width_of opening }
{}
