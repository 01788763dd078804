//! Laws about how long requests wait. Each function has an empty body but for calls of other laws, and its contract is
//! the law.

ghost use Rattle.std.specs.Prelude.{◌≡◌, ℕ, ◌+◌, ◌*◌, ◌<◌, ◌≤◌, List, Contains, Some, slice_get};
ghost use Rattle.can_frame.specs.declared.data_frame.TimedFrame.{TimedFrame};
ghost use Rattle.cycle_layout.specs.Layout.{CycleLayout, IsLayout};
ghost use Rattle.async_window.specs.declared.request.Request.{Request};
ghost use Rattle.async_window.specs.Waiting.{requests_of};
ghost use Rattle.requirement_table.specs.Instance.{Instance};
ghost use Rattle.requirement_table.specs.Opening.{Opening};
ghost use Rattle.master_core.specs.declared.event.Event.{Event};
ghost use Rattle.master_core.specs.History.{next_of};
ghost use Rattle.master_core.specs.Openings.{openings_of};
ghost use Rattle.cycle_engine.specs.Offered.{SendsWhole};
ghost use Rattle.kept_run.specs.Kept.{Kept};
ghost use Rattle.kept_run.specs.Progress.{IsUnderWay};
ghost use Rattle.kept_run.specs.Setting.{IsSetting, Setting};
ghost use Rattle.async_bound.specs.declared.stream.BurstStream.{BurstStream};
ghost use Rattle.async_bound.specs.Streams.{AreStreams, arrivals};
ghost use Rattle.async_bound.specs.Room.{count_below, is_usable};
ghost use Rattle.async_bound.specs.Bound.{IsBound, IsLeastFitting};
ghost use Rattle.bounded_runs.specs.Requests.{AreOfStreams, arrive_within};
ghost use Rattle.bounded_runs.specs.Runs.{EndSoon, IsBoundedRun, IsPressed, StartsWithin, is_ahead, time_of};

use async_bound::laws::fitting_is_bound;

/// Of the requests of one stream no more than `arrivals` says arrive within `span` bit times, whenever these begin.
pub fn few_arrive()
    ensures few { (streams : List BurstStream) (requests : List Request) (stream : BurstStream) (low span : ℕ)
        → AreStreams streams → AreOfStreams streams requests → Contains streams stream
        → arrive_within low (low + span) (requests_of requests stream.id) ≤ arrivals stream span }
{}

/// While at each time from `low` to below `high` some request of an identifier below `id` waits, frames of such
/// identifiers fill the bus at each time at which the longest of those requests might start. Where every request's frame
/// that started before `low` ends within `blocked` bit times, they have at least as many bit times as there are such
/// times behind that.
pub fn waiting_fills_the_bus()
    ensures filled { (sends : Instance → List ℕ) (layout : CycleLayout) (requests : List Request)
        → (openings : List Opening) (count : ℕ) (trace : List TimedFrame) (longest id low high blocked : ℕ)
        → IsLayout layout → IsBoundedRun sends layout requests openings count trace
        → high ≤ count * layout.cycle → EndSoon blocked low trace
        → ((at : ℕ) → low ≤ at → at < high → IsPressed requests trace longest id at)
        → count_below (is_usable layout longest) high
        ≤ count_below (is_usable layout longest) (low + blocked) + time_of (is_ahead id low high) trace }
{}

/// Where requests belong to streams, and `span` is a bound of one stream, each request of it starts less than `span` bit
/// times behind its arrival, if so many bit times are run.
pub fn requests_start_in_time()
    ensures starts { (sends : Instance → List ℕ) (layout : CycleLayout) (requests : List Request)
        → (openings : List Opening) (count : ℕ) (trace : List TimedFrame)
        → (streams : List BurstStream) (stream : BurstStream)
        → (longest blocked span place : ℕ) (request : Request)
        → IsLayout layout → IsBoundedRun sends layout requests openings count trace
        → AreStreams streams → AreOfStreams streams requests → IsBound layout streams stream longest blocked span
        → slice_get (requests_of requests stream.id) place ≡ Some request
        → request.at + span ≤ count * layout.cycle → StartsWithin trace place span request }
{}

/// What `async_bound::start_bound` answers is such a bound: each request of the stream starts less than so many bit
/// times behind its arrival, if so many bit times are run.
pub fn bounds_hold()
    ensures starts { (sends : Instance → List ℕ) (layout : CycleLayout) (requests : List Request)
        → (openings : List Opening) (count : ℕ) (trace : List TimedFrame)
        → (streams : List BurstStream) (stream : BurstStream)
        → (span place : ℕ) (request : Request)
        → IsLayout layout → IsBoundedRun sends layout requests openings count trace
        → AreStreams streams → AreOfStreams streams requests → Contains streams stream
        → IsLeastFitting layout streams stream span
        → slice_get (requests_of requests stream.id) place ≡ Some request
        → request.at + span ≤ count * layout.cycle → StartsWithin trace place span request }
{
    fitting_is_bound();
    requests_start_in_time();
}

/// So in a run that is under way: whatever changes were made and whatever slots were flagged, each request of a stream
/// with a bound starts within it.
pub fn runs_keep_bounds()
    ensures run { (setting : Setting) (history : List Event) (trace : List TimedFrame)
        → IsSetting setting → IsUnderWay setting history trace
        → IsBoundedRun setting.sends setting.layout setting.requests (openings_of history) (next_of history) trace }
    ensures starts { (setting : Setting) (history : List Event) (trace : List TimedFrame)
        → (streams : List BurstStream) (stream : BurstStream) (span place : ℕ) (request : Request)
        → IsSetting setting → IsUnderWay setting history trace
        → AreStreams streams → AreOfStreams streams setting.requests → Contains streams stream
        → IsLeastFitting setting.layout streams stream span
        → slice_get (requests_of setting.requests stream.id) place ≡ Some request
        → request.at + span ≤ next_of history * setting.layout.cycle → StartsWithin trace place span request }
{
    bounds_hold();
}

/// What is kept is under way: the CAN trace of a legal history sends in each cycle what its opening says.
pub fn kept_is_under_way()
    ensures under_way { (setting : Setting) (history : List Event) (trace : List TimedFrame)
        → IsSetting setting → SendsWhole setting.sends → Kept setting history trace
        → IsUnderWay setting history trace }
{}

/// So in each run that is kept, each request of a stream with a bound starts within it: whatever changes were made,
/// whatever slots were flagged, and whatever the other requests were. An instance sends whatever bytes, if they are as
/// many as its entry's length.
pub fn kept_runs_are_in_time()
    ensures starts { (setting : Setting) (history : List Event) (trace : List TimedFrame)
        → (streams : List BurstStream) (stream : BurstStream) (span place : ℕ) (request : Request)
        → IsSetting setting → SendsWhole setting.sends → Kept setting history trace
        → AreStreams streams → AreOfStreams streams setting.requests → Contains streams stream
        → IsLeastFitting setting.layout streams stream span
        → slice_get (requests_of setting.requests stream.id) place ≡ Some request
        → request.at + span ≤ next_of history * setting.layout.cycle → StartsWithin trace place span request }
{
    runs_keep_bounds();
    kept_is_under_way();
}
