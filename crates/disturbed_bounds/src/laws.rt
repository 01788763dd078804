//! Laws about bounds of asynchronous frames on a disturbed bus. Each function has an empty body but for calls of other laws,
//! and its contract is the law.

ghost use Rattle.std.specs.Prelude.{◌≡◌, ℕ, ◌+◌, ◌*◌, ◌^◌, ◌<◌, ◌≤◌, List, ◌++◌, Contains, Some, slice_get};
ghost use Rattle.profile.specs.Limits.{least_asynchronous};
ghost use Rattle.can_frame.specs.declared.data_frame.TimedFrame.{TimedFrame};
ghost use Rattle.cycle_layout.specs.Layout.{IsLayout};
ghost use Rattle.async_window.specs.declared.request.Request.{Request};
ghost use Rattle.async_window.specs.Waiting.{requests_of};
ghost use Rattle.async_bound.specs.declared.stream.BurstStream.{BurstStream};
ghost use Rattle.async_bound.specs.Streams.{AreStreams};
ghost use Rattle.async_bound.specs.Bound.{IsLeastFitting, demand};
ghost use Rattle.master_core.specs.declared.event.Event.{Event};
ghost use Rattle.master_core.specs.History.{IsLegal, next_of};
ghost use Rattle.cycle_engine.specs.Offered.{SendsWhole};
ghost use Rattle.kept_run.specs.Setting.{Setting};
ghost use Rattle.kept_run.specs.Served.{ForgetsEnds};
ghost use Rattle.bounded_runs.specs.Requests.{AreOfStreams};
ghost use Rattle.bounded_runs.specs.Runs.{StartsWithin};
ghost use Rattle.disturbed_runs.specs.Outages.{Outage, lost_in};
ghost use Rattle.disturbed_runs.specs.Offered.{Asks, Late, Silent};
ghost use Rattle.disturbed_runs.specs.Budget.{IsReserved};
ghost use Rattle.disturbed_bounds.specs.Bounds.{AreRare, SendsRequests, fault_streams, longest_outage, wider};

use async_bound::laws::fitting_is_bound;

/// On a disturbed bus each request of a stream starts within its bound, if that is worked out with a window that is longer by
/// the reserve and by the further guard, and with streams more that need no less than outages take of as many bit times.
pub fn disturbed_bounds_hold()
    ensures starts { (setting : Setting) (reserve guard : ℕ) (late : Late) (silent : Silent) (asks : Asks)
        (history : List Event) (outages : List Outage) (trace : List TimedFrame)
        → (streams faults : List BurstStream) (stream : BurstStream) (span place : ℕ) (request : Request)
        → IsReserved setting reserve → IsLayout (wider setting.layout (reserve + guard))
        → SendsWhole setting.sends → ForgetsEnds setting.sends → IsLegal setting.rules history
        → SendsRequests setting reserve guard late silent asks history outages trace
        → AreStreams (streams ++ faults) → AreOfStreams streams setting.requests → Contains streams stream
        → IsLeastFitting (wider setting.layout (reserve + guard)) (streams ++ faults) stream span
        → ((low : ℕ) → lost_in low (low + span) outages ≤ demand faults stream.id span)
        → slice_get (requests_of setting.requests stream.id) place ≡ Some request
        → request.at + span ≤ next_of history * setting.layout.cycle → StartsWithin trace place span request }
{
    fitting_is_bound();
}

/// Rare disturbances take no more than their two streams need.
pub fn rare_disturbances_take_little()
    ensures little { (errors gap : ℕ) (outages : List Outage) (id low span : ℕ) → AreRare errors gap outages
        → longest_outage ≤ gap → span < 2 ^ 32 → least_asynchronous < id
        → lost_in low (low + span) outages ≤ demand (fault_streams errors gap) id span }
{}
