//! Laws about polled runs. Each function has an empty body but for calls of other laws, and its contract is the law.

ghost use Rattle.std.specs.Prelude.{◌≡◌, ℕ, ◌*◌, ◌<◌, ◌≤◌, List, [], ◌++◌, All, Option, Contains};
ghost use Rattle.can_frame.specs.declared.data_frame.TimedFrame.{TimedFrame};
ghost use Rattle.requirement_table.specs.declared.entries.Placed.{Placed};
ghost use Rattle.bit_sets.specs.Sets.{most_slots};
ghost use Rattle.steps_file.specs.declared.steps.Step.{Step};
ghost use Rattle.system_file.specs.SystemFile.{IsSystem};
ghost use Rattle.system_file.specs.declared.system.System.{System};
ghost use Rattle.master_core.specs.declared.event.Event.{Event};
ghost use Rattle.master_core.specs.History.{next_of, placed_of};
ghost use Rattle.master_core.specs.Openings.{openings_of};
ghost use Rattle.bus_trace.specs.Log.{events_rows, log_text};
ghost use Rattle.sporadic_poll.specs.declared.stream.Stream.{Stream};
ghost use Rattle.sporadic_poll.specs.Ride.{IsOfSlot};
ghost use Rattle.sporadic_poll.specs.Rides.{IsRidden};
ghost use Rattle.sporadic_poll.specs.StreamsFile.{AreLegalStreams};
ghost use Rattle.poll_run.specs.Delay.{IsSentInTime, MayRide};
ghost use Rattle.poll_run.specs.PolledRun.{IsPolledBegun, IsPolledRun, IsPolledTrace};

use cycle_engine::laws::{numbers_are_whole, one_can_trace};
use master_core::laws::{legal_histories, opened_cycles};
use planner_policies::laws::keeping;
use replay_run::laws::{legal_runs, rows_of_fronts};
use requirement_table::laws::{instances_of_a_slot, instances_of_an_entry, waiting_slots};
use sporadic_poll::laws::{in_order, in_time, one_ride, releases_of_a_slot, rides_of_openings};

/// Steps have one polled run with these requests: one history, one way in which the instances of each slot carry the
/// requests, and one trace.
pub fn one_polled_run()
    ensures one_history { (system : System) (steps : List Step) (streams : List Stream) (one other : List Event)
        (carried again : ℕ → ℕ → Option ℕ) (trace second : List TimedFrame)
        → IsPolledRun system steps streams one carried trace → IsPolledRun system steps streams other again second
        → one ≡ other }
    ensures one_ride { (system : System) (steps : List Step) (streams : List Stream) (one other : List Event)
        (carried again : ℕ → ℕ → Option ℕ) (trace second : List TimedFrame)
        → IsPolledRun system steps streams one carried trace → IsPolledRun system steps streams other again second
        → (slot cycle : ℕ) → slot < most_slots → carried slot cycle ≡ again slot cycle }
    ensures one_trace { (system : System) (steps : List Step) (streams : List Stream) (one other : List Event)
        (carried again : ℕ → ℕ → Option ℕ) (trace second : List TimedFrame)
        → IsSystem system → AreLegalStreams system.rules.slots streams
        → IsPolledRun system steps streams one carried trace → IsPolledRun system steps streams other again second
        → trace ≡ second }
{
    replay_run::laws::one_run();
    one_can_trace();
    one_ride();
}

/// A polled run of the first calls of some steps begins the polled run of all of them. Its events are the first ones of
/// the whole history. In the cycles that it opens the instances of each slot carry the same requests. Its frames are the
/// first ones of the whole trace, whose other frames start after those cycles.
pub fn beginnings()
    ensures history { (system : System) (steps : List Step) (streams : List Stream) (history whole : List Event)
        (carried again : ℕ → ℕ → Option ℕ) (trace frames : List TimedFrame)
        → IsPolledBegun system steps streams history carried trace → IsPolledRun system steps streams whole again frames
        → (rest : List Event) × (whole ≡ history ++ rest) }
    ensures rides { (system : System) (steps : List Step) (streams : List Stream) (history whole : List Event)
        (carried again : ℕ → ℕ → Option ℕ) (trace frames : List TimedFrame)
        → IsPolledBegun system steps streams history carried trace → IsPolledRun system steps streams whole again frames
        → (slot cycle : ℕ) → slot < most_slots → cycle < next_of history → carried slot cycle ≡ again slot cycle }
    ensures trace { (system : System) (steps : List Step) (streams : List Stream) (history whole : List Event)
        (carried again : ℕ → ℕ → Option ℕ) (trace frames : List TimedFrame) → IsSystem system
        → IsPolledBegun system steps streams history carried trace → IsPolledRun system steps streams whole again frames
        → (rest : List TimedFrame) × (frames ≡ trace ++ rest)
        × All (λ sent. next_of history * system.layout.cycle ≤ sent.start) rest }
{
    replay_run::laws::beginnings();
    legal_runs();
    numbers_are_whole();
    opened_cycles();
    instances_of_a_slot();
    rides_of_openings();
}

/// The rows of a polled run of the first calls of some steps begin the log of the polled run of all of them.
pub fn rows_so_far()
    ensures front { (system : System) (steps : List Step) (streams : List Stream) (history whole : List Event)
        (carried again : ℕ → ℕ → Option ℕ) (trace frames : List TimedFrame) → IsSystem system
        → IsPolledBegun system steps streams history carried trace → IsPolledRun system steps streams whole again frames
        → (rest : List ℕ) × (log_text whole frames ≡ events_rows trace [] history ++ rest) }
{
    replay_run::laws::beginnings();
    legal_runs();
    rows_of_fronts();
    numbers_are_whole();
    opened_cycles();
    instances_of_a_slot();
    rides_of_openings();
}

/// *Polling*: a request that arrives in a cycle a is sent in one of the cycles from a + 1 to a + period + deadline - 1,
/// by the instance that took it. Period and deadline are those of one placed entry of its slot. The premises: the
/// requests of the slot up to it arrive at least the period apart, counted in cycles. They have fewer bytes than the
/// entry's length. An instance of the entry is released in each span of a period among the cycles from the first of
/// these arrivals to a + period. And the cycles up to a + period + deadline - 1 were run.
pub fn polling()
    ensures bound { (system : System) (streams : List Stream) (history : List Event) (carried : ℕ → ℕ → Option ℕ)
        (trace : List TimedFrame) (p : Placed) (place : ℕ) (request : Stream)
        → IsSystem system → IsPolledTrace system streams history carried trace → Contains (placed_of history) p
        → MayRide system.layout streams (next_of history) p place request
        → IsSentInTime system.layout streams (placed_of history) (openings_of history) carried trace p place request }
{
    legal_histories();
    opened_cycles();
    instances_of_an_entry();
    releases_of_a_slot();
    one_ride();
    rides_of_openings();
    in_time();
    in_order();
}

/// A request is sent at most once: by one instance, in one cycle. The requests of one slot are sent in the order of the
/// file, each in a later cycle than those above it.
pub fn sent_once()
    ensures once { (system : System) (streams : List Stream) (history : List Event) (carried : ℕ → ℕ → Option ℕ)
        (trace : List TimedFrame) (place release other cycle again : ℕ)
        → IsSystem system → AreLegalStreams system.rules.slots streams
        → IsPolledTrace system streams history carried trace
        → IsRidden streams (openings_of history) carried place release cycle
        → IsRidden streams (openings_of history) carried place other again
        → (release ≡ other) × (cycle ≡ again) }
    ensures order { (system : System) (streams : List Stream) (history : List Event) (carried : ℕ → ℕ → Option ℕ)
        (trace : List TimedFrame) (slot before behind release later cycle again : ℕ)
        → IsSystem system → AreLegalStreams system.rules.slots streams
        → IsPolledTrace system streams history carried trace
        → IsOfSlot streams slot before → IsOfSlot streams slot behind → before < behind
        → IsRidden streams (openings_of history) carried before release cycle
        → IsRidden streams (openings_of history) carried behind later again
        → cycle < again }
{
    legal_histories();
    opened_cycles();
    keeping();
    waiting_slots();
    in_order();
}
