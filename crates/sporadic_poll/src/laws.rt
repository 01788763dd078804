//! Laws about *Ride* and *Polling*. Each function has an empty body, and its contract is the law.

ghost use Rattle.std.specs.Prelude.{◌≡◌, ℕ, ◌*◌, ◌<◌, All, List, Option, Some, Contains};
ghost use Rattle.std.specs.List.{slice_get};
ghost use Rattle.requirement_table.specs.declared.entries.Placed.{Placed};
ghost use Rattle.requirement_table.specs.Instance.{IsReleasedIn, bytes_of};
ghost use Rattle.requirement_table.specs.Table.{IsWellPlaced};
ghost use Rattle.can_frame.specs.declared.data_frame.TimedFrame.{TimedFrame};
ghost use Rattle.cycle_layout.specs.Layout.{CycleLayout, IsLayout};
ghost use Rattle.requirement_table.specs.Opening.{Opening};
ghost use Rattle.bit_sets.specs.Sets.{most_slots};
ghost use Rattle.cycle_engine.specs.Cycle.{RunsCycle, RunsCycles};
ghost use Rattle.cycle_engine.specs.Offered.{AreOfDistinctCycles};
ghost use Rattle.sporadic_poll.specs.declared.stream.Stream.{Stream};
ghost use Rattle.sporadic_poll.specs.Polled.{AreRides, lengths_of, polled_bytes};
ghost use Rattle.sporadic_poll.specs.Rides.{AreRidesAt, IsPlainCycle, IsRidden};
ghost use Rattle.sporadic_poll.specs.RideFrames.{HasRideFrame, KeepLengths};
ghost use Rattle.sporadic_poll.specs.Ride.{CanCarry, IsOfSlot, IsRide, IsTakenBefore, Releases, length_released};
ghost use Rattle.sporadic_poll.specs.Waiting.{ride_of};
ghost use Rattle.sporadic_poll.specs.Polling.{IsCarriedInTime, IsPolled};

use bus_line::laws::same_along;
use cycle_engine::laws::{OneCycle, next_cycle, numbers_are_whole};

/// A slot's releases are those of its entries in the list, where that is well placed.
pub fn releases_of_a_slot()
    ensures complete { (placed : List Placed) (p : Placed) (k cycle : ℕ) → IsWellPlaced placed → Contains placed p
        → IsReleasedIn p k cycle → length_released placed p.entry.slot cycle ≡ Some p.entry.length }
    ensures sound { (placed : List Placed) (slot cycle entry_length : ℕ) → IsWellPlaced placed
        → length_released placed slot cycle ≡ Some entry_length → Releases placed slot cycle entry_length }
{}

/// For a slot there is exactly one way in which its instances carry requests.
pub fn one_ride()
    ensures is { (layout_cycle : ℕ) (streams : List Stream) (slot : ℕ) (lengths : ℕ → Option ℕ)
        → IsRide layout_cycle streams slot lengths (ride_of layout_cycle streams slot lengths) }
    ensures one { (layout_cycle : ℕ) (streams : List Stream) (slot : ℕ) (lengths : ℕ → Option ℕ)
        (carried other : ℕ → Option ℕ) → IsRide layout_cycle streams slot lengths carried
        → IsRide layout_cycle streams slot lengths other → (cycle : ℕ) → carried cycle ≡ other cycle }
{}

/// *Ride* over the openings of a run is *Ride* in each of its cycles, where no two openings are of one cycle.
pub fn rides_of_openings()
    ensures at { (layout_cycle : ℕ) (streams : List Stream) (openings : List Opening) (opening : Opening)
        (carried : ℕ → ℕ → Option ℕ) → AreOfDistinctCycles openings → Contains openings opening
        → AreRides layout_cycle streams openings carried
        → AreRidesAt layout_cycle streams opening (lengths_of openings) carried }
{}

/// A cycle that was run on the bus without requests runs what its opening says.
pub fn plain_cycle()
    ensures runs { (layout : CycleLayout) (opening : Opening) (frames : List TimedFrame) → IsLayout layout
        → IsPlainCycle layout opening frames → RunsCycle bytes_of layout opening frames }
{
    next_cycle();
    numbers_are_whole();
    same_along::<OneCycle, OneCycle>();
}

/// A request is carried by at most one instance. That instance is one of the request's slot, released after the
/// request's arrival, with room for its bytes. The requests of a slot are carried in the order of the file, and none
/// overtakes another.
pub fn in_order()
    ensures once { (layout_cycle : ℕ) (streams : List Stream) (slot : ℕ) (lengths carried : ℕ → Option ℕ)
        → IsRide layout_cycle streams slot lengths carried → (one other place : ℕ)
        → carried one ≡ Some place → carried other ≡ Some place → one ≡ other }
    ensures can { (layout_cycle : ℕ) (streams : List Stream) (slot : ℕ) (lengths carried : ℕ → Option ℕ)
        → IsRide layout_cycle streams slot lengths carried → (cycle entry_length place : ℕ) (stream : Stream)
        → lengths cycle ≡ Some entry_length → carried cycle ≡ Some place → slice_get streams place ≡ Some stream
        → (stream.slot ≡ slot) × CanCarry (cycle * layout_cycle) entry_length stream }
    ensures order { (layout_cycle : ℕ) (streams : List Stream) (slot : ℕ) (lengths carried : ℕ → Option ℕ)
        → IsRide layout_cycle streams slot lengths carried → (one other before behind : ℕ)
        → carried one ≡ Some before → carried other ≡ Some behind → before < behind → one < other }
    ensures none_left { (layout_cycle : ℕ) (streams : List Stream) (slot : ℕ) (lengths carried : ℕ → Option ℕ)
        → IsRide layout_cycle streams slot lengths carried → (cycle before behind : ℕ)
        → carried cycle ≡ Some behind → before < behind → IsOfSlot streams slot before
        → IsTakenBefore carried cycle before }
{}

/// A request that was sent has its frame in the trace. In the cycle in which it was sent, that is the only frame of its
/// slot. It lies in the cycle's synchronous window, and carries the request's bytes. This holds in opened cycles that
/// were run, if each instance that may be sent was released in one of them with the length that its entry has.
pub fn ride_frames()
    ensures frame { (layout : CycleLayout) (streams : List Stream) (openings : List Opening)
        (carried : ℕ → ℕ → Option ℕ) (trace : List TimedFrame) (place release cycle : ℕ)
        → All (λ stream. stream.slot < most_slots) streams → AreRides layout.cycle streams openings carried
        → KeepLengths openings → RunsCycles (polled_bytes streams carried) layout openings trace
        → IsRidden streams openings carried place release cycle
        → HasRideFrame layout streams openings trace place release cycle }
{}

/// *Polling*: a request whose slot's requests come no oftener than an entry of the slot releases instances is carried
/// by an instance that is released in one of the cycles after that of its arrival, as many as the period.
pub fn in_time()
    ensures bound { (layout_cycle : ℕ) (streams : List Stream) (slot : ℕ) (lengths carried : ℕ → Option ℕ)
        (period entry_length place : ℕ) (request : Stream)
        → IsRide layout_cycle streams slot lengths carried
        → IsPolled layout_cycle streams slot lengths period entry_length place request
        → IsCarriedInTime layout_cycle carried period place request }
{}
