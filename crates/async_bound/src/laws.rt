//! Laws about room and bounds. Each function has an empty body, and its contract is the law.

ghost use Rattle.std.specs.Prelude.{◌≡◌, ℕ, ◌+◌, ◌≤◌, List, Contains};
ghost use Rattle.cycle_layout.specs.Layout.{CycleLayout, IsLayout};
ghost use Rattle.async_bound.specs.declared.stream.BurstStream.{BurstStream};
ghost use Rattle.async_bound.specs.Streams.{AreStreams};
ghost use Rattle.async_bound.specs.Room.{count_below, is_usable, room_in};
ghost use Rattle.async_bound.specs.Bound.{IsBound, IsLeastFitting, IsLongestUpTo, blocking, longest_up_to};

/// Wherever `span` times in a row begin, at least as many of them are usable as the room says.
pub fn room_is_there()
    ensures room { (layout : CycleLayout) (longest low span : ℕ) → IsLayout layout
        → count_below (is_usable layout longest) low + room_in layout longest span
        ≤ count_below (is_usable layout longest) (low + span) }
{}

/// The longest frame of the streams up to an identifier is as long as one of theirs, and none of theirs is longer. It is
/// 0 where there is none. No other number is all of this.
pub fn longest_is_reached()
    ensures is { (streams : List BurstStream) (id : ℕ) → IsLongestUpTo streams id (longest_up_to streams id) }
    ensures only { (streams : List BurstStream) (id longest : ℕ) → IsLongestUpTo streams id longest
        → longest ≡ longest_up_to streams id }
{}

/// The least number of bit times that fits is a bound, counted by times.
pub fn fitting_is_bound()
    ensures bound { (layout : CycleLayout) (streams : List BurstStream) (stream : BurstStream) (span : ℕ)
        → IsLayout layout → AreStreams streams → Contains streams stream → IsLeastFitting layout streams stream span
        → IsBound layout streams stream (longest_up_to streams stream.id) (blocking streams) span }
{}
