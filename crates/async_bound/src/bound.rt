//! The bound of a stream.

ghost use Rattle.std.specs.Prelude.{◌≡◌, ℕ, ◌+◌, ◌-◌, ◌*◌, ◌/◌, ◌%◌, ◌^◌, ◌<◌, ◌≤◌, nat_le, nat_lt, max, if◌then◌else◌};
ghost use Rattle.std.specs.Prelude.{length, IfNone, IfSome};
ghost use Rattle.stuff_bound.specs.Stuffing.{worst};
ghost use Rattle.cycle_layout.specs.Layout.{IsLayout};
ghost use Rattle.async_bound.specs.Streams.{AreStreams, IsStream, arrivals};
ghost use Rattle.async_bound.specs.Room.{room_of_cycle};
ghost use Rattle.async_bound.specs.Bound.{Fits, IsLeastFitting, blocking, demand, longest_up_to, own_before};

use crate::stream::BurstStream;
use cycle_layout::Layout;
use profile::GREATEST_IDENTIFIER;
use stuff_bound::bound;

/// The longer one of a length and of the longest frame of a stream, where that is a stream up to an identifier.
fn longer(longest: u64, stream: &BurstStream, id: u16) -> u64
    requires known { IsStream stream.now }
    requires so_far { longest ≤ 135 }
    ensures value { result ≡ (if nat_le stream.now.id id then max longest (worst stream.now.bytes) else longest) }
    ensures short { result ≤ 135 }
{
    let length = u64::from(bound(stream.bytes));
    if stream.id <= id {
        if length > longest { length } else { longest }
    } else {
        longest
    }
}

/// The longest frame of the streams up to an identifier; 0 where there is none.
fn longest_up_to(streams: &[BurstStream], id: u16) -> u64
    requires known { AreStreams streams.now }
    ensures value { result ≡ longest_up_to streams.now id }
    ensures short { result ≤ 135 }
{
    let mut longest = 0;
    for stream in streams {
        longest = longer(longest, stream, id);
    }
    longest
}

/// What a frame under way of any stream still needs at most.
fn blocking(streams: &[BurstStream]) -> u64
    requires known { AreStreams streams.now }
    ensures value { result ≡ blocking streams.now }
    ensures short { result ≤ 134 }
{
    let longest = longest_up_to(streams, GREATEST_IDENTIFIER);
    if longest > 0 { longest - 1 } else { 0 }
}

/// How many bit times the requests of a stream may need that arrive within so many, where its identifier is below one.
fn need_of(stream: &BurstStream, id: u16, span: u64) -> u64
    requires known { IsStream stream.now }
    requires span { span ≤ 2 ^ 32 }
    ensures value { result ≡ (if nat_lt stream.now.id id then arrivals stream.now span * worst stream.now.bytes else 0) }
    ensures few { result ≤ 2 ^ 51 }
{
    if stream.id < id {
        let most = (span + stream.gap - 1) / stream.gap * u64::from(stream.burst);
        most * u64::from(bound(stream.bytes))
    } else {
        0
    }
}

/// How many bit times the requests of lower identifiers may need that arrive within so many.
fn demand(streams: &[BurstStream], id: u16, span: u64) -> u64
    requires known { AreStreams streams.now }
    requires few { length streams.now ≤ 2 ^ 11 }
    requires span { span ≤ 2 ^ 32 }
    ensures value { result ≡ demand streams.now id span }
    ensures few { result ≤ 2 ^ 62 }
{
    let mut sum = 0;
    for stream in streams {
        sum += need_of(stream, id, span);
    }
    sum
}

/// What the requests of a burst before one of it may need.
fn own_before(stream: &BurstStream, longest: u64) -> u64
    requires known { IsStream stream.now }
    requires short { longest ≤ 135 }
    ensures value { result ≡ own_before stream.now longest }
    ensures few { result ≤ 2 ^ 20 }
{
    (u64::from(stream.burst) - 1) * longest
}

/// How many bit times in each cycle a frame of at most `longest` bit times may start at, at least.
fn room_of_cycle(layout: &Layout, longest: u64) -> u64
    requires short { longest ≤ 135 }
    ensures value { result ≡ room_of_cycle layout.now longest }
    ensures known { IsLayout layout.now }
    ensures less { result ≤ layout.now.cycle }
{
    let taken = u64::from(layout.trigger_part() + layout.turnaround() + layout.window()) + longest;
    let cycle = u64::from(layout.cycle()) + 1;
    if taken < cycle { cycle - taken } else { 0 }
}

/// The least number of bit times in a row that have so many among them, where each cycle has `room` of them.
fn least_row(cycle: u64, room: u64, need: u64) -> u64
    requires cycle { cycle < 2 ^ 17 }
    requires room { 0 < room }
    requires less { room ≤ cycle }
    requires some { 0 < need }
    requires need { need ≤ 2 ^ 40 }
    ensures value { result ≡ (need - 1) / room * cycle + (cycle - room) + (need - 1) % room + 1 }
    ensures few { result ≤ 2 ^ 58 }
{
    (need - 1) / room * cycle + (cycle - room) + (need - 1) % room + 1
}

/// Within how many bit times of its arrival each request of the stream starts at the latest: the least number that fits,
/// where one up to the stream's least distance does.
pub fn start_bound(layout: &Layout, streams: &[BurstStream], stream: &BurstStream) -> Option<u64>
    requires known { AreStreams streams.now }
    requires few { length streams.now ≤ 2 ^ 11 }
    requires own { IsStream stream.now }
    ensures some { IfSome result (IsLeastFitting layout.now streams.now stream.now) }
    ensures none { IfNone result ((span : ℕ) → span ≤ stream.now.gap → Fits layout.now streams.now stream.now span → ⊥) }
{
    let longest = longest_up_to(streams, stream.id);
    let blocking = blocking(streams);
    let own = own_before(stream, longest);
    let room = room_of_cycle(layout, longest);
    if room == 0 {
        return None;
    }
    let mut span = 0;
    while span <= stream.gap {
        let need = demand(streams, stream.id, span) + own + 1;
        if need > stream.gap {
            return None;
        }
        let next = blocking + least_row(u64::from(layout.cycle()), room, need);
        if next <= span {
            return Some(span);
        }
        span = next;
    }
    None
}
