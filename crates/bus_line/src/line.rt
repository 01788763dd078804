//! The run of a bus over its stations, from one event to the next.

ghost use Rattle.std.specs.Prelude.{◌≡◌, ◌+◌, ◌-◌, ◌/◌, ◌<◌, ◌≤◌, [], IfSome, MatchOption, vec_len, vec_capacity};
ghost use Rattle.profile.specs.Limits.{shortest_frame, times_end};
ghost use Rattle.bus_line.specs.Trace.{IsNext, NothingOffered};
ghost use Rattle.bus_line.specs.Stations.{Ran, offers_of};

use crate::stations::Stations;
use arbitration::{Contenders, arbitrate};
use can_frame::{TimedFrame, wire_len};

/// Runs the bus over the stations from `from` on, and puts the frames that start before `until`
/// behind `out`, in order. Each is the offered frame with the least identifier at the first free
/// time with an offer, and each is told to the stations once. The answer is the first time, at
/// least `from`, at which the bus is free behind them; it may be after `until`.
///
/// `out` needs spare room for one frame more than `(until - from) / 47`, since no frame is shorter
/// than 47 bit times; the run takes no memory. Times are below 2^60.
pub fn run_until<S: Stations>(
    stations: &mut S,
    from: u64,
    until: u64,
    out: &mut Vec<TimedFrame>,
) -> u64
    requires order { from ≤ until }
    requires time { until < times_end }
    requires room { vec_len out.old + ((until - from) / shortest_frame + 1) ≤ vec_capacity out.old }
    ensures ran { Ran S.line (S.state stations.old) (S.state stations.new) from until
        out.old.items out.new.items result }
    ensures capacity { vec_capacity out.old ≤ vec_capacity out.new }
    ensures fixed { S.fixed stations.new ≡ S.fixed stations.old }
{
    let mut free = from;
    let mut contenders = Contenders::new();
    while let Some(next) = next_frame(stations, &mut contenders, free, until) {
        stations.sent(&next);
        free = next.start + u64::from(next.len);
        out.push_reserved(next);
    }
    free
}

/// The frame that is sent next on a bus that is free from `free` on, if one starts before `until`. The list of contenders
/// is lent: what it holds does not matter.
fn next_frame<S: Stations>(
    stations: &S,
    contenders: &mut Contenders,
    free: u64,
    until: u64,
) -> Option<TimedFrame>
    requires time { until < times_end }
    ensures long { IfSome result (λ next. shortest_frame ≤ next.len) }
    ensures next { MatchOption result
        (NothingOffered (offers_of S.line (S.state stations.now)) [] free until)
        (IsNext (offers_of S.line (S.state stations.now)) [] free until) }
{
    let mut at = free;
    while at < until {
        stations.offers(at, contenders);
        if let Some(place) = arbitrate(contenders.ids()) {
            let frame = stations.frame(at, contenders.ids()[place]);
            return Some(TimedFrame {
                start: at,
                len: wire_len(&frame),
                frame,
            });
        }
        at = stations.wake(at)?;
    }
    None
}
