//! Disturbances as streams.

ghost use Rattle.std.specs.Prelude.{◌≡◌, ◌+◌, ◌*◌, ◌<◌, ◌≤◌, ◌^◌};
ghost use Rattle.async_bound.specs.Streams.{AreStreams, IsStream};
ghost use Rattle.disturbed_bounds.specs.Bounds.{fault_stream, fault_streams};

use async_bound::BurstStream;
use profile::LEAST_ASYNCHRONOUS;

/// The greatest distance of a stream, in bit times.
const LONGEST_GAP: u64 = (1 << 32) - 1;

/// One of the two streams: so many disturbances within less than this distance.
fn fault_stream(errors: u16, gap: u64) -> BurstStream
    requires some { 0 < errors }
    requires few { errors ≤ 341 }
    requires gap { 0 < gap }
    requires near { gap < 2 ^ 32 }
    ensures value { result ≡ fault_stream errors gap }
    ensures known { IsStream result }
{
    BurstStream {
        gap,
        burst: 3 * u32::from(errors),
        id: LEAST_ASYNCHRONOUS,
        bytes: 0,
    }
}

/// At most `errors` disturbances, 1 to 341, within any `gap` bit times, 1 to 2^32 - 1, as two streams. With these behind the
/// streams of a bus, and a window that is longer by the reserve and by the further guard of its nodes, `start_bound` of
/// `async_bound` gives the bound of each stream whose identifier is above 0x200. Only the order of identifiers counts, so
/// where 0x200 is taken, all of them may be given as one more.
pub fn fault_streams(errors: u16, gap: u64) -> [BurstStream; 2]
    requires some { 0 < errors }
    requires few { errors ≤ 341 }
    requires gap { 0 < gap }
    requires near { gap < 2 ^ 32 }
    ensures value { result ≡ fault_streams errors gap }
    ensures known { AreStreams result }
{
    [fault_stream(errors, gap), fault_stream(errors, LONGEST_GAP)]
}
