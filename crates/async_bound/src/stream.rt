//! Streams of requests.

ghost use Rattle.std.specs.Prelude.{◌≡◌, true, false};
ghost use Rattle.async_bound.specs.Streams.{AreStreams, IsStream};

use profile::{GREATEST_IDENTIFIER, LEAST_ASYNCHRONOUS};

/// The most bit times that a least distance may have is one below this.
const GAPS_END: u64 = 1 << 32;

/// The most requests that may arrive within the least distance.
const MOST_OF_BURST: u32 = 1024;

/// The requests of one identifier: how many data bytes their frames have at most, and how many of them may arrive
/// within how many bit times.
#[repr(C)]
#[derive(Clone, Copy, PartialEq, Eq, Debug)]
pub struct BurstStream {
    /// The least distance, in bit times, 1 to 2^32 - 1: between the arrivals of a request and of the one that stands
    /// `burst` places behind it.
    pub gap: u64,
    /// How many requests may arrive within less than the least distance, 1 to 1,024. With 1 each two of them are apart.
    pub burst: u32,
    /// The identifier, 0x200 to 0x7EF.
    pub id: u16,
    /// The greatest number of data bytes, 0 to 8.
    pub bytes: u8,
}

/// Whether a stream's numbers are in their ranges.
fn is_stream(stream: &BurstStream) -> bool
    ensures known { result ≡ true → IsStream stream.now }
    ensures unknown { result ≡ false → IsStream stream.now → ⊥ }
{
    stream.id >= LEAST_ASYNCHRONOUS
        && stream.id <= GREATEST_IDENTIFIER
        && stream.bytes <= 8
        && stream.gap > 0
        && stream.gap < GAPS_END
        && stream.burst > 0
        && stream.burst <= MOST_OF_BURST
}

/// Whether the numbers of all streams are in their ranges.
pub fn are_streams(streams: &[BurstStream]) -> bool
    ensures known { result ≡ true → AreStreams streams.now }
    ensures unknown { result ≡ false → AreStreams streams.now → ⊥ }
{
    for stream in streams {
        if !is_stream(stream) {
            return false;
        }
    }
    true
}
