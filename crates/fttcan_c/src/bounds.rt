//! How long asynchronous frames wait at most.

ghost use Rattle.std.specs.Prelude.{◌≡◌, ◌≢◌, ℕ, ◌≤◌, Some, length, slice_get};
ghost use Rattle.async_bound.specs.declared.stream.BurstStream.{BurstStream as StreamOf};
ghost use Rattle.async_bound.specs.Bound.{Fits, IsLeastFitting};
ghost use Rattle.fttcan_c.specs.Bounds.{IsBoundAsked};
ghost use Rattle.c_values.specs.Plain.{layout_of};

use async_bound::{BurstStream, are_streams, start_bound};
use c_values::{ExportRefusal, FttLayout, OK, layout_in};

/// The most streams of a call.
const MOST_STREAMS: usize = 2_048;

/// Within how many bit times of its arrival each request of the stream at the place `which` starts at the latest, where
/// all requests belong to the streams: the least number that fits. It answers `No` where none up to the stream's least
/// distance does.
#[unsafe(no_mangle)]
pub extern "C" fn fttcan_async_bound(
    layout: &FttLayout,
    streams: &[BurstStream],
    which: usize,
    start: &mut u64,
) -> u32
    ensures found { result ≡ 0 → IsBoundAsked layout.now streams.now which
        × ((stream : StreamOf) → slice_get streams.now which ≡ Some stream
        → IsLeastFitting (layout_of layout.now) streams.now stream start.new) }
    ensures none { result ≡ 10 → IsBoundAsked layout.now streams.now which × (start.new ≡ start.old)
        × ((stream : StreamOf) (span : ℕ) → slice_get streams.now which ≡ Some stream → span ≤ stream.gap
        → Fits (layout_of layout.now) streams.now stream span → ⊥) }
    ensures refused { result ≢ 0 → result ≢ 10 → (result ≡ 2) × (start.new ≡ start.old)
        × (IsBoundAsked layout.now streams.now which → ⊥) }
{
    if streams.len() > MOST_STREAMS || which >= streams.len() || !are_streams(streams) {
        return ExportRefusal::Argument.status();
    }
    let made = match layout_in(layout) {
        Ok(made) => made,
        Err(refusal) => return refusal.status(),
    };
    match start_bound(&made, streams, &streams[which]) {
        Some(found) => {
            *start = found;
            OK
        }
        None => ExportRefusal::No.status(),
    }
}
